//! Why bytes are no key or value of an internal log, or a key or value has no bytes.

ghost use Rattle.std.specs.Prelude.{◌≡◌};
ghost use Rattle.eos_base.specs.declared.record_fault.RecordFault.TheVariants.{OutOfMemory};
ghost use Rattle.eos_base.specs.FaultNames.{record_fault_name, record_number};

use std::alloc::{AllocError, AllocFailed};
use thiserror::Error;

/// The first field of a key or value that can't be read or written. Its text is its name. They are ordered as they stand
/// here.
#[derive(Clone, Copy, Debug, PartialEq, Eq, PartialOrd, Ord, Error)]
#[error("{name}", name = self.name())]
pub enum RecordFault {
    /// The bytes run out.
    Short,
    /// A version of the value that the log doesn't have.
    Version,
    /// A status that isn't 0 to 7. Only the transaction log has one.
    Status,
    /// A length or count that may not stand there, or is spelled too long; in writing, a text or list that doesn't fit
    /// its length field.
    Length,
    /// Bytes are left.
    Trailing,
    /// A growth of memory was refused.
    OutOfMemory,
}

impl RecordFault {
    /// The fault's number, from 1 to 6, by which faults of one place and kind are ordered.
    pub fn number(self) -> u8
        ensures { result ≡ record_number self }
    {
        match self {
            RecordFault::Short => 1,
            RecordFault::Version => 2,
            RecordFault::Status => 3,
            RecordFault::Length => 4,
            RecordFault::Trailing => 5,
            RecordFault::OutOfMemory => 6,
        }
    }

    /// The fault's name, as a verdict prints it.
    pub fn name(self) -> &'static str
        ensures { result.now ≡ record_fault_name self }
    {
        match self {
            RecordFault::Short => "Short",
            RecordFault::Version => "Version",
            RecordFault::Status => "Status",
            RecordFault::Length => "Length",
            RecordFault::Trailing => "Trailing",
            RecordFault::OutOfMemory => "OutOfMemory",
        }
    }
}

impl From<AllocError> for RecordFault {
    ghost from_gives = { λ _ e. e ≡ OutOfMemory };

    fn from(_e: AllocError) -> RecordFault {
        RecordFault::OutOfMemory
    }
}

impl<T: Drop> From<AllocFailed<T>> for RecordFault {
    ghost from_gives = { λ _ e. e ≡ OutOfMemory };

    fn from(_e: AllocFailed<T>) -> RecordFault {
        RecordFault::OutOfMemory
    }
}
