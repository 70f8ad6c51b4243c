//! Why a command ended without an answer.

ghost use Rattle.std.specs.Prelude.{◌≡◌};
ghost use Rattle.eos_segment.specs.declared.fault.RunFault.TheVariants.{Write, OutOfMemory};
ghost use Rattle.eos_segment.specs.Faults.{name_of, run_fault_of};

use eos_evidence::ReadFault;
use eos_text::WriteFault;
use std::alloc::{AllocError, AllocFailed};
use thiserror::Error;

/// Why a command ended without an answer.
#[derive(Clone, Copy, Debug, Error)]
#[error("{name}", name = self.name())]
pub enum RunFault {
    /// The input could not be read.
    Read,
    /// The input is larger than a segment may be.
    Limit,
    /// The output could not be written.
    Write,
    /// A growth of memory was refused.
    OutOfMemory,
}

impl RunFault {
    /// The fault's name.
    pub fn name(self) -> &'static str
        ensures { result.now ≡ name_of self }
    {
        match self {
            RunFault::Read => "Read",
            RunFault::Limit => "Limit",
            RunFault::Write => "Write",
            RunFault::OutOfMemory => "OutOfMemory",
        }
    }
}

impl From<ReadFault> for RunFault {
    ghost from_gives = { λ e fault. fault ≡ run_fault_of e };

    fn from(e: ReadFault) -> RunFault {
        match e {
            ReadFault::Read => RunFault::Read,
            ReadFault::Limit => RunFault::Limit,
            ReadFault::OutOfMemory => RunFault::OutOfMemory,
        }
    }
}

impl From<WriteFault> for RunFault {
    ghost from_gives = { λ _ e. e ≡ Write };

    fn from(_e: WriteFault) -> RunFault {
        RunFault::Write
    }
}

impl From<AllocError> for RunFault {
    ghost from_gives = { λ _ e. e ≡ OutOfMemory };

    fn from(_e: AllocError) -> RunFault {
        RunFault::OutOfMemory
    }
}

impl<T: Drop> From<AllocFailed<T>> for RunFault {
    ghost from_gives = { λ _ e. e ≡ OutOfMemory };

    fn from(_e: AllocFailed<T>) -> RunFault {
        RunFault::OutOfMemory
    }
}
