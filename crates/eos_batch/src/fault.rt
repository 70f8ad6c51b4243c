//! Why bytes are no record batch, or a batch has no bytes.

ghost use Rattle.std.specs.Prelude.{◌≡◌, Some};
ghost use Rattle.eos_batch.specs.declared.fault.BatchFault.TheVariants.{OutOfMemory};
ghost use Rattle.eos_batch.specs.Names.{name_of};

use std::alloc::{AllocError, AllocFailed};
use std::fmt::{Display, Formatter, Write};
use thiserror::Error;

/// The first step of reading or writing a record batch that fails. The names stand in the order of reading's steps, save that
/// `Truncated` is also asked for after `Length`. The text of a fault is its name.
#[derive(Clone, Copy, Debug, PartialEq, Eq, Error)]
pub enum BatchFault {
    /// The bytes end before the batch does.
    Truncated,
    /// The batch's length is below that of an empty batch, or past the limit of a segment.
    Length,
    /// Another format than magic 2.
    Magic,
    /// The checksum differs.
    Crc,
    /// The records are compressed.
    Compressed,
    /// The number of records, the last offset delta and the base offset don't fit each other.
    Count,
    /// A variable-length number has no end or too many groups.
    Varint,
    /// A length within a record is wrong, or bytes of a record are left.
    Record,
    /// A record's offset delta is not its place.
    Delta,
    /// Bytes are left after the last record.
    Trailing,
    /// A control batch is not one control record that reads.
    Control,
    /// The producer id or epoch is below 0 where it may not be.
    Producer,
    /// A growth of memory was refused.
    OutOfMemory,
}

impl BatchFault {
    /// The fault's name, as `dump` prints it.
    pub fn name(self) -> &'static str
        ensures { result.now ≡ name_of self }
    {
        match self {
            BatchFault::Truncated => "Truncated",
            BatchFault::Length => "Length",
            BatchFault::Magic => "Magic",
            BatchFault::Crc => "Crc",
            BatchFault::Compressed => "Compressed",
            BatchFault::Count => "Count",
            BatchFault::Varint => "Varint",
            BatchFault::Record => "Record",
            BatchFault::Delta => "Delta",
            BatchFault::Trailing => "Trailing",
            BatchFault::Control => "Control",
            BatchFault::Producer => "Producer",
            BatchFault::OutOfMemory => "OutOfMemory",
        }
    }
}

impl Display for BatchFault {
    ghost output = { λ fault. Some (name_of fault) };

    fn fmt<W: Write>(&self, f: &mut Formatter<W>) -> std::fmt::Result {
        f.write_str(self.name())
    }
}

impl From<AllocError> for BatchFault {
    ghost from_gives = { λ _ e. e ≡ OutOfMemory };

    fn from(_e: AllocError) -> BatchFault {
        BatchFault::OutOfMemory
    }
}

impl<T: Drop> From<AllocFailed<T>> for BatchFault {
    ghost from_gives = { λ _ e. e ≡ OutOfMemory };

    fn from(_e: AllocFailed<T>) -> BatchFault {
        BatchFault::OutOfMemory
    }
}
