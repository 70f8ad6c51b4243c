//! Why bytes are no fold file.

ghost use Rattle.std.specs.Prelude.{◌≡◌};
ghost use Rattle.eos_fold_file.specs.declared.fault.FoldFault.TheVariants.{OutOfMemory};
ghost use Rattle.eos_fold_file.specs.Faults.{name_of};

use std::alloc::{AllocError, AllocFailed};
use thiserror::Error;

/// The first field of a fold file that can't be read. Its text is its name.
#[derive(Clone, Copy, Debug, Error)]
#[error("{name}", name = self.name())]
pub enum FoldFault {
    /// The bytes run out.
    Short,
    /// The file doesn't begin as a fold file does.
    Magic,
    /// Another version of the format.
    Version,
    /// What was wanted of the records is none of the three roles.
    Roles,
    /// A number is spelled longer than it need be, or doesn't fit its field.
    Number,
    /// No batch has this head, or the batches pass the greatest i64 by their offsets or their segment by their sizes.
    Head,
    /// No batches have these leader epochs.
    Epoch,
    /// What is kept of a record is of no known kind, or a text shares another number of bytes with the one before than it can.
    Record,
    /// The front ends for no known reason, or elsewhere than behind its batches.
    Stop,
    /// The checksum differs.
    Crc,
    /// Bytes are left.
    Trailing,
    /// A growth of memory was refused.
    OutOfMemory,
}

impl FoldFault {
    /// The fault's name.
    pub fn name(self) -> &'static str
        ensures { result.now ≡ name_of self }
    {
        match self {
            FoldFault::Short => "Short",
            FoldFault::Magic => "Magic",
            FoldFault::Version => "Version",
            FoldFault::Roles => "Roles",
            FoldFault::Number => "Number",
            FoldFault::Head => "Head",
            FoldFault::Epoch => "Epoch",
            FoldFault::Record => "Record",
            FoldFault::Stop => "Stop",
            FoldFault::Crc => "Crc",
            FoldFault::Trailing => "Trailing",
            FoldFault::OutOfMemory => "OutOfMemory",
        }
    }
}

impl From<AllocError> for FoldFault {
    ghost from_gives = { λ _ e. e ≡ OutOfMemory };

    fn from(_e: AllocError) -> FoldFault {
        FoldFault::OutOfMemory
    }
}
