//! Why segments aren't folded.

ghost use Rattle.std.specs.Prelude.{◌≡◌, string_bytes};
ghost use Rattle.eos_commands.specs.FoldRefusals.{IsUnwritten};
ghost use Rattle.eos_commands.specs.declared.fold_fault.FoldingFault.TheVariants.{Unread, OutOfMemory};

use eos_disk::{ChangeFault, FolderFault};
use std::alloc::{AllocError, AllocFailed};

/// Why not all segments were folded: the first of what stands against it.
#[derive(Drop)]
pub enum FoldingFault<'a> {
    /// The manifest, a folder or a segment isn't read.
    Unread(FolderFault),
    /// The last part of this path isn't TOPIC-N.
    NoName(&'a str),
    /// The partition of the folder at this path has no end in the manifest.
    NoEnd(&'a str),
    /// The folder at this path is of the same partition as one before it.
    SameName(&'a str),
    /// The file or folder of this path can't be written, for such a reason.
    CannotWrite(String, ChangeFault),
    /// A growth of memory was refused.
    OutOfMemory,
}

impl<'a> From<FolderFault> for FoldingFault<'a> {
    ghost from_gives = { λ fault e. e ≡ Unread fault };

    fn from(fault: FolderFault) -> FoldingFault<'a> {
        FoldingFault::Unread(fault)
    }
}

impl<'a> From<AllocError> for FoldingFault<'a> {
    ghost from_gives = { λ _ e. e ≡ OutOfMemory };

    fn from(_e: AllocError) -> FoldingFault<'a> {
        FoldingFault::OutOfMemory
    }
}

impl<'a, T: Drop> From<AllocFailed<T>> for FoldingFault<'a> {
    ghost from_gives = { λ _ e. e ≡ OutOfMemory };

    fn from(_e: AllocFailed<T>) -> FoldingFault<'a> {
        FoldingFault::OutOfMemory
    }
}

/// What can't be written at this path.
pub(crate) fn unwritten<'a>(path: String, fault: ChangeFault) -> FoldingFault<'a>
    ensures { IsUnwritten (string_bytes path) result }
{
    match fault {
        ChangeFault::OutOfMemory => FoldingFault::OutOfMemory,
        fault => FoldingFault::CannotWrite(path, fault),
    }
}
