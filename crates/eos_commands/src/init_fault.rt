//! Why no manifest is made.

ghost use Rattle.std.specs.Prelude.{◌≡◌, string_bytes};
ghost use Rattle.eos_disk.specs.Entries.{Entry, MayLackFile};
ghost use Rattle.eos_disk.specs.Refusals.{MayRefuse, RefusesFile};
ghost use Rattle.eos_disk.specs.declared.fault.DiskFault.TheVariants.{NotThere};
ghost use Rattle.eos_commands.specs.declared.init_fault.InitFault.TheVariants.{Unread, OutOfMemory};

use eos_base::PartitionName;
use eos_disk::{DiskFault, FolderFault, NamedFile};
use eos_evidence::SpecFault;
use std::alloc::{AllocError, AllocFailed};
use std::io::Read;

/// Why no manifest is made: the first of what stands against it. Nothing was written then.
#[derive(Drop)]
pub enum InitFault {
    /// The manifest is there already.
    ThereAlready(String),
    /// The word of this place, counted from 0, is no GROUP:SOURCE,..:OUTPUT,...
    App(usize),
    /// A file or folder isn't read, or is a fold.
    Unread(FolderFault),
    /// This file can't be written.
    CannotWrite(String),
    /// The line of this number, counted from 1, is no TOPIC:PARTITION:OFFSET.
    Line(u64),
    /// This partition has no end.
    NoEnd(PartitionName),
    /// The applications can't stand together.
    Apps(SpecFault),
    /// The ends are refused: a partition stands twice, or there are too many.
    Ends(SpecFault),
    /// A log ends past the greatest offset.
    Limit,
    /// A growth of memory was refused.
    OutOfMemory,
}

impl From<FolderFault> for InitFault {
    ghost from_gives = { λ fault e. e ≡ Unread fault };

    fn from(fault: FolderFault) -> InitFault {
        InitFault::Unread(fault)
    }
}

impl From<AllocError> for InitFault {
    ghost from_gives = { λ _ e. e ≡ OutOfMemory };

    fn from(_e: AllocError) -> InitFault {
        InitFault::OutOfMemory
    }
}

impl<T: Drop> From<AllocFailed<T>> for InitFault {
    ghost from_gives = { λ _ e. e ≡ OutOfMemory };

    fn from(_e: AllocFailed<T>) -> InitFault {
        InitFault::OutOfMemory
    }
}

/// Why the folder of this path isn't listed, in the words for a file of this kind that isn't opened.
pub(crate) fn unlisted<F: Read + Drop>(path: String, fault: DiskFault) -> FolderFault
    ensures path { RefusesFile (string_bytes path) result }
    ensures so { (e : Entry) → (fault ≡ NotThere → MayLackFile e) → MayRefuse e result }
{
    match NamedFile::<F>::of_opened(path, Err(fault)) {
        Ok(_) => FolderFault::OutOfMemory,
        Err(fault) => fault,
    }
}
