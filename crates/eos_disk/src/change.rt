//! What is changed on a disk.

ghost use Rattle.std.specs.Prelude.{◌≡◌};
ghost use Rattle.eos_disk.specs.declared.change.ChangeFault.TheVariants.{OutOfMemory};

use crate::disk::Disk;
use std::alloc::{AllocError, AllocFailed, Global};
use std::io::{Error, ErrorKind};

/// Why a disk isn't changed.
#[derive(Clone, Copy)]
pub enum ChangeFault {
    /// Something stands there.
    ThereAlready,
    /// The folder in which it is to stand isn't there.
    NoFolder,
    /// It is to stand in what is no folder.
    NotFolder,
    PermissionDenied,
    /// The system refused it for another reason.
    Refused,
    /// A growth of memory was refused.
    OutOfMemory,
}

impl From<AllocError> for ChangeFault {
    ghost from_gives = { λ _ e. e ≡ OutOfMemory };

    fn from(_e: AllocError) -> ChangeFault {
        ChangeFault::OutOfMemory
    }
}

impl<T: Drop> From<AllocFailed<T>> for ChangeFault {
    ghost from_gives = { λ _ e. e ≡ OutOfMemory };

    fn from(_e: AllocFailed<T>) -> ChangeFault {
        ChangeFault::OutOfMemory
    }
}

impl ChangeFault {
    /// What an error of the system says.
    pub(crate) fn of_error(e: &Error) -> ChangeFault {
        match e.kind() {
            ErrorKind::AlreadyExists => ChangeFault::ThereAlready,
            ErrorKind::NotFound => ChangeFault::NoFolder,
            ErrorKind::NotADirectory => ChangeFault::NotFolder,
            ErrorKind::PermissionDenied => ChangeFault::PermissionDenied,
            ErrorKind::OutOfMemory => ChangeFault::OutOfMemory,
            _ => ChangeFault::Refused,
        }
    }
}

impl From<Error> for ChangeFault {
    fn from(e: Error) -> ChangeFault {
        ChangeFault::of_error(&e)
    }
}

/// What is told of a file whose bytes were sent to where they are kept: nothing, where its system knows no such call.
pub(crate) fn synced(told: Result<(), Error>) -> Result<(), Error> {
    match told {
        Err(e) if e.kind() == ErrorKind::InvalidInput => Ok(()),
        told => told,
    }
}

/// What files are written to. What is known of it stays known, and where a call is refused nothing changed, if it doesn't say
/// otherwise.
pub trait DiskMut: Disk {
    ghost use Rattle.std.specs.Prelude.{◌≡◌, true, false, OnOk, OnErr};
    ghost use Rattle.eos_disk.specs.Entries.{MayBeAbsent, MayStand};
    ghost use Rattle.eos_disk.specs.Changes.{IsMade, AreMade, AreMadeTo, IsPut, IsPutInPart, IsMoved, IsRemoved, SameAll};

    /// A file that this run has made and holds: while it does, no other run takes it for one that a killed run left.
    type Held: Drop;

    /// Whether something stands at a path: a file, a folder, or a link, wherever it leads.
    fn stands(&self, path: &str) -> bool
        ensures free { result ≡ false → MayBeAbsent (Self.holds self.now path.now) }
        ensures there { result ≡ true → MayStand (Self.holds self.now path.now) };

    /// Makes a folder where nothing stands.
    fn make_folder(&mut self, alloc: Global, path: &str) -> Result<(), ChangeFault>
        ensures ok { OnOk result (IsMade (Self.holds self.old) path.now (Self.holds self.new)) }
        ensures err { OnErr result (SameAll (Self.holds self.old) (Self.holds self.new)) };

    /// Makes a folder, and those that lead to it, where they aren't there.
    ///
    /// # Errors
    /// Some of those that lead to it may be there.
    fn make_folders(&mut self, alloc: Global, path: &str) -> Result<(), ChangeFault>
        ensures ok { OnOk result (AreMade (Self.holds self.old) path.now (Self.holds self.new)) }
        ensures err { OnErr result (AreMadeTo (Self.holds self.old) path.now (Self.holds self.new)) };

    /// Makes a file of these bytes where nothing stands, and holds it.
    ///
    /// # Errors
    /// A front of them may stand there, but where something stood nothing changed.
    fn write_new(
        &mut self,
        alloc: Global,
        path: &str,
        bytes: &[u8],
    ) -> Result<Self::Held, ChangeFault>
        ensures ok { OnOk result (IsPut (Self.holds self.old) path.now bytes.now (Self.holds self.new)) }
        ensures err { OnErr result (IsPutInPart (Self.holds self.old) path.now bytes.now (Self.holds self.new)) };

    /// Gives a file another name, at which nothing stands. It may keep its first one, if the system doesn't let that go.
    fn publish(&mut self, alloc: Global, from: &str, to: &str) -> Result<(), ChangeFault>
        ensures ok { OnOk result (IsMoved (Self.holds self.old) from.now to.now (Self.holds self.new)) }
        ensures err { OnErr result (SameAll (Self.holds self.old) (Self.holds self.new)) };

    /// Takes a file away.
    fn remove(&mut self, alloc: Global, path: &str) -> Result<(), ChangeFault>
        ensures ok { OnOk result (IsRemoved (Self.holds self.old) path.now (Self.holds self.new)) }
        ensures err { OnErr result (SameAll (Self.holds self.old) (Self.holds self.new)) };

    /// Takes a file away that a killed run left.
    ///
    /// # Errors
    /// `ThereAlready` where a run holds it.
    fn remove_stale(&mut self, alloc: Global, path: &str) -> Result<(), ChangeFault>
        ensures ok { OnOk result (IsRemoved (Self.holds self.old) path.now (Self.holds self.new)) }
        ensures err { OnErr result (SameAll (Self.holds self.old) (Self.holds self.new)) };

    /// Takes a folder away that holds nothing.
    fn remove_folder(&mut self, alloc: Global, path: &str) -> Result<(), ChangeFault>
        ensures ok { OnOk result (IsRemoved (Self.holds self.old) path.now (Self.holds self.new)) }
        ensures err { OnErr result (SameAll (Self.holds self.old) (Self.holds self.new)) };
}
