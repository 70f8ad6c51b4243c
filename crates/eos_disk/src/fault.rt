//! Why a file or a folder isn't read.

ghost use Rattle.std.specs.Prelude.{◌≡◌};
ghost use Rattle.eos_disk.specs.declared.fault.DiskFault.TheVariants.{OutOfMemory};

use bytes::Bytes;
use std::alloc::{AllocError, AllocFailed, Global};
use std::io::{Error, ErrorKind};

/// From how many bytes on a path is too long for the system, whatever its parts are.
const LONG_PATH: usize = 4096;

/// Why a file or a folder isn't read.
#[derive(Drop)]
pub enum DiskFault {
    /// Nothing stands there.
    NotThere,
    /// A link stands there that leads to nothing.
    Dangling,
    PermissionDenied,
    /// It is a folder, where a file is wanted.
    IsFolder,
    /// It is no folder, where one is wanted.
    NotFolder,
    /// It is a pipe, which would wait until somebody writes to it.
    IsPipe,
    /// What else the system says.
    Told(String),
    /// The system says something else, and memory was refused to its words.
    Untold,
    /// A growth of memory was refused.
    OutOfMemory,
}

impl From<AllocError> for DiskFault {
    ghost from_gives = { λ _ e. e ≡ OutOfMemory };

    fn from(_e: AllocError) -> DiskFault {
        DiskFault::OutOfMemory
    }
}

impl<T: Drop> From<AllocFailed<T>> for DiskFault {
    ghost from_gives = { λ _ e. e ≡ OutOfMemory };

    fn from(_e: AllocFailed<T>) -> DiskFault {
        DiskFault::OutOfMemory
    }
}

impl DiskFault {
    /// What an error of the system says.
    pub fn of_error(alloc: Global, e: &Error) -> DiskFault {
        match e.kind() {
            ErrorKind::NotFound => DiskFault::NotThere,
            ErrorKind::PermissionDenied => DiskFault::PermissionDenied,
            ErrorKind::IsADirectory => DiskFault::IsFolder,
            ErrorKind::NotADirectory => DiskFault::NotFolder,
            ErrorKind::OutOfMemory => DiskFault::OutOfMemory,
            kind => match words_of(alloc, e, kind) {
                Ok(words) => DiskFault::Told(words),
                Err(_) => DiskFault::Untold,
            },
        }
    }

    /// What an error at the listing of this path says: that nothing is there only where no link is there either, or where the name is
    /// too long for the file system.
    pub(crate) fn of_listing(alloc: Global, path: &str, e: &Error, is_absent: bool) -> DiskFault {
        match e.kind() {
            ErrorKind::NotFound if !is_absent => DiskFault::Dangling,
            ErrorKind::InvalidFilename if path.len() < LONG_PATH => DiskFault::NotThere,
            _ => DiskFault::of_error(alloc, e),
        }
    }
}

/// Adds a name that the system lists, but for the two that stand in each folder, for itself and for the one above. One that isn't UTF-8 is
/// left out.
pub(crate) fn push_listed(
    alloc: Global,
    names: &mut Vec<Bytes>,
    name: Result<&[u8], &Error>,
) -> Result<(), DiskFault> {
    match name {
        Ok(name) if is_listed(name) => names.push(Bytes::copy_from_slice(alloc, name)?)?,
        Ok(_) => {}
        Err(e) => return Err(DiskFault::of_error(alloc, e)),
    }
    Ok(())
}

fn is_listed(name: &[u8]) -> bool {
    !matches!(name, b"." | b"..") && str::from_utf8(name).is_ok()
}

/// What the kind of an error says, or the error itself where its kind says nothing.
fn words_of(alloc: Global, e: &Error, kind: ErrorKind) -> Result<String, AllocError> {
    if kind == ErrorKind::Uncategorized {
        format!(in alloc; "{e}")
    } else {
        format!(in alloc; "{kind}")
    }
}
