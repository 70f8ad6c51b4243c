//! What is said on standard error about a folder: why it isn't read, and the notes on its evidence.

use crate::ending::{Ending, Told};
use crate::saying::end_about;
use crate::subject::Subject;
use eos_disk::FolderFault;
use std::alloc::{AllocError, Global};

/// How a run ended that couldn't read a folder.
fn unread(fault: &FolderFault) -> Ending<'_> {
    match fault {
        FolderFault::CannotRead(path, cause) => Ending::CannotRead(path.as_str(), cause),
        FolderFault::Manifest(fault, cause) => Ending::Manifest(*fault, cause),
        FolderFault::Fold(path, name, cause) => Ending::Refused(path.as_str(), *name, cause),
        FolderFault::Limit(cause) => Ending::Limit(cause),
        FolderFault::OutOfMemory => Ending::OutOfMemory,
    }
}

/// Says why a folder isn't read, and gives the exit status.
pub fn end_unread(rt: &HostRuntime, subject: Subject<'_>, fault: &FolderFault) -> u8 {
    end_about(rt, subject, unread(fault))
}

/// What `end_unread` says of the only folder.
///
/// # Errors
/// Only want of memory.
pub fn unread_text(alloc: Global, fault: &FolderFault) -> Result<String, AllocError> {
    let told = Told {
        subject: Subject::Only,
        ending: unread(fault),
    };
    format!(in alloc; "{told}")
}

/// Says that there are only so many faults, where a later one was asked for, and gives the exit status.
pub fn end_fewer(rt: &HostRuntime, count: u64) -> u8 {
    if count == 1 {
        let _ = eprint!(rt; "eoscheck: there is 1 fault\n");
    } else {
        let _ = eprint!(rt; "eoscheck: there are {count} faults\n");
    }
    2
}

/// Prints the lines of the notes behind an answer that was written, each after the words on which folder it is about. Where
/// standard error takes nothing, the status is all that is left.
pub fn say_notes(rt: &HostRuntime, subject: Subject<'_>, lines: &str) {
    for line in lines.lines() {
        let _ = eprint!(rt; "{subject}{line}\n");
    }
}
