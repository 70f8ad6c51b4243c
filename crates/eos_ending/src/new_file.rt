//! A file that a run leaves: one of a name that wasn't there, whole or not at all.

ghost use Rattle.std.specs.Prelude.{OnOk, OnErr, option_map, string_bytes};
ghost use Rattle.eos_ending.specs.Leaving.{IsLeftAs, Stays};

use crate::ending::Ending;
use crate::saying::end;
use eos_disk::{
    ChangeFault, DiskMut, HostDisk, HostFile, NewFile, begin_file, drop_file, end_file,
};
use std::alloc::Global;

/// Begins a file of a name that isn't there. Otherwise says why not, and gives the exit status.
pub fn make_file<'a>(rt: &'a HostRuntime, path: &str) -> Result<HostFile<'a>, u8> {
    let begun = match unnamed(path) {
        Some(fault) => Err(fault),
        None => begin_file(rt.alloc(), &mut HostDisk { rt }, path),
    };
    match begun {
        Ok(file) => Ok(file),
        Err(fault) => Err(end_unchanged(rt, path, fault)),
    }
}

/// Why a path names no file, whatever stands there.
fn unnamed(path: &str) -> Option<ChangeFault> {
    if path.is_empty() {
        Some(ChangeFault::NoFolder)
    } else if path.ends_with('/') {
        Some(ChangeFault::Refused)
    } else {
        None
    }
}

/// Writes a text to the file that was begun for it under this name, or drops the file where there is no text. Gives the exit status
/// of the run, which has this one where the text is written.
pub fn fill_file(
    rt: &HostRuntime,
    path: &str,
    file: HostFile<'_>,
    text: Option<String>,
    status: u8,
) -> u8 {
    match leave_file(rt.alloc(), &mut HostDisk { rt }, file, text) {
        Ok(()) => status,
        Err(fault) => end_unchanged(rt, path, fault),
    }
}

/// Ends a file that was begun by this text, or drops it where there is none.
///
/// # Errors
/// At its path stands what stood there.
#[tactic(auto, using(crate::proofs::Leaving::taken, crate::proofs::Leaving::left))]
pub fn leave_file<D: DiskMut>(
    alloc: Global,
    disk: &mut D,
    file: NewFile<D::Held>,
    text: Option<String>,
) -> Result<(), ChangeFault>
    ensures ok { OnOk result (IsLeftAs (D.holds disk.old) file (option_map string_bytes text) (D.holds disk.new)) }
    ensures err { OnErr result (Stays (D.holds disk.old) file (D.holds disk.new)) }
{
    match text {
        Some(text) => end_file(alloc, disk, file, text.as_bytes()),
        None => {
            drop_file(alloc, disk, file);
            Ok(())
        }
    }
}

/// Says why the file of this path isn't written, and gives the exit status.
pub fn end_unchanged(rt: &HostRuntime, path: &str, fault: ChangeFault) -> u8 {
    let why = match fault {
        ChangeFault::ThereAlready => ": it is there already",
        ChangeFault::NoFolder => ": no such folder",
        ChangeFault::NotFolder => ": not a folder",
        ChangeFault::PermissionDenied => ": permission denied",
        ChangeFault::Refused => "",
        ChangeFault::OutOfMemory => return end(rt, Ending::OutOfMemory),
    };
    let _ = eprint!(rt; "eoscheck: cannot write {path}{why}\n");
    2
}
