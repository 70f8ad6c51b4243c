//! Writing the manifest, whole or not at all.

ghost use Rattle.std.specs.Prelude.{IfErr, OnOk, OnErr, string_bytes};
ghost use Rattle.eos_disk.specs.Putting.{IsPlaced, IsLeft};
ghost use Rattle.eos_commands.specs.InitRefusals.{IsUnput};

use crate::init_fault::InitFault;
use eos_disk::{ChangeFault, DiskMut, put_file};
use std::alloc::Global;

/// Writes the text of a manifest to a path at which nothing is, and which is never written over.
pub(crate) fn write_manifest<D: DiskMut>(
    alloc: Global,
    disk: &mut D,
    path: String,
    text: &[u8],
) -> Result<(), InitFault>
    ensures ok { OnOk result (IsPlaced (D.holds disk.old) (string_bytes path) text.now (D.holds disk.new)) }
    ensures err { OnErr result (IsLeft (D.holds disk.old) (string_bytes path) text.now (D.holds disk.new)) }
    ensures refused { IfErr result (IsUnput (string_bytes path)) }
{
    match put_file(alloc, disk, path.as_str(), text) {
        Ok(()) => Ok(()),
        Err(fault) => Err(unwritten(path, fault)),
    }
}

fn unwritten(path: String, fault: ChangeFault) -> InitFault
    ensures { IsUnput (string_bytes path) result }
{
    match fault {
        ChangeFault::OutOfMemory => InitFault::OutOfMemory,
        ChangeFault::ThereAlready => InitFault::ThereAlready(path),
        _ => InitFault::CannotWrite(path),
    }
}
