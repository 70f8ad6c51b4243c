//! A file that is whole or not there, whatever happens meanwhile.

ghost use Rattle.std.specs.Prelude.{◌≡◌, ◌≢◌, [], IfOk, OnOk, OnErr};
ghost use Rattle.eos_disk.specs.Putting.{IsPlaced, IsPlacedBy, IsWrittenBy, IsTakenBy, IsTaken, IsLeft, IsLeftBy, IsBegun};

use crate::change::{ChangeFault, DiskMut};
use crate::host::HostDisk;
use std::alloc::Global;
use std::marker::Model;

/// Makes a file of these bytes at a path at which nothing stands: first as `PATH.new`, which replaces one that a killed run left,
/// and then under its own name. After that nothing can fail.
///
/// # Errors
/// At the path stands what stood there. Where `PATH.new` can't be taken away again, a front of the bytes stands there.
#[tactic(auto, using(crate::proofs::OnePlace::apart, crate::proofs::OnePlace::left_nothing))]
pub fn put_file<D: DiskMut>(
    alloc: Global,
    disk: &mut D,
    path: &str,
    bytes: &[u8],
) -> Result<(), ChangeFault>
    ensures ok { OnOk result (IsPlaced (D.holds disk.old) path.now bytes.now (D.holds disk.new)) }
    ensures err { OnErr result (IsLeft (D.holds disk.old) path.now bytes.now (D.holds disk.new)) }
{
    let beside = format!(in alloc; "{path}.new")?;
    put_by(alloc, disk, beside.as_str(), path, bytes)
}

/// The same with this name beside the file's.
#[tactic(auto, using(crate::proofs::OnePlace::left_taken))]
fn put_by<D: DiskMut>(
    alloc: Global,
    disk: &mut D,
    by: &str,
    path: &str,
    bytes: &[u8],
) -> Result<(), ChangeFault>
    requires { path.now ≢ by.now }
    ensures ok { OnOk result (IsPlacedBy (D.holds disk.old) by.now path.now bytes.now (D.holds disk.new)) }
    ensures err { OnErr result (IsLeftBy (D.holds disk.old) by.now bytes.now (D.holds disk.new)) }
{
    let _held = match write_by(alloc, disk, by, bytes) {
        Ok(held) => held,
        Err(fault) => return Err(fault),
    };
    if let Err(fault) = disk.publish(alloc, by, path) {
        take_back(alloc, disk, by);
        return Err(fault);
    }
    Ok(())
}

/// Takes a file away, if it can be.
#[tactic(auto, using(crate::proofs::OnePlace::gone, crate::proofs::OnePlace::stays))]
fn take_back<D: DiskMut>(alloc: Global, disk: &mut D, by: &str)
    ensures { IsTakenBy (D.holds disk.old) by.now (D.holds disk.new) }
{
    match disk.remove(alloc, by) {
        Ok(()) => {}
        Err(_fault) => {}
    }
}

/// Writes a file and holds it, in the place of one that a killed run left.
#[tactic(auto, using(crate::proofs::OnePlace::written_new, crate::proofs::OnePlace::written_again, crate::proofs::OnePlace::left_unwritten, crate::proofs::OnePlace::left_again, crate::proofs::OnePlace::left_held))]
fn write_by<D: DiskMut>(
    alloc: Global,
    disk: &mut D,
    by: &str,
    bytes: &[u8],
) -> Result<D::Held, ChangeFault>
    ensures ok { OnOk result (IsWrittenBy (D.holds disk.old) by.now bytes.now (D.holds disk.new)) }
    ensures err { OnErr result (IsLeftBy (D.holds disk.old) by.now bytes.now (D.holds disk.new)) }
{
    match disk.write_new(alloc, by, bytes) {
        Ok(held) => return Ok(held),
        Err(ChangeFault::ThereAlready) => {}
        Err(fault) => return Err(fault),
    }
    if let Err(fault) = disk.remove_stale(alloc, by) {
        return Err(fault);
    }
    match disk.write_new(alloc, by, bytes) {
        Ok(held) => Ok(held),
        Err(fault) => Err(fault),
    }
}

/// A file that is begun: where it is to stand, and the one beside it, which is held.
#[derive(Drop)]
pub struct NewFile<H: Drop> {
    pub path: String,
    by: String,
    held: H,
}

impl<H: Drop> Model for NewFile<H> {
    ghost use Rattle.std.specs.Prelude.{◌≡◌, ℕ, List, string_bytes};
    ghost use Rattle.eos_disk.specs.Putting.{beside};

    ghost Value = { List ℕ };

    ghost view = { λ file. string_bytes file.path };

    ghost invariant = { λ file. string_bytes file.by ≡ beside (string_bytes file.path) };
}

/// A file that is begun on the disk of the system.
pub type HostFile<'a> = NewFile<<HostDisk<'a> as DiskMut>::Held>;

/// Begins a file at a path at which nothing stands, by an empty one beside it, so that what can't be written is refused before the
/// work. `end_file` ends it, or `drop_file`.
#[tactic(auto, using(crate::proofs::OnePlace::left_nothing))]
pub fn begin_file<D: DiskMut>(
    alloc: Global,
    disk: &mut D,
    path: &str,
) -> Result<NewFile<D::Held>, ChangeFault>
    ensures ok { IfOk result (λ file. (file ≡ path.now) × IsBegun (D.holds disk.old) path.now (D.holds disk.new)) }
    ensures err { OnErr result (IsLeft (D.holds disk.old) path.now [] (D.holds disk.new)) }
{
    let by = format!(in alloc; "{path}.new")?;
    let copied = String::from_str(alloc, path)?;
    if disk.stands(path) {
        return Err(ChangeFault::ThereAlready);
    }
    match write_by(alloc, disk, by.as_str(), b"".as_slice()) {
        Ok(held) => Ok(NewFile {
            path: copied,
            by,
            held,
        }),
        Err(fault) => Err(fault),
    }
}

/// Ends a file that was begun by these bytes, without new memory of its own: as `put_file` does.
///
/// # Errors
/// As `put_file` says.
#[tactic(auto, using(crate::proofs::OnePlace::apart, crate::proofs::LeftBehind::cleared))]
pub fn end_file<D: DiskMut>(
    alloc: Global,
    disk: &mut D,
    file: NewFile<D::Held>,
    bytes: &[u8],
) -> Result<(), ChangeFault>
    ensures ok { OnOk result (IsPlaced (D.holds disk.old) file bytes.now (D.holds disk.new)) }
    ensures err { OnErr result (IsLeft (D.holds disk.old) file bytes.now (D.holds disk.new)) }
{
    let NewFile { path, by, held } = file;
    let_go(held);
    if let Err(fault) = put_by(alloc, disk, by.as_str(), path.as_str(), bytes) {
        clear(alloc, disk, by.as_str());
        return Err(fault);
    }
    Ok(())
}

/// Takes a file away that was begun and couldn't be ended, if no other run holds it meanwhile and it can be.
#[tactic(auto, using(crate::proofs::OnePlace::gone, crate::proofs::OnePlace::stays))]
fn clear<D: DiskMut>(alloc: Global, disk: &mut D, by: &str)
    ensures { IsTakenBy (D.holds disk.old) by.now (D.holds disk.new) }
{
    match disk.remove_stale(alloc, by) {
        Ok(()) => {}
        Err(_fault) => {}
    }
}

/// From now on the file counts as one that a killed run left.
fn let_go<H: Drop>(_held: H) {}

/// Drops a file that was begun, if the system lets it go.
pub fn drop_file<D: DiskMut>(alloc: Global, disk: &mut D, file: NewFile<D::Held>)
    ensures { IsTaken (D.holds disk.old) file (D.holds disk.new) }
{
    take_back(alloc, disk, file.by.as_str());
}
