//! The text of a file that a command's words name, where `-` names the standard input.

ghost use Rattle.std.specs.Prelude.{◌≡◌, IfOk, IfErr};
ghost use Rattle.eos_disk.specs.GivenTexts.{IsTextOf, is_standard};
ghost use Rattle.eos_disk.specs.Refusals.{RefusesFile, MayRefuse};

use crate::files::{read_file, refusal_of};
use crate::{Disk, FolderFault};
use bytes::Bytes;
use eos_evidence::read_segment;
use std::alloc::Global;
use std::io::Read;

/// Whether the path names the standard input.
fn is_standard(path: &str) -> bool
    ensures { result ≡ is_standard path.now }
{
    path.as_bytes() == b"-".as_slice()
}

/// The bytes of the file at this path; of `-`, which names the standard input, all that it has left. At most as many as a segment may
/// have: 2^30.
///
/// # Errors
/// The file or the input can't be read, or is too long; or memory was refused.
pub fn read_given<D: Disk, R: Read>(
    alloc: Global,
    disk: &D,
    path: &str,
    input: &mut R,
) -> Result<Bytes, FolderFault>
    ensures ok { IfOk result (IsTextOf (is_standard path.now) (D.holds disk.now) path.now (R.remaining input.old) (R.remaining input.new)) }
    ensures err { IfErr result (RefusesFile path.now) }
    ensures so { IfErr result (MayRefuse (D.holds disk.now path.now)) }
{
    let own = String::from_str(alloc, path)?;
    if !is_standard(path) {
        return Ok(read_file(alloc, disk, own)?);
    }
    match read_segment(alloc, input) {
        Ok(bytes) => Ok(bytes),
        Err(why) => Err(refusal_of(alloc, own, input, why)),
    }
}
