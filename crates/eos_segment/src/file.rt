//! The answers about the segment in a file.

ghost use Rattle.std.specs.Prelude.{◌≡◌, Err, ℕ, List};
ghost use Rattle.std.specs.Io.KnownBytes.{Keeps};
ghost use Rattle.eos_disk.specs.Entries.{File};
ghost use Rattle.eos_segment.specs.Answer.{IsChainAnswer};
ghost use Rattle.eos_segment.specs.Choosing.{IsChosenListing, plain_options};
ghost use Rattle.eos_segment.specs.Files.{IsToldOf, IsToldOfBytes};
ghost use Rattle.eos_segment.specs.Listing.{IsListing};
ghost use Rattle.eos_segment.specs.steps.Opening.{IsUnopened};

use crate::answer::chain_to;
use crate::dump::dump_to;
use crate::fault::RunFault;
use crate::options::ListingOptions;
use eos_disk::{Disk, DiskFault};
use std::alloc::Global;
use std::io::Write;

/// Reads the file of this path and writes its listing, as `dump_to` does of a reader.
///
/// # Errors
/// `Read` where it isn't opened, too. Nothing is written before all was read, and after `Write` and `OutOfMemory` a front was.
#[tactic(auto, using(crate::proofs::Files::over_file, crate::proofs::Files::not_opened, crate::proofs::Files::known_file))]
pub fn dump_file<D: Disk, W: Write>(
    alloc: Global,
    disk: &D,
    path: &str,
    options: &ListingOptions,
    writer: &mut W,
) -> Result<u8, RunFault>
    ensures some { IsToldOf (IsChosenListing options.now) (D.holds disk.now path.now) (W.contents writer.old) (W.contents writer.new) result }

    // Where it is known which file stands there, its bytes are listed, and no others.
    ensures known { (bytes : List ℕ) → D.holds disk.now path.now ≡ File bytes → IsToldOfBytes (IsChosenListing options.now) bytes (W.contents writer.old) (W.contents writer.new) result }

    // With no option it is the listing of every record.
    ensures plain { options.now ≡ plain_options → IsToldOf IsListing (D.holds disk.now path.now) (W.contents writer.old) (W.contents writer.new) result }
{
    match disk.open(alloc, path) {
        Ok(mut file) => dump_to(alloc, options, &mut file, writer),
        Err(fault) => Err(unopened(fault)),
    }
}

/// Reads the file of this path and writes whether its chain is kept, as `chain_to` does of a reader.
///
/// # Errors
/// `Read` where it isn't opened, too. After `Read`, `Limit` and `OutOfMemory` nothing was written, after `Write` a front of the answer.
#[tactic(auto, using(crate::proofs::Files::over_file, crate::proofs::Files::not_opened, crate::proofs::Files::known_file))]
pub fn chain_file<D: Disk, W: Write>(
    alloc: Global,
    disk: &D,
    path: &str,
    writer: &mut W,
) -> Result<u8, RunFault>
    ensures known { (bytes : List ℕ) → D.holds disk.now path.now ≡ File bytes → IsToldOfBytes IsChainAnswer bytes (W.contents writer.old) (W.contents writer.new) result }
    ensures some { IsToldOf IsChainAnswer (D.holds disk.now path.now) (W.contents writer.old) (W.contents writer.new) result }
    ensures memory { result ≡ Err RunFault.OutOfMemory → Keeps (W.contents writer.old) (W.contents writer.new) }
{
    match disk.open(alloc, path) {
        Ok(mut file) => chain_to(alloc, &mut file, writer),
        Err(fault) => Err(unopened(fault)),
    }
}

/// Why a file that isn't opened isn't answered about.
fn unopened(fault: DiskFault) -> RunFault
    ensures { IsUnopened result }
{
    match fault {
        DiskFault::OutOfMemory => RunFault::OutOfMemory,
        _ => RunFault::Read,
    }
}
