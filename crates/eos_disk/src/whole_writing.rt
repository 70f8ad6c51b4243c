//! Writing evidence into a folder in which nothing stands.

ghost use Rattle.std.specs.Prelude.{OnOk};
ghost use Rattle.eos_disk.specs.Reading.{IsReadWhole};
ghost use Rattle.eos_disk.specs.Shapes.{AreKnown};
ghost use Rattle.eos_disk.specs.Writing.{IsEvidenceWritten};
ghost use Rattle.eos_disk.specs.Written.{IsEmptyAt, HoldsJust, HasListings};

use crate::{DiskMut, WritingFault, Written, write_evidence};
use eos_evidence::Evidence;
use std::alloc::Global;

/// Writes evidence into a folder that is there and empty. What stands in it then is that evidence, and nothing else; from a disk of which it
/// is known, and which lists what stands on it, it is read back.
///
/// # Errors
/// Some of it may have been written: what was written so far takes it away.
#[tactic(auto, using(crate::proofs::JustWritten::just_written))]
pub fn write_whole<D: DiskMut>(
    alloc: Global,
    disk: &mut D,
    written: &mut Written,
    folder: &str,
    evidence: &Evidence,
) -> Result<(), WritingFault>
    ensures written { OnOk result (IsEvidenceWritten (D.holds disk.old) folder.now evidence.now (D.holds disk.new)) }
    ensures just { IsEmptyAt (D.holds disk.old) folder.now → OnOk result (HoldsJust (D.holds disk.new) folder.now evidence.now) }
    ensures back { IsEmptyAt (D.holds disk.old) folder.now → AreKnown (D.holds disk.new) folder.now → HasListings (D.holds disk.new) → OnOk result (IsReadWhole (D.holds disk.new) folder.now evidence.now) }
{
    // that it is evidence is known by its partitions
    let _partitions = evidence.partitions();
    write_evidence(alloc, disk, written, folder, evidence)
}
