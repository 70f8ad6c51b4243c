//! Writing a fold, whole or not at all.

ghost use Rattle.std.specs.Prelude.{List, ℕ, ◌⊎◌, IfErr, OnOk, OnErr};
ghost use Rattle.eos_disk.specs.Changes.{AreMade, AreMadeTo};
ghost use Rattle.eos_disk.specs.Entries.{Entry};
ghost use Rattle.eos_disk.specs.Putting.{IsPlaced, IsLeft};
ghost use Rattle.eos_disk.specs.Paths.{partition_path, segment_path};
ghost use Rattle.eos_disk.specs.declared.names.Form.TheVariants.{Fold};
ghost use Rattle.eos_commands.specs.FoldRefusals.{IsUnwritten};

use crate::fold_fault::{FoldingFault, unwritten};
use eos_disk::{DiskMut, Form, partition_path, put_file, segment_path};
use eos_evidence::Segment;
use std::alloc::Global;

/// Writes the fold of the segment of this name to its place in a folder of folds, at which nothing may be. Folders that aren't there
/// are made.
#[tactic(auto, using(crate::proofs::Unmade::not_begun, crate::proofs::Unmade::not_made, crate::proofs::Unmade::is_put))]
pub(crate) fn write_fold<'a, D: DiskMut>(
    alloc: Global,
    disk: &mut D,
    out: &str,
    name: &Segment,
    bytes: &[u8],
) -> Result<(), FoldingFault<'a>>
    ensures ok { OnOk result ((mid : List ℕ → Entry) × AreMade (D.holds disk.old) (partition_path out.now name.now.topic name.now.partition) mid
        × IsPlaced mid (segment_path out.now name.now Fold) bytes.now (D.holds disk.new)) }
    ensures err { OnErr result ((mid : List ℕ → Entry) × AreMadeTo (D.holds disk.old) (partition_path out.now name.now.topic name.now.partition) mid
        × IsLeft mid (segment_path out.now name.now Fold) bytes.now (D.holds disk.new)) }
    ensures refused { IfErr result (λ why. IsUnwritten (partition_path out.now name.now.topic name.now.partition) why ⊎ IsUnwritten (segment_path out.now name.now Fold) why) }
{
    let folder = partition_path(alloc, out, name.topic.as_slice(), name.partition)?;
    let path = segment_path(alloc, out, name, Form::Fold)?;
    if let Err(fault) = disk.make_folders(alloc, folder.as_str()) {
        return Err(unwritten(folder, fault));
    }
    match put_file(alloc, disk, path.as_str(), bytes) {
        Ok(()) => Ok(()),
        Err(fault) => Err(unwritten(path, fault)),
    }
}
