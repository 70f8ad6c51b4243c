//! The folders that are given: of which partitions they are, and which segments lie in them.

ghost use Rattle.std.specs.Prelude.{◌≡◌, ◌⊎◌, ◌++◌, ◌∷◌, [], List, not, true, map, IfOk, IfErr, OnOk, string_bytes};
ghost use Rattle.std.specs.BTreeSet.{contains, Updates};
ghost use Rattle.eos_base.specs.PartitionNames.{name_cmp};
ghost use Rattle.eos_disk.specs.Paths.{file_path};
ghost use Rattle.eos_disk.specs.declared.names.Form.TheVariants.{Log};
ghost use Rattle.eos_commands.specs.Folding.{IsFolderAt};
ghost use Rattle.eos_commands.specs.FoldRefusals.{fold_in, IsUnfolded, AreFit, RefusesFolded, RefusesFolder, RefusesGiven, IsFirstGiven};
ghost use Rattle.eos_commands.specs.declared.fold_fault.FoldingFault.TheVariants.{OutOfMemory};
ghost use Rattle.eos_commands.specs.declared.folder.PartitionFolder.{PartitionFolder};
ghost use Rattle.eos_commands.specs.Paths.{partition_at};
ghost use Rattle.eos_commands.specs.steps.Fits.{FitsAfter};
ghost use Rattle.eos_commands.specs.steps.Names.{HasNamesOf};

use crate::fold_fault::FoldingFault;
use bytes::Bytes;
use eos_base::PartitionName;
use eos_disk::{ChangeFault, Disk, DiskMut, Form, bases_in, segment_path};
use eos_evidence::{End, Segment};
use eos_manifest::{has_end, read_folder_name};
use std::alloc::{AllocError, Global};
use std::collections::BTreeSet;
use std::path::Path;

/// The folder of a partition.
#[derive(Drop)]
pub(crate) struct PartitionFolder<'a> {
    pub(crate) path: &'a str,
    pub(crate) name: PartitionName,
    /// The first offsets of its segments, in order.
    pub(crate) bases: Vec<i64>,
}

/// What a folder is judged against before it is folded: the ends of the manifest, and the folder that gets the folds.
#[derive(Drop)]
struct Against<'a, D> {
    disk: &'a D,
    ends: &'a [End],
    out: &'a str,
}

impl<'a> PartitionFolder<'a> {
    /// The segment with this first offset, without its bytes.
    pub(crate) fn segment(&self, base: i64) -> Result<Segment, AllocError>
        ensures { IfOk result (λ segment. segment ≡ record { topic = self.now.name.topic; partition = self.now.name.partition; base = base; bytes = [] }) }
    {
        Ok(Segment {
            topic: self.name.topic.clone()?,
            partition: self.name.partition,
            base,
            bytes: Bytes::new(),
        })
    }

    /// The path of its log with this first offset.
    pub(crate) fn log_path(&self, alloc: Global, base: i64) -> Result<String, AllocError>
        ensures { IfOk result (λ path. string_bytes path ≡ file_path self.now.path.now base Log) }
    {
        let partition = self.path;
        format!(in alloc; "{partition}/{base:020}.log")
    }

    /// The place of its fold with this first offset in a folder of folds.
    fn path_in(&self, alloc: Global, out: &str, base: i64) -> Result<String, AllocError>
        ensures { IfOk result (λ path. string_bytes path ≡ fold_in out.now self.now base) }
    {
        segment_path(alloc, out, &self.segment(base)?, Form::Fold)
    }

    /// Refuses it where a file has the name of one of its folds already.
    fn refuse_folded<D: DiskMut>(
        &self,
        alloc: Global,
        disk: &D,
        out: &str,
    ) -> Result<(), FoldingFault<'a>>
        ensures ok { OnOk result (IsUnfolded (D.holds disk.now) out.now self.now) }
        ensures refused { IfErr result (RefusesFolded (D.holds disk.now) out.now self.now) }
    {
        for base in self.bases.as_slice() {
            let path = self.path_in(alloc, out, *base)?;
            if disk.stands(path.as_str()) {
                return Err(FoldingFault::CannotWrite(path, ChangeFault::ThereAlready));
            }
        }
        Ok(())
    }
}

/// The folders at these paths, whose folds go to the folder `out`.
///
/// # Errors
/// The first that isn't the folder of a partition, or of one with no end here or that another is of, or that isn't read; or of which
/// a fold is there already.
pub(crate) fn find_folders<'a, D: DiskMut>(
    alloc: Global,
    disk: &D,
    paths: &[&'a str],
    ends: &[End],
    out: &str,
) -> Result<Vec<PartitionFolder<'a>>, FoldingFault<'a>>
    ensures ok { IfOk result (λ folders. AreFit (D.holds disk.now) ends.now out.now (map (λ p. p.now) paths.now) folders.items) }
    ensures refused { IfErr result (λ why. (why ≡ OutOfMemory) ⊎ IsFirstGiven (D.holds disk.now) ends.now out.now (map (λ p. p.now) paths.now) why) }
{
    let against = Against { disk, ends, out };
    let mut names = BTreeSet::new(alloc);
    let mut folders = Vec::new(alloc);
    for path in paths {
        let folder = against.folder_at(alloc, path, &mut names)?;
        folders.push(folder)?;
    }
    Ok(folders)
}

impl<'a, D: DiskMut> Against<'a, D> {
    /// The folder at this path, whose partition is none of these names, and is then one of them.
    fn folder_at<'b>(
        &self,
        alloc: Global,
        path: &'b str,
        names: &mut BTreeSet<PartitionName>,
    ) -> Result<PartitionFolder<'b>, FoldingFault<'b>>
        ensures ok { (before : List PartitionFolder) → HasNamesOf names.old before → IfOk result (λ folder. FitsAfter (D.holds self.now.disk.now) self.now.ends.now self.now.out.now before path.now folder
            × HasNamesOf names.new (before ++ folder ∷ [])) }
        ensures refused { (before : List PartitionFolder) → HasNamesOf names.old before → IfErr result (RefusesGiven (D.holds self.now.disk.now) self.now.ends.now self.now.out.now before path.now) }
    {
        let folder = find_folder(alloc, self.disk, path, self.ends)?;
        if !insert_name(names, &folder.name)? {
            return Err(FoldingFault::SameName(path));
        }
        folder.refuse_folded(alloc, self.disk, self.out)?;
        Ok(folder)
    }
}

fn find_folder<'a, D: Disk>(
    alloc: Global,
    disk: &D,
    path: &'a str,
    ends: &[End],
) -> Result<PartitionFolder<'a>, FoldingFault<'a>>
    ensures ok { IfOk result (IsFolderAt (D.holds disk.now) ends.now path.now) }
    ensures refused { IfErr result (RefusesFolder ends.now path.now) }
{
    let Some(name) = partition_at(alloc, path)? else {
        return Err(FoldingFault::NoName(path));
    };
    if !has_end(ends, &name) {
        return Err(FoldingFault::NoEnd(path));
    }
    Ok(PartitionFolder {
        path,
        name,
        bases: bases_in(alloc, disk, path)?,
    })
}

/// Adds a partition, and says whether it is a new one.
fn insert_name(
    names: &mut BTreeSet<PartitionName>,
    name: &PartitionName,
) -> Result<bool, AllocError>
    ensures added { IfOk result (λ added. added ≡ not (contains name_cmp names.old name.now)) }
    ensures updates { OnOk result (Updates name_cmp names.old names.new name.now true) }
{
    Ok(names.insert(name.clone()?)?)
}

/// The partition whose folder is at this path, by the path's last part.
fn partition_at(alloc: Global, path: &str) -> Result<Option<PartitionName>, AllocError>
    ensures { IfOk result (λ name. name ≡ partition_at path.now) }
{
    let Some(name) = Path::new(path).file_name() else {
        return Ok(None);
    };
    let Some((topic, partition)) = read_folder_name(name.as_bytes()) else {
        return Ok(None);
    };
    let topic = Bytes::copy_from_slice(alloc, topic)?;
    Ok(Some(PartitionName { topic, partition }))
}
