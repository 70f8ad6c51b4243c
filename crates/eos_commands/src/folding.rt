//! Folding segments, one after the other.

ghost use Rattle.std.specs.Prelude.{◌≡◌, ◌⊎◌, ℕ, List, map, Ok, IfOk, IfErr, OnOk, OnErr, string_bytes};
ghost use Rattle.eos_disk.specs.Entries.{HasBytes};
ghost use Rattle.eos_evidence.specs.Manifest.{spec_said_by};
ghost use Rattle.eos_evidence.specs.SpecFields.{SpecFields};
ghost use Rattle.eos_fold_file.specs.declared.file.FoldFile.{FoldFile};
ghost use Rattle.eos_fold_file.specs.Files.{fold_text};
ghost use Rattle.eos_fold_file.specs.Legal.{IsRight};
ghost use Rattle.eos_fold_file.specs.Reading.{read_fold as fold_read_of};
ghost use Rattle.eos_disk.specs.Refusals.{RefusesFile};
ghost use Rattle.eos_commits.specs.SourceTopics.{AreSourceTopics};
ghost use Rattle.eos_commands.specs.Folding.{item_of, items_in, items_of, AreFoldersAt, IsFoldAt, IsFoldPut, IsFoldLeft, Folded as AreFolded, FoldedInPart};
ghost use Rattle.eos_commands.specs.FoldRefusals.{IsUnreadLog, RefusesLog, IsFirstLog, RefusesByParts, RefusesFolds};
ghost use Rattle.eos_disk.specs.Paths.{file_path};
ghost use Rattle.eos_disk.specs.declared.names.Form.TheVariants.{Log};
ghost use Rattle.eos_commands.specs.declared.folder.PartitionFolder.{PartitionFolder};
ghost use Rattle.eos_commands.specs.declared.fold_fault.FoldingFault.TheVariants.{OutOfMemory};

use crate::fold_fault::FoldingFault;
use crate::fold_writing::write_fold;
use crate::folder::{PartitionFolder, find_folders};
use bytes::Bytes;
use eos_commits::source_topics;
use eos_disk::{Disk, DiskMut, FolderFault, NamedFile, open_file, read_manifest, refusal_of};
use eos_evidence::{App, ReadFault, Spec};
use eos_fold_file::{FoldFile, encode_fold, fold_of};
use eos_reading::{Wanted, Wants};
use std::alloc::{AllocError, Global};
use std::io::Read;

/// What is given.
#[derive(Clone, Copy)]
pub struct FoldGiven<'a> {
    /// The file of the manifest.
    pub manifest: &'a str,
    /// The folder that gets the folds. It is made if need be.
    pub out: &'a str,
    /// The folders of the partitions.
    pub folders: &'a [&'a str],
}

/// How much was folded.
#[derive(Clone, Copy)]
pub struct Folded {
    pub segments: u64,
    /// The bytes of these segments.
    pub bytes: u64,
}

/// For whom segments are folded, and where to.
#[derive(Clone, Copy)]
struct Roles<'a> {
    apps: &'a [App],
    /// The topics whose claims are kept by a number.
    topics: &'a [Bytes],
    out: &'a str,
}

/// How the segments of a partition are folded, and where to.
#[derive(Clone, Copy)]
struct Asked<'a> {
    /// What is wanted of their records.
    wanted: Wanted,
    topics: &'a [Bytes],
    out: &'a str,
}

impl Folded {
    /// A segment of so many bytes was folded too.
    fn add(&mut self, bytes: u64) {
        self.segments = self.segments.saturating_add(1);
        self.bytes = self.bytes.saturating_add(bytes);
    }
}

/// Folds each segment that lies in these folders, for the roles that the manifest's applications give its topic, and writes the fold
/// to the folder of the partition in `out`.
///
/// # Errors
/// The first of what stands against it: the manifest, then the folders in order, then their segments in order. Before the first
/// segment is read nothing was written; after that the folds of those before the one that is refused.
pub fn fold_folders<'a, D: DiskMut>(
    alloc: Global,
    disk: &mut D,
    given: FoldGiven<'a>,
) -> Result<Folded, FoldingFault<'a>>
    ensures ok { OnOk result ((text : List ℕ) × (spec : SpecFields) × (folders : List PartitionFolder) × (topics : List (List ℕ))
        × HasBytes (D.holds disk.old given.entry.manifest.now) text × (spec_said_by text ≡ Ok spec)
        × AreFoldersAt (D.holds disk.old) spec.ends (map (λ p. p.now) given.entry.folders.now) folders
        × AreSourceTopics spec.apps topics × AreFolded (D.holds disk.old) topics given.entry.out.now (items_of spec.apps folders) (D.holds disk.new)) }
    ensures err { OnErr result ((topics : List (List ℕ)) × FoldedInPart (D.holds disk.old) topics given.entry.out.now (D.holds disk.new)) }
    ensures refused { IfErr result (RefusesFolds (D.holds disk.old) given.entry.manifest.now given.entry.out.now (map (λ p. p.now) given.entry.folders.now) (D.holds disk.new)) }
{
    let manifest = String::from_str(alloc, given.manifest)?;
    let spec = read_manifest(alloc, &*disk, manifest)?;
    put_by(alloc, disk, &spec, given)
}

/// Folds each segment that lies in these folders, by the parts of their manifest.
fn put_by<'a, D: DiskMut>(
    alloc: Global,
    disk: &mut D,
    spec: &Spec,
    given: FoldGiven<'a>,
) -> Result<Folded, FoldingFault<'a>>
    ensures ok { OnOk result ((folders : List PartitionFolder) × (topics : List (List ℕ)) × AreFoldersAt (D.holds disk.old) spec.now.ends (map (λ p. p.now) given.entry.folders.now) folders
        × AreSourceTopics spec.now.apps topics × AreFolded (D.holds disk.old) topics given.entry.out.now (items_of spec.now.apps folders) (D.holds disk.new)) }
    ensures err { OnErr result ((topics : List (List ℕ)) × FoldedInPart (D.holds disk.old) topics given.entry.out.now (D.holds disk.new)) }
    ensures refused { IfErr result (λ why. (why ≡ OutOfMemory) ⊎ RefusesByParts (D.holds disk.old) spec.now given.entry.out.now (map (λ p. p.now) given.entry.folders.now) (D.holds disk.new) why) }
{
    let ends = spec.ends().as_slice();
    let apps = spec.apps().as_slice();
    let folders = find_folders(alloc, &*disk, given.folders, ends, given.out)?;
    let topics = source_topics(alloc, apps)?;
    let roles = Roles {
        apps,
        topics: topics.as_slice(),
        out: given.out,
    };
    fold_all(alloc, disk, folders.as_slice(), roles)
}

/// Folds the segments of these folders, one folder after the other.
fn fold_all<'a, D: DiskMut>(
    alloc: Global,
    disk: &mut D,
    folders: &[PartitionFolder<'a>],
    roles: Roles<'_>,
) -> Result<Folded, FoldingFault<'a>>
    ensures ok { OnOk result (AreFolded (D.holds disk.old) roles.entry.topics.now roles.entry.out.now (items_of roles.entry.apps.now folders.now) (D.holds disk.new)) }
    ensures err { OnErr result (FoldedInPart (D.holds disk.old) roles.entry.topics.now roles.entry.out.now (D.holds disk.new)) }
    ensures refused { IfErr result (λ why. (why ≡ OutOfMemory)
        ⊎ IsFirstLog (D.holds disk.old) roles.entry.topics.now roles.entry.out.now (items_of roles.entry.apps.now folders.now) (D.holds disk.new) why) }
{
    let wants = Wants::of(alloc, roles.apps)?;
    let mut folded = Folded {
        segments: 0,
        bytes: 0,
    };
    for folder in folders {
        let asked = Asked {
            wanted: wants.of_topic(folder.name.topic.as_slice()),
            topics: roles.topics,
            out: roles.out,
        };
        fold_folder(alloc, disk, folder, asked, &mut folded)?;
    }
    Ok(folded)
}

/// Folds the segments of a partition's folder, in order.
fn fold_folder<'a, D: DiskMut>(
    alloc: Global,
    disk: &mut D,
    folder: &PartitionFolder<'a>,
    asked: Asked<'_>,
    folded: &mut Folded,
) -> Result<(), FoldingFault<'a>>
    ensures ok { OnOk result (AreFolded (D.holds disk.old) asked.entry.topics.now asked.entry.out.now (items_in asked.entry.wanted folder.now) (D.holds disk.new)) }
    ensures err { OnErr result (FoldedInPart (D.holds disk.old) asked.entry.topics.now asked.entry.out.now (D.holds disk.new)) }
    ensures refused { IfErr result (IsFirstLog (D.holds disk.old) asked.entry.topics.now asked.entry.out.now (items_in asked.entry.wanted folder.now) (D.holds disk.new)) }
{
    for base in folder.bases.as_slice() {
        folded.add(fold_segment(alloc, disk, folder, *base, asked)?);
    }
    Ok(())
}

/// Folds the segment of a partition's folder with this first offset, and gives the number of its bytes.
fn fold_segment<'a, D: DiskMut>(
    alloc: Global,
    disk: &mut D,
    folder: &PartitionFolder<'a>,
    base: i64,
    asked: Asked<'_>,
) -> Result<u64, FoldingFault<'a>>
    ensures ok { OnOk result (IsFoldPut (D.holds disk.old) asked.entry.topics.now asked.entry.out.now (item_of asked.entry.wanted folder.now base) (D.holds disk.new)) }
    ensures err { OnErr result (IsFoldLeft (D.holds disk.old) asked.entry.out.now (item_of asked.entry.wanted folder.now base) (D.holds disk.new)) }
    ensures refused { IfErr result (RefusesLog (D.holds disk.old) asked.entry.topics.now asked.entry.out.now (item_of asked.entry.wanted folder.now base)) }
{
    let (text, size) = encoded(alloc, &*disk, folder, base, asked)?;
    let name = folder.segment(base)?;
    let put = write_fold(alloc, disk, asked.out, &name, text.as_slice());
    drop(name);
    drop(text);
    put?;
    Ok(size)
}

/// The text of the fold of the segment of a partition's folder with this first offset, and the number of the segment's bytes.
fn encoded<'a, D: Disk>(
    alloc: Global,
    disk: &D,
    folder: &PartitionFolder<'a>,
    base: i64,
    asked: Asked<'_>,
) -> Result<(Vec<u8>, u64), FoldingFault<'a>>
    ensures fold { IfOk result (λ made. (fold : FoldFile) × IsFoldAt (D.holds disk.now) asked.entry.topics.now (item_of asked.entry.wanted folder.now base) fold
        × (made.0.items ≡ fold_text fold) × (fold_read_of made.0.items ≡ Ok fold)) }
    ensures refused { IfErr result (IsUnreadLog (D.holds disk.now) (file_path folder.now.path.now base Log)) }
{
    Ok(text_of(alloc, read_fold(alloc, disk, folder, base, asked)?)?)
}

/// The text of this fold, and the number of the segment's bytes.
pub(crate) fn text_of(alloc: Global, fold: FoldFile) -> Result<(Vec<u8>, u64), AllocError>
    ensures bytes { IfOk result (λ made. made.0.items ≡ fold_text fold) }
    ensures reads { IsRight fold → IfOk result (λ made. fold_read_of made.0.items ≡ Ok fold) }
{
    let text = encode_fold(alloc, &fold);
    let bytes = fold.bytes;
    drop(fold);
    Ok((text?, bytes))
}

/// Why reading this file ended so.
pub(crate) fn refused<F: Read + Drop>(
    alloc: Global,
    named: NamedFile<F>,
    why: ReadFault,
) -> FolderFault
    ensures { RefusesFile (string_bytes named.path) result }
{
    let NamedFile { path, mut file } = named;
    refusal_of(alloc, path, &mut file, why)
}

/// The fold of the segment of a partition's folder with this first offset.
fn read_fold<'a, D: Disk>(
    alloc: Global,
    disk: &D,
    folder: &PartitionFolder<'a>,
    base: i64,
    asked: Asked<'_>,
) -> Result<FoldFile, FoldingFault<'a>>
    ensures fold { IfOk result (IsFoldAt (D.holds disk.now) asked.entry.topics.now (item_of asked.entry.wanted folder.now base)) }
    ensures right { IfOk result IsRight }
    ensures refused { IfErr result (IsUnreadLog (D.holds disk.now) (file_path folder.now.path.now base Log)) }
{
    let name = folder.segment(base)?;
    let path = folder.log_path(alloc, base)?;
    let named = open_file(alloc, disk, path)?;
    let NamedFile { path, mut file } = named;
    let fold = fold_of(alloc, asked.wanted, asked.topics, &name, &mut file);
    drop(name);
    match fold {
        Ok(fold) => Ok(fold),
        Err(why) => Err(FoldingFault::Unread(refusal_of(alloc, path, &mut file, why))),
    }
}
