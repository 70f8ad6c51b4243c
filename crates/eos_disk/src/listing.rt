//! Which segments a folder has, by the names of the files in it.

ghost use Rattle.std.specs.Prelude.{◌≡◌, ◌++◌, [], length, map, take, None, IfOk, IfErr, IfSome, OnOk, OnErr, IsPermutation, IsSorted, string_bytes};
ghost use Rattle.eos_disk.specs.Paths.{file_path, path_of_end};
ghost use Rattle.eos_disk.specs.Refusals.{RefusesFile, RefusesFold, IsUnread};
ghost use Rattle.eos_disk.specs.Shapes.{segment_of, by_base, files_said, log_bases, AreByBase, IsFound, AreLogsAt};
ghost use Rattle.eos_disk.specs.Stopped.{IsNextRefused, IsTwice, IsFirstFold, RefusesLogs};
ghost use Rattle.eos_disk.specs.declared.names.Form.TheVariants.{Fold};
ghost use Rattle.eos_disk.specs.steps.Listing.{IsApart, AreApart, AreNamed, IsTakenTo, IsCut};

use crate::cause::Cause;
use crate::files::unread;
use crate::folder::FolderFault;
use crate::names::{FileName, Form, read_file_name};
use crate::paths::{file_path, partition_path};
use crate::refusal::{NO_RECORDS, TWICE, refused_at};
use crate::{Disk, DiskFault};
use bytes::Bytes;
use eos_evidence::{End, MAX_SEGMENTS, Segment};
use std::alloc::{AllocError, Global};

/// The segments of a folder in order, each with the form in which it stands there.
#[derive(Drop)]
pub(crate) struct Segments {
    /// The segments without their bytes.
    pub(crate) names: Vec<Segment>,
    /// The form of each, at its place.
    pub(crate) forms: Vec<Form>,
}

impl Segments {
    pub(crate) fn new(alloc: Global) -> Segments
        ensures { (result.names.items ≡ []) × (result.forms.items ≡ []) }
    {
        Segments {
            names: Vec::new(alloc),
            forms: Vec::new(alloc),
        }
    }

    /// Adds the segments of the partitions in order, each partition's by base. Where it is refused, those before that place were
    /// added.
    pub(crate) fn add_all<D: Disk>(
        &mut self,
        alloc: Global,
        disk: &D,
        folder: &str,
        ends: &[End],
    ) -> Result<(), FolderFault>
        requires { (self.old.names.items ≡ []) × (self.old.forms.items ≡ []) }
        ensures ok { OnOk result (AreNamed (D.holds disk.now) folder.now ends.now self.new.names.items self.new.forms.items) }
        ensures cut { IfErr result (IsCut (D.holds disk.now) folder.now ends.now self.new.names.items self.new.forms.items) }
    {
        for end in ends {
            let files = files_of(alloc, disk, folder, end)?;
            self.add_files(alloc, folder, end, files.as_slice())?;
        }
        Ok(())
    }

    /// Adds the segments of these files of a partition, which are in order.
    fn add_files(
        &mut self,
        alloc: Global,
        folder: &str,
        end: &End,
        files: &[FileName],
    ) -> Result<(), FolderFault>
        ensures names { OnOk result (self.new.names.items ≡ self.old.names.items ++ map (segment_of end.now) files.now) }
        ensures forms { OnOk result (self.new.forms.items ≡ self.old.forms.items ++ map (λ f. f.form) files.now) }
        ensures apart { OnOk result (AreApart files.now) }
        ensures taken { IfErr result (IsTakenTo end.now (path_of_end folder.now end.now) files.now self.old.names.items self.new.names.items self.old.forms.items self.new.forms.items) }
    {
        for i in 0..files.len() {
            self.add(alloc, folder, end, &files[i..])?;
        }
        Ok(())
    }

    /// Adds the segment of the first of these files of a partition, which are in order.
    fn add(
        &mut self,
        alloc: Global,
        folder: &str,
        end: &End,
        files: &[FileName],
    ) -> Result<(), FolderFault>
        ensures names { OnOk result (self.new.names.items ≡ self.old.names.items ++ map (segment_of end.now) (take 1 files.now)) }
        ensures forms { OnOk result (self.new.forms.items ≡ self.old.forms.items ++ map (λ f. f.form) (take 1 files.now)) }
        ensures apart { OnOk result (IsApart files.now) }
        ensures kept { OnErr result ((self.new.names.items ≡ self.old.names.items) × (self.new.forms.items ≡ self.old.forms.items)) }
        ensures refused { IfErr result (IsNextRefused (path_of_end folder.now end.now) (length self.old.names.items) files.now) }
    {
        let Some(file) = files.first() else {
            return Ok(());
        };
        if self.names.len() as u64 >= MAX_SEGMENTS {
            let path = path_of(alloc, folder, end, *file)?;
            return Err(FolderFault::Limit(Cause::ManySegments(path)));
        }
        if let Some(twice) = first_twice(files) {
            return Err(refused_twice(alloc, folder, end, twice));
        }
        let name = named(end, file.base)?;
        self.forms.reserve(1)?;
        self.names.push(name)?;
        self.forms.push_reserved(file.form);
        Ok(())
    }
}

/// The first of these files, which are in order, where the next has its base: a log stands beside its fold.
#[tactic(auto, using(crate::proofs::ListingsCut::two_first))]
fn first_twice(files: &[FileName]) -> Option<FileName>
    ensures twice { IfSome result (IsTwice files.now) }
    ensures apart { result ≡ None → IsApart files.now }
{
    if files.len() > 1 && files[1].base == files[0].base {
        return Some(files[0]);
    }
    None
}

/// The fold of this base is refused, beside which its log stands.
fn refused_twice(alloc: Global, folder: &str, end: &End, file: FileName) -> FolderFault
    ensures { RefusesFold (file_path (path_of_end folder.now end.now) file.base Fold) result }
{
    let fold = FileName {
        base: file.base,
        form: Form::Fold,
    };
    refused_at(path_of(alloc, folder, end, fold), TWICE)
}

/// The base offsets of a partition's segments, in order, each of which is a log: a fold is refused. A partition without a folder has
/// none; any other folder must be read.
pub fn bases_of<D: Disk>(
    alloc: Global,
    disk: &D,
    folder: &str,
    end: &End,
) -> Result<Vec<i64>, FolderFault>
    ensures ok { IfOk result (λ bases. AreLogsAt (D.holds disk.now) (path_of_end folder.now end.now) bases.items) }
    ensures refused { IfErr result (RefusesLogs (D.holds disk.now) (path_of_end folder.now end.now)) }
{
    let files = files_of(alloc, disk, folder, end)?;
    if let Some(fold) = first_fold(files.as_slice()) {
        return Err(refused_at(path_of(alloc, folder, end, fold), NO_RECORDS));
    }
    Ok(bases_of_logs(alloc, files.as_slice())?)
}

/// The first of these files that is a fold.
#[tactic(auto, using(crate::proofs::FirstFold::log_next))]
fn first_fold(files: &[FileName]) -> Option<FileName>
    ensures { IfSome result (IsFirstFold files.now) }
{
    for i in 0..files.len() {
        if let Form::Fold = files[i].form {
            return Some(files[i]);
        }
    }
    None
}

/// The path of a file of a partition.
fn path_of(alloc: Global, folder: &str, end: &End, file: FileName) -> Result<String, AllocError>
    ensures { IfOk result (λ path. string_bytes path ≡ file_path (path_of_end folder.now end.now) file.base file.form) }
{
    let partition = partition_path(alloc, folder, end.topic.as_slice(), end.partition)?;
    file_path(alloc, &partition, file.base, file.form)
}

/// The segment of a partition with this first offset, without its bytes.
fn named(end: &End, base: i64) -> Result<Segment, AllocError>
    ensures { IfOk result (λ segment. segment ≡ record { topic = end.now.topic; partition = end.now.partition; base = base; bytes = [] }) }
{
    Ok(Segment {
        topic: end.topic.clone()?,
        partition: end.partition,
        base,
        bytes: Bytes::new(),
    })
}

/// The base offsets of the logs in the folder of a partition at this path, in order; its folds don't count.
#[tactic(auto, using(crate::proofs::Listings::names_found))]
pub fn bases_in<D: Disk>(alloc: Global, disk: &D, path: &str) -> Result<Vec<i64>, FolderFault>
    ensures ok { IfOk result (λ bases. AreLogsAt (D.holds disk.now) path.now bases.items) }
    ensures err { IfErr result (RefusesFile path.now) }
{
    match disk.list(alloc, path) {
        Ok(names) => {
            let files = files_in(alloc, names.as_slice())?;
            Ok(bases_of_logs(alloc, files.as_slice())?)
        }
        Err(fault) => Err(unread(String::from_str(alloc, path)?, fault)),
    }
}

/// The base offsets of those that are logs.
fn bases_of_logs(alloc: Global, files: &[FileName]) -> Result<Vec<i64>, AllocError>
    ensures { IfOk result (λ bases. bases.items ≡ log_bases files.now) }
{
    let mut bases = Vec::new(alloc);
    for file in files {
        if let Form::Log = file.form {
            bases.push(file.base)?;
        }
    }
    Ok(bases)
}

/// The files of a partition's segments, by base. A partition without a folder has none; any other folder must be read.
#[tactic(auto, using(crate::proofs::Listings::end_found, crate::proofs::Listings::none_found))]
fn files_of<D: Disk>(
    alloc: Global,
    disk: &D,
    folder: &str,
    end: &End,
) -> Result<Vec<FileName>, FolderFault>
    ensures ok { IfOk result (λ files. IsFound (D.holds disk.now) (path_of_end folder.now end.now) files.items) }
    ensures err { IfErr result (IsUnread (path_of_end folder.now end.now)) }
{
    let path = partition_path(alloc, folder, end.topic.as_slice(), end.partition)?;
    match disk.list(alloc, &path) {
        Ok(names) => Ok(files_in(alloc, names.as_slice())?),
        Err(DiskFault::NotThere) => Ok(Vec::new(alloc)),
        Err(fault) => Err(unread(path, fault)),
    }
}

/// The files of these names that are named as segments, by base. Other names are left out.
#[tactic(auto, using(crate::proofs::Listings::ordered))]
fn files_in(alloc: Global, names: &[Bytes]) -> Result<Vec<FileName>, AllocError>
    ensures { IfOk result (λ files. AreByBase names.now files.items) }
{
    let files = files_said(alloc, names)?;
    Ok(by_base(files))
}

/// The same files by base.
fn by_base(mut files: Vec<FileName>) -> Vec<FileName>
    ensures sorted { IsSorted by_base result.items }
    ensures same { IsPermutation files.items result.items }
{
    files.sort_unstable_by(|a, b| a.base.cmp(&b.base));
    files
}

/// The same in the order of the names.
fn files_said(alloc: Global, names: &[Bytes]) -> Result<Vec<FileName>, AllocError>
    ensures { IfOk result (λ files. files.items ≡ files_said names.now) }
{
    let mut files = Vec::new(alloc);
    for name in names {
        if let Some(file) = read_file_name(name.as_slice()) {
            files.push(file)?;
        }
    }
    Ok(files)
}
