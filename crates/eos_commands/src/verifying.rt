//! Comparing folds with the logs that they were made of, where these are at hand.

ghost use Rattle.std.specs.Prelude.{◌≡◌, ◌≤◌, ◌<◌, ◌⊎◌, ◌++◌, ℕ, List, length, map, slice_get, None, Some, false, IfOk, IfSome, OnOk};
ghost use Rattle.std.specs.Io.KnownBytes.{Consumes, IsAtEnd};
ghost use Rattle.eos_base.specs.Members.{Has};
ghost use Rattle.eos_disk.specs.Entries.{HasBytes, MayLackFile};
ghost use Rattle.eos_evidence.specs.Evidence.{segments_of};
ghost use Rattle.eos_disk.specs.Paths.{segment_path};
ghost use Rattle.eos_disk.specs.declared.names.Form.TheVariants.{Log, Fold};
ghost use Rattle.eos_commits.specs.SourceTopics.{AreSourceTopics};
ghost use Rattle.eos_commands.specs.Verifying.{IsFoldText, HasFold, IsOfFront, IsLike, HaveNone, IsFound, AreOfOne, AreFound, AreVerified};
ghost use Rattle.eos_commands.specs.declared.found.Found.{Found};

use crate::folding::{refused, text_of};
use crate::found::{Found, Likeness};
use bytes::Bytes;
use eos_commits::source_topics;
use eos_disk::{
    Disk, DiskFault, FolderFault, Form, NamedFile, Shape, Watch, bases_in, open_segment,
    read_shape, segment_path,
};
use eos_evidence::{ReadFault, Segment};
use eos_fold_file::{FoldFault, decode_fold, fold_of};
use eos_reading::{Wanted, Wants};
use std::alloc::{AllocError, Global};
use std::io::Read;

/// What is compared.
#[derive(Clone, Copy)]
pub struct Compared<'a> {
    /// The folder of the folds, with the manifest by which they were made.
    pub folder: &'a str,
    /// The folders of logs. As in that one, a partition's stand in TOPIC-N.
    pub logs: &'a [&'a str],
}

/// Where folds and logs stand, and the topics whose claims are kept by a number.
#[derive(Drop)]
struct Sides<'a, D> {
    disk: &'a D,
    folder: &'a str,
    logs: &'a [&'a str],
    topics: &'a [Bytes],
}

/// A segment, of which only the name counts, and what is wanted of its records.
#[derive(Clone, Copy)]
struct Asked<'a> {
    name: &'a Segment,
    wanted: Wanted,
}

/// The file of a fold as it is made again.
#[derive(Drop)]
struct Made {
    text: Vec<u8>,
    /// The number of the segment's bytes.
    bytes: u64,
}

/// Nobody is told how far it is.
struct Unwatched;

impl Watch for Unwatched {
    fn found(&self, _segments: u64) {}

    fn read(&self, _bytes: u64) {}
}

/// Compares each fold of a folder with the log of its segment in the first of the folders that has it: whether its file is the one that is
/// made of the log's bytes, or that of a front of them. A segment that stands in the folder as a log is left out.
///
/// # Errors
/// The first folder of logs that can't be listed; then of the folder why it isn't listed; of its folds in order the first that can't be
/// read, or whose log can't be; or want of memory.
pub fn verify_folds<D: Disk>(
    alloc: Global,
    disk: &D,
    given: Compared<'_>,
) -> Result<Vec<Found>, FolderFault>
    ensures { IfOk result (λ found. AreVerified (D.holds disk.now) given.entry.folder.now (map (λ l. l.now) given.entry.logs.now) found.items) }
{
    list_all(alloc, disk, given.logs)?;
    let shape = read_shape(alloc, disk, given.folder, &Unwatched)?;
    match compare_shape(alloc, disk, given, &shape) {
        Ok(found) => {
            drop(shape.evidence);
            drop(shape.forms);
            shape.listed?;
            Ok(found)
        }
        Err(fault) => {
            drop(shape);
            Err(fault)
        }
    }
}

/// Lists these folders, so that one that isn't there is told.
fn list_all<D: Disk>(alloc: Global, disk: &D, folders: &[&str]) -> Result<(), FolderFault> {
    for folder in folders {
        bases_in(alloc, disk, folder)?;
    }
    Ok(())
}

/// What is found of the folds of a folder of this shape.
fn compare_shape<D: Disk>(
    alloc: Global,
    disk: &D,
    given: Compared<'_>,
    shape: &Shape,
) -> Result<Vec<Found>, FolderFault>
    ensures { IfOk result (λ found. (topics : List (List ℕ)) × AreSourceTopics shape.now.evidence.spec.apps topics
        × AreFound (D.holds disk.now) topics shape.now.evidence.spec.apps given.entry.folder.now (map (λ l. l.now) given.entry.logs.now) (segments_of shape.now.evidence.partitions) shape.now.forms.items found.items) }
{
    let topics = source_topics(alloc, shape.evidence.spec().apps().as_slice())?;
    let places = Sides {
        disk,
        folder: given.folder,
        logs: given.logs,
        topics: topics.as_slice(),
    };
    places.compare_all(alloc, shape)
}

impl<'a, D: Disk> Sides<'a, D> {
    /// What is found of the folds of a folder of this shape, in order.
    fn compare_all(&self, alloc: Global, shape: &Shape) -> Result<Vec<Found>, FolderFault>
        ensures { IfOk result (λ found. AreFound (D.holds self.now.disk.now) self.now.topics.now shape.now.evidence.spec.apps self.now.folder.now (map (λ l. l.now) self.now.logs.now) (segments_of shape.now.evidence.partitions) shape.now.forms.items found.items) }
    {
        let wants = Wants::of(alloc, shape.evidence.spec().apps().as_slice())?;
        let mut found = Vec::new(alloc);
        let forms = shape.forms.as_slice();
        let count = fewer(shape.evidence.pieces(), forms.len() as u64);
        for i in 0..count {
            let name = shape.evidence.piece(i);
            let wanted = wants.of_topic(name.topic.as_slice());
            let form = form_at(forms, i);
            self.push(alloc, &mut found, Asked { name, wanted }, form)?;
        }
        Ok(found)
    }

    /// Adds what is found of a segment that stands there in this form: nothing of a log.
    fn push(
        &self,
        alloc: Global,
        found: &mut Vec<Found>,
        asked: Asked<'_>,
        form: Form,
    ) -> Result<(), FolderFault>
        ensures { OnOk result ((one : List Found) × AreOfOne (D.holds self.now.disk.now) self.now.topics.now asked.entry.wanted self.now.folder.now (map (λ l. l.now) self.now.logs.now) asked.entry.name.now form one
            × (found.new.items ≡ found.old.items ++ one)) }
    {
        match form {
            Form::Log => Ok(()),
            Form::Fold => {
                found.push(self.find(alloc, asked)?)?;
                Ok(())
            }
        }
    }

    /// What is found of the fold of this segment.
    fn find(&self, alloc: Global, asked: Asked<'_>) -> Result<Found, FolderFault>
        ensures { IfOk result (IsFound (D.holds self.now.disk.now) self.now.topics.now asked.entry.wanted self.now.folder.now (map (λ l. l.now) self.now.logs.now) asked.entry.name.now) }
    {
        let path = segment_path(alloc, self.folder, asked.name, Form::Fold)?;
        match self.find_log(alloc, asked.name)? {
            None => Ok(Found { path, how: None }),
            Some(logs) => {
                let how = self.compare(alloc, asked, logs)?;
                Ok(Found {
                    path,
                    how: Some(how),
                })
            }
        }
    }

    /// The first of the folders in which the log of this segment stands.
    #[tactic(auto, using(crate::proofs::FoundMore::lacks_next, crate::proofs::FoundMore::lacks_all, crate::proofs::FoundMore::has_at))]
    fn find_log(&self, alloc: Global, name: &Segment) -> Result<Option<&'a str>, FolderFault>
        ensures none { IfOk result (λ logs. logs ≡ None → HaveNone (D.holds self.now.disk.now) name.now (map (λ l. l.now) self.now.logs.now)) }
        ensures one { IfOk result (λ logs. IfSome logs (λ l. Has (map (λ l. l.now) self.now.logs.now) l.now)) }
    {
        for logs in self.logs {
            if self.has_log(alloc, logs, name)? {
                return Ok(Some(*logs));
            }
        }
        Ok(None)
    }

    /// Whether the log of this segment stands in this folder.
    fn has_log(&self, alloc: Global, logs: &str, name: &Segment) -> Result<bool, FolderFault>
        ensures { IfOk result (λ has. has ≡ false → MayLackFile (D.holds self.now.disk.now (segment_path logs.now name.now Log))) }
    {
        let path = segment_path(alloc, logs, name, Form::Log)?;
        match self.disk.open(alloc, path.as_str()) {
            Err(DiskFault::NotThere) => Ok(false),
            opened => {
                NamedFile::of_opened(path, opened)?;
                Ok(true)
            }
        }
    }

    /// How the fold of this segment is to the log in one of the folders.
    fn compare(&self, alloc: Global, asked: Asked<'_>, logs: &str) -> Result<Likeness, FolderFault>
        ensures { IfOk result (λ how. (text : List ℕ) × HasBytes (D.holds self.now.disk.now (segment_path self.now.folder.now asked.entry.name.now Fold)) text
            × IsLike (D.holds self.now.disk.now) self.now.topics.now asked.entry.wanted asked.entry.name.now logs.now text how) }
    {
        let file = open_segment(alloc, self.disk, self.folder, asked.name, Form::Fold)?;
        let text = file.read_whole(alloc)?;
        self.judge(alloc, asked, logs, &text)
    }

    /// How this text is to the log in one of the folders.
    fn judge(
        &self,
        alloc: Global,
        asked: Asked<'_>,
        logs: &str,
        text: &Bytes,
    ) -> Result<Likeness, FolderFault>
        ensures { IfOk result (IsLike (D.holds self.now.disk.now) self.now.topics.now asked.entry.wanted asked.entry.name.now logs.now text.now) }
    {
        let made = self.make(alloc, asked, logs)?;
        let is_whole = text.as_slice() == made.text.as_slice();
        drop(made.text);
        if is_whole {
            return Ok(Likeness::Right);
        }
        match bytes_said(alloc, text)? {
            Some(bytes) if bytes < made.bytes => {
                let front = self.make_front(alloc, asked, logs, bytes)?;
                let is_front = text.as_slice() == front.as_slice();
                drop(front);
                if is_front {
                    Ok(Likeness::Stale)
                } else {
                    Ok(Likeness::Forged)
                }
            }
            _ => Ok(Likeness::Forged),
        }
    }

    /// The fold of the log of this segment in one of the folders.
    #[tactic(auto, using(crate::proofs::Likenesses::has_fold))]
    fn make(&self, alloc: Global, asked: Asked<'_>, logs: &str) -> Result<Made, FolderFault>
        ensures { IfOk result (λ made. HasFold (D.holds self.now.disk.now) self.now.topics.now asked.entry.wanted asked.entry.name.now logs.now made.text.items) }
    {
        let mut file = open_segment(alloc, self.disk, logs, asked.name, Form::Log)?;
        match make_of(alloc, asked, self.topics, &mut file) {
            Ok(made) => Ok(made),
            Err(why) => Err(refused(alloc, file, why)),
        }
    }

    /// The text of the fold of the first so many bytes of that log.
    fn make_front(
        &self,
        alloc: Global,
        asked: Asked<'_>,
        logs: &str,
        bytes: u64,
    ) -> Result<Vec<u8>, FolderFault>
        ensures { IfOk result (λ text. IsOfFront (D.holds self.now.disk.now) self.now.topics.now asked.entry.wanted asked.entry.name.now logs.now text.items) }
    {
        let file = open_segment(alloc, self.disk, logs, asked.name, Form::Log)?;
        let mut front = file.take(bytes);
        match make_of(alloc, asked, self.topics, &mut front) {
            Ok(made) => Ok(made.text),
            Err(why) => Err(refused(alloc, front.into_inner(), why)),
        }
    }
}

/// The lesser number.
fn fewer(a: u64, b: u64) -> u64
    ensures first { result ≤ a }
    ensures second { result ≤ b }
    ensures one { (result ≡ a) ⊎ (result ≡ b) }
{
    if a < b { a } else { b }
}

fn form_at(forms: &[Form], i: u64) -> Form
    requires { i < length forms.now }
    ensures { slice_get forms.now i ≡ Some result }
{
    forms[i as usize]
}

/// The fold of what a reader has left.
#[tactic(auto, using(crate::proofs::Likenesses::text_is))]
fn make_of<R: Read>(
    alloc: Global,
    asked: Asked<'_>,
    topics: &[Bytes],
    reader: &mut R,
) -> Result<Made, ReadFault>
    ensures ok { IfOk result (λ made. (bytes : List ℕ) × Consumes (R.remaining reader.old) (R.remaining reader.new) bytes × IsFoldText topics.now asked.entry.wanted asked.entry.name.now bytes made.text.items) }
    ensures end { OnOk result (IsAtEnd (R.remaining reader.new)) }
{
    let fold = fold_of(alloc, asked.wanted, topics, asked.name, reader)?;
    let (text, bytes) = text_of(alloc, fold)?;
    Ok(Made { text, bytes })
}

/// How many bytes the segment has by its fold, if these bytes are one.
fn bytes_said(alloc: Global, text: &Bytes) -> Result<Option<u64>, AllocError> {
    match decode_fold(alloc, text) {
        Ok(fold) => {
            let bytes = fold.bytes;
            drop(fold);
            Ok(Some(bytes))
        }
        Err(FoldFault::OutOfMemory) => Err(AllocError),
        Err(_) => Ok(None),
    }
}
