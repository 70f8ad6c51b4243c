//! The stories of the first faults of an evidence, which is read once for all of them, and then the partitions that they name.

ghost use Rattle.std.specs.Prelude.{◌≡◌, ℕ, map, List, true, IfOk, IfErr, OnOk, string_bytes, alloc_error};
ghost use Rattle.eos_verdict.specs.declared.verdict.Fault.{Fault as AFault};
ghost use Rattle.eos_verdict.specs.declared.verdict.Verdict.TheVariants.{No};
ghost use Rattle.eos_disk.specs.Shapes.{AreKnown};
ghost use Rattle.eos_evidence.specs.Evidence.{EvidenceParts, segments_of};
ghost use Rattle.eos_source.specs.FirstRefusals.{IsOfPieces, outcomes_of, pieces_of};
ghost use Rattle.eos_source.specs.Refusals.{AreOpened};
ghost use Rattle.eos_source.specs.Said.{known_by};
ghost use Rattle.eos_source.specs.Saying.{known_at, StandsAt};
ghost use Rattle.eos_source_check.specs.Refusals.{IsUnread, IsUntold};
ghost use Rattle.eos_explaining.specs.FirstStories.{AreFirstStories};
ghost use Rattle.eos_explaining.specs.Folders.{HoldsAsNamed, HoldsOf};
ghost use Rattle.eos_explaining.specs.Refused.{IsFirstAgain};
ghost use Rattle.eos_explaining.specs.steps.Again.{ReadsMore, AreToldBy};
ghost use Rattle.eos_explaining.specs.steps.Found.{AreFoundBy, HoldsByNamed};
ghost use Rattle.eos_explaining.specs.steps.Untold.{IsAfter};

use crate::answer::{Findings, found_in};
use crate::kinds::Pick;
use crate::seen::{parts_of, seen_logs};
use crate::story::{About, story_of};
use eos_base::Workers;
use eos_check::Verdict;
use eos_disk::{Disk, FolderFault, Shape, Watch, read_shape};
use eos_faults::Crew;
use eos_sought::Folded;
use eos_source::{Folder, FolderSource, Source};
use eos_source_check::{Judged, Pieces, Unlisted, judge_source, refusal_of};
use std::alloc::Global;
use std::thread::Threads;

/// How many stories there are, and by how many threads the folder is read for them.
#[derive(Clone, Copy)]
pub struct First {
    pub workers: Workers,
    /// So many at most.
    pub most: usize,
}

/// The stories of the faults that these verdicts name.
fn told_each<S: Source, R: Threads + Sync>(
    crew: &Crew<'_, R>,
    pieces: &Pieces<'_, S>,
    read: &mut Vec<Folded>,
    about: &About<'_>,
    told: &[Verdict],
) -> Result<Vec<String>, Unlisted<S::Fault>>
    requires { (faults : List AFault) × (told.now ≡ map No faults) }
    ensures more { OnOk result (ReadsMore (known_by (S.said pieces.now.source.now) (S.is_log pieces.now.source.now)) pieces.now.shape.now.partitions read.old.items read.new.items) }
    ensures told { IfOk result (λ texts. AreToldBy (known_by (S.said pieces.now.source.now) (S.is_log pieces.now.source.now)) pieces.now.shape.now read.new.items about.now told.now (map string_bytes texts.items)) }
    ensures unread { IfErr result (IsUnread (S.outcomes pieces.now.source.now) (pieces_of pieces.now.shape.now)) }
{
    let mut texts = Vec::new(crew.alloc);
    for i in 0..told.len() {
        let text = story_of(crew, pieces, read, about, &told[i])?;
        texts.push(text)?;
    }
    Ok(texts)
}

/// The stories of the faults that are held of those that were found.
fn of_findings<S: Source, R: Threads + Sync>(
    crew: &Crew<'_, R>,
    pieces: &Pieces<'_, S>,
    judged: Judged,
    folder: &str,
    found: &Findings,
) -> Result<Vec<String>, Unlisted<S::Fault>>
    requires { (most : ℕ) × AreFoundBy (known_by (S.said pieces.now.source.now) (S.is_log pieces.now.source.now)) pieces.now.shape.now judged 0 most found.now }
    ensures told { IfOk result (λ texts. (most : ℕ) → AreFoundBy (known_by (S.said pieces.now.source.now) (S.is_log pieces.now.source.now)) pieces.now.shape.now judged 0 most found.now
        → HoldsByNamed (known_by (S.said pieces.now.source.now) (S.is_log pieces.now.source.now)) pieces.now.shape.now judged (λ e. AreFirstStories folder.now e most (map string_bytes texts.items))) }
    ensures unread { IfErr result (IsUnread (S.outcomes pieces.now.source.now) (pieces_of pieces.now.shape.now)) }
{
    let told = found.told.as_slice();
    let parts = seen_logs(crew.alloc, pieces, parts_of(judged), told)?;
    let mut read = Vec::new(crew.alloc);
    let about = About {
        folder,
        counts: found.line.as_str(),
        notes: found.notes.as_slice(),
        logs: parts.as_slice(),
    };
    told_each(crew, pieces, &mut read, &about, told)
}

/// The stories of the first faults of what was judged.
fn of_judged<S: Source, R: Threads + Sync>(
    crew: &Crew<'_, R>,
    pieces: &Pieces<'_, S>,
    judged: Judged,
    folder: &str,
    most: u64,
) -> Result<Vec<String>, Unlisted<S::Fault>>
    ensures told { IfOk result (λ texts. HoldsByNamed (known_by (S.said pieces.now.source.now) (S.is_log pieces.now.source.now)) pieces.now.shape.now judged (λ e. AreFirstStories folder.now e most (map string_bytes texts.items))) }
    ensures refused { IfErr result (IsAfter (known_by (S.said pieces.now.source.now) (S.is_log pieces.now.source.now)) (S.outcomes pieces.now.source.now) pieces.now.shape.now.partitions judged) }
{
    let pick = Pick { from: 0, most };
    match found_in(crew, pieces, &judged, pick) {
        Ok(found) => {
            let texts = of_findings(crew, pieces, judged, folder, &found);
            drop(found);
            Ok(texts?)
        }
        Err(why) => {
            drop(judged);
            Err(why)
        }
    }
}

/// Reads the pieces, each once, and tells.
fn of_source<S: Source, R: Threads + Sync>(
    alloc: Global,
    threads: &R,
    pieces: Pieces<'_, S>,
    folder: &str,
    first: &First,
) -> Result<Vec<String>, Unlisted<S::Fault>>
    ensures told { IfOk result (λ texts. HoldsAsNamed (known_by (S.said pieces.entry.source.now) (S.is_log pieces.entry.source.now)) pieces.entry.shape.now (λ e. AreFirstStories folder.now e first.now.most (map string_bytes texts.items))) }
    ensures opened { IfOk result (λ texts. AreOpened (S.outcomes pieces.entry.source.now) (pieces_of pieces.entry.shape.now)) }
    ensures refused { IfErr result (IsUntold (S.outcomes pieces.entry.source.now) (S.Fault.from_gives alloc_error) (pieces_of pieces.entry.shape.now) true) }
{
    match judge_source(alloc, threads, pieces.source, pieces.shape, first.workers) {
        Ok(judged) => {
            let crew = Crew {
                alloc,
                rt: threads,
                workers: first.workers,
            };
            of_judged(&crew, &pieces, judged, folder, first.most as u64)
        }
        Err(fault) => Err(Unlisted::Refused(fault)),
    }
}

/// Reads the segments of a folder of this shape, and tells.
fn of_shape<D: Disk, T: Watch, R: Threads + Sync>(
    alloc: Global,
    threads: &R,
    folder: Folder<'_, D, T>,
    shape: &Shape,
    first: &First,
) -> Result<Vec<String>, FolderFault>
    ensures told { IfOk result (λ texts. HoldsAsNamed (known_at (D.holds folder.entry.disk.now) folder.entry.path.now (segments_of shape.now.evidence.partitions) shape.now.forms.items) shape.now.evidence
        (λ e. AreFirstStories folder.entry.path.now e first.now.most (map string_bytes texts.items))) }
    ensures opened { IfOk result (λ texts. AreOpened (outcomes_of (D.holds folder.entry.disk.now) folder.entry.path.now shape.now.evidence shape.now.forms.items) (pieces_of shape.now.evidence)) }
    ensures refused { IfErr result (IsOfPieces (outcomes_of (D.holds folder.entry.disk.now) folder.entry.path.now shape.now.evidence shape.now.forms.items) (pieces_of shape.now.evidence) true) }
{
    let source = FolderSource { folder, shape };
    let pieces = Pieces {
        source: &source,
        shape: &shape.evidence,
    };
    match of_source(alloc, threads, pieces, source.folder.path, first) {
        Ok(texts) => Ok(texts),
        Err(why) => Err(refusal_of(alloc, &source, why)),
    }
}

/// The stories of the first faults of the evidence in a folder of a disk, in the order of the list of all; so many, or all where there are
/// fewer. A yes has none.
///
/// The folder is read once, and no more of it is held than the verdict wants; then, of the partitions that the stories name, what they
/// need: their folds, and the batches of their rows. Of a disk of which nothing is known these are of an evidence that has the partitions as
/// they were read again.
///
/// # Errors
/// Those of `explain_folder_to` before it writes.
pub fn first_stories<D: Disk, T: Watch, R: Threads + Sync>(
    alloc: Global,
    threads: &R,
    folder: Folder<'_, D, T>,
    first: &First,
) -> Result<Vec<String>, FolderFault>
    ensures some { IfOk result (λ texts. HoldsOf (D.holds folder.entry.disk.now) folder.entry.path.now (λ e. AreFirstStories folder.entry.path.now e first.now.most (map string_bytes texts.items))) }
    ensures known { (e : EvidenceParts) → AreKnown (D.holds folder.entry.disk.now) folder.entry.path.now → StandsAt (D.holds folder.entry.disk.now) folder.entry.path.now e
        → IfOk result (λ texts. AreFirstStories folder.entry.path.now e first.now.most (map string_bytes texts.items)) }
    ensures first { IfErr result (IsFirstAgain (D.holds folder.entry.disk.now) folder.entry.path.now) }
{
    let shape = read_shape(alloc, folder.disk, folder.path, folder.watch)?;
    match of_shape(alloc, threads, folder, &shape, first) {
        Ok(texts) => {
            drop(shape.evidence);
            drop(shape.forms);
            shape.listed?;
            Ok(texts)
        }
        Err(fault) => {
            drop(shape);
            Err(fault)
        }
    }
}
