//! The pictures around the first faults of a folder, as texts. The folder is read once for all of them.

ghost use Rattle.std.specs.Prelude.{◌≡◌, ◌≤◌, ◌<◌, map, Some, IfOk, IfErr, string_bytes, alloc_error};
ghost use Rattle.eos_verdict.specs.declared.verdict.Fault.{Fault as AFault};
ghost use Rattle.eos_verdict.specs.declared.verdict.Verdict.TheVariants.{No};
ghost use Rattle.eos_disk.specs.Shapes.{AreKnown};
ghost use Rattle.eos_evidence.specs.Evidence.{EvidenceParts, segments_of};
ghost use Rattle.eos_source.specs.FirstRefusals.{outcomes_of, pieces_of};
ghost use Rattle.eos_source.specs.Refusals.{AreOpened};
ghost use Rattle.eos_source.specs.Said.{known_by};
ghost use Rattle.eos_source.specs.Saying.{known_at, StandsAt};
ghost use Rattle.eos_source_check.specs.Folders.{HoldsAsRead};
ghost use Rattle.eos_source_check.specs.Refusals.{IsRefusedAgain};
ghost use Rattle.eos_drawing.specs.FirstPictures.{AreFirstPictures};
ghost use Rattle.eos_drawing.specs.Folders.{is_later, HoldsAt, HoldsOf};
ghost use Rattle.eos_drawing.specs.Refused.{IsFirstOfDrawing};
ghost use Rattle.eos_drawing.specs.steps.Pictures.{IsTextBy, AreTextsBy, ArePicturesBy};
ghost use Rattle.eos_drawing.specs.steps.Undrawn.{IsAfter, IsUndrawn, IsUndrawnOf};

use crate::answer::{Wanted, drawn_of};
use eos_base::Workers;
use eos_disk::{Disk, FolderFault, Shape, Watch, read_shape};
use eos_source::{Folder, FolderSource, Source};
use eos_source_check::{
    Crew, Judged, Pieces, Unlisted, all_source_faults, judge_source, refusal_of,
};
use eos_verdict::{Fault, Verdict};
use std::alloc::Global;
use std::thread::Threads;

/// How many pictures there are, and by how many threads the folder is read for them.
#[derive(Clone, Copy)]
pub struct First {
    pub workers: Workers,
    /// So many at most, but one at least.
    pub most: usize,
}

/// The text around the fault of this verdict.
fn text_around<S: Source>(
    alloc: Global,
    pieces: Pieces<'_, S>,
    judged: &Judged,
    verdict: &Verdict,
) -> Result<String, Unlisted<S::Fault>>
    ensures text { IfOk result (λ text. IsTextBy (known_by (S.said pieces.entry.source.now) (S.is_log pieces.entry.source.now)) pieces.entry.shape.now.partitions judged.now verdict.now (string_bytes text)) }
    ensures refused { IfErr result (IsRefusedAgain (S.outcomes pieces.entry.source.now) (pieces_of pieces.entry.shape.now)) }
{
    let wanted = Wanted {
        fault: None,
        around: None,
    };
    let drawn = drawn_of(alloc, pieces, judged, verdict, wanted)?;
    Ok(drawn.text)
}

/// The texts around these faults.
#[tactic(auto, using(crate::proofs::FirstOnes::text_more))]
fn texts_around<S: Source>(
    alloc: Global,
    pieces: Pieces<'_, S>,
    judged: &Judged,
    faults: Vec<Fault>,
) -> Result<Vec<String>, Unlisted<S::Fault>>
    ensures texts { IfOk result (λ texts. AreTextsBy (known_by (S.said pieces.entry.source.now) (S.is_log pieces.entry.source.now)) pieces.entry.shape.now.partitions judged.now faults.items (map string_bytes texts.items)) }
    ensures refused { IfErr result (IsRefusedAgain (S.outcomes pieces.entry.source.now) (pieces_of pieces.entry.shape.now)) }
{
    let mut texts = Vec::new(alloc);
    for fault in faults {
        let again = Pieces {
            source: pieces.source,
            shape: pieces.shape,
        };
        let verdict = Verdict::No(fault);
        let text = text_around(alloc, again, judged, &verdict);
        drop(verdict);
        texts.push(text?)?;
    }
    Ok(texts)
}

/// That of the verdict's fault.
#[tactic(auto, using(crate::proofs::FirstOnes::of_first))]
fn only_first<S: Source>(
    alloc: Global,
    pieces: Pieces<'_, S>,
    judged: &Judged,
    most: usize,
) -> Result<Vec<String>, Unlisted<S::Fault>>
    requires most { most ≤ 1 }
    requires no { (fault : AFault) × (judged.now.verdict ≡ No fault) }
    ensures texts { IfOk result (λ texts. ArePicturesBy (known_by (S.said pieces.entry.source.now) (S.is_log pieces.entry.source.now)) pieces.entry.shape.now judged.now most (map string_bytes texts.items)) }
    ensures refused { IfErr result (IsRefusedAgain (S.outcomes pieces.entry.source.now) (pieces_of pieces.entry.shape.now)) }
{
    let text = text_around(alloc, pieces, judged, &judged.verdict)?;
    let mut texts = Vec::new(alloc);
    texts.push(text)?;
    Ok(texts)
}

/// Those of the first of all faults. Of partitions that have faults by themselves the folds are read once more, one after the other.
fn of_list<S: Source, R: Threads + Sync>(
    crew: &Crew<'_, R>,
    pieces: Pieces<'_, S>,
    judged: &Judged,
    most: usize,
) -> Result<Vec<String>, Unlisted<S::Fault>>
    requires { 1 < most }
    ensures texts { IfOk result (λ texts. ArePicturesBy (known_by (S.said pieces.entry.source.now) (S.is_log pieces.entry.source.now)) pieces.entry.shape.now judged.now most (map string_bytes texts.items)) }
    ensures refused { IfErr result (IsAfter (known_by (S.said pieces.entry.source.now) (S.is_log pieces.entry.source.now)) (S.outcomes pieces.entry.source.now) pieces.entry.shape.now.partitions judged.now (is_later (Some most))) }
{
    let mut faults = all_source_faults(crew, &pieces, &judged.logs)?;
    faults.truncate(most);
    let texts = texts_around(crew.alloc, pieces, judged, faults)?;
    Ok(texts)
}

/// The texts around the first faults of what was judged.
#[tactic(auto, using(crate::proofs::FirstOnes::of_yes))]
fn of_judged<S: Source, R: Threads + Sync>(
    crew: &Crew<'_, R>,
    pieces: Pieces<'_, S>,
    judged: &Judged,
    most: usize,
) -> Result<Vec<String>, Unlisted<S::Fault>>
    ensures texts { IfOk result (λ texts. ArePicturesBy (known_by (S.said pieces.entry.source.now) (S.is_log pieces.entry.source.now)) pieces.entry.shape.now judged.now most (map string_bytes texts.items)) }
    ensures refused { IfErr result (IsAfter (known_by (S.said pieces.entry.source.now) (S.is_log pieces.entry.source.now)) (S.outcomes pieces.entry.source.now) pieces.entry.shape.now.partitions judged.now (is_later (Some most))) }
{
    match judged.verdict {
        Verdict::Yes(_) => Ok(Vec::new(crew.alloc)),
        Verdict::No(_) => {
            if most > 1 {
                return of_list(crew, pieces, judged, most);
            }
            let texts = only_first(crew.alloc, pieces, judged, most)?;
            Ok(texts)
        }
    }
}

/// Reads the pieces, each once, and draws.
#[tactic(auto, using(eos_source_check::proofs::FoldersRead::of_judged, crate::proofs::FirstRefused::unjudged))]
fn of_source<S: Source, R: Threads + Sync>(
    alloc: Global,
    threads: &R,
    pieces: Pieces<'_, S>,
    first: &First,
) -> Result<Vec<String>, Unlisted<S::Fault>>
    ensures texts { IfOk result (λ texts. HoldsAsRead (known_by (S.said pieces.entry.source.now) (S.is_log pieces.entry.source.now)) pieces.entry.shape.now (is_later (Some first.now.most)) (λ e. AreFirstPictures (known_by (S.said pieces.entry.source.now) (S.is_log pieces.entry.source.now)) pieces.entry.shape.now.partitions e first.now.most (map string_bytes texts.items))) }
    ensures opened { IfOk result (λ texts. AreOpened (S.outcomes pieces.entry.source.now) (pieces_of pieces.entry.shape.now)) }
    ensures refused { IfErr result (IsUndrawn (S.outcomes pieces.entry.source.now) (S.Fault.from_gives alloc_error) (pieces_of pieces.entry.shape.now) (is_later (Some first.now.most))) }
{
    match judge_source(alloc, threads, pieces.source, pieces.shape, first.workers) {
        Ok(judged) => {
            let crew = Crew {
                alloc,
                rt: threads,
                workers: first.workers,
            };
            let texts = of_judged(&crew, pieces, &judged, first.most);
            drop(judged);
            Ok(texts?)
        }
        Err(fault) => Err(Unlisted::Refused(fault)),
    }
}

/// Reads the segments of a folder of this shape, and draws.
fn of_shape<D: Disk, T: Watch, R: Threads + Sync>(
    alloc: Global,
    threads: &R,
    folder: Folder<'_, D, T>,
    shape: &Shape,
    first: &First,
) -> Result<Vec<String>, FolderFault>
    ensures texts { IfOk result (λ texts. HoldsAsRead (known_at (D.holds folder.entry.disk.now) folder.entry.path.now (segments_of shape.now.evidence.partitions) shape.now.forms.items) shape.now.evidence (is_later (Some first.now.most))
        (λ e. AreFirstPictures (known_at (D.holds folder.entry.disk.now) folder.entry.path.now (segments_of shape.now.evidence.partitions) shape.now.forms.items) shape.now.evidence.partitions e first.now.most (map string_bytes texts.items))) }
    ensures opened { IfOk result (λ texts. AreOpened (outcomes_of (D.holds folder.entry.disk.now) folder.entry.path.now shape.now.evidence shape.now.forms.items) (pieces_of shape.now.evidence)) }
    ensures refused { IfErr result (IsUndrawnOf (outcomes_of (D.holds folder.entry.disk.now) folder.entry.path.now shape.now.evidence shape.now.forms.items) (pieces_of shape.now.evidence) (is_later (Some first.now.most))) }
{
    let source = FolderSource { folder, shape };
    let pieces = Pieces {
        source: &source,
        shape: &shape.evidence,
    };
    match of_source(alloc, threads, pieces, first) {
        Ok(texts) => Ok(texts),
        Err(why) => Err(refusal_of(alloc, &source, why)),
    }
}

/// Reads a folder, and draws.
fn of_folder<D: Disk, T: Watch, R: Threads + Sync>(
    alloc: Global,
    threads: &R,
    folder: Folder<'_, D, T>,
    first: &First,
) -> Result<Vec<String>, FolderFault>
    ensures texts { IfOk result (λ texts. HoldsOf (D.holds folder.entry.disk.now) folder.entry.path.now (is_later (Some first.now.most)) (λ known partitions e. AreFirstPictures known partitions e first.now.most (map string_bytes texts.items))) }
    ensures first { IfErr result (IsFirstOfDrawing (D.holds folder.entry.disk.now) folder.entry.path.now (is_later (Some first.now.most))) }
{
    let shape = read_shape(alloc, folder.disk, folder.path, folder.watch)?;
    match of_shape(alloc, threads, folder, &shape, first) {
        Ok(texts) => {
            drop(shape.evidence);
            shape.listed?;
            Ok(texts)
        }
        Err(fault) => {
            drop(shape);
            Err(fault)
        }
    }
}

/// The pictures around the first faults of the evidence in a folder of a disk, in the order of the list of all, as the texts that `draw`
/// writes of them; so many, or all where there are fewer. A yes has none.
///
/// The folder is read once, and no more of it is held than the verdict wants. Where more than one is wanted, partitions that have faults
/// by themselves are read once more: of a disk of which nothing is known they are then those of an evidence that has these as they were
/// read again.
///
/// # Errors
/// Those of `draw_folder_to` that are of the folder.
pub fn first_pictures<D: Disk, T: Watch, R: Threads + Sync>(
    alloc: Global,
    threads: &R,
    folder: Folder<'_, D, T>,
    first: &First,
) -> Result<Vec<String>, FolderFault>
    ensures some { IfOk result (λ texts. HoldsOf (D.holds folder.entry.disk.now) folder.entry.path.now (is_later (Some first.now.most)) (λ known partitions e. AreFirstPictures known partitions e first.now.most (map string_bytes texts.items))) }
    ensures known { (e : EvidenceParts) → AreKnown (D.holds folder.entry.disk.now) folder.entry.path.now → (at : StandsAt (D.holds folder.entry.disk.now) folder.entry.path.now e)
        → IfOk result (λ texts. HoldsAt (D.holds folder.entry.disk.now) folder.entry.path.now e at (λ known partitions e. AreFirstPictures known partitions e first.now.most (map string_bytes texts.items))) }
    ensures first { IfErr result (IsFirstOfDrawing (D.holds folder.entry.disk.now) folder.entry.path.now (is_later (Some first.now.most))) }
{
    let texts = of_folder(alloc, threads, folder, first)?;
    Ok(texts)
}
