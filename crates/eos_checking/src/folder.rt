//! `check` of a folder: from the bytes of its files to the lines that are written.

ghost use Rattle.std.specs.Prelude.{◌≡◌, ◌≢◌, Err, IfOk, IfErr, OnErr, string_bytes, alloc_error};
ghost use Rattle.std.specs.Io.KnownBytes.{Appends, Keeps};
ghost use Rattle.eos_ending.specs.Subjects.{subject_text};
ghost use Rattle.eos_evidence.specs.Evidence.{EvidenceParts, segments_of};
ghost use Rattle.eos_disk.specs.Shapes.{AreKnown};
ghost use Rattle.eos_source.specs.Saying.{known_at, StandsAt};
ghost use Rattle.eos_source.specs.Said.{known_by};
ghost use Rattle.eos_text.specs.Writing.{WritesFront, WritesFrontOf};
ghost use Rattle.eos_checking.specs.Checking.{IsCheckAnswer};
ghost use Rattle.eos_checking.specs.Dates.{IsDated, IsDatedIn};
ghost use Rattle.eos_checking.specs.FoldCounts.{IsFoldedAt, wanted_with};
ghost use Rattle.eos_checking.specs.Folders.{IsToldOf, HoldsOf};
ghost use Rattle.eos_checking.specs.Sources.{IsAnswerFor};
ghost use Rattle.eos_checking.specs.Refused.{IsFirst};
ghost use Rattle.eos_source.specs.FirstRefusals.{IsOfPieces, IsFirstOfFolder, outcomes_of, pieces_of};
ghost use Rattle.eos_source.specs.Refusals.{AreOpened};
ghost use Rattle.eos_source_check.specs.Folders.{HoldsAsRead};
ghost use Rattle.eos_source_check.specs.Refusals.{IsUntold};
ghost use Rattle.eos_checking.specs.declared.folder.Unchecked.TheVariants.{CannotWrite};

use crate::check::{Asked, Said};
use crate::folds::{Folded, folded_of, wanted_with};
use crate::report::Timed;
use crate::source::{SourceAnswer, answer_all, answer_source};
use eos_disk::{Disk, FolderFault, Shape, Watch, read_shape};
use eos_source::{FolderSource, Source};
use eos_source_check::{Pieces, Unlisted, refusal_of};
use eos_text::{WriteFault, finish};
use std::alloc::Global;
use std::io::Write;
use std::thread::Threads;

/// A folder of a disk.
#[derive(Clone, Copy)]
pub struct Folder<'a, D> {
    pub disk: &'a D,
    pub path: &'a str,
}

/// Why a folder isn't checked.
#[derive(Drop)]
pub enum Unchecked {
    /// It is no evidence, or can't be read; or memory was refused. Nothing was written.
    Refused(FolderFault),
    /// The writer failed. A front of the answer was written.
    CannotWrite,
}

/// The answer by the pieces of a source, of the first fault or of all.
#[tactic(auto, using(crate::proofs::FolderAnswers::of_first, crate::proofs::FolderAnswers::of_list))]
fn answer_pieces<S: Source, T: Timed, R: Threads + Sync>(
    alloc: Global,
    threads: &R,
    pieces: Pieces<'_, S>,
    asked: &Asked<'_, T>,
) -> Result<SourceAnswer, Unlisted<S::Fault>>
    ensures answer { IfOk result (λ answer. HoldsAsRead (known_by (S.said pieces.entry.source.now) (S.is_log pieces.entry.source.now)) pieces.entry.shape.now asked.now.all
        (IsAnswerFor asked.now.subject asked.now.json asked.now.all asked.now.quiet asked.now.terms asked.now.report answer)) }
    ensures dated { IfOk result (λ answer. IsDated (known_by (S.said pieces.entry.source.now) (S.is_log pieces.entry.source.now)) pieces.entry.shape.now.partitions asked.now.report answer.report) }
    ensures opened { IfOk result (λ answer. AreOpened (S.outcomes pieces.entry.source.now) (pieces_of pieces.entry.shape.now)) }
    ensures refused { IfErr result (IsUntold (S.outcomes pieces.entry.source.now) (S.Fault.from_gives alloc_error) (pieces_of pieces.entry.shape.now) asked.now.all) }
{
    if asked.all {
        let answer = answer_all(alloc, threads, pieces, asked)?;
        return Ok(answer);
    }
    match answer_source(alloc, threads, pieces, asked) {
        Ok(answer) => Ok(answer),
        Err(fault) => Err(Unlisted::Refused(fault)),
    }
}

/// Reads the segments of a folder of this shape, and answers.
fn answer_shape<D: Disk, T: Timed + Watch, R: Threads + Sync>(
    alloc: Global,
    threads: &R,
    folder: Folder<'_, D>,
    shape: &Shape,
    asked: &Asked<'_, T>,
) -> Result<SourceAnswer, FolderFault>
    ensures answer { IfOk result (λ answer. HoldsAsRead (known_at (D.holds folder.entry.disk.now) folder.entry.path.now (segments_of shape.now.evidence.partitions) shape.now.forms.items) shape.now.evidence asked.now.all
        (IsAnswerFor asked.now.subject asked.now.json asked.now.all asked.now.quiet asked.now.terms asked.now.report answer)) }
    ensures dated { IfOk result (λ answer. IsDated (known_at (D.holds folder.entry.disk.now) folder.entry.path.now (segments_of shape.now.evidence.partitions) shape.now.forms.items) shape.now.evidence.partitions asked.now.report answer.report) }
    ensures opened { IfOk result (λ answer. AreOpened (outcomes_of (D.holds folder.entry.disk.now) folder.entry.path.now shape.now.evidence shape.now.forms.items) (pieces_of shape.now.evidence)) }
    ensures refused { IfErr result (IsOfPieces (outcomes_of (D.holds folder.entry.disk.now) folder.entry.path.now shape.now.evidence shape.now.forms.items) (pieces_of shape.now.evidence) asked.now.all) }
{
    let source = FolderSource {
        folder: eos_source::Folder {
            disk: folder.disk,
            path: folder.path,
            watch: asked.watch,
        },
        shape,
    };
    let pieces = Pieces {
        source: &source,
        shape: &shape.evidence,
    };
    match answer_pieces(alloc, threads, pieces, asked) {
        Ok(answer) => Ok(answer),
        Err(why) => Err(refusal_of(alloc, &source, why)),
    }
}

/// Reads a folder, and answers, with how many of its segments are judged by folds. No more of it is held than its answer wants.
#[tactic(auto, using(crate::proofs::FoldsCounted::folded_at, crate::proofs::FoldsCounted::answer_with, crate::proofs::FoldsCounted::dated_with))]
fn answer_folder<D: Disk, T: Timed + Watch, R: Threads + Sync>(
    alloc: Global,
    threads: &R,
    folder: Folder<'_, D>,
    asked: &Asked<'_, T>,
) -> Result<(SourceAnswer, Folded), FolderFault>
    ensures answer { IfOk result (λ told. HoldsOf (D.holds folder.entry.disk.now) folder.entry.path.now asked.now.all
        (IsAnswerFor asked.now.subject asked.now.json asked.now.all asked.now.quiet asked.now.terms (wanted_with told.1.folds asked.now.report) told.0)) }
    ensures folded { IfOk result (λ told. IsFoldedAt (D.holds folder.entry.disk.now) folder.entry.path.now told.1) }
    ensures dated { IfOk result (λ told. IsDatedIn (D.holds folder.entry.disk.now) folder.entry.path.now (wanted_with told.1.folds asked.now.report) told.0.report) }
    ensures first { IfErr result (IsFirstOfFolder (D.holds folder.entry.disk.now) folder.entry.path.now asked.now.all) }
{
    let shape = read_shape(alloc, folder.disk, folder.path, asked.watch)?;
    let folded = folded_of(shape.forms.as_slice());
    let counting = Asked {
        workers: asked.workers,
        watch: asked.watch,
        json: asked.json,
        all: asked.all,
        quiet: asked.quiet,
        terms: asked.terms,
        subject: asked.subject,
        report: wanted_with(folded.folds, asked.report),
    };
    match answer_shape(alloc, threads, folder, &shape, &counting) {
        Ok(answer) => {
            drop(shape.evidence);
            drop(shape.forms);
            shape.listed?;
            Ok((answer, folded))
        }
        Err(fault) => {
            drop(shape);
            Err(fault)
        }
    }
}

/// Writes the lines of an answer, and hands on what else is told.
fn told<W: Write>(writer: &mut W, answer: SourceAnswer, folded: Folded) -> Result<Said, WriteFault>
    ensures status { IfOk result (λ said. said.status ≡ answer.status) }
    ensures notes { IfOk result (λ said. string_bytes said.notes ≡ string_bytes answer.notes) }
    ensures folded { IfOk result (λ said. said.folded ≡ folded) }
    ensures unmet { IfOk result (λ said. string_bytes said.unmet ≡ string_bytes answer.unmet) }
    ensures report { IfOk result (λ said. said.report ≡ answer.report) }
    ensures lines { IfOk result (λ said. Appends (W.contents writer.old) (W.contents writer.new) (string_bytes answer.lines)) }
    ensures front { OnErr result (WritesFront (W.contents writer.old) (W.contents writer.new) (string_bytes answer.lines)) }
{
    finish(writer, answer.lines.as_bytes())?;
    Ok(Said {
        status: answer.status,
        notes: answer.notes,
        folded,
        unmet: answer.unmet,
        report: answer.report,
    })
}

/// Writes the answer to the evidence in a folder of a disk, by at most so many threads: the line of its verdict, or where all faults are
/// asked for and one stands, theirs; as text or as JSON, of one of several folders after the words that say which.
/// It tells how many of the folder's segments were judged by folds, and a report says the same.
///
/// # Errors
/// At `CannotWrite` a front of the lines was written. Before all is read and judged nothing is: `Refused` says which file or folder is no
/// evidence or can't be read, or that memory ran out. It is the first refusal: that of the manifest, or of the first segment that is listed
/// and isn't read, or, where each was opened, of the listing; where all faults are told also of a segment that is read again.
pub fn check_folder_to<D: Disk, T: Timed + Watch, R: Threads + Sync, W: Write>(
    alloc: Global,
    threads: &R,
    folder: Folder<'_, D>,
    asked: &Asked<'_, T>,
    writer: &mut W,
) -> Result<Said, Unchecked>
    ensures some { IfOk result (λ said. HoldsOf (D.holds folder.entry.disk.now) folder.entry.path.now asked.now.all
        (IsToldOf asked.now.subject asked.now.json asked.now.all asked.now.quiet asked.now.terms asked.now.report (W.contents writer.old) (W.contents writer.new) said)) }
    ensures known { (e : EvidenceParts) → AreKnown (D.holds folder.entry.disk.now) folder.entry.path.now → StandsAt (D.holds folder.entry.disk.now) folder.entry.path.now e
        → IfOk result (λ said. IsToldOf asked.now.subject asked.now.json asked.now.all asked.now.quiet asked.now.terms asked.now.report (W.contents writer.old) (W.contents writer.new) said e) }
    ensures folded { IfOk result (λ said. IsFoldedAt (D.holds folder.entry.disk.now) folder.entry.path.now said.folded) }
    ensures dated { IfOk result (λ said. IsDatedIn (D.holds folder.entry.disk.now) folder.entry.path.now (wanted_with said.folded.folds asked.now.report) said.report) }
    ensures unread { IfErr result (λ why. why ≢ CannotWrite → Keeps (W.contents writer.old) (W.contents writer.new)) }
    ensures first { IfErr result (IsFirst (D.holds folder.entry.disk.now) folder.entry.path.now asked.now.all) }
    ensures front { result ≡ Err CannotWrite → HoldsOf (D.holds folder.entry.disk.now) folder.entry.path.now asked.now.all
        (λ e. WritesFrontOf (IsCheckAnswer (subject_text asked.now.subject) e asked.now.json asked.now.all asked.now.terms.demands) (W.contents writer.old) (W.contents writer.new)) }
    ensures known_front { (e : EvidenceParts) → AreKnown (D.holds folder.entry.disk.now) folder.entry.path.now → StandsAt (D.holds folder.entry.disk.now) folder.entry.path.now e
        → result ≡ Err CannotWrite → WritesFrontOf (IsCheckAnswer (subject_text asked.now.subject) e asked.now.json asked.now.all asked.now.terms.demands) (W.contents writer.old) (W.contents writer.new) }
{
    match answer_folder(alloc, threads, folder, asked) {
        Ok((answer, folded)) => {
            asked.watch.done();
            match told(writer, answer, folded) {
                Ok(said) => Ok(said),
                Err(_) => Err(Unchecked::CannotWrite),
            }
        }
        Err(fault) => Err(Unchecked::Refused(fault)),
    }
}
