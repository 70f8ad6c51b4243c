//! The answer of `explain` for an evidence whose pieces a source has.

ghost use Rattle.std.specs.Prelude.{◌≡◌, ◌<◌, ◌≤◌, ◌-◌, false, true, length, ℕ, List, IfOk, IfErr, IfSome, alloc_error, string_bytes};
ghost use Rattle.eos_evidence.specs.Evidence.{EvidenceParts};
ghost use Rattle.eos_notes.specs.Lines.{IsAllNotesText};
ghost use Rattle.eos_notes.specs.Notes.{AreAllNotes};
ghost use Rattle.eos_source.specs.FirstRefusals.{pieces_of};
ghost use Rattle.eos_source.specs.Refusals.{AreOpened};
ghost use Rattle.eos_source.specs.Said.{known_by};
ghost use Rattle.eos_source_check.specs.Judged.{IsJudgedFor};
ghost use Rattle.eos_source_check.specs.Refusals.{IsEarned, IsUnread, IsUntold};
ghost use Rattle.eos_explaining.specs.Explaining.{IsTheStory};
ghost use Rattle.eos_explaining.specs.steps.Tellings.{IsAnswer};
ghost use Rattle.eos_explaining.specs.Folders.{HoldsAsNamed};
ghost use Rattle.eos_explaining.specs.steps.Found.{AreFoundBy, HoldsByNamed};
ghost use Rattle.eos_explaining.specs.steps.Untold.{IsAfter};

use crate::kinds::{Pick, Picked, line_of};
use crate::seen::{parts_of, seen_logs};
use crate::story::{About, story_of};
use eos_base::Workers;
use eos_check::Verdict;
use eos_evidence::Spec;
use eos_faults::Crew;
use eos_notes::{Note, all_lines, all_notes};
use eos_source::Source;
use eos_source_check::{Judged, Pieces, Unlisted, all_faults, judge_source};
use eos_verdict::verdict_line;
use std::alloc::{AllocError, Global};
use std::thread::Threads;

/// What is asked of `explain`.
#[derive(Clone, Copy)]
pub(crate) struct Asked<'a> {
    /// The folder of the evidence, as it was named.
    pub(crate) folder: &'a str,
    pub(crate) workers: Workers,
    /// Which fault of the list of all it is, from 1 on.
    pub(crate) number: u64,
}

/// What `explain` answers.
#[derive(Drop)]
pub(crate) enum Answer {
    /// The verdict is yes: its line, and the lines of the notes.
    Yes { line: String, notes: String },
    /// The story of the fault that was asked for.
    Story(String),
    /// There are fewer faults, so many.
    Fewer(u64),
}

/// How many faults an evidence has, the line that says of which kinds, those that are held, each as the verdict that names it, and the
/// notes.
#[derive(Drop)]
pub(crate) struct Findings {
    pub(crate) all: u64,
    pub(crate) line: String,
    pub(crate) told: Vec<Verdict>,
    pub(crate) notes: Vec<Note>,
}

/// The notes of the evidence that was judged.
fn noted(alloc: Global, spec: &Spec, judged: &Judged) -> Result<Vec<Note>, AllocError>
    ensures { IfOk result (λ found. (e : EvidenceParts) → e.spec ≡ spec.now → IsJudgedFor judged.now e → AreAllNotes e found.items) }
{
    let epochs = judged.epochs.as_slice();
    all_notes(alloc, spec, &judged.logs, epochs)
}

/// The lines of these notes.
fn noted_lines(alloc: Global, spec: &Spec, judged: &Judged) -> Result<String, AllocError>
    ensures { IfOk result (λ text. (e : EvidenceParts) → e.spec ≡ spec.now → IsJudgedFor judged.now e → IsAllNotesText e false (string_bytes text)) }
{
    let epochs = judged.epochs.as_slice();
    all_lines(alloc, spec, &judged.logs, epochs, false)
}

/// What was found in the evidence that was judged, with the faults that are picked: all are counted, and no others are held.
pub(crate) fn found_in<S: Source, R: Threads + Sync>(
    crew: &Crew<'_, R>,
    pieces: &Pieces<'_, S>,
    judged: &Judged,
    pick: Pick,
) -> Result<Findings, Unlisted<S::Fault>>
    ensures found { IfOk result (AreFoundBy (known_by (S.said pieces.now.source.now) (S.is_log pieces.now.source.now)) pieces.now.shape.now judged.now pick.from pick.most) }
    ensures earned { IfErr result (IsEarned (known_by (S.said pieces.now.source.now) (S.is_log pieces.now.source.now)) (S.outcomes pieces.now.source.now) pieces.now.shape.now.partitions judged.now.logs.faults.items) }
{
    let mut picked = Picked::new(crew.alloc, pick);
    all_faults(crew, pieces, &judged.logs, &mut picked)?;
    let line = line_of(crew.alloc, &picked.counts)?;
    let notes = noted(crew.alloc, pieces.shape.spec(), judged)?;
    Ok(Findings {
        all: picked.counts.all,
        line,
        told: picked.told,
        notes,
    })
}

/// The answer where the verdict is yes.
fn yes_of(alloc: Global, spec: &Spec, judged: &Judged) -> Result<Option<Answer>, AllocError>
    ensures { IfOk result (λ answer. (e : EvidenceParts) (folder : List ℕ) (number : ℕ) → e.spec ≡ spec.now → IsJudgedFor judged.now e → IfSome answer (IsAnswer folder e number)) }
{
    match &judged.verdict {
        Verdict::Yes(_) => {
            let line = verdict_line(alloc, &judged.verdict)?;
            let notes = noted_lines(alloc, spec, judged)?;
            Ok(Some(Answer::Yes { line, notes }))
        }
        Verdict::No(_) => Ok(None),
    }
}

/// The story of the fault of this number, which alone is held.
fn told_of_number<S: Source, R: Threads + Sync>(
    crew: &Crew<'_, R>,
    pieces: &Pieces<'_, S>,
    judged: Judged,
    asked: &Asked<'_>,
    found: &Findings,
) -> Result<String, Unlisted<S::Fault>>
    requires found { AreFoundBy (known_by (S.said pieces.now.source.now) (S.is_log pieces.now.source.now)) pieces.now.shape.now judged (asked.now.number - 1) 1 found.now }
    requires first { 0 < asked.now.number }
    requires inside { asked.now.number ≤ found.now.all }
    ensures told { IfOk result (λ text. HoldsByNamed (known_by (S.said pieces.now.source.now) (S.is_log pieces.now.source.now)) pieces.now.shape.now judged (λ e. IsTheStory asked.now.folder.now e asked.now.number (string_bytes text))) }
    ensures unread { IfErr result (IsUnread (S.outcomes pieces.now.source.now) (pieces_of pieces.now.shape.now)) }
{
    let told = found.told.as_slice();
    let parts = seen_logs(crew.alloc, pieces, parts_of(judged), told)?;
    let mut read = Vec::new(crew.alloc);
    let about = About {
        folder: asked.folder,
        counts: found.line.as_str(),
        notes: found.notes.as_slice(),
        logs: parts.as_slice(),
    };
    story_of(crew, pieces, &mut read, &about, &told[0])
}

/// The answer where the verdict is no: the story of the fault of this number, or how many there are.
fn told_no<S: Source, R: Threads + Sync>(
    crew: &Crew<'_, R>,
    pieces: &Pieces<'_, S>,
    judged: Judged,
    asked: &Asked<'_>,
) -> Result<Answer, Unlisted<S::Fault>>
    ensures answer { IfOk result (λ answer. HoldsByNamed (known_by (S.said pieces.now.source.now) (S.is_log pieces.now.source.now)) pieces.now.shape.now judged (λ e. IsAnswer asked.now.folder.now e asked.now.number answer)) }
    ensures refused { IfErr result (IsAfter (known_by (S.said pieces.now.source.now) (S.is_log pieces.now.source.now)) (S.outcomes pieces.now.source.now) pieces.now.shape.now.partitions judged) }
{
    let number = asked.number;
    let pick = Pick {
        from: number.saturating_sub(1),
        most: 1,
    };
    match found_in(crew, pieces, &judged, pick) {
        Ok(found) => {
            let count = found.all;
            if number == 0 || number > count {
                drop(found);
                drop(judged);
                return Ok(Answer::Fewer(count));
            }
            let story = told_of_number(crew, pieces, judged, asked, &found);
            drop(found);
            Ok(Answer::Story(story?))
        }
        Err(why) => {
            drop(judged);
            Err(why)
        }
    }
}

/// The answer of what was judged.
fn answer_judged<S: Source, R: Threads + Sync>(
    crew: &Crew<'_, R>,
    pieces: &Pieces<'_, S>,
    judged: Judged,
    asked: &Asked<'_>,
) -> Result<Answer, Unlisted<S::Fault>>
    ensures answer { IfOk result (λ answer. HoldsByNamed (known_by (S.said pieces.now.source.now) (S.is_log pieces.now.source.now)) pieces.now.shape.now judged (λ e. IsAnswer asked.now.folder.now e asked.now.number answer)) }
    ensures refused { IfErr result (IsAfter (known_by (S.said pieces.now.source.now) (S.is_log pieces.now.source.now)) (S.outcomes pieces.now.source.now) pieces.now.shape.now.partitions judged) }
{
    match yes_of(crew.alloc, pieces.shape.spec(), &judged) {
        Ok(Some(answer)) => {
            drop(judged);
            Ok(answer)
        }
        Ok(None) => told_no(crew, pieces, judged, asked),
        Err(_) => {
            drop(judged);
            Err(Unlisted::OutOfMemory)
        }
    }
}

/// The story of a fault of the evidence, of this number in the list of all, from 1 on; or the line of a yes, or how many faults
/// there are. The verdict, the list and the records of the story are worked out of what is kept of its logs, as by `check`, and of the list
/// only that fault is held. Only the partitions that the story names are read again: for the folds of their segments, by which its rows are
/// found, and once more for the times of these; where it looks for claims, those too of whose topics no application is.
pub(crate) fn explain<S: Source, R: Threads + Sync>(
    alloc: Global,
    threads: &R,
    pieces: Pieces<'_, S>,
    asked: &Asked<'_>,
) -> Result<Answer, Unlisted<S::Fault>>
    ensures answer { IfOk result (λ answer. HoldsAsNamed (known_by (S.said pieces.entry.source.now) (S.is_log pieces.entry.source.now)) pieces.entry.shape.now (λ e. IsAnswer asked.now.folder.now e asked.now.number answer)) }
    ensures opened { IfOk result (λ answer. AreOpened (S.outcomes pieces.entry.source.now) (pieces_of pieces.entry.shape.now)) }
    ensures refused { IfErr result (IsUntold (S.outcomes pieces.entry.source.now) (S.Fault.from_gives alloc_error) (pieces_of pieces.entry.shape.now) true) }
{
    match judge_source(alloc, threads, pieces.source, pieces.shape, asked.workers) {
        Ok(judged) => {
            let crew = Crew {
                alloc,
                rt: threads,
                workers: asked.workers,
            };
            answer_judged(&crew, &pieces, judged, asked)
        }
        Err(fault) => Err(Unlisted::Refused(fault)),
    }
}
