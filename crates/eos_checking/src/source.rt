//! The answer of `check` for an evidence that is read from a source, chunk by chunk, of which no more is held than what it is worked
//! out of.

ghost use Rattle.std.specs.Prelude.{◌≡◌, ◌==◌, true, false, not, List, length, IfOk, IfErr, is_some, string_bytes, alloc_error};
ghost use Rattle.eos_verdict.specs.declared.verdict.Fault.{Fault};
ghost use Rattle.eos_commits.specs.Faults.{AreInOrder};
ghost use Rattle.eos_notes.specs.Notes.{AreAllNotesBy};
ghost use Rattle.eos_kept.specs.Faults.{first_of};
ghost use Rattle.eos_source.specs.Said.{known_by};
ghost use Rattle.eos_source.specs.Refusals.{AreOpened, IsRefusal};
ghost use Rattle.eos_source.specs.FirstRefusals.{pieces_of};
ghost use Rattle.eos_source_check.specs.Judged.{IsNotesTextOf};
ghost use Rattle.eos_source_check.specs.Refusals.{IsEarned, IsUntold};
ghost use Rattle.eos_checking.specs.Dates.{IsDated};
ghost use Rattle.eos_checking.specs.Sources.{IsSourceAnswer, IsListAnswer};
ghost use Rattle.eos_checking.specs.steps.Tellings.{AreListed, TellsOf, ReportsOf, HasDates, IsNotedBy, ExitsBy, first_alone};

use crate::check::{Asked, Faults, Made, lines_told};
use crate::dates::dates_if;
use crate::report::{Timed, Told, made_of};
use crate::terms::{exit_status, unmet_text};
use eos_check::{Fault, Verdict};
use eos_evidence::Spec;
use eos_notes::{Note, all_notes};
use eos_source::Source;
use eos_source_check::{By, Crew, Judged, Noted, Pieces, Unlisted, all_source_faults, judge_noted};
use eos_words::Demands;
use std::alloc::{AllocError, Global};
use std::slice;
use std::thread::Threads;

/// The answer: what is printed, the exit status, and what else is told.
#[derive(Drop)]
pub struct SourceAnswer {
    /// The line of the verdict, or those of all faults.
    pub lines: String,
    /// 0 for yes, 1 for no, 4 for a yes that isn't as it is demanded.
    pub status: u8,
    /// The lines of the notes, which are empty where these are left out.
    pub notes: String,
    /// The lines of the counts that aren't the expected ones.
    pub unmet: String,
    /// What was made beside it, if anything was wanted.
    pub report: Option<Made>,
}

/// The fault that a verdict names, if it is a no.
fn faults_of(verdict: &Verdict) -> &[Fault]
    ensures { result.now ≡ first_alone verdict.now }
{
    match verdict {
        Verdict::Yes(_) => &[],
        Verdict::No(first) => slice::from_ref(first),
    }
}

/// What is wanted beside the answer, of what was judged, with these faults.
#[tactic(auto, using(crate::proofs::Dated::none_wanted))]
fn report_on<T: Timed>(
    alloc: Global,
    spec: &Spec,
    judged: &Judged,
    faults: Faults<'_>,
    asked: &Asked<'_, T>,
) -> Result<Option<Made>, AllocError>
    ensures made { AreInOrder judged.now.logs.parts.items → IfOk result (ReportsOf spec.now judged.now faults.entry.told.now asked.now.report) }
    ensures dated { IfOk result (HasDates asked.now.report faults.entry.told.now faults.entry.dates.now) }
{
    match asked.report {
        None => Ok(None),
        Some(wanted) => {
            let told = Told {
                spec,
                logs: &judged.logs,
                counted: judged.counted.as_slice(),
                epochs: judged.epochs.as_slice(),
                verdict: &judged.verdict,
                faults: faults.told,
                dates: faults.dates,
            };
            let made = made_of(alloc, told, wanted, asked.watch)?;
            Ok(Some(made))
        }
    }
}

/// Whether one of these stands.
fn any_stands(notes: &[Note]) -> bool
    ensures { result ≡ not (length notes.now == 0) }
{
    !notes.is_empty()
}

/// The notes of what was judged.
fn notes_of(alloc: Global, spec: &Spec, judged: &Judged) -> Result<Vec<Note>, AllocError>
    ensures { AreInOrder judged.now.logs.parts.items
        → IfOk result (λ notes. AreAllNotesBy spec.now judged.now.logs.parts.items judged.now.epochs.items (is_some (first_of judged.now.logs.faults.items)) notes.items) }
{
    all_notes(alloc, spec, &judged.logs, judged.epochs.as_slice())
}

/// The lines of the notes of what was judged.
fn lines_again(spec: &Spec, noted: &Noted, quiet: bool) -> Result<String, AllocError>
    requires { IsNotesTextOf spec.now noted.now.judged quiet (string_bytes noted.now.notes) }
    ensures { IfOk result (λ text. IsNotesTextOf spec.now noted.now.judged quiet (string_bytes text)) }
{
    let text = noted.notes.clone()?;
    Ok(text)
}

/// Whether a note stands, where that counts.
#[tactic(auto, using(crate::proofs::Exits::noted_is))]
fn is_noted(alloc: Global, spec: &Spec, judged: &Judged, strict: bool) -> Result<bool, AllocError>
    ensures { AreInOrder judged.now.logs.parts.items
        → IfOk result (λ noted. strict ≡ true → IsNotedBy spec.now judged.now.logs.parts.items judged.now.epochs.items (is_some (first_of judged.now.logs.faults.items)) noted) }
{
    if !strict {
        return Ok(false);
    }
    let found = notes_of(alloc, spec, judged)?;
    Ok(any_stands(found.as_slice()))
}

/// The exit status of what was judged.
#[tactic(auto, using(crate::proofs::Exits::exits_is))]
fn status_of(
    alloc: Global,
    spec: &Spec,
    judged: &Judged,
    demands: Demands,
) -> Result<u8, AllocError>
    ensures { AreInOrder judged.now.logs.parts.items → IfOk result (ExitsBy spec.now judged.now demands) }
{
    let noted = is_noted(alloc, spec, judged, demands.strict)?;
    Ok(exit_status(demands, &judged.verdict, noted))
}

/// What is told of what was judged of an evidence with this manifest.
fn told<T: Timed>(
    alloc: Global,
    spec: &Spec,
    noted: &Noted,
    faults: Faults<'_>,
    asked: &Asked<'_, T>,
) -> Result<SourceAnswer, AllocError>
    requires { IsNotesTextOf spec.now noted.now.judged asked.now.quiet (string_bytes noted.now.notes) }
    ensures told { IfOk result (TellsOf spec.now noted.now.judged faults.entry.told.now asked.now.subject asked.now.json faults.entry.all asked.now.quiet asked.now.terms asked.now.report) }
    ensures dated { IfOk result (λ answer. HasDates asked.now.report faults.entry.told.now faults.entry.dates.now answer.report) }
{
    let judged = &noted.judged;
    let lines = lines_told(alloc, &judged.verdict, faults, asked)?;
    let notes = lines_again(spec, noted, asked.quiet)?;
    let status = status_of(alloc, spec, judged, asked.terms.demands)?;
    let unmet = unmet_text(alloc, asked.terms, &judged.verdict)?;
    let report = report_on(alloc, spec, judged, faults, asked)?;
    Ok(SourceAnswer {
        lines,
        status,
        notes,
        unmet,
        report,
    })
}

/// By how many workers it is judged, and whether the notes are left out.
fn by_of<T>(asked: &Asked<'_, T>) -> By
    ensures { result.quiet ≡ asked.now.quiet }
{
    By {
        workers: asked.workers,
        quiet: asked.quiet,
    }
}

/// What is told of what was judged, with the first fault alone.
fn first_told<S: Source, T: Timed>(
    alloc: Global,
    pieces: &Pieces<'_, S>,
    noted: &Noted,
    asked: &Asked<'_, T>,
) -> Result<SourceAnswer, AllocError>
    requires { IsNotesTextOf pieces.now.shape.now.spec noted.now.judged asked.now.quiet (string_bytes noted.now.notes) }
    ensures told { IfOk result (TellsOf pieces.now.shape.now.spec noted.now.judged (first_alone noted.now.judged.verdict) asked.now.subject asked.now.json false asked.now.quiet asked.now.terms asked.now.report) }
    ensures dated { IfOk result (λ answer. IsDated (known_by (S.said pieces.now.source.now) (S.is_log pieces.now.source.now)) pieces.now.shape.now.partitions asked.now.report answer.report) }
{
    let first = faults_of(&noted.judged.verdict);
    let dates = dates_if(alloc, pieces, first, asked.report)?;
    let faults = Faults {
        told: first,
        all: false,
        dates: &dates,
    };
    let answer = told(alloc, pieces.shape.spec(), noted, faults, asked)?;
    Ok(answer)
}

/// The answer to an evidence of this shape, whose pieces are read from the source, each once and by at most so many threads. No more
/// of them is held than what verdict, notes and report are worked out of. There is what each piece said, as far as it is known just
/// that, and all of the answer is true of each evidence of this shape whose segments are such; of a no it tells the first fault
/// alone. The times of a report's records are those of the segments as they are read again, where they can be.
///
/// # Errors
/// The fault of the first piece, in order, that isn't there, or is a fold that doesn't fit; or want of memory.
pub fn answer_source<S: Source, T: Timed, R: Threads + Sync>(
    alloc: Global,
    rt: &R,
    pieces: Pieces<'_, S>,
    asked: &Asked<'_, T>,
) -> Result<SourceAnswer, S::Fault>
    ensures answer { IfOk result (IsSourceAnswer (known_by (S.said pieces.entry.source.now) (S.is_log pieces.entry.source.now)) pieces.entry.shape.now asked.now.subject asked.now.json asked.now.quiet asked.now.terms asked.now.report) }
    ensures dated { IfOk result (λ answer. IsDated (known_by (S.said pieces.entry.source.now) (S.is_log pieces.entry.source.now)) pieces.entry.shape.now.partitions asked.now.report answer.report) }
    ensures opened { IfOk result (λ answer. AreOpened (S.outcomes pieces.entry.source.now) (pieces_of pieces.entry.shape.now)) }
    ensures refused { IfErr result (IsRefusal (S.outcomes pieces.entry.source.now) (S.Fault.from_gives alloc_error) (pieces_of pieces.entry.shape.now)) }
{
    let noted = judge_noted(alloc, rt, pieces.source, pieces.shape, by_of(asked))?;
    let answer = first_told(alloc, &pieces, &noted, asked);
    drop(noted);
    Ok(answer?)
}

/// All faults of what was judged.
fn listed_of<S: Source, R: Threads + Sync>(
    crew: &Crew<'_, R>,
    pieces: &Pieces<'_, S>,
    judged: &Judged,
) -> Result<Vec<Fault>, Unlisted<S::Fault>>
    ensures list { IfOk result (λ faults. AreListed (known_by (S.said pieces.now.source.now) (S.is_log pieces.now.source.now)) pieces.now.shape.now judged.now judged.now.verdict faults.items) }
    ensures earned { IfErr result (IsEarned (known_by (S.said pieces.now.source.now) (S.is_log pieces.now.source.now)) (S.outcomes pieces.now.source.now) pieces.now.shape.now.partitions judged.now.logs.faults.items) }
{
    match judged.verdict {
        Verdict::Yes(_) => Ok(Vec::new(crew.alloc)),
        Verdict::No(_) => all_source_faults(crew, pieces, &judged.logs),
    }
}

/// What is told of what was judged, with all faults.
fn all_told<S: Source, T: Timed, R: Threads + Sync>(
    crew: &Crew<'_, R>,
    pieces: &Pieces<'_, S>,
    noted: &Noted,
    asked: &Asked<'_, T>,
) -> Result<SourceAnswer, Unlisted<S::Fault>>
    requires { IsNotesTextOf pieces.now.shape.now.spec noted.now.judged asked.now.quiet (string_bytes noted.now.notes) }
    ensures answer { IfOk result (λ answer. (faults : List Fault) × AreListed (known_by (S.said pieces.now.source.now) (S.is_log pieces.now.source.now)) pieces.now.shape.now noted.now.judged noted.now.judged.verdict faults
        × TellsOf pieces.now.shape.now.spec noted.now.judged faults asked.now.subject asked.now.json true asked.now.quiet asked.now.terms asked.now.report answer) }
    ensures dated { IfOk result (λ answer. IsDated (known_by (S.said pieces.now.source.now) (S.is_log pieces.now.source.now)) pieces.now.shape.now.partitions asked.now.report answer.report) }
    ensures earned { IfErr result (IsEarned (known_by (S.said pieces.now.source.now) (S.is_log pieces.now.source.now)) (S.outcomes pieces.now.source.now) pieces.now.shape.now.partitions noted.now.judged.logs.faults.items) }
{
    let list = listed_of(crew, pieces, &noted.judged)?;
    let found = list.as_slice();
    let dates = dates_if(crew.alloc, pieces, found, asked.report)?;
    let faults = Faults {
        told: found,
        all: true,
        dates: &dates,
    };
    let answer = told(crew.alloc, pieces.shape.spec(), noted, faults, asked)?;
    Ok(answer)
}

/// The same, but of a no all faults are told. Where partitions have faults by themselves, each of these is read again, one after the
/// other: the answer is true of each such evidence that has these partitions as they were read then.
///
/// # Errors
/// Those of `answer_source`; and of a partition that is read again: a piece that isn't there or is a fold, or that its least fault
/// is another than the one that was found.
pub fn answer_all<S: Source, T: Timed, R: Threads + Sync>(
    alloc: Global,
    rt: &R,
    pieces: Pieces<'_, S>,
    asked: &Asked<'_, T>,
) -> Result<SourceAnswer, Unlisted<S::Fault>>
    ensures answer { IfOk result (IsListAnswer (known_by (S.said pieces.entry.source.now) (S.is_log pieces.entry.source.now)) pieces.entry.shape.now asked.now.subject asked.now.json asked.now.quiet asked.now.terms asked.now.report) }
    ensures dated { IfOk result (λ answer. IsDated (known_by (S.said pieces.entry.source.now) (S.is_log pieces.entry.source.now)) pieces.entry.shape.now.partitions asked.now.report answer.report) }
    ensures opened { IfOk result (λ answer. AreOpened (S.outcomes pieces.entry.source.now) (pieces_of pieces.entry.shape.now)) }
    ensures refused { IfErr result (IsUntold (S.outcomes pieces.entry.source.now) (S.Fault.from_gives alloc_error) (pieces_of pieces.entry.shape.now) true) }
{
    match judge_noted(alloc, rt, pieces.source, pieces.shape, by_of(asked)) {
        Ok(noted) => {
            let crew = Crew {
                alloc,
                rt,
                workers: asked.workers,
            };
            match all_told(&crew, &pieces, &noted, asked) {
                Ok(answer) => {
                    drop(noted);
                    Ok(answer)
                }
                Err(why) => {
                    drop(noted);
                    Err(why)
                }
            }
        }
        Err(fault) => Err(Unlisted::Refused(fault)),
    }
}
