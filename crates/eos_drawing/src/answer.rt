//! What is drawn of an evidence whose pieces a source has.

ghost use Rattle.std.specs.Prelude.{◌≡◌, ◌<◌, ◌-◌, length, Some, IfOk, IfErr, slice_get, string_bytes, alloc_error};
ghost use Rattle.std.specs.Option.{option_copied};
ghost use Rattle.std.specs.Str.{trim_end};
ghost use Rattle.eos_verdict.specs.declared.verdict.Fault.{Fault as AFault};
ghost use Rattle.eos_verdict.specs.declared.verdict.Verdict.TheVariants.{No};
ghost use Rattle.eos_drawing.specs.Drawings.{fault_of, drew_line};
ghost use Rattle.eos_drawing.specs.Folders.{is_later};
ghost use Rattle.eos_drawing.specs.steps.Answers.{IsAnswer, IsText, IsDrawnBy, IsAnswerBy};
ghost use Rattle.eos_drawing.specs.steps.Undrawn.{IsAfter, IsUndrawn};
ghost use Rattle.eos_verdict.specs.VerdictTexts.{verdict_line, status_of};
ghost use Rattle.eos_source.specs.FirstRefusals.{pieces_of};
ghost use Rattle.eos_source.specs.Refusals.{AreOpened};
ghost use Rattle.eos_source.specs.Said.{known_by};
ghost use Rattle.eos_source_check.specs.Folders.{HoldsAsRead};
ghost use Rattle.eos_source_check.specs.Refusals.{IsRefusedAgain};

use crate::picture::judged_picture;
use crate::when::times_of_rows;
use eos_base::Workers;
use eos_picture::{Picture, Times, drawing_of, svg_text};
use eos_source::Source;
use eos_source_check::{Crew, Judged, Pieces, Unlisted, all_source_faults, judge_source};
use eos_verdict::{Fault, Verdict, verdict_line};
use std::alloc::{AllocError, Global};
use std::thread::Threads;

/// How many transactions are shown on each side of the fault where it isn't said.
const AROUND: u64 = 6;

/// Which picture is wanted.
#[derive(Clone, Copy)]
pub(crate) struct Wanted {
    /// Around which fault of all, from 1 on; where none is said around the verdict's, or of a yes.
    pub fault: Option<u64>,
    /// How many transactions are shown on each side.
    pub around: Option<u64>,
}

/// What is drawn.
#[derive(Drop)]
pub(crate) struct Drawn {
    /// The exit status: 0 for yes, 1 for no.
    pub status: u8,
    /// The line on its size.
    pub line: String,
    pub text: String,
}

/// What became of it.
#[derive(Drop)]
pub(crate) enum Answer {
    Drawn(Drawn),
    /// There are only so many faults.
    TooFew(usize),
}

/// Reads the pieces, each once, and no more of them is held than the verdict wants; then draws what is wanted.
#[tactic(auto, using(eos_source_check::proofs::FoldersRead::of_judged, crate::proofs::FirstRefused::unjudged))]
pub(crate) fn answer_source<S: Source, R: Threads + Sync>(
    alloc: Global,
    threads: &R,
    pieces: Pieces<'_, S>,
    wanted: Wanted,
) -> Result<Answer, Unlisted<S::Fault>>
    ensures answer { IfOk result (λ answer. HoldsAsRead (known_by (S.said pieces.entry.source.now) (S.is_log pieces.entry.source.now)) pieces.entry.shape.now (is_later wanted.fault) (IsAnswer wanted.fault wanted.around answer (known_by (S.said pieces.entry.source.now) (S.is_log pieces.entry.source.now)) pieces.entry.shape.now.partitions)) }
    ensures opened { IfOk result (λ answer. AreOpened (S.outcomes pieces.entry.source.now) (pieces_of pieces.entry.shape.now)) }
    ensures refused { IfErr result (IsUndrawn (S.outcomes pieces.entry.source.now) (S.Fault.from_gives alloc_error) (pieces_of pieces.entry.shape.now) (is_later wanted.fault)) }
{
    let workers = Workers::standard();
    match judge_source(alloc, threads, pieces.source, pieces.shape, workers) {
        Ok(judged) => {
            let crew = Crew {
                alloc,
                rt: threads,
                workers,
            };
            let answer = answer_judged(&crew, pieces, &judged, wanted);
            drop(judged);
            Ok(answer?)
        }
        Err(fault) => Err(Unlisted::Refused(fault)),
    }
}

/// Draws of what was judged what is wanted.
#[tactic(auto, using(crate::proofs::JudgedAnswers::shown))]
fn answer_judged<S: Source, R: Threads + Sync>(
    crew: &Crew<'_, R>,
    pieces: Pieces<'_, S>,
    judged: &Judged,
    wanted: Wanted,
) -> Result<Answer, Unlisted<S::Fault>>
    ensures answer { IfOk result (IsAnswerBy (known_by (S.said pieces.entry.source.now) (S.is_log pieces.entry.source.now)) pieces.entry.shape.now judged.now wanted.fault wanted.around) }
    ensures refused { IfErr result (IsAfter (known_by (S.said pieces.entry.source.now) (S.is_log pieces.entry.source.now)) (S.outcomes pieces.entry.source.now) pieces.entry.shape.now.partitions judged.now (is_later wanted.fault)) }
{
    match wanted.fault {
        Some(number) => match &judged.verdict {
            Verdict::Yes(_) => Ok(Answer::TooFew(0)),
            Verdict::No(_) => answer_numbered(crew, pieces, judged, wanted, number),
        },
        None => {
            let drawn = drawn_of(crew.alloc, pieces, judged, &judged.verdict, wanted)?;
            Ok(Answer::Drawn(drawn))
        }
    }
}

/// The same of a no, around the fault of this number.
fn answer_numbered<S: Source, R: Threads + Sync>(
    crew: &Crew<'_, R>,
    pieces: Pieces<'_, S>,
    judged: &Judged,
    wanted: Wanted,
    number: u64,
) -> Result<Answer, Unlisted<S::Fault>>
    requires number { wanted.fault ≡ Some number }
    requires no { (fault : AFault) × (judged.now.verdict ≡ No fault) }
    ensures answer { IfOk result (IsAnswerBy (known_by (S.said pieces.entry.source.now) (S.is_log pieces.entry.source.now)) pieces.entry.shape.now judged.now wanted.fault wanted.around) }
    ensures refused { IfErr result (IsAfter (known_by (S.said pieces.entry.source.now) (S.is_log pieces.entry.source.now)) (S.outcomes pieces.entry.source.now) pieces.entry.shape.now.partitions judged.now (is_later wanted.fault)) }
{
    if number > 1 {
        return answer_later(crew, pieces, judged, wanted, number);
    }
    let drawn = drawn_of(crew.alloc, pieces, judged, &judged.verdict, wanted)?;
    Ok(Answer::Drawn(drawn))
}

/// The same around a later fault than the first. Of partitions that have faults by themselves the folds are read once more, one after the
/// other.
fn answer_later<S: Source, R: Threads + Sync>(
    crew: &Crew<'_, R>,
    pieces: Pieces<'_, S>,
    judged: &Judged,
    wanted: Wanted,
    number: u64,
) -> Result<Answer, Unlisted<S::Fault>>
    requires number { wanted.fault ≡ Some number }
    requires later { 1 < number }
    ensures answer { IfOk result (IsAnswerBy (known_by (S.said pieces.entry.source.now) (S.is_log pieces.entry.source.now)) pieces.entry.shape.now judged.now wanted.fault wanted.around) }
    ensures refused { IfErr result (IsAfter (known_by (S.said pieces.entry.source.now) (S.is_log pieces.entry.source.now)) (S.outcomes pieces.entry.source.now) pieces.entry.shape.now.partitions judged.now (is_later wanted.fault)) }
{
    let faults = all_source_faults(crew, &pieces, &judged.logs)?;
    match later_of(faults, number) {
        Ok(verdict) => {
            let drawn = drawn_of(crew.alloc, pieces, judged, &verdict, wanted);
            drop(verdict);
            Ok(Answer::Drawn(drawn?))
        }
        Err(count) => Ok(Answer::TooFew(count)),
    }
}

/// The fault of this number as a verdict; or there are only so many.
#[tactic(auto, using(crate::proofs::JudgedAnswers::taken))]
fn later_of(mut faults: Vec<Fault>, number: u64) -> Result<Verdict, usize>
    requires { 1 < number }
    ensures ok { IfOk result (λ verdict. (fault : AFault) × (verdict ≡ No fault) × (slice_get faults.items (number - 1) ≡ Some fault)) }
    ensures err { IfErr result (λ count. (count ≡ length faults.items) × (count < number)) }
{
    let count = faults.len();
    if number > count as u64 {
        return Err(count);
    }
    let place = (number - 1) as usize;
    Ok(Verdict::No(faults.swap_remove(place)))
}

fn fault_of(verdict: &Verdict) -> Option<&Fault>
    ensures { option_copied result ≡ fault_of verdict.now }
{
    match verdict {
        Verdict::Yes(_) => None,
        Verdict::No(fault) => Some(fault),
    }
}

/// Of the fault of this verdict, or of none at yes. The segments in which the picture's records lie are read again for their times.
pub(crate) fn drawn_of<S: Source>(
    alloc: Global,
    pieces: Pieces<'_, S>,
    judged: &Judged,
    verdict: &Verdict,
    wanted: Wanted,
) -> Result<Drawn, Unlisted<S::Fault>>
    ensures drawn { IfOk result (IsDrawnBy (known_by (S.said pieces.entry.source.now) (S.is_log pieces.entry.source.now)) pieces.entry.shape.now.partitions judged.now verdict.now wanted.around) }
    ensures refused { IfErr result (IsRefusedAgain (S.outcomes pieces.entry.source.now) (pieces_of pieces.entry.shape.now)) }
{
    let around = wanted.around.unwrap_or(AROUND) as usize;
    let spec = pieces.shape.spec();
    let picture = judged_picture(alloc, spec, judged, fault_of(verdict), around)?;
    let times = times_of_rows(alloc, pieces.source, pieces.shape, picture.rows.as_slice())?;
    let drawn = drawn_picture(alloc, &picture, times.as_slice(), verdict)?;
    Ok(drawn)
}

/// This picture, with these times and the verdict's line as its title.
fn drawn_picture(
    alloc: Global,
    picture: &Picture,
    times: &[Times],
    verdict: &Verdict,
) -> Result<Drawn, AllocError>
    ensures { IfOk result (IsText picture.now times.now verdict.now) }
{
    let title = title_of(alloc, verdict)?;
    let drawing = drawing_of(alloc, picture, times, title)?;
    Ok(Drawn {
        status: status_of(verdict),
        line: line_of(alloc, picture)?,
        text: svg_text(alloc, &drawing)?,
    })
}

/// How large the picture is.
fn line_of(alloc: Global, picture: &Picture) -> Result<String, AllocError>
    ensures { IfOk result (λ line. string_bytes line ≡ drew_line picture.now) }
{
    let columns = picture.columns.len();
    let rows = picture.rows.len();
    format!(in alloc; "drew columns={columns} rows={rows}\n")
}

fn status_of(verdict: &Verdict) -> u8
    ensures { result ≡ status_of verdict.now }
{
    match verdict {
        Verdict::Yes(_) => 0,
        Verdict::No(_) => 1,
    }
}

/// The line of the verdict, without its end.
fn title_of(alloc: Global, verdict: &Verdict) -> Result<String, AllocError>
    ensures { IfOk result (λ title. string_bytes title ≡ trim_end (verdict_line verdict.now)) }
{
    let line = verdict_line(alloc, verdict)?;
    String::from_str(alloc, line.trim_end())
}
