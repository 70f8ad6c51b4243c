//! The verdict of an evidence of which a source has the pieces.

ghost use Rattle.std.specs.Prelude.{IfOk, IfErr, length, string_bytes, alloc_error};
ghost use Rattle.eos_evidence.specs.Evidence.{segments_of};
ghost use Rattle.eos_source.specs.Refusals.{AreOpened, IsRefusal};
ghost use Rattle.eos_source.specs.Said.{known_by};
ghost use Rattle.eos_source_check.specs.Judged.{IsJudgedOf, IsNotesTextOf};

use crate::kept::apart;
use crate::noting::{By, Read, verdict_and_notes};
use eos_base::{Listed, Workers};
use eos_check::Verdict;
use eos_evidence::Evidence;
use eos_kept::Logs;
use eos_notes::Counted;
use eos_reading::EpochEntry;
use eos_source::{Source, kept_logs};
use std::alloc::Global;
use std::thread::Threads;

/// A verdict, what is kept of the logs that it is about, what was counted of each partition's segments, and the leader epochs of its
/// batches, each with the offset at which it begins.
#[derive(Drop)]
pub struct Judged {
    pub logs: Logs,
    pub counted: Vec<Counted>,
    pub epochs: Vec<Listed<EpochEntry>>,
    pub verdict: Verdict,
}

/// What was judged, with the lines of the notes, or nothing where these were left out.
#[derive(Drop)]
pub struct Noted {
    pub judged: Judged,
    pub notes: String,
}

/// The verdict of an evidence of this shape, whose pieces are read from the source, each once and by at most so many threads, and
/// never held whole: in memory is what is wanted of the records. There is what each piece said, as far as it is known just that;
/// and this is the verdict, and these are the kept logs, of each evidence of this shape whose segments are such. The notes are told of
/// these logs.
///
/// # Errors
/// The fault of the first piece, in order, that isn't there, or is a fold that doesn't fit; or want of memory.
pub fn judge_noted<S: Source, R: Threads + Sync>(
    alloc: Global,
    rt: &R,
    source: &S,
    shape: &Evidence,
    by: By,
) -> Result<Noted, S::Fault>
    ensures judged { IfOk result (λ noted. IsJudgedOf (known_by (S.said source.now) (S.is_log source.now)) shape.now noted.judged) }
    ensures notes { IfOk result (λ noted. IsNotesTextOf shape.now.spec noted.judged by.quiet (string_bytes noted.notes)) }
    ensures opened { IfOk result (λ noted. AreOpened (S.outcomes source.now) (length (segments_of shape.now.partitions))) }
    ensures refused { IfErr result (IsRefusal (S.outcomes source.now) (S.Fault.from_gives alloc_error) (length (segments_of shape.now.partitions))) }
{
    let kept = kept_logs(alloc, rt, source, shape, by.workers)?;
    let (logs, counted, epochs) = apart(alloc, kept)?;
    let read = Read {
        spec: shape.spec(),
        logs: &logs,
        epochs: epochs.as_slice(),
    };
    let (verdict, notes) = verdict_and_notes(alloc, rt, read, by)?;
    let judged = Judged {
        logs,
        counted,
        epochs,
        verdict,
    };
    Ok(Noted { judged, notes })
}

/// The same without notes.
///
/// # Errors
/// Those of `judge_noted`.
pub fn judge_source<S: Source, R: Threads + Sync>(
    alloc: Global,
    rt: &R,
    source: &S,
    shape: &Evidence,
    workers: Workers,
) -> Result<Judged, S::Fault>
    ensures judged { IfOk result (IsJudgedOf (known_by (S.said source.now) (S.is_log source.now)) shape.now) }
    ensures opened { IfOk result (λ judged. AreOpened (S.outcomes source.now) (length (segments_of shape.now.partitions))) }
    ensures refused { IfErr result (IsRefusal (S.outcomes source.now) (S.Fault.from_gives alloc_error) (length (segments_of shape.now.partitions))) }
{
    let by = By {
        workers,
        quiet: true,
    };
    let noted = judge_noted(alloc, rt, source, shape, by)?;
    Ok(noted.judged)
}
