//! The verdict of kept logs, and the lines of their notes.

ghost use Rattle.std.specs.Prelude.{is_some, IfOk, string_bytes};
ghost use Rattle.eos_check.specs.Judged.{IsJudged};
ghost use Rattle.eos_commits.specs.Faults.{AreInOrder};
ghost use Rattle.eos_kept.specs.Faults.{first_of};
ghost use Rattle.eos_notes.specs.Lines.{IsAllNotesTextBy};

use eos_base::{Listed, Workers};
use eos_check::{Judging, Verdict, judge_with};
use eos_evidence::Spec;
use eos_kept::Logs;
use eos_notes::all_lines;
use eos_reading::EpochEntry;
use std::alloc::{AllocError, Global};
use std::thread::Threads;

/// By how many workers a source is judged, and whether the lines of the notes are left out.
#[derive(Clone, Copy)]
pub struct By {
    pub workers: Workers,
    pub quiet: bool,
}

/// What was read of an evidence: its manifest, what is kept of its logs, and their leader epochs.
#[derive(Clone, Copy)]
pub(crate) struct Read<'a> {
    pub(crate) spec: &'a Spec,
    pub(crate) logs: &'a Logs,
    pub(crate) epochs: &'a [Listed<EpochEntry>],
}

/// The verdict, and the lines of the notes or nothing where these are left out; where the transaction log is long, these are told
/// behind the lineage while one thread reads it.
///
/// # Errors
/// Only want of memory.
pub(crate) fn verdict_and_notes<R: Threads + Sync>(
    alloc: Global,
    rt: &R,
    read: Read<'_>,
    by: By,
) -> Result<(Verdict, String), AllocError>
    ensures verdict { IfOk result (λ r. IsJudged read.entry.spec.now.apps read.entry.logs.now.parts.items (first_of read.entry.logs.now.faults.items) r.0) }
    ensures notes { AreInOrder read.entry.logs.now.parts.items
        → IfOk result (λ r. IsAllNotesTextBy read.entry.spec.now read.entry.logs.now.parts.items read.entry.epochs.now (is_some (first_of read.entry.logs.now.faults.items)) by.quiet (string_bytes r.1)) }
{
    let Read { spec, logs, epochs } = read;
    let By { workers, quiet } = by;
    let judging = Judging {
        spec,
        logs,
        workers,
    };
    let (verdict, notes) = judge_with(
        alloc,
        rt,
        judging,
        move || -> Result<String, AllocError>
            ensures { AreInOrder logs.entry.now.parts.items
                → IfOk result (λ text. IsAllNotesTextBy spec.entry.now logs.entry.now.parts.items epochs.entry.now (is_some (first_of logs.entry.now.faults.items)) quiet (string_bytes text)) }
        { all_lines(alloc, spec, logs, epochs, quiet) },
    );
    let verdict = verdict?;
    match notes {
        Ok(notes) => Ok((verdict, notes)),
        Err(why) => {
            drop(verdict);
            Err(why)
        }
    }
}
