//! The lines of an evidence's notes, as commands print them on standard error.

ghost use Rattle.std.specs.Prelude.{false, is_some, IfOk, string_bytes};
ghost use Rattle.eos_commits.specs.Faults.{AreInOrder};
ghost use Rattle.eos_kept.specs.Faults.{first_of};
ghost use Rattle.eos_notes.specs.Lines.{IsAllNotesTextBy};

use crate::replicas::all_notes;
use crate::text::note_lines;
use eos_base::Listed;
use eos_evidence::Spec;
use eos_kept::Logs;
use eos_reading::EpochEntry;
use std::alloc::{AllocError, Global};

/// The lines of all notes of an evidence with this manifest, these logs and the entries at which the partitions' leader epochs change,
/// or nothing where they are left out.
///
/// # Errors
/// Only want of memory.
pub fn all_lines(
    alloc: Global,
    spec: &Spec,
    logs: &Logs,
    epochs: &[Listed<EpochEntry>],
    quiet: bool,
) -> Result<String, AllocError>
    ensures { AreInOrder logs.now.parts.items
        → IfOk result (λ text. IsAllNotesTextBy spec.now logs.now.parts.items epochs.now (is_some (first_of logs.now.faults.items)) quiet (string_bytes text)) }
{
    if quiet {
        Ok(String::new(alloc))
    } else {
        all_found_lines(alloc, spec, logs, epochs)
    }
}

fn all_found_lines(
    alloc: Global,
    spec: &Spec,
    logs: &Logs,
    epochs: &[Listed<EpochEntry>],
) -> Result<String, AllocError>
    ensures { AreInOrder logs.now.parts.items
        → IfOk result (λ text. IsAllNotesTextBy spec.now logs.now.parts.items epochs.now (is_some (first_of logs.now.faults.items)) false (string_bytes text)) }
{
    let found = all_notes(alloc, spec, logs, epochs)?;
    note_lines(alloc, found.as_slice())
}
