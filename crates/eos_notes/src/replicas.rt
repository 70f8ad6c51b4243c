//! The notes of partitions whose segments are of two replicas, and all notes with those of replicas.

ghost use Rattle.std.specs.Prelude.{◌≡◌, ◌++◌, List, None, true, false, is_some, map, IfOk, OnOk};
ghost use Rattle.eos_commits.specs.Faults.{AreInOrder};
ghost use Rattle.eos_commits.specs.Tables.{IsTableOf};
ghost use Rattle.eos_fold.specs.Parts.{part_name};
ghost use Rattle.eos_notes.specs.Notes.{AreAllNotesBy};
ghost use Rattle.eos_notes.specs.declared.note.Note.{Note as NoteOf};
ghost use Rattle.eos_notes.specs.ReplicaNotes.{is_fall, falls_at, fall_note, falls};
ghost use Rattle.eos_kept.specs.Faults.{first_of};

use crate::evidence_notes::{push_notes, push_of_manifest};
use crate::groups::name_of;
use crate::note::{Note, add_note};
use crate::replaced::{Led, push_others};
use eos_base::Listed;
use eos_commits::CommitTable;
use eos_evidence::Spec;
use eos_kept::{Logs, Part};
use eos_reading::EpochEntry;
use std::alloc::{AllocError, Global};

/// Whether an entry has a lesser epoch than the one before.
fn is_fall(last: Option<i32>, epoch: i32) -> bool
    ensures { result ≡ is_fall last epoch }
{
    match last {
        None => false,
        Some(last) => epoch < last,
    }
}

/// Where the first of these entries begins that has a lesser epoch than the one before.
fn falls_at(entries: &[EpochEntry]) -> Option<u64>
    ensures { result ≡ falls_at None entries.now }
{
    let mut last = None;
    for entry in entries {
        if is_fall(last, entry.epoch) {
            return Some(entry.start_offset);
        }
        last = Some(entry.epoch);
    }
    None
}

/// Puts a note at the end where the partition's leader epoch falls.
fn push_fall(all: &mut Vec<Note>, part: &Part, entries: &[EpochEntry]) -> Result<(), AllocError>
    ensures { OnOk result (all.new.items ≡ all.old.items ++ fall_note (part_name part.now) (falls_at None entries.now)) }
{
    let Some(offset) = falls_at(entries) else {
        return Ok(());
    };
    let partition = name_of(part)?;
    add_note(all, Note::EpochFalls { partition, offset })
}

/// Puts a note at the end for each of these partitions whose leader epoch falls.
fn push_falls(
    all: &mut Vec<Note>,
    parts: &[Part],
    epochs: &[Listed<EpochEntry>],
) -> Result<(), AllocError>
    ensures { OnOk result (all.new.items ≡ all.old.items ++ falls (map part_name parts.now) epochs.now) }
{
    for i in 0..parts.len() {
        if i >= epochs.len() {
            return Ok(());
        }
        push_fall(all, &parts[i], epochs[i].as_slice())?;
    }
    Ok(())
}

/// Puts all notes at the end where a log has a fault, of which it isn't known which records are visible: those that the manifest alone
/// shows, and where leader epochs fall.
fn push_of_faulty(
    alloc: Global,
    all: &mut Vec<Note>,
    spec: &Spec,
    logs: Led<'_>,
) -> Result<(), AllocError>
    ensures { OnOk result ((notes : List NoteOf) × AreAllNotesBy spec.now logs.entry.parts.now logs.entry.epochs.now true notes × (all.new.items ≡ all.old.items ++ notes)) }
{
    let apps = spec.apps().as_slice();
    let ends = spec.ends().as_slice();
    push_of_manifest(alloc, all, apps, ends)?;
    push_falls(all, logs.parts, logs.epochs)?;
    Ok(())
}

/// Puts all notes at the end where no log has a fault, by the commits of the applications' groups.
fn push_by_commits(
    alloc: Global,
    all: &mut Vec<Note>,
    spec: &Spec,
    logs: Led<'_>,
    table: &CommitTable<'_>,
) -> Result<(), AllocError>
    requires { IsTableOf spec.now.apps logs.parts.now table.now }
    ensures { AreInOrder logs.entry.parts.now
        → OnOk result ((notes : List NoteOf) × AreAllNotesBy spec.now logs.entry.parts.now logs.entry.epochs.now false notes × (all.new.items ≡ all.old.items ++ notes)) }
{
    let apps = spec.apps().as_slice();
    push_notes(alloc, all, spec, table, logs.parts)?;
    push_falls(all, logs.parts, logs.epochs)?;
    push_others(alloc, all, apps, logs, table)?;
    Ok(())
}

/// Puts all notes at the end where no log has a fault. The commits are tabled once for all of them.
fn push_of_sound(
    alloc: Global,
    all: &mut Vec<Note>,
    spec: &Spec,
    logs: Led<'_>,
) -> Result<(), AllocError>
    ensures { AreInOrder logs.entry.parts.now
        → OnOk result ((notes : List NoteOf) × AreAllNotesBy spec.now logs.entry.parts.now logs.entry.epochs.now false notes × (all.new.items ≡ all.old.items ++ notes)) }
{
    let apps = spec.apps().as_slice();
    let table = CommitTable::of(alloc, apps, logs.parts)?;
    push_by_commits(alloc, all, spec, logs, &table)
}

/// The notes of an evidence with this manifest and these logs, whole ones or what is kept of them: signs that it isn't the one that
/// was meant; and behind them two kinds of replicas, by the entries at which the leader epochs of its partitions change: where these
/// fall, of each partition the first such offset; and where a group's last commit of a partition names another leader epoch than that
/// of the record before its offset. Where the log of a partition has a fault, it isn't known which records are visible, and only
/// what the manifest alone shows is looked for, and where leader epochs fall.
///
/// # Errors
/// Only want of memory.
pub fn all_notes(
    alloc: Global,
    spec: &Spec,
    logs: &Logs,
    epochs: &[Listed<EpochEntry>],
) -> Result<Vec<Note>, AllocError>
    ensures { AreInOrder logs.now.parts.items
        → IfOk result (λ notes. AreAllNotesBy spec.now logs.now.parts.items epochs.now (is_some (first_of logs.now.faults.items)) notes.items) }
{
    let led = Led {
        parts: logs.parts.as_slice(),
        epochs,
    };
    let mut all = Vec::new(alloc);
    if logs.first_fault().is_some() {
        push_of_faulty(alloc, &mut all, spec, led)?;
        return Ok(all);
    }
    push_of_sound(alloc, &mut all, spec, led)?;
    Ok(all)
}
