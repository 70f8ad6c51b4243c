//! The notes of commits of another leader epoch than that of the record before them.

ghost use Rattle.std.specs.Prelude.{◌≡◌, ◌++◌, List, None, map, OnOk};
ghost use Rattle.eos_base.specs.Members.{Has};
ghost use Rattle.eos_commits.specs.Faults.{AreInOrder};
ghost use Rattle.eos_commits.specs.Tables.{IsTableOf};
ghost use Rattle.eos_evidence.specs.declared.application.App.{App as AppOf};
ghost use Rattle.eos_fold.specs.Parts.{part_name};
ghost use Rattle.eos_notes.specs.ReplacedNotes.{Committed as CommittedOf, epoch_below, is_other, other_note, other_at, others_in, others};
ghost use Rattle.eos_notes.specs.ReplicaNotes.{by_entries};
ghost use Rattle.eos_notes.specs.steps.Replaced.{renamed, AreCommitted};

use crate::groups::{name_of, offset_at};
use crate::note::{Note, OtherRecord, add_note};
use eos_base::{Listed, is_below};
use eos_commits::{CommitRef, CommitTable, committed_offsets};
use eos_evidence::{App, GroupId};
use eos_kept::Part;
use eos_reading::EpochEntry;
use std::alloc::{AllocError, Global};

/// The partitions' logs, and the entries at which the leader epoch of each changes.
#[derive(Clone, Copy)]
pub(crate) struct Led<'a> {
    pub(crate) parts: &'a [Part],
    pub(crate) epochs: &'a [Listed<EpochEntry>],
}

/// What a group has committed of each part, in their order.
#[derive(Clone, Copy)]
struct Committed<'a> {
    /// Its committed offsets, 0 where there is no commit.
    offsets: &'a [i64],
    /// The leader epochs that these commits name.
    epochs: &'a [i64],
}

/// What a group has committed of one part.
#[derive(Clone, Copy)]
struct Last {
    offset: i64,
    /// The leader epoch that the commit names.
    epoch: i64,
}

/// The leader epoch of the last batch that begins below this offset, by the entries at which it changes.
fn epoch_below(entries: &[EpochEntry], offset: i64) -> Option<i32>
    ensures { result ≡ epoch_below offset None entries.now }
{
    let mut last = None;
    for entry in entries {
        if is_below(entry.start_offset, offset) {
            last = Some(entry.epoch);
        }
    }
    last
}

/// Whether a leader epoch is named, and another one.
fn is_other(named: i64, found: i32) -> bool
    ensures { result ≡ is_other named found }
{
    named != -1 && named != i64::from(found)
}

/// Puts a note at the end where the group's commit names another leader epoch than that of the record before it.
fn push_other(
    all: &mut Vec<Note>,
    group: &GroupId,
    part: &Part,
    last: Last,
    entries: &[EpochEntry],
) -> Result<(), AllocError>
    ensures { OnOk result (all.new.items ≡ all.old.items ++ other_note group.now (part_name part.now) last.offset last.epoch (epoch_below last.offset None entries.now)) }
{
    let Some(found) = epoch_below(entries, last.offset) else {
        return Ok(());
    };
    if !is_other(last.epoch, found) {
        return Ok(());
    }
    let partition = name_of(part)?;
    let other = OtherRecord {
        group: group.clone()?,
        offset: last.offset,
        partition,
        named: last.epoch,
        found,
    };
    add_note(all, Note::OtherEpoch(other))
}

/// Puts a note at the end for each of these partitions of which the group's commit names another leader epoch.
fn push_each(
    all: &mut Vec<Note>,
    group: &GroupId,
    logs: Led<'_>,
    committed: Committed<'_>,
) -> Result<(), AllocError>
    ensures { OnOk result ((of : CommittedOf) → AreCommitted of (map part_name logs.entry.parts.now) committed.entry.offsets.now committed.entry.epochs.now
        → all.new.items ≡ all.old.items ++ by_entries (other_at group.now of) (map part_name logs.entry.parts.now) logs.entry.epochs.now) }
{
    let parts = logs.parts;
    let epochs = logs.epochs;
    for i in 0..parts.len() {
        if i >= epochs.len() {
            return Ok(());
        }
        let last = Last {
            offset: offset_at(committed.offsets, i),
            epoch: offset_at(committed.epochs, i),
        };
        push_other(all, group, &parts[i], last, epochs[i].as_slice())?;
    }
    Ok(())
}

/// The commit with the leader epoch that it names in place of its offset.
fn with_epoch<'a>(commit: CommitRef<'a>) -> CommitRef<'a>
    ensures { result ≡ renamed commit.entry }
{
    CommitRef {
        offset: i64::from(commit.leader_epoch),
        ..commit
    }
}

/// The commits with the leader epochs that they name in place of their offsets: so these are found as offsets are.
fn with_epochs<'a>(mut commits: Vec<CommitRef<'a>>) -> Vec<CommitRef<'a>>
    ensures { result.items ≡ map renamed commits.entry.items }
{
    for commit in commits.iter_mut() {
        *commit = with_epoch(*commit);
    }
    commits
}

/// Puts the notes of an application at the end.
fn push_app(
    alloc: Global,
    all: &mut Vec<Note>,
    app: &App,
    logs: Led<'_>,
    table: &CommitTable<'_>,
) -> Result<(), AllocError>
    requires { (apps : List AppOf) × IsTableOf apps logs.parts.now table.now × Has apps app.now }
    ensures { AreInOrder logs.entry.parts.now → OnOk result (all.new.items ≡ all.old.items ++ others_in logs.entry.parts.now logs.entry.epochs.now app.now) }
{
    let commits = table.commits_of(alloc, app)?;
    let offsets = committed_offsets(alloc, logs.parts, commits.as_slice())?;
    let renamed = with_epochs(commits);
    let named = committed_offsets(alloc, logs.parts, renamed.as_slice())?;
    let committed = Committed {
        offsets: offsets.as_slice(),
        epochs: named.as_slice(),
    };
    push_each(all, &app.group, logs, committed)
}

/// Puts a note at the end for each partition of which an application's group has committed an offset under another leader epoch than
/// that of the record before it, by the entries at which the partitions' leader epochs change and the commits of the groups.
///
/// # Errors
/// Only want of memory.
pub(crate) fn push_others(
    alloc: Global,
    all: &mut Vec<Note>,
    apps: &[App],
    logs: Led<'_>,
    table: &CommitTable<'_>,
) -> Result<(), AllocError>
    requires { IsTableOf apps.now logs.parts.now table.now }
    ensures { AreInOrder logs.entry.parts.now → OnOk result (all.new.items ≡ all.old.items ++ others logs.entry.parts.now logs.entry.epochs.now apps.now) }
{
    for app in apps {
        push_app(alloc, all, app, logs, table)?;
    }
    Ok(())
}
