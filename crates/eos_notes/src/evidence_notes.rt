//! The notes of an evidence, in their order.

ghost use Rattle.std.specs.Prelude.{◌≡◌, ◌++◌, [], false, List, map, IfOk, OnOk, IsPermutation};
ghost use Rattle.eos_base.specs.Members.{Has};
ghost use Rattle.eos_commits.specs.EvidenceLogs.{commits_for};
ghost use Rattle.eos_commits.specs.Faults.{AreInOrder};
ghost use Rattle.eos_commits.specs.Plain.{plain_commit};
ghost use Rattle.eos_commits.specs.Tables.{IsTableOf};
ghost use Rattle.eos_evidence.specs.declared.application.App.{App as AppOf};
ghost use Rattle.eos_notes.specs.CommitNotes.{past_ends_in, nothing_in, behind_in, past_ends, nothing_committed, behind};
ghost use Rattle.eos_notes.specs.ManifestNotes.{no_application, absent_topics, gaps, absent_internals};
ghost use Rattle.eos_notes.specs.Notes.{AreNotesBy};
ghost use Rattle.eos_notes.specs.declared.note.Note.{Note as NoteOf};
ghost use Rattle.eos_notes.specs.steps.Counted.{AreOffsetsFor};

use crate::groups::{count_inputs, push_behind, push_nothing, push_past_ends};
use crate::manifest::{push_absent_topics, push_gaps, push_internals, push_no_application};
use crate::note::Note;
use crate::unlisted::push_unlisted;
use eos_commits::{CommitRef, CommitTable, TopicSet, committed_offsets};
use eos_evidence::{App, End, Spec};
use eos_kept::Part;
use std::alloc::{AllocError, Global};

/// What was found of what groups have committed, by the kind of note.
#[derive(Drop)]
struct Found {
    past_ends: Vec<Note>,
    nothing: Vec<Note>,
    behind: Vec<Note>,
}

impl Found {
    fn new(alloc: Global) -> Found
        ensures { (result.past_ends.items ≡ []) × (result.nothing.items ≡ []) × (result.behind.items ≡ []) }
    {
        Found {
            past_ends: Vec::new(alloc),
            nothing: Vec::new(alloc),
            behind: Vec::new(alloc),
        }
    }
}

/// What an application's group has committed of its source topics.
#[derive(Clone, Copy)]
struct Committed<'a> {
    commits: &'a [CommitRef<'a>],
    /// The offset that they commit for each part.
    offsets: &'a [i64],
}

/// What an application's group has committed, by its source topics.
fn take_commits(
    found: &mut Found,
    app: &App,
    sources: &TopicSet<'_>,
    parts: &[Part],
    committed: &Committed<'_>,
) -> Result<(), AllocError>
    requires sources { IsPermutation app.now.sources sources.now }
    requires commits { map plain_commit committed.now.commits.now ≡ commits_for parts.now app.now }
    ensures past_ends { AreOffsetsFor parts.now app.now committed.now.offsets.now
        → OnOk result (found.new.past_ends.items ≡ found.old.past_ends.items ++ past_ends_in parts.now app.now) }
    ensures nothing { OnOk result (found.new.nothing.items ≡ found.old.nothing.items ++ nothing_in parts.now app.now) }
    ensures behind { AreOffsetsFor parts.now app.now committed.now.offsets.now
        → OnOk result (found.new.behind.items ≡ found.old.behind.items ++ behind_in parts.now app.now) }
{
    let group = &app.group;
    let offsets = committed.offsets;
    push_past_ends(&mut found.past_ends, group, sources, parts, offsets)?;
    push_nothing(&mut found.nothing, group, committed.commits)?;
    let count = count_inputs(sources, parts, offsets)?;
    push_behind(&mut found.behind, group, count)?;
    Ok(())
}

/// What an application's group has committed.
fn take_app(
    alloc: Global,
    found: &mut Found,
    app: &App,
    table: &CommitTable<'_>,
    parts: &[Part],
) -> Result<(), AllocError>
    requires { (apps : List AppOf) × IsTableOf apps parts.now table.now × Has apps app.now }
    ensures past_ends { AreInOrder parts.now → OnOk result (found.new.past_ends.items ≡ found.old.past_ends.items ++ past_ends_in parts.now app.now) }
    ensures nothing { OnOk result (found.new.nothing.items ≡ found.old.nothing.items ++ nothing_in parts.now app.now) }
    ensures behind { AreInOrder parts.now → OnOk result (found.new.behind.items ≡ found.old.behind.items ++ behind_in parts.now app.now) }
{
    let sources = TopicSet::of(alloc, app.sources.as_slice())?;
    let commits = table.commits_of(alloc, app)?;
    let commits = commits.as_slice();
    let offsets = committed_offsets(alloc, parts, commits)?;
    let committed = Committed {
        commits,
        offsets: offsets.as_slice(),
    };
    take_commits(found, app, &sources, parts, &committed)
}

/// What the applications' groups have committed.
fn found_of(
    alloc: Global,
    apps: &[App],
    table: &CommitTable<'_>,
    parts: &[Part],
) -> Result<Found, AllocError>
    requires { IsTableOf apps.now parts.now table.now }
    ensures past_ends { AreInOrder parts.now → IfOk result (λ f. f.past_ends.items ≡ past_ends parts.now apps.now) }
    ensures nothing { IfOk result (λ f. f.nothing.items ≡ nothing_committed parts.now apps.now) }
    ensures behind { AreInOrder parts.now → IfOk result (λ f. f.behind.items ≡ behind parts.now apps.now) }
{
    let mut found = Found::new(alloc);
    for app in apps {
        take_app(alloc, &mut found, app, table, parts)?;
    }
    Ok(found)
}

/// Puts the notes behind those of partitions that aren't in `ends`.
fn push_all(
    alloc: Global,
    all: &mut Vec<Note>,
    found: &mut Found,
    apps: &[App],
    ends: &[End],
) -> Result<(), AllocError>
    ensures { OnOk result (all.new.items ≡ all.old.items ++ (found.old.past_ends.items ++ (absent_topics ends.now apps.now ++ (gaps apps.now ends.now
        ++ (found.old.nothing.items ++ (absent_internals ends.now ++ found.old.behind.items)))))) }
{
    all.append(&mut found.past_ends)?;
    push_absent_topics(alloc, all, apps, ends)?;
    push_gaps(alloc, all, apps, ends)?;
    all.append(&mut found.nothing)?;
    push_internals(alloc, all, ends)?;
    all.append(&mut found.behind)?;
    Ok(())
}

/// Puts the notes that the manifest alone shows at the end.
///
/// # Errors
/// Only want of memory.
pub(crate) fn push_of_manifest(
    alloc: Global,
    all: &mut Vec<Note>,
    apps: &[App],
    ends: &[End],
) -> Result<(), AllocError>
    ensures { OnOk result (all.new.items ≡ all.old.items ++ (no_application apps.now ++ (absent_topics ends.now apps.now ++ (gaps apps.now ends.now ++ absent_internals ends.now)))) }
{
    push_no_application(all, apps)?;
    push_absent_topics(alloc, all, apps, ends)?;
    push_gaps(alloc, all, apps, ends)?;
    push_internals(alloc, all, ends)?;
    Ok(())
}

/// Puts the notes of an evidence with this manifest and these logs at the end, whole ones or what is kept of them, of which none has a
/// fault, by the commits of its applications' groups: signs that it isn't the one that was meant.
///
/// # Errors
/// Only want of memory.
pub(crate) fn push_notes(
    alloc: Global,
    all: &mut Vec<Note>,
    spec: &Spec,
    table: &CommitTable<'_>,
    parts: &[Part],
) -> Result<(), AllocError>
    requires { IsTableOf spec.now.apps parts.now table.now }
    ensures { AreInOrder parts.now → OnOk result ((notes : List NoteOf) × AreNotesBy spec.now parts.now false notes × (all.new.items ≡ all.old.items ++ notes)) }
{
    let apps = spec.apps().as_slice();
    let ends = spec.ends().as_slice();
    push_no_application(all, apps)?;
    push_unlisted(alloc, all, apps, ends, table)?;
    let mut found = found_of(alloc, apps, table, parts)?;
    push_all(alloc, all, &mut found, apps, ends)
}
