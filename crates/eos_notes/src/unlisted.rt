//! The notes of partitions that have no declared end, but of which a group has committed an offset.

ghost use Rattle.std.specs.Prelude.{◌≡◌, ◌++◌, [], ◌∷◌, List, map, filter, IfOk, OnOk, IsPermutation, IsSorted};
ghost use Rattle.eos_base.specs.Members.{is_found};
ghost use Rattle.eos_base.specs.PartitionNames.{name_cmp};
ghost use Rattle.eos_base.specs.declared.partition_name.PartitionName.{PartitionName as Name};
ghost use Rattle.eos_commits.specs.Plain.{plain_commit};
ghost use Rattle.eos_commits.specs.Tables.{IsTableOf};
ghost use Rattle.eos_evidence.specs.declared.ends.End.{End as EndOf};
ghost use Rattle.eos_fold.specs.Parts.{PartLog};
ghost use Rattle.eos_notes.specs.CommitNotes.{end_name, unlisted_note, AreUnlisted, AreUnlistedNotes};
ghost use Rattle.eos_notes.specs.declared.note.Note.{Note as NoteOf};
ghost use Rattle.eos_notes.specs.steps.Unlisted.{plain_name, by_name, commit_name, is_unlisted};

use crate::note::{Note, add_note};
use bytes::Bytes;
use eos_base::{PartitionName, distinct_in_order, holds, in_order};
use eos_commits::{CommitRef, CommitTable};
use eos_evidence::{App, End, GroupId};
use std::alloc::{AllocError, Global};

/// A partition's name whose topic is lent.
#[derive(Clone, Copy, PartialEq, Eq, PartialOrd, Ord)]
pub(crate) struct NameRef<'a> {
    pub(crate) topic: &'a [u8],
    pub(crate) partition: i32,
}

/// The partitions that have a declared end.
fn listed_names<'a>(alloc: Global, ends: &'a [End]) -> Result<Vec<NameRef<'a>>, AllocError>
    ensures { IfOk result (λ names. map plain_name names.items ≡ map end_name ends.now) }
{
    let mut names = Vec::new(alloc);
    for end in ends {
        names.push(NameRef {
            topic: end.topic.as_slice(),
            partition: end.partition,
        })?;
    }
    Ok(names)
}

/// Whether the name is among these, which are in order.
fn is_listed(listed: &[NameRef<'_>], name: &NameRef<'_>) -> bool
    requires { IsSorted by_name listed.now }
    ensures { result ≡ is_found name_cmp (map plain_name listed.now) (plain_name name.now) }
{
    holds(listed, name)
}

fn name_of<'a>(commit: &CommitRef<'a>) -> NameRef<'a>
    ensures { plain_name result ≡ commit_name (plain_commit commit.entry.now) }
{
    NameRef {
        topic: commit.topic,
        partition: commit.partition,
    }
}

/// The partitions of these commits that aren't among the listed ones, which are in order.
fn unlisted_names<'a>(
    alloc: Global,
    listed: &[NameRef<'_>],
    commits: &[CommitRef<'a>],
) -> Result<Vec<NameRef<'a>>, AllocError>
    requires { IsSorted by_name listed.now }
    ensures { IfOk result (λ names. map plain_name names.items ≡ filter (is_unlisted (map plain_name listed.now)) (map commit_name (map plain_commit commits.entry.now))) }
{
    let mut names = Vec::new(alloc);
    for commit in commits {
        let name = name_of(commit);
        if !is_listed(listed, &name) {
            names.push(name)?;
        }
    }
    Ok(names)
}

fn push_note(
    alloc: Global,
    all: &mut Vec<Note>,
    group: &GroupId,
    name: &NameRef<'_>,
) -> Result<(), AllocError>
    ensures { OnOk result (all.new.items ≡ all.old.items ++ unlisted_note group.now (plain_name name.now) ∷ []) }
{
    let partition = PartitionName {
        topic: Bytes::copy_from_slice(alloc, name.topic)?,
        partition: name.partition,
    };
    let group = group.clone()?;
    add_note(all, Note::Unlisted { partition, group })
}

fn push_notes(
    alloc: Global,
    all: &mut Vec<Note>,
    group: &GroupId,
    names: &[NameRef<'_>],
) -> Result<(), AllocError>
    ensures { OnOk result (all.new.items ≡ all.old.items ++ map (unlisted_note group.now) (map plain_name names.now)) }
{
    for name in names {
        push_note(alloc, all, group, name)?;
    }
    Ok(())
}

/// The notes of one group, by its commits and the names that have a declared end, behind the others.
fn push_group(
    alloc: Global,
    all: &mut Vec<Note>,
    group: &GroupId,
    listed: &[NameRef<'_>],
    commits: &[CommitRef<'_>],
) -> Result<(), AllocError>
    requires { IsSorted by_name listed.now }
    ensures { OnOk result ((ends : List EndOf) → IsPermutation (map end_name ends) (map plain_name listed.now)
        → (names : List Name) × AreUnlisted ends (map plain_commit commits.now) names × (all.new.items ≡ all.old.items ++ map (unlisted_note group.now) names)) }
{
    let found = unlisted_names(alloc, listed, commits)?;
    let names = distinct_in_order(found);
    push_notes(alloc, all, group, names.as_slice())
}

/// Puts the notes of the applications at the end, by the names that have a declared end, in order.
fn push_by(
    alloc: Global,
    all: &mut Vec<Note>,
    apps: &[App],
    listed: &[NameRef<'_>],
    table: &CommitTable<'_>,
) -> Result<(), AllocError>
    requires { IsSorted by_name listed.now }
    ensures { OnOk result ((logs : List PartLog) (ends : List EndOf) → IsTableOf apps.now logs table.now → IsPermutation (map end_name ends) (map plain_name listed.now)
        → (notes : List NoteOf) × AreUnlistedNotes ends logs apps.now notes × (all.new.items ≡ all.old.items ++ notes)) }
{
    for app in apps {
        let commits = table.commits_of(alloc, app)?;
        push_group(alloc, all, &app.group, listed, commits.as_slice())?;
    }
    Ok(())
}

/// Puts a note at the end for each partition of a source topic that has no declared end, but of which the application's group has committed an
/// offset, by the commits of the applications' groups.
///
/// # Errors
/// Only want of memory.
pub(crate) fn push_unlisted(
    alloc: Global,
    all: &mut Vec<Note>,
    apps: &[App],
    ends: &[End],
    table: &CommitTable<'_>,
) -> Result<(), AllocError>
    ensures { OnOk result ((logs : List PartLog) → IsTableOf apps.now logs table.now
        → (notes : List NoteOf) × AreUnlistedNotes ends.now logs apps.now notes × (all.new.items ≡ all.old.items ++ notes)) }
{
    let names = listed_names(alloc, ends)?;
    let listed = in_order(names);
    push_by(alloc, all, apps, listed.as_slice(), table)
}
