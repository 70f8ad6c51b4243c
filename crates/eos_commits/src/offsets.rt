//! The committed offset of each partition.

ghost use Rattle.std.specs.Prelude.{◌≡◌, ◌<◌, map, length, slice_set, IfOk};
ghost use Rattle.eos_claims.specs.Outputs.{committed_offset};
ghost use Rattle.eos_commits.specs.Faults.{AreInOrder};
ghost use Rattle.eos_commits.specs.Plain.{plain_commit};
ghost use Rattle.eos_fold.specs.Parts.{part_name};
ghost use Rattle.eos_commits.specs.NameTables.{AreAscending};
ghost use Rattle.eos_commits.specs.steps.SetOffsets.{set_named};

use crate::commits::CommitRef;
use crate::name::{NameMarks, Names, names_of};
use eos_kept::Part;
use std::alloc::{AllocError, Global};

fn set_offset(offsets: &mut Vec<i64>, place: usize, offset: i64)
    requires { place < length offsets.old.items }
    ensures { offsets.new.items ≡ slice_set offsets.old.items place offset }
{
    offsets[place] = offset;
}

/// Sets the offset of a commit's partition, if it is there.
fn commit_one(
    offsets: &mut Vec<i64>,
    names: &Names<'_>,
    marks: &mut NameMarks,
    commit: &CommitRef<'_>,
)
    requires { length offsets.old.items ≡ length names.now }
    ensures len { length offsets.new.items ≡ length names.now }
    ensures set { AreAscending names.now → offsets.new.items ≡ set_named names.now (plain_commit commit.now) offsets.old.items }
{
    if let Some(place) = names.index_near(marks, commit.topic, commit.partition) {
        set_offset(offsets, place, commit.offset);
    }
}

/// The committed offset of each partition, in the order of the names.
///
/// # Errors
/// Only want of memory.
pub fn offsets_of(
    alloc: Global,
    names: &Names<'_>,
    commits: &[CommitRef<'_>],
) -> Result<Vec<i64>, AllocError>
    ensures { IfOk result (λ offsets. AreAscending names.now → offsets.items ≡ map (committed_offset (map plain_commit commits.now)) names.now) }
{
    let mut offsets = vec![in alloc; 0; names.as_slice().len()]?;
    let mut marks = NameMarks::new();
    for commit in commits {
        commit_one(&mut offsets, names, &mut marks, commit);
    }
    Ok(offsets)
}

/// The committed offset of each part for the group whose commits these are, in the order of their log: the offset of the last one
/// of it, and 0 where there is none. Parts that don't stand in the order of their names have an answer too, of which nothing is
/// said.
///
/// # Errors
/// Only want of memory.
pub fn committed_offsets(
    alloc: Global,
    parts: &[Part],
    commits: &[CommitRef<'_>],
) -> Result<Vec<i64>, AllocError>
    ensures { IfOk result (λ offsets. AreInOrder parts.now → offsets.items ≡ map (committed_offset (map plain_commit commits.now)) (map part_name parts.now)) }
{
    let all = names_of(alloc, parts)?;
    let names = Names::of(alloc, all.as_slice())?;
    offsets_of(alloc, &names, commits)
}
