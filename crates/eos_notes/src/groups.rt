//! The notes of what a group has committed.

ghost use Rattle.std.specs.Prelude.{◌≡◌, ◌++◌, ◌+◌, ℤ, pos, [], ◌∷◌, map, flat_map, length, get_or, IfOk, OnOk, if◌then◌else◌};
ghost use Rattle.eos_base.specs.declared.partition_name.PartitionName.{PartitionName as Name};
ghost use Rattle.eos_claims.specs.Outputs.{Application, committed_offset};
ghost use Rattle.eos_commits.specs.Plain.{plain_commit};
ghost use Rattle.eos_fold.specs.Parts.{part_name};
ghost use Rattle.eos_fold.specs.declared.item.Item.{Item};
ghost use Rattle.eos_commits.specs.Applications.{is_part_of, inputs_in, inputs_below, parts_of};
ghost use Rattle.eos_notes.specs.CommitNotes.{past_end_at, nothing_by, behind_by};
ghost use Rattle.eos_notes.specs.steps.Counted.{past_end_if, count_visible, count_below};

use crate::note::{Note, add_note};
use eos_base::{PartitionName, is_below, sum};
use eos_commits::{CommitRef, TopicSet, is_visible};
use eos_evidence::GroupId;
use eos_fold::Fate;
use eos_kept::{KeptBatch, Part};
use std::alloc::AllocError;

/// So many visible records, and so many of them below a group's committed offsets.
#[derive(Clone, Copy)]
pub(crate) struct Count {
    pub(crate) below: u64,
    pub(crate) inputs: u64,
}

/// The offset that is committed for the part at this place.
pub(crate) fn offset_at(offsets: &[i64], i: usize) -> i64
    ensures { result ≡ get_or offsets.now i (pos 0) }
{
    if i < offsets.len() { offsets[i] } else { 0 }
}

// ---- past the end

/// The name of a part.
pub(crate) fn name_of(part: &Part) -> Result<PartitionName, AllocError>
    ensures { IfOk result (λ name. name ≡ part_name part.now) }
{
    Ok(PartitionName {
        topic: part.topic().clone()?,
        partition: part.partition(),
    })
}

fn push_past_end(
    all: &mut Vec<Note>,
    group: &GroupId,
    sources: &TopicSet<'_>,
    part: &Part,
    offset: i64,
) -> Result<(), AllocError>
    ensures { OnOk result (all.new.items ≡ all.old.items ++ (if is_part_of sources.now part.now then past_end_at group.now part.now offset else [])) }
{
    if !sources.has(part.topic().as_slice()) {
        return Ok(());
    }
    if offset > part.end() {
        let partition = name_of(part)?;
        let past = Note::PastEnd {
            group: group.clone()?,
            offset,
            partition,
            end: part.end(),
        };
        add_note(all, past)
    } else {
        Ok(())
    }
}

/// Puts a note at the end for each partition of these topics of which the committed offset is past its end.
///
/// # Errors
/// Only want of memory.
pub(crate) fn push_past_ends(
    all: &mut Vec<Note>,
    group: &GroupId,
    sources: &TopicSet<'_>,
    parts: &[Part],
    offsets: &[i64],
) -> Result<(), AllocError>
    ensures { OnOk result ((committed : Name → ℤ) → offsets.now ≡ map committed (map part_name parts.now)
        → all.new.items ≡ all.old.items ++ flat_map (past_end_if sources.now group.now committed) parts.now) }
{
    for i in 0..parts.len() {
        push_past_end(all, group, sources, &parts[i], offset_at(offsets, i))?;
    }
    Ok(())
}

// ---- nothing committed

/// Puts a note at the end where the group has no commit.
///
/// # Errors
/// Only want of memory.
pub(crate) fn push_nothing(
    all: &mut Vec<Note>,
    group: &GroupId,
    commits: &[CommitRef<'_>],
) -> Result<(), AllocError>
    ensures { OnOk result (all.new.items ≡ all.old.items ++ nothing_by group.now (map plain_commit commits.now)) }
{
    if commits.is_empty() {
        let group = group.clone()?;
        add_note(all, Note::NothingCommitted { group })
    } else {
        Ok(())
    }
}

// ---- behind

/// Puts a note at the end where fewer than all are below.
///
/// # Errors
/// Only want of memory.
pub(crate) fn push_behind(
    all: &mut Vec<Note>,
    group: &GroupId,
    count: Count,
) -> Result<(), AllocError>
    ensures { OnOk result (all.new.items ≡ all.old.items ++ behind_by group.now count.below count.inputs) }
{
    let Count { below, inputs } = count;
    if below < inputs {
        let group = group.clone()?;
        add_note(
            all,
            Note::Behind {
                group,
                below,
                inputs,
            },
        )
    } else {
        Ok(())
    }
}

/// With a record of this fate and offset more.
fn counted(count: Count, fate: Fate, offset: u64, committed: i64) -> Result<Count, AllocError>
    ensures inputs { (item : Item) → fate ≡ item.fate → IfOk result (λ c. c.inputs ≡ count.inputs + count_visible (item ∷ [])) }
    ensures below { (item : Item) → fate ≡ item.fate → offset ≡ item.offset → IfOk result (λ c. c.below ≡ count.below + count_below committed (item ∷ [])) }
{
    if !is_visible(fate) {
        return Ok(count);
    }
    let inputs = sum(count.inputs, 1)?;
    if !is_below(offset, committed) {
        return Ok(Count { inputs, ..count });
    }
    let below = sum(count.below, 1)?;
    Ok(Count { below, inputs })
}

/// With the records of a batch.
fn count_batch(before: Count, batch: &KeptBatch<'_>, committed: i64) -> Result<Count, AllocError>
    ensures inputs { IfOk result (λ c. c.inputs ≡ before.inputs + count_visible batch.now) }
    ensures below { IfOk result (λ c. c.below ≡ before.below + count_below committed batch.now) }
{
    let mut count = before;
    for i in 0..batch.len() {
        let look = batch.look(i);
        count = counted(count, look.fate, look.offset, committed)?;
    }
    Ok(count)
}

/// With the records of a partition.
///
/// # Errors
/// Only want of memory.
pub(crate) fn count_part(before: Count, part: &Part, committed: i64) -> Result<Count, AllocError>
    ensures inputs { IfOk result (λ c. c.inputs ≡ before.inputs + count_visible part.now.items) }
    ensures below { IfOk result (λ c. c.below ≡ before.below + count_below committed part.now.items) }
{
    let mut count = before;
    let mut batches = part.items().batches();
    while let Some(batch) = batches.next() {
        count = count_batch(count, &batch, committed)?;
    }
    Ok(count)
}

/// With the records of a partition, if it is of one of these topics.
fn count_part_if(
    count: Count,
    sources: &TopicSet<'_>,
    part: &Part,
    committed: i64,
) -> Result<Count, AllocError>
    ensures inputs { IfOk result (λ c. c.inputs ≡ count.inputs + (if is_part_of sources.now part.now then count_visible part.now.items else 0)) }
    ensures below { IfOk result (λ c. c.below ≡ count.below + (if is_part_of sources.now part.now then count_below committed part.now.items else 0)) }
{
    if sources.has(part.topic().as_slice()) {
        count_part(count, part, committed)
    } else {
        Ok(count)
    }
}

/// The visible records of these topics, and those of them below the committed offset of their partition.
///
/// # Errors
/// Only want of memory.
pub(crate) fn count_inputs(
    sources: &TopicSet<'_>,
    parts: &[Part],
    offsets: &[i64],
) -> Result<Count, AllocError>
    ensures { IfOk result (λ c. (a : Application) → offsets.now ≡ map (committed_offset a.commits) (map part_name parts.now)
        → a.inputs ≡ flat_map inputs_in (parts_of sources.now parts.now)
        → (c.below ≡ length (inputs_below a)) × (c.inputs ≡ length a.inputs)) }
{
    let mut count = Count {
        below: 0,
        inputs: 0,
    };
    for i in 0..parts.len() {
        count = count_part_if(count, sources, &parts[i], offset_at(offsets, i))?;
    }
    Ok(count)
}
