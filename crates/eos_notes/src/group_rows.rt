//! The table of groups.

ghost use Rattle.std.specs.Prelude.{◌≡◌, ◌++◌, ℤ, is_some, map, filter, IfOk, OnOk, IsPermutation};
ghost use Rattle.eos_base.specs.declared.partition_name.PartitionName.{PartitionName as Name};
ghost use Rattle.eos_claims.specs.Outputs.{committed_offset};
ghost use Rattle.eos_commits.specs.Faults.{AreInOrder};
ghost use Rattle.eos_fold.specs.Parts.{part_name};
ghost use Rattle.eos_commits.specs.Applications.{is_part_of};
ghost use Rattle.eos_commits.specs.EvidenceLogs.{commits_for};
ghost use Rattle.eos_kept.specs.Faults.{first_of};
ghost use Rattle.eos_notes.specs.GroupTallies.{source_tally, group_tally as tally_of_group};
ghost use Rattle.eos_notes.specs.TalliesByLogs.{group_tallies};
ghost use Rattle.eos_notes.specs.steps.TalliesCounted.{source_if};

use crate::groups::{Count, count_part, offset_at};
use crate::tally::{GroupTally, SourceTally};
use eos_base::Listed;
use eos_commits::{TopicSet, commits_of, committed_offsets};
use eos_evidence::App;
use eos_kept::{Logs, Part};
use std::alloc::{AllocError, Global};

/// Puts a partition at the end, if it is of one of these topics.
fn push_source(
    all: &mut Vec<SourceTally>,
    sources: &TopicSet<'_>,
    part: &Part,
    committed: i64,
) -> Result<(), AllocError>
    ensures { OnOk result (all.new.items ≡ all.old.items ++ source_if sources.now committed part.now) }
{
    if !sources.has(part.topic().as_slice()) {
        return Ok(());
    }
    let none = Count {
        below: 0,
        inputs: 0,
    };
    let count = count_part(none, part, committed)?;
    all.push(SourceTally {
        topic: part.topic().clone()?,
        partition: part.partition(),
        committed,
        end: part.end(),
        visible_inputs_below: count.below,
    })?;
    Ok(())
}

/// The partitions of these topics, by the committed offset of each part.
fn source_tallies(
    alloc: Global,
    sources: &TopicSet<'_>,
    parts: &[Part],
    offsets: &[i64],
) -> Result<Vec<SourceTally>, AllocError>
    ensures { IfOk result (λ all. (committed : Name → ℤ) → offsets.now ≡ map committed (map part_name parts.now)
        → all.items ≡ map (source_tally committed) (filter (is_part_of sources.now) parts.now)) }
{
    let mut all = Vec::new(alloc);
    for i in 0..parts.len() {
        push_source(&mut all, sources, &parts[i], offset_at(offsets, i))?;
    }
    Ok(all)
}

/// Of an application, by its source topics and the committed offset of each part.
fn group_tally_by(
    alloc: Global,
    app: &App,
    sources: &TopicSet<'_>,
    parts: &[Part],
    offsets: &[i64],
) -> Result<GroupTally, AllocError>
    requires { IsPermutation app.now.sources sources.now }
    ensures { offsets.now ≡ map (committed_offset (commits_for parts.now app.now)) (map part_name parts.now) → IfOk result (λ t. t ≡ tally_of_group parts.now app.now) }
{
    let sources = source_tallies(alloc, sources, parts, offsets)?;
    Ok(GroupTally {
        group: app.group.clone()?,
        sources: Listed::new(sources),
    })
}

fn group_tally(alloc: Global, app: &App, parts: &[Part]) -> Result<GroupTally, AllocError>
    ensures { AreInOrder parts.now → IfOk result (λ t. t ≡ tally_of_group parts.now app.now) }
{
    let topics = app.sources.as_slice();
    let sources = TopicSet::of(alloc, topics)?;
    let commits = commits_of(alloc, app.group.as_bytes(), topics, parts)?;
    let commits = commits.as_slice();
    let offsets = committed_offsets(alloc, parts, commits)?;
    group_tally_by(alloc, app, &sources, parts, offsets.as_slice())
}

fn all_groups(alloc: Global, apps: &[App], parts: &[Part]) -> Result<Vec<GroupTally>, AllocError>
    ensures { AreInOrder parts.now → IfOk result (λ all. all.items ≡ map (tally_of_group parts.now) apps.now) }
{
    let mut all = Vec::new(alloc);
    for app in apps {
        all.push(group_tally(alloc, app, parts)?)?;
    }
    Ok(all)
}

/// One for each application, in order, where no partition's log has a fault.
///
/// # Errors
/// Only want of memory.
pub(crate) fn group_tallies_of(
    alloc: Global,
    apps: &[App],
    logs: &Logs,
) -> Result<Option<Listed<GroupTally>>, AllocError>
    ensures { AreInOrder logs.now.parts.items
        → IfOk result (λ groups. groups ≡ group_tallies (is_some (first_of logs.now.faults.items)) logs.now.parts.items apps.now) }
{
    if logs.first_fault().is_some() {
        return Ok(None);
    }
    let all = all_groups(alloc, apps, logs.parts.as_slice())?;
    Ok(Some(Listed::new(all)))
}
