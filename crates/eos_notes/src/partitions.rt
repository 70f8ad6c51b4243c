//! The table of partitions.

ghost use Rattle.std.specs.Prelude.{◌≡◌, ◌≤◌, ◌∷◌, [], None, Some, is_some, if◌then◌else◌, map, flat_map, length, IfOk};
ghost use Rattle.std.specs.Ordering.{nat_cmp};
ghost use Rattle.std.specs.Cmp.Lexicographic.{slice_cmp};
ghost use Rattle.eos_base.specs.Members.{is_found};
ghost use Rattle.eos_commits.specs.Commits.{is_same as is_same_text};
ghost use Rattle.eos_commits.specs.Visible.{visible};
ghost use Rattle.eos_notes.specs.PartitionTallies.{sources_of as sources_in, roles_by, roles_of};
ghost use Rattle.eos_notes.specs.TalliesByLogs.{beside, partition_tally as tally_of_partition};

use crate::groups::{Count, count_part};
use crate::tally::{Counted, PartitionTally, TopicRoles};
use bytes::Bytes;
use eos_base::Listed;
use eos_commits::TopicSet;
use eos_evidence::{App, outputs_of, push_topics};
use eos_kept::{Logs, Part};
use eos_touch::PartitionFault;
use std::alloc::{AllocError, Global};

// ---- roles

fn sources_of(alloc: Global, apps: &[App]) -> Result<Vec<Bytes>, AllocError>
    ensures { IfOk result (λ topics. topics.items ≡ sources_in apps.now) }
{
    let mut topics = Vec::new(alloc);
    for app in apps {
        push_topics(&mut topics, app.sources.as_slice())?;
    }
    Ok(topics)
}

fn is_same(a: &[u8], b: &[u8]) -> bool
    ensures { result ≡ is_same_text a.now b.now }
{
    a.cmp(b).is_eq()
}

/// By the topics that the applications read and those that they write.
fn roles_in(sources: &TopicSet<'_>, outputs: &TopicSet<'_>, topic: &[u8]) -> TopicRoles
    ensures { result ≡ roles_by (is_found (slice_cmp nat_cmp) sources.now) (is_found (slice_cmp nat_cmp) outputs.now) topic.now }
{
    TopicRoles {
        source: sources.has(topic),
        output: outputs.has(topic),
        offsets_log: is_same(topic, b"__consumer_offsets".as_slice()),
        transaction_log: is_same(topic, b"__transaction_state".as_slice()),
    }
}

// ---- a partition

/// The visible records, where the log has no fault.
fn visible_of(log: &Part, fault: &Option<PartitionFault>) -> Result<Option<u64>, AllocError>
    ensures { IfOk result (λ n. n ≡ (if is_some fault.now then None else Some (length (visible log.now)))) }
{
    if fault.is_some() {
        return Ok(None);
    }
    let none = Count {
        below: 0,
        inputs: 0,
    };
    let count = count_part(none, log, 0)?;
    Ok(Some(count.inputs))
}

fn partition_tally(
    sources: &TopicSet<'_>,
    outputs: &TopicSet<'_>,
    log: &Part,
    fault: &Option<PartitionFault>,
    counted: &Counted,
) -> Result<PartitionTally, AllocError>
    ensures { IfOk result (λ t. t ≡ tally_of_partition (roles_by (is_found (slice_cmp nat_cmp) sources.now) (is_found (slice_cmp nat_cmp) outputs.now)) (log.now, (fault.now, counted.now))) }
{
    let visible_records = visible_of(log, fault)?;
    Ok(PartitionTally {
        topic: log.topic().clone()?,
        partition: log.partition(),
        roles: roles_in(sources, outputs, log.topic().as_slice()),
        end: log.end(),
        batches: counted.batches,
        data_records: log.items().len() as u64,
        visible_records,
        segments: counted.segments,
        bytes: counted.bytes,
    })
}

// ---- all

/// How many logs have their fault and their counts beside them.
fn rows_of(parts: &[Part], faults: &[Option<PartitionFault>], counted: &[Counted]) -> usize
    ensures rows { result ≡ length (beside parts.now faults.now counted.now) }
    ensures parts { result ≤ length parts.now }
    ensures faults { result ≤ length faults.now }
    ensures counted { result ≤ length counted.now }
{
    let others = faults.len().min(counted.len());
    parts.len().min(others)
}

fn tallies_by(
    alloc: Global,
    sources: &TopicSet<'_>,
    outputs: &TopicSet<'_>,
    logs: &Logs,
    counted: &[Counted],
) -> Result<Listed<PartitionTally>, AllocError>
    ensures { IfOk result (λ all. all ≡ map (tally_of_partition (roles_by (is_found (slice_cmp nat_cmp) sources.now) (is_found (slice_cmp nat_cmp) outputs.now)))
        (beside logs.now.parts.items logs.now.faults.items counted.now)) }
{
    let parts = logs.parts.as_slice();
    let faults = logs.faults.as_slice();
    let mut all = Vec::new(alloc);
    let rows = rows_of(parts, faults, counted);
    for i in 0..rows {
        let tally = partition_tally(sources, outputs, &parts[i], &faults[i], &counted[i])?;
        all.push(tally)?;
    }
    Ok(Listed::new(all))
}

/// One for each log, in order.
///
/// # Errors
/// Only want of memory.
pub(crate) fn partition_tallies_of(
    alloc: Global,
    apps: &[App],
    logs: &Logs,
    counted: &[Counted],
) -> Result<Listed<PartitionTally>, AllocError>
    ensures { IfOk result (λ all. all ≡ map (tally_of_partition (roles_of apps.now)) (beside logs.now.parts.items logs.now.faults.items counted.now)) }
{
    let all_read = sources_of(alloc, apps)?;
    let all_written = outputs_of(alloc, apps)?;
    let read = all_read.as_slice();
    let written = all_written.as_slice();
    let sources = TopicSet::of(alloc, read)?;
    let outputs = TopicSet::of(alloc, written)?;
    tallies_by(alloc, &sources, &outputs, logs, counted)
}
