//! The logs of a cluster, cut into segments.

ghost use Rattle.std.specs.Prelude.{◌≡◌, ◌≢◌, [], ◌∷◌, ◌*◌, ◌<◌, ◌^◌, pos, Ok, Err, take, drop, length, IfOk, OnOk, IsOk, IfSome, IsNone};
ghost use Rattle.std.specs.List.{All};
ghost use Rattle.eos_machine.specs.LogIndexes.{IsConfig, log_count, topic_of, number_of};
ghost use Rattle.eos_machine.specs.Fitting.{IsFit};
ghost use Rattle.eos_log_writer.specs.declared.segments.LogFault.{LogFault};
ghost use Rattle.eos_log_writer.specs.Names.{log_fault_name};
ghost use Rattle.eos_evidence.specs.Evidence.{added};
ghost use Rattle.eos_machine.specs.Batches.{AreTexts};
ghost use Rattle.eos_machine.specs.Evidences.{application, second_application, groups_of, segment_count, batches_at, segment_at, log_segments, adding, HaveTexts};

use crate::batches::items_text;
use crate::fitting::are_fit;
use crate::leaders::Leaders;
use crate::log_names::{log_count, number_of, topic_of};
use crate::values;
use crate::writer::{as_i32, as_i64};
use bytes::Bytes;
use eos_base::Listed;
use eos_evidence::{AddFault, App, End, EvidenceBuilder, GroupId, Segment};
use eos_machine::{Config, Item};
use std::alloc::{AllocError, Global};
use thiserror::Error;

/// How many segments so many records take.
fn segment_count(config: Config, records: usize) -> usize
    requires config { IsConfig config }
    requires records { records < 2 ^ 63 }
    ensures { result ≡ segment_count config records }
{
    (records + (config.segment_records - 1)) / config.segment_records
}

/// So many items from a place on, or those that there are.
fn taken_from(items: &[Item], from: usize, count: usize) -> &[Item]
    ensures { result.now ≡ take count (drop from items.now) }
{
    if from >= items.len() {
        return &[];
    }
    let rest = &items[from..];
    if count < rest.len() {
        &rest[..count]
    } else {
        rest
    }
}

/// The i-th segment of the log at the leaders' place.
fn segment_at(
    alloc: Global,
    config: Config,
    leaders: Leaders<'_>,
    log: &[Item],
    i: usize,
) -> Result<Segment, AllocError>
    requires config { IsConfig config }
    requires place { leaders.place < log_count config }
    requires begins { i * config.segment_records < length log.now }
    requires fits { All (IsFit config) log.now }
    ensures segment { IfOk result (λ s. s ≡ segment_at config leaders.entry.place leaders.entry.elections.now log.now i) }
    ensures written { OnOk result (AreTexts (batches_at config leaders.entry.place leaders.entry.elections.now log.now i)) }
{
    let base = i * config.segment_records;
    let items = taken_from(log, base, config.segment_records);
    let bytes = items_text(alloc, config, leaders, base, items)?;
    Ok(Segment {
        topic: topic_of(config, leaders.place),
        partition: as_i32(number_of(config, leaders.place)),
        base: as_i64(base as u64),
        bytes,
    })
}

/// Why a log isn't added to evidence.
#[derive(Clone, Copy, Debug, PartialEq, Eq, Error)]
#[error("{name}", name = self.name())]
pub enum LogFault {
    /// The cluster has no such log: something in it doesn't fit its field, or the evidence refuses a segment of it.
    Refused,
    /// A growth was refused.
    OutOfMemory,
}

impl LogFault {
    /// The fault's name.
    pub fn name(self) -> &'static str
        ensures { result.now ≡ log_fault_name self }
    {
        match self {
            LogFault::Refused => "Refused",
            LogFault::OutOfMemory => "OutOfMemory",
        }
    }
}

/// Adds a segment.
fn add(builder: &mut EvidenceBuilder, segment: Segment) -> Result<(), LogFault>
    ensures added { OnOk result (added builder.old segment ≡ Ok builder.new) }
    ensures only { IsOk (added builder.old segment) → result ≢ Err LogFault.Refused }
{
    match builder.add(segment) {
        Ok(()) => Ok(()),
        Err(AddFault::OutOfMemory) => Err(LogFault::OutOfMemory),
        Err(_) => Err(LogFault::Refused),
    }
}

/// Adds the segments of the log at the leaders' place, each batch in the leader epoch of its base offset.
///
/// # Errors
/// `Refused` where the place, or something in the log, doesn't fit its field, or where the evidence refuses a segment: never of a
/// log whose items fit and whose segments all go in. `OutOfMemory` where a growth was refused.
pub fn add_log(
    alloc: Global,
    builder: &mut EvidenceBuilder,
    config: Config,
    leaders: Leaders<'_>,
    log: &[Item],
) -> Result<(), LogFault>
    requires { IsConfig config }
    ensures added { OnOk result (adding builder.old (log_segments config leaders.entry.place leaders.entry.elections.now log.now) ≡ Ok builder.new) }
    ensures written { OnOk result (HaveTexts config leaders.entry.place leaders.entry.elections.now log.now) }
    ensures only { leaders.entry.place < log_count config → All (IsFit config) log.now → IsOk (adding builder.old (log_segments config leaders.entry.place leaders.entry.elections.now log.now)) → result ≢ Err LogFault.Refused }
{
    if leaders.place >= log_count(config) {
        return Err(LogFault::Refused);
    }
    if !are_fit(config, log) {
        return Err(LogFault::Refused);
    }
    let count = segment_count(config, log.len());
    for i in 0..count {
        let Ok(segment) = segment_at(alloc, config, leaders, log, i) else {
            return Err(LogFault::OutOfMemory);
        };
        add(builder, segment)?;
    }
    Ok(())
}

/// The list of one topic.
fn only(alloc: Global, topic: Bytes) -> Result<Listed<Bytes>, AllocError>
    ensures { IfOk result (λ ts. ts ≡ topic ∷ []) }
{
    let mut topics = Vec::new(alloc);
    topics.push(topic)?;
    Ok(Listed::new(topics))
}

/// The group that reads `in` and writes `out`.
fn application(alloc: Global) -> Result<App, AllocError>
    ensures { IfOk result (λ a. a ≡ application) }
{
    Ok(App {
        group: GroupId::new(String::from_str(alloc, "g")?),
        sources: only(alloc, values::input_topic())?,
        outputs: only(alloc, values::output_topic())?,
    })
}

/// The group that reads `out` and writes `fin`.
fn second_application(alloc: Global) -> Result<App, AllocError>
    ensures { IfOk result (λ a. a ≡ second_application) }
{
    Ok(App {
        group: GroupId::new(String::from_str(alloc, "h")?),
        sources: only(alloc, values::output_topic())?,
        outputs: only(alloc, values::final_topic())?,
    })
}

/// The groups of a cluster.
pub fn groups_of(alloc: Global, config: Config) -> Result<Listed<App>, AllocError>
    ensures { IfOk result (λ apps. apps ≡ groups_of config) }
{
    let mut groups = Vec::new(alloc);
    groups.push(application(alloc)?)?;
    if config.chain {
        groups.push(second_application(alloc)?)?;
    }
    Ok(Listed::new(groups))
}

/// The end of the partition at a place, whose log has so many records. None where a number of them doesn't fit its field, as
/// no cluster has it.
pub fn end_of(config: Config, place: usize, records: usize) -> Option<End>
    requires { IsConfig config }
    ensures some { IfSome result (λ e. e ≡ record { topic = topic_of config place; partition = pos (number_of config place); end = pos records }) }
    ensures none { IsNone result → place < log_count config → records < 2 ^ 63 → ⊥ }
{
    if place >= log_count(config) || records > i64::MAX as usize {
        return None;
    }
    Some(End {
        topic: topic_of(config, place),
        partition: as_i32(number_of(config, place)),
        end: as_i64(records as u64),
    })
}
