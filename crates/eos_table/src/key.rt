//! Keys for look-ups, in order, of the producer ids of one shard. Names are borrowed, so that a key costs no copy of a topic.

ghost use Rattle.std.specs.Prelude.{◌≡◌, ◌++◌, IfOk, OnOk, IsPermutation, map};
ghost use Rattle.eos_txnlog.specs.PartitionSets.{name_of, names_in_topic, names_of};
ghost use Rattle.eos_fold.specs.Parts.{part_name};
ghost use Rattle.eos_table.specs.steps.Keys.{plain_name, decided, listed, listed_of, plain_listed, ended, ended_of, plain_ended, marked, marked_of, names};

use crate::one_shard::Shard;
use crate::shared::SharedDecision;
use bytes::Bytes;
use eos_base::Sorted;
use eos_batch::Kind;
use eos_kept::Part;
use eos_txnlog::TopicPartitions;
use std::alloc::{AllocError, Global};

/// A partition's name, with its topic lent.
#[derive(Clone, Copy, PartialEq, Eq, PartialOrd, Ord)]
pub(crate) struct NameRef<'a> {
    pub topic: &'a Bytes,
    pub partition: i32,
}

/// A partition that a decision of this producer id and data epoch lists.
#[derive(Clone, Copy, PartialEq, Eq, PartialOrd, Ord)]
pub(crate) struct Listed<'a> {
    pub producer: i64,
    pub epoch: i16,
    pub name: NameRef<'a>,
}

/// A partition with an end marker, or one that a decision wants there.
#[derive(Clone, Copy, PartialEq, Eq, PartialOrd, Ord)]
pub(crate) struct Ended<'a> {
    pub producer: i64,
    pub epoch: i16,
    pub kind: Kind,
    pub name: NameRef<'a>,
}

/// The name of a partition of the evidence.
pub(crate) fn name_of_part(part: &Part) -> NameRef<'_>
    ensures { plain_name result ≡ part_name part.now }
{
    NameRef {
        topic: part.topic(),
        partition: part.partition(),
    }
}

/// The name of a partition of this topic.
pub(crate) fn name_in<'a>(topic: &'a TopicPartitions, partition: &i32) -> NameRef<'a>
    ensures { plain_name result ≡ name_of topic.entry.now.topic partition.now }
{
    NameRef {
        topic: &topic.topic,
        partition: *partition,
    }
}

/// The producer id and data epoch of each decision.
pub(crate) fn decided_keys(
    alloc: Global,
    decisions: &[SharedDecision],
    shard: Shard,
) -> Result<Vec<(i64, i16)>, AllocError>
    ensures { IfOk result (λ v. v.items ≡ decided shard.of shard.number decisions.now) }
{
    let mut keys = Vec::new(alloc);
    for decision in decisions {
        if shard.has(decision.producer()) {
            keys.push((decision.producer(), decision.epoch()))?;
        }
    }
    Ok(keys)
}

fn push_listed_topic<'a>(
    keys: &mut Vec<Listed<'a>>,
    decision: &SharedDecision,
    topic: &'a TopicPartitions,
) -> Result<(), AllocError>
    ensures { OnOk result (map plain_listed keys.new.items ≡ map plain_listed keys.old.items ++ listed_of decision.now (names_in_topic topic.now)) }
{
    for partition in topic.numbers.as_slice() {
        keys.push(Listed {
            producer: decision.producer(),
            epoch: decision.epoch(),
            name: name_in(topic, partition),
        })?;
    }
    Ok(())
}

fn push_listed<'a>(
    keys: &mut Vec<Listed<'a>>,
    decision: &'a SharedDecision,
) -> Result<(), AllocError>
    ensures { OnOk result (map plain_listed keys.new.items ≡ map plain_listed keys.old.items ++ listed_of decision.now (names_of decision.now.partitions)) }
{
    for topic in decision.partitions() {
        push_listed_topic(keys, decision, topic)?;
    }
    Ok(())
}

/// The partitions that decisions list.
pub(crate) fn listed_keys<'a>(
    alloc: Global,
    decisions: &'a [SharedDecision],
    shard: Shard,
) -> Result<Sorted<Listed<'a>>, AllocError>
    ensures { IfOk result (λ keys. IsPermutation (listed shard.of shard.number decisions.now) (map plain_listed keys)) }
{
    let mut keys = Vec::new(alloc);
    for decision in decisions {
        if shard.has(decision.producer()) {
            push_listed(&mut keys, decision)?;
        }
    }
    Ok(Sorted::of(keys))
}

fn push_ended_topic<'a>(
    keys: &mut Vec<Ended<'a>>,
    decision: &SharedDecision,
    topic: &'a TopicPartitions,
) -> Result<(), AllocError>
    ensures { OnOk result (map plain_ended keys.new.items ≡ map plain_ended keys.old.items ++ ended_of decision.now (names_in_topic topic.now)) }
{
    for partition in topic.numbers.as_slice() {
        keys.push(Ended {
            producer: decision.producer(),
            epoch: decision.marker_epoch(),
            kind: decision.kind(),
            name: name_in(topic, partition),
        })?;
    }
    Ok(())
}

fn push_ended<'a>(keys: &mut Vec<Ended<'a>>, decision: &'a SharedDecision) -> Result<(), AllocError>
    ensures { OnOk result (map plain_ended keys.new.items ≡ map plain_ended keys.old.items ++ ended_of decision.now (names_of decision.now.partitions)) }
{
    for topic in decision.partitions() {
        push_ended_topic(keys, decision, topic)?;
    }
    Ok(())
}

/// The end markers that decisions want.
pub(crate) fn ended_keys<'a>(
    alloc: Global,
    decisions: &'a [SharedDecision],
    shard: Shard,
) -> Result<Sorted<Ended<'a>>, AllocError>
    ensures { IfOk result (λ keys. IsPermutation (ended shard.of shard.number decisions.now) (map plain_ended keys)) }
{
    let mut keys = Vec::new(alloc);
    for decision in decisions {
        if shard.has(decision.producer()) {
            push_ended(&mut keys, decision)?;
        }
    }
    Ok(Sorted::of(keys))
}

fn push_marked<'a>(
    keys: &mut Vec<Ended<'a>>,
    part: &'a Part,
    shard: Shard,
) -> Result<(), AllocError>
    ensures { OnOk result (map plain_ended keys.new.items ≡ map plain_ended keys.old.items ++ marked_of shard.of shard.number (part_name part.now) part.now.markers) }
{
    let name = name_of_part(part);
    for marker in part.markers() {
        if shard.has(marker.producer) {
            keys.push(Ended {
                producer: marker.producer,
                epoch: marker.epoch,
                kind: marker.kind,
                name,
            })?;
        }
    }
    Ok(())
}

/// The end markers that are there.
pub(crate) fn marked_keys<'a>(
    alloc: Global,
    parts: &'a [Part],
    shard: Shard,
) -> Result<Sorted<Ended<'a>>, AllocError>
    ensures { IfOk result (λ keys. IsPermutation (marked shard.of shard.number parts.now) (map plain_ended keys)) }
{
    let mut keys = Vec::new(alloc);
    for part in parts {
        push_marked(&mut keys, part, shard)?;
    }
    Ok(Sorted::of(keys))
}

/// The names of the partitions.
pub(crate) fn name_keys<'a>(
    alloc: Global,
    parts: &'a [Part],
) -> Result<Sorted<NameRef<'a>>, AllocError>
    ensures { IfOk result (λ keys. IsPermutation (names parts.now) (map plain_name keys)) }
{
    let mut keys = Vec::new(alloc);
    for part in parts {
        keys.push(name_of_part(part))?;
    }
    Ok(Sorted::of(keys))
}
