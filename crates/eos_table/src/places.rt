//! What each decision, close, end marker and listed partition of a shard shows.

ghost use Rattle.std.specs.Prelude.{◌≡◌, ◌&&◌, OnOk, Some, map, fold};
ghost use Rattle.std.specs.List.{flat_map};
ghost use Rattle.std.specs.Ordering.{int_eq};
ghost use Rattle.eos_touch.specs.Pair.{same_kind};
ghost use Rattle.eos_txnlog.specs.PartitionSets.{names_in_topic};
ghost use Rattle.eos_table.specs.MatchPlaces.{fault_of};
ghost use Rattle.eos_table.specs.steps.Keys.{plain_name, plain_listed, plain_ended};
ghost use Rattle.eos_table.specs.steps.Shown.{found, twice_by, decision_by, decision_in, data_by, close_by, marker_by, name_by, closes_in, markers_in, listed_by, names_in};

use crate::decided::{Decided, Deciders, decided_of};
use crate::kept_faults::KeptFaults;
use crate::key::{Ended, Listed, NameRef, name_in, name_of_part};
use crate::look::{is_ended, is_listed, is_name};
use crate::one_shard::Shard;
use crate::shared::SharedDecision;
use crate::{MatchFault, MatchFaultKind};
use eos_base::{PartitionName, Sorted};
use eos_batch::{Kind, Marker};
use eos_fold::Close;
use eos_kept::Part;
use eos_txnlog::TopicPartitions;
use std::alloc::AllocError;

/// What is kept of the faults between decisions and logs.
pub(crate) type MatchFaults = KeptFaults<MatchFault>;

fn push_fault(
    faults: &mut MatchFaults,
    producer: i64,
    epoch: i16,
    name: NameRef<'_>,
    kind: MatchFaultKind,
) -> Result<(), AllocError>
    ensures { OnOk result (faults.new ≡ found faults.old (fault_of producer epoch (Some (plain_name name.entry)) kind)) }
{
    let partition = PartitionName {
        topic: name.topic.clone()?,
        partition: name.partition,
    };
    faults.take(MatchFault {
        producer,
        epoch,
        kind,
        partition: Some(partition),
    })
}

// ---- decisions

fn push_twice(
    faults: &mut MatchFaults,
    decided: Option<Decided>,
    decision: &SharedDecision,
) -> Result<(), AllocError>
    ensures { OnOk result (faults.new ≡ fold found faults.old (twice_by decided decision.now)) }
{
    let Some(decided) = decided else {
        return Ok(());
    };
    if decided.is_twice {
        return faults.take(MatchFault {
            producer: decision.producer(),
            epoch: decision.epoch(),
            kind: MatchFaultKind::TwiceDecided,
            partition: None,
        });
    }
    Ok(())
}

fn push_decision(
    faults: &mut MatchFaults,
    deciders: &Deciders,
    decision: &SharedDecision,
) -> Result<(), AllocError>
    ensures { OnOk result (faults.new ≡ fold found faults.old (decision_by deciders.now decision.now)) }
{
    let decided = decided_of(deciders, decision.producer(), decision.epoch());
    push_twice(faults, decided, decision)
}

/// What decisions show beside each other.
pub(crate) fn push_decisions(
    faults: &mut MatchFaults,
    deciders: &Deciders,
    decisions: &[SharedDecision],
    shard: Shard,
) -> Result<(), AllocError>
    ensures { OnOk result (faults.new ≡ fold found faults.old (flat_map (decision_in shard.of shard.number deciders.now) decisions.now)) }
{
    for decision in decisions {
        if shard.has(decision.producer()) {
            push_decision(faults, deciders, decision)?;
        }
    }
    Ok(())
}

// ---- data

fn is_same_kind(kind: Kind, other: Kind) -> bool
    ensures { result ≡ same_kind kind other }
{
    match (kind, other) {
        (Kind::Commit, Kind::Commit) | (Kind::Abort, Kind::Abort) => true,
        (Kind::Commit, Kind::Abort) | (Kind::Abort, Kind::Commit) => false,
    }
}

fn ends_as(decided: Decided, close: &Close) -> bool
    ensures { result ≡ int_eq decided.marker_epoch close.now.marker_epoch && same_kind decided.kind close.now.kind }
{
    decided.marker_epoch == close.marker_epoch && is_same_kind(decided.kind, close.kind)
}

fn push_data(
    faults: &mut MatchFaults,
    decided: Option<Decided>,
    is_listed: bool,
    name: NameRef<'_>,
    close: &Close,
) -> Result<(), AllocError>
    ensures { OnOk result (faults.new ≡ fold found faults.old (data_by decided is_listed (plain_name name.entry) close.now)) }
{
    let Some(decided) = decided else {
        return push_fault(
            faults,
            close.producer,
            close.epoch,
            name,
            MatchFaultKind::Undecided,
        );
    };
    if decided.is_twice {
        return Ok(());
    }
    if !ends_as(decided, close) {
        push_fault(
            faults,
            close.producer,
            close.epoch,
            name,
            MatchFaultKind::WrongKind,
        )?;
    }
    if !is_listed {
        push_fault(
            faults,
            close.producer,
            close.epoch,
            name,
            MatchFaultKind::NotListed,
        )?;
    }
    Ok(())
}

fn push_close(
    faults: &mut MatchFaults,
    deciders: &Deciders,
    listed: &Sorted<Listed<'_>>,
    name: NameRef<'_>,
    close: &Close,
) -> Result<(), AllocError>
    ensures { OnOk result (faults.new ≡ fold found faults.old (close_by deciders.now (map plain_listed listed.now) (plain_name name.entry) close.now)) }
{
    let key = Listed {
        producer: close.producer,
        epoch: close.epoch,
        name,
    };
    let decided = decided_of(deciders, close.producer, close.epoch);
    push_data(faults, decided, is_listed(listed, &key), name, close)
}

fn push_closes_of(
    faults: &mut MatchFaults,
    deciders: &Deciders,
    listed: &Sorted<Listed<'_>>,
    part: &Part,
    shard: Shard,
) -> Result<(), AllocError>
    ensures { OnOk result (faults.new ≡ fold found faults.old (closes_in shard.of shard.number deciders.now (map plain_listed listed.now) part.now)) }
{
    let name = name_of_part(part);
    for close in part.closes() {
        if shard.has(close.producer) {
            push_close(faults, deciders, listed, name, close)?;
        }
    }
    Ok(())
}

/// What the data of the parts shows.
pub(crate) fn push_closes(
    faults: &mut MatchFaults,
    deciders: &Deciders,
    listed: &Sorted<Listed<'_>>,
    parts: &[Part],
    shard: Shard,
) -> Result<(), AllocError>
    ensures { OnOk result (faults.new ≡ fold found faults.old (flat_map (closes_in shard.of shard.number deciders.now (map plain_listed listed.now)) parts.now)) }
{
    for part in parts {
        push_closes_of(faults, deciders, listed, part, shard)?;
    }
    Ok(())
}

// ---- end markers

fn push_marker(
    faults: &mut MatchFaults,
    wanted: &Sorted<Ended<'_>>,
    name: NameRef<'_>,
    marker: &Marker,
) -> Result<(), AllocError>
    ensures { OnOk result (faults.new ≡ fold found faults.old (marker_by (map plain_ended wanted.now) (plain_name name.entry) marker.now)) }
{
    let key = Ended {
        producer: marker.producer,
        epoch: marker.epoch,
        kind: marker.kind,
        name,
    };
    if is_ended(wanted, &key) {
        return Ok(());
    }
    push_fault(
        faults,
        marker.producer,
        marker.epoch,
        name,
        MatchFaultKind::StrayMarker,
    )
}

fn push_markers_of(
    faults: &mut MatchFaults,
    wanted: &Sorted<Ended<'_>>,
    part: &Part,
    shard: Shard,
) -> Result<(), AllocError>
    ensures { OnOk result (faults.new ≡ fold found faults.old (markers_in shard.of shard.number (map plain_ended wanted.now) part.now)) }
{
    let name = name_of_part(part);
    for marker in part.markers() {
        if shard.has(marker.producer) {
            push_marker(faults, wanted, name, marker)?;
        }
    }
    Ok(())
}

/// What the end markers of the parts show.
pub(crate) fn push_markers(
    faults: &mut MatchFaults,
    wanted: &Sorted<Ended<'_>>,
    parts: &[Part],
    shard: Shard,
) -> Result<(), AllocError>
    ensures { OnOk result (faults.new ≡ fold found faults.old (flat_map (markers_in shard.of shard.number (map plain_ended wanted.now)) parts.now)) }
{
    for part in parts {
        push_markers_of(faults, wanted, part, shard)?;
    }
    Ok(())
}

// ---- listed partitions

fn push_name(
    faults: &mut MatchFaults,
    there: &Sorted<NameRef<'_>>,
    marked: &Sorted<Ended<'_>>,
    decision: &SharedDecision,
    name: NameRef<'_>,
) -> Result<(), AllocError>
    ensures { OnOk result (faults.new ≡ fold found faults.old (name_by (map plain_name there.now) (map plain_ended marked.now) decision.now (plain_name name.entry))) }
{
    let key = Ended {
        producer: decision.producer(),
        epoch: decision.marker_epoch(),
        kind: decision.kind(),
        name,
    };
    if !is_name(there, &name) {
        return push_fault(
            faults,
            decision.producer(),
            decision.epoch(),
            name,
            MatchFaultKind::AbsentPartition,
        );
    }
    if is_ended(marked, &key) {
        return Ok(());
    }
    push_fault(
        faults,
        decision.producer(),
        decision.epoch(),
        name,
        MatchFaultKind::MissingMarker,
    )
}

fn push_topic(
    faults: &mut MatchFaults,
    there: &Sorted<NameRef<'_>>,
    marked: &Sorted<Ended<'_>>,
    decision: &SharedDecision,
    topic: &TopicPartitions,
) -> Result<(), AllocError>
    ensures { OnOk result (faults.new ≡ fold found faults.old (flat_map (name_by (map plain_name there.now) (map plain_ended marked.now) decision.now) (names_in_topic topic.now))) }
{
    for partition in topic.numbers.as_slice() {
        push_name(faults, there, marked, decision, name_in(topic, partition))?;
    }
    Ok(())
}

fn push_names_of(
    faults: &mut MatchFaults,
    there: &Sorted<NameRef<'_>>,
    marked: &Sorted<Ended<'_>>,
    decision: &SharedDecision,
) -> Result<(), AllocError>
    ensures { OnOk result (faults.new ≡ fold found faults.old (listed_by (map plain_name there.now) (map plain_ended marked.now) decision.now)) }
{
    for topic in decision.partitions() {
        push_topic(faults, there, marked, decision, topic)?;
    }
    Ok(())
}

/// What the partitions that decisions list show.
pub(crate) fn push_names(
    faults: &mut MatchFaults,
    there: &Sorted<NameRef<'_>>,
    marked: &Sorted<Ended<'_>>,
    decisions: &[SharedDecision],
    shard: Shard,
) -> Result<(), AllocError>
    ensures { OnOk result (faults.new ≡ fold found faults.old (flat_map (names_in shard.of shard.number (map plain_name there.now) (map plain_ended marked.now)) decisions.now)) }
{
    for decision in decisions {
        if shard.has(decision.producer()) {
            push_names_of(faults, there, marked, decision)?;
        }
    }
    Ok(())
}
