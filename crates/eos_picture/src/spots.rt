//! The places of a fault.

ghost use Rattle.std.specs.Prelude.{◌≡◌, ◌++◌, ◌∷◌, [], Option, IfOk, OnOk};
ghost use Rattle.eos_claims.specs.declared.place.Place.{Place};
ghost use Rattle.eos_fold.specs.Parts.{part_name};
ghost use Rattle.eos_picture.specs.Window.{place_of};
ghost use Rattle.eos_picture.specs.steps.Spots.{StartsAt, spot_at};

use crate::ends::{End, count_ends, is_ended_by, marker_at, open_epoch};
use crate::growing::put;
use crate::mark::Column;
use crate::named::{is_named, name_in, transaction_log};
use crate::outputs::{app_of, push_output};
use crate::window::is_written_by;
use eos_base::PartitionName;
use eos_batch::Kind;
use eos_claims::{OutputFault, OutputKind};
use eos_evidence::App;
use eos_fold::{PartitionFault, PartitionFaultKind};
use eos_kept::Part;
use eos_table::{MatchFault, MatchFaultKind};
use eos_verdict::{Fault, LineageFault};
use std::alloc::{AllocError, Global};

/// A place of a fault, in one partition.
#[derive(Drop)]
pub(crate) struct Spot {
    pub name: PartitionName,
    pub at: At,
}

/// What there is at a place of a fault.
#[derive(Clone, Copy)]
pub(crate) enum At {
    /// A record at this offset, or whatever else stands there.
    Offset(u64),
    /// What the transaction of this producer id and epoch did in the partition.
    Transaction { producer: i64, epoch: i16 },
    /// End markers of the partition, at this offset, if it is known.
    Marker { end: End, offset: Option<u64> },
    /// The end marker that the transaction of this producer id and epoch doesn't have in the partition.
    Open { producer: i64, epoch: i16 },
    /// The commits that passed this offset of the partition.
    Passing(u64),
    /// What stands before this offset, which is no place of the fault.
    Near(u64),
}

pub(crate) fn push_offset(
    spots: &mut Vec<Spot>,
    name: PartitionName,
    offset: u64,
) -> Result<(), AllocError>
    ensures { OnOk result (spots.new.items ≡ spots.old.items ++ spot_at (record { partition = name; offset = offset }) ∷ []) }
{
    let at = At::Offset(offset);
    put(spots, Spot { name, at })
}

// ---- between decisions and logs

/// The Prepare records of the transaction, and what it did in the fault's partition.
fn push_match(
    alloc: Global,
    spots: &mut Vec<Spot>,
    logs: &[Part],
    columns: &[Column],
    fault: &MatchFault,
) -> Result<(), AllocError> {
    for column in columns {
        if is_meant(column, fault) {
            if let Some(decided) = &column.decided {
                let name = transaction_log(alloc, decided.partition)?;
                push_offset(spots, name, decided.offset)?;
            }
        }
    }
    match &fault.partition {
        None => Ok(()),
        Some(name) => push_match_in(spots, logs, name, fault),
    }
}

/// What the fault is about in this partition: the missing end marker, the stray ones, or all that the transaction did there.
fn push_match_in(
    spots: &mut Vec<Spot>,
    logs: &[Part],
    name: &PartitionName,
    fault: &MatchFault,
) -> Result<(), AllocError> {
    let producer = fault.producer;
    let epoch = fault.epoch;
    match fault.kind {
        MatchFaultKind::MissingMarker => push_at(spots, name, At::Open { producer, epoch }),
        MatchFaultKind::StrayMarker => push_strays(spots, logs, name, producer, epoch),
        _ => push_at(spots, name, At::Transaction { producer, epoch }),
    }
}

fn push_at(spots: &mut Vec<Spot>, name: &PartitionName, at: At) -> Result<(), AllocError>
    ensures stays { (first : Option Place) → StartsAt spots.old.items first → OnOk result (StartsAt spots.new.items first) }
{
    let name = name.clone()?;
    put(spots, Spot { name, at })
}

/// The end markers of this producer id and epoch, those of each kind by themselves.
fn push_strays(
    spots: &mut Vec<Spot>,
    logs: &[Part],
    name: &PartitionName,
    producer: i64,
    epoch: i16,
) -> Result<(), AllocError> {
    for part in logs {
        if is_named(part, name) {
            let mut end = End {
                producer,
                epoch,
                kind: Kind::Commit,
            };
            push_stray(spots, part, name, end)?;
            end.kind = Kind::Abort;
            push_stray(spots, part, name, end)?;
        }
    }
    Ok(())
}

/// Such end markers, if there are some.
fn push_stray(
    spots: &mut Vec<Spot>,
    part: &Part,
    name: &PartitionName,
    end: End,
) -> Result<(), AllocError> {
    if count_ends(part, end) > 0 {
        push_at(spots, name, At::Marker { end, offset: None })?;
    }
    Ok(())
}

// ---- in a partition by itself

/// What stands at the place of a fault of the partition where that is no data record: an end marker, or nothing yet.
fn push_besides(
    spots: &mut Vec<Spot>,
    logs: &[Part],
    fault: &PartitionFault,
) -> Result<(), AllocError>
    ensures stays { (first : Option Place) → StartsAt spots.old.items first → OnOk result (StartsAt spots.new.items first) }
{
    let name = name_in(fault)?;
    for part in logs {
        if is_named(part, &name) {
            let at = end_of(part, fault).unwrap_or(At::Near(fault.offset));
            push_at(spots, &name, at)?;
        }
    }
    Ok(())
}

fn end_of(part: &Part, fault: &PartitionFault) -> Option<At> {
    match fault.kind {
        PartitionFaultKind::Pair { producer, .. } => {
            let marker = marker_at(part, fault.offset)?;
            if marker.producer != producer {
                return None;
            }
            let end = End {
                producer,
                epoch: marker.epoch,
                kind: marker.kind,
            };
            Some(At::Marker {
                end,
                offset: Some(fault.offset),
            })
        }
        PartitionFaultKind::OpenAtEnd { producer } => {
            let epoch = open_epoch(part, producer)?;
            Some(At::Open { producer, epoch })
        }
        _ => None,
    }
}

/// The place that the fault names, and what is there.
fn push_partition(
    spots: &mut Vec<Spot>,
    logs: &[Part],
    fault: &PartitionFault,
) -> Result<(), AllocError>
    ensures { spots.old.items ≡ [] → OnOk result (StartsAt spots.new.items (place_of (Fault.Partition fault.now))) }
{
    push_offset(spots, name_in(fault)?, fault.offset)?;
    push_besides(spots, logs, fault)
}

/// Whether the fault is of the transaction: its epoch is that of the data, or of end markers that no decision lists.
fn is_meant(column: &Column, fault: &MatchFault) -> bool {
    match fault.kind {
        MatchFaultKind::StrayMarker => is_ended_by(column, fault.producer, fault.epoch),
        _ => is_written_by(column, (fault.producer, fault.epoch)),
    }
}

// ---- outputs

/// The name of a partition.
pub(crate) fn name_of(part: &Part) -> Result<PartitionName, AllocError>
    ensures { IfOk result (λ name. name ≡ part_name part.now) }
{
    Ok(PartitionName {
        topic: part.topic().clone()?,
        partition: part.partition(),
    })
}

/// The place that the fault names, and the commits that passed its input.
fn push_named(spots: &mut Vec<Spot>, fault: &OutputFault) -> Result<(), AllocError>
    ensures { spots.old.items ≡ [] → OnOk result (StartsAt spots.new.items fault.now.at) }
{
    if let Some(at) = &fault.at {
        push_offset(spots, at.partition.clone()?, at.offset)?;
    }
    if matches!(
        fault.kind,
        OutputKind::Missing | OutputKind::OtherTransaction
    ) {
        let past = At::Passing(fault.source.offset);
        push_at(spots, &fault.source.partition, past)?;
    }
    Ok(())
}

/// What stands before the place that the fault names.
fn push_near(spots: &mut Vec<Spot>, fault: &OutputFault) -> Result<(), AllocError>
    ensures stays { (at : Option Place) → StartsAt spots.old.items at → OnOk result (StartsAt spots.new.items at) }
{
    match &fault.at {
        None => Ok(()),
        Some(at) => push_at(spots, &at.partition, At::Near(at.offset)),
    }
}

/// The places of a fault, that which its line names first. A record that belongs to it twice may stand there twice.
///
/// # Errors
/// Only want of memory.
pub(crate) fn spots_of(
    alloc: Global,
    apps: &[App],
    logs: &[Part],
    columns: &[Column],
    fault: &Fault,
) -> Result<Vec<Spot>, AllocError>
    ensures { IfOk result (λ spots. StartsAt spots.items (place_of fault.now)) }
{
    let mut spots = Vec::new(alloc);
    match fault {
        Fault::Partition(fault) => push_partition(&mut spots, logs, fault)?,
        Fault::Log(fault) => {
            let name = transaction_log(alloc, fault.partition)?;
            push_offset(&mut spots, name, fault.offset)?;
        }
        Fault::Match(fault) => push_match(alloc, &mut spots, logs, columns, fault)?,
        Fault::Lineage(LineageFault::Record(fault)) => {
            push_offset(&mut spots, fault.partition.clone()?, fault.offset)?;
            push_at(&mut spots, &fault.partition, At::Near(fault.offset))?;
        }
        Fault::Lineage(LineageFault::Output { group, fault }) => {
            push_named(&mut spots, fault)?;
            push_output(alloc, &mut spots, app_of(apps, group), logs, fault)?;
            push_near(&mut spots, fault)?;
        }
    }
    Ok(spots)
}
