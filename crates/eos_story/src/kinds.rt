//! Which rows a fault has, by its kind.

ghost use Rattle.std.specs.Option.{option_copied};
ghost use Rattle.std.specs.Prelude.{◌≡◌, IfOk, OnOk, Some, List, All};
ghost use Rattle.eos_evidence.specs.declared.partition.Partition.{Partition as Log};
ghost use Rattle.eos_story.specs.Questions.{of_log, marker_epoch, there, states_about, of_match};
ghost use Rattle.eos_story.specs.PlaceOfFault.{place_of};
ghost use Rattle.eos_story.specs.Rows.{IsTrue};
ghost use Rattle.eos_story.specs.Wholeness.{IsWhole};
ghost use Rattle.eos_story.specs.SceneOf.{IsSceneOf};
ghost use Rattle.eos_story.specs.steps.Seen.{OfAllSeen};
ghost use Rattle.eos_story.specs.steps.Telling.{Tells, TellsEach};

use crate::batches::push_one;
use crate::copies::copy_place;
use crate::decisions::{epoch_after, epoch_before, push_listing};
use crate::outputs::lineage_rows;
use crate::pairs::partition_rows;
use crate::records::push_records;
use crate::row::Row;
use crate::scene::Scene;
use crate::states::{push_from, push_last, push_states};
use bytes::Bytes;
use eos_base::PartitionName;
use eos_claims::Place;
use eos_sought::{Sought, Wanted};
use eos_verdict::{Fault, LogFault, MatchFault, MatchFaultKind};
use std::alloc::AllocError;

fn log_rows(scene: &Scene<'_>, rows: &mut Vec<Row>, fault: &LogFault) -> Result<(), AllocError>
    ensures { OnOk result (TellsEach scene.now rows.old.items rows.new.items (of_log scene.now.logs.now fault.now)) }
{
    let topic = Bytes::copy_from_slice(scene.alloc, b"__transaction_state".as_slice())?;
    let place = Place {
        partition: PartitionName {
            topic,
            partition: fault.partition,
        },
        offset: fault.offset,
    };
    let at = copy_place(&place)?;
    push_records(scene, rows, Sought::At(at), 1)?;
    push_states(scene, rows, &place, &fault.kind)?;
    Ok(())
}

/// The first data of a transaction whose end markers have this epoch, and its marker, in a partition.
fn push_in(
    scene: &Scene<'_>,
    rows: &mut Vec<Row>,
    name: &PartitionName,
    producer: i64,
    epoch: i16,
) -> Result<(), AllocError>
    ensures { OnOk result (TellsEach scene.now rows.old.items rows.new.items (there producer epoch (Some name.now))) }
{
    let data = Wanted::Data {
        producer,
        epoch: epoch_before(epoch),
    };
    push_one(scene, rows, name, data)?;
    push_one(scene, rows, name, Wanted::Marking { producer, epoch })?;
    Ok(())
}

fn push_there(
    scene: &Scene<'_>,
    rows: &mut Vec<Row>,
    name: &Option<PartitionName>,
    producer: i64,
    epoch: i16,
) -> Result<(), AllocError>
    ensures { OnOk result (TellsEach scene.now rows.old.items rows.new.items (there producer epoch name.now)) }
{
    match name {
        None => Ok(()),
        Some(name) => push_in(scene, rows, name, producer, epoch),
    }
}

/// The epoch of the markers of the transaction that a fault between decisions and logs is about.
fn marker_epoch(kind: MatchFaultKind, epoch: i16) -> i16
    ensures { result ≡ marker_epoch kind epoch }
{
    match kind {
        MatchFaultKind::StrayMarker => epoch,
        _ => epoch_after(epoch),
    }
}

fn push_about(
    scene: &Scene<'_>,
    rows: &mut Vec<Row>,
    kind: MatchFaultKind,
    producer: i64,
    epoch: i16,
) -> Result<(), AllocError>
    ensures { OnOk result (TellsEach scene.now rows.old.items rows.new.items (states_about kind producer epoch)) }
{
    match kind {
        MatchFaultKind::Undecided => push_last(scene, rows, producer),
        _ => push_from(scene, rows, producer, epoch),
    }
}

fn match_rows(scene: &Scene<'_>, rows: &mut Vec<Row>, fault: &MatchFault) -> Result<(), AllocError>
    ensures { OnOk result (TellsEach scene.now rows.old.items rows.new.items (of_match scene.now.logs.now fault.now)) }
{
    let producer = fault.producer;
    let epoch = marker_epoch(fault.kind, fault.epoch);
    push_listing(scene, rows, producer, epoch)?;
    push_there(scene, rows, &fault.partition, producer, epoch)?;
    push_about(scene, rows, fault.kind, producer, fault.epoch)?;
    Ok(())
}

fn push_rows(scene: &Scene<'_>, rows: &mut Vec<Row>, fault: &Fault) -> Result<(), AllocError>
    requires { option_copied scene.now.place ≡ place_of fault.now }
    ensures { OnOk result (Tells scene.now rows.old.items rows.new.items (λ told. OfAllSeen scene.now (λ ps. IsWhole scene.now.apps.now ps scene.now.logs.now fault.now told))) }
{
    match fault {
        Fault::Partition(fault) => {
            partition_rows(scene, rows, fault)?;
            Ok(())
        }
        Fault::Log(fault) => {
            log_rows(scene, rows, fault)?;
            Ok(())
        }
        Fault::Match(fault) => {
            match_rows(scene, rows, fault)?;
            Ok(())
        }
        Fault::Lineage(fault) => {
            lineage_rows(scene, rows, fault)?;
            Ok(())
        }
    }
}

/// The places that a fault is about, in the order in which they are told: the answers of all that a fault of its kind is asked.
///
/// # Errors
/// Only want of memory.
pub fn rows_of(scene: &Scene<'_>, fault: &Fault) -> Result<Vec<Row>, AllocError>
    requires place { option_copied scene.now.place ≡ place_of fault.now }
    ensures so { IfOk result (λ rows. (ps : List Log) → IsSceneOf ps scene.now → All (IsTrue ps scene.now.logs.now) rows.items) }
    ensures whole { IfOk result (λ rows. (ps : List Log) → IsSceneOf ps scene.now → IsWhole scene.now.apps.now ps scene.now.logs.now fault.now rows.items) }
{
    let mut rows = Vec::new(scene.alloc);
    push_rows(scene, &mut rows, fault)?;
    Ok(rows)
}
