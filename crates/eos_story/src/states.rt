//! Rows of the states of a transactional id or a producer id.

ghost use Rattle.std.specs.Prelude.{◌≡◌, ◌∷◌, [], IfOk, OnOk, slice_get};
ghost use Rattle.eos_sought.specs.declared.partition.Placed.{Placed as Batch};
ghost use Rattle.eos_sought.specs.declared.sought.Sought.TheVariants.{OfId, OfProducer, Before as IsBefore};
ghost use Rattle.eos_story.specs.Questions.{Latest, states_from, states_near, state_said, last_of, markers_epoch, of_state, by_producer, by_holder, states_of};
ghost use Rattle.eos_story.specs.steps.Telling.{TellsEach};
ghost use Rattle.eos_verdict.specs.declared.log_fault.LogFaultKind.TheVariants.{SplitId, SharedProducer, Unfinished};

use crate::copies::{copy_bytes, copy_place};
use crate::decisions::{bytes_of, epoch_after, push_markers};
use crate::records::{first_found, push_last_of, push_records};
use crate::row::Row;
use crate::scene::Scene;
use crate::slices::from_on;
use bytes::Bytes;
use eos_claims::Place;
use eos_sought::{Epochs, Find, Placed, Sought, find_records, state_of};
use eos_txnlog::TxnValue;
use eos_verdict::LogFaultKind;
use std::alloc::{AllocError, Global};

// ---- of a producer id

/// Adds the states of a producer id with this epoch, and with the next.
pub(crate) fn push_from(
    scene: &Scene<'_>,
    rows: &mut Vec<Row>,
    producer: i64,
    epoch: i16,
) -> Result<(), AllocError>
    ensures { OnOk result (TellsEach scene.now rows.old.items rows.new.items (states_from producer epoch)) }
{
    let epochs = Epochs {
        producer,
        from: epoch,
        to: epoch_after(epoch),
    };
    push_records(scene, rows, Sought::Within(epochs), 6)
}

/// Adds the states of a producer id around the epoch of this batch.
pub(crate) fn push_near(
    scene: &Scene<'_>,
    rows: &mut Vec<Row>,
    producer: i64,
    batch: Option<Placed>,
) -> Result<(), AllocError>
    ensures { OnOk result (TellsEach scene.now rows.old.items rows.new.items (states_near producer batch)) }
{
    match batch {
        None => Ok(()),
        Some(batch) => push_from(scene, rows, producer, batch.standing.head.epoch),
    }
}

/// Adds the last states of a producer id.
pub(crate) fn push_last(
    scene: &Scene<'_>,
    rows: &mut Vec<Row>,
    producer: i64,
) -> Result<(), AllocError>
    ensures { OnOk result (TellsEach scene.now rows.old.items rows.new.items (Latest (OfProducer producer) 4 ∷ [])) }
{
    push_last_of(scene, rows, Sought::OfProducer(producer), 4)
}

// ---- of a transactional id

/// The last of them before a place.
fn push_before(
    scene: &Scene<'_>,
    rows: &mut Vec<Row>,
    id: &Bytes,
    place: &Place,
    most: usize,
) -> Result<(), AllocError>
    ensures { OnOk result (TellsEach scene.now rows.old.items rows.new.items (Latest (IsBefore id.now place.now) most ∷ [])) }
{
    let named = copy_bytes(id)?;
    let end = copy_place(place)?;
    let states = Sought::Before {
        id: named,
        place: end,
    };
    push_last_of(scene, rows, states, most)?;
    Ok(())
}

/// What the first of these records says, if it is a state.
fn state_in(alloc: Global, finds: &[Find]) -> Result<Option<TxnValue>, AllocError>
    ensures { IfOk result (λ state. state ≡ state_said (slice_get finds.now 0)) }
{
    if finds.is_empty() {
        return Ok(None);
    }
    state_of(alloc, bytes_of(&finds[0].item.value))
}

/// The last of the states that are sought.
fn last_sought(scene: &Scene<'_>, sought: &Sought) -> Result<Option<TxnValue>, AllocError>
    ensures { IfOk result (λ state. state ≡ state_said (last_of sought.now scene.now.logs.now)) }
{
    let count = find_records(scene.alloc, scene.logs, sought, 0)?.count;
    let finds = find_records(scene.alloc, scene.logs, sought, count)?;
    let states = finds.first.as_slice();
    let before = states.len().saturating_sub(1);
    state_in(scene.alloc, from_on(states, before))
}

/// The last state of a transactional id.
fn last_state(scene: &Scene<'_>, id: &Bytes) -> Result<Option<TxnValue>, AllocError>
    ensures { IfOk result (λ state. state ≡ state_said (last_of (OfId id.now) scene.now.logs.now)) }
{
    let id = copy_bytes(id)?;
    let states = Sought::OfId(id);
    let last = last_sought(scene, &states);
    drop(states);
    last
}

/// Beside those before the place, which is in another partition, the first of all.
fn push_split(
    scene: &Scene<'_>,
    rows: &mut Vec<Row>,
    id: &Bytes,
    place: &Place,
) -> Result<(), AllocError>
    ensures { OnOk result (TellsEach scene.now rows.old.items rows.new.items (states_of scene.now.logs.now place.now (SplitId id.now))) }
{
    push_before(scene, rows, id, place, 2)?;
    let first = copy_bytes(id)?;
    push_records(scene, rows, Sought::OfId(first), 2)?;
    Ok(())
}

fn push_by_producer(
    scene: &Scene<'_>,
    rows: &mut Vec<Row>,
    state: Option<TxnValue>,
) -> Result<(), AllocError>
    ensures { OnOk result (TellsEach scene.now rows.old.items rows.new.items (by_producer state)) }
{
    match state {
        None => Ok(()),
        Some(state) => push_records(scene, rows, Sought::OfProducer(state.producer), 4),
    }
}

/// Those of the producer id of the record of this place.
fn push_holders(scene: &Scene<'_>, rows: &mut Vec<Row>, place: Place) -> Result<(), AllocError>
    ensures { OnOk result (TellsEach scene.now rows.old.items rows.new.items (by_holder scene.now.logs.now place)) }
{
    let found = first_found(scene, Sought::At(place))?;
    let state = state_in(scene.alloc, found.as_slice())?;
    push_by_producer(scene, rows, state)?;
    Ok(())
}

/// Beside those before the place, the first ones of the producer id that stands there.
fn push_shared(
    scene: &Scene<'_>,
    rows: &mut Vec<Row>,
    id: &Bytes,
    place: &Place,
) -> Result<(), AllocError>
    ensures { OnOk result (TellsEach scene.now rows.old.items rows.new.items (states_of scene.now.logs.now place.now (SharedProducer id.now))) }
{
    push_before(scene, rows, id, place, 2)?;
    let at = copy_place(place)?;
    push_holders(scene, rows, at)?;
    Ok(())
}

fn markers_epoch(state: &TxnValue) -> i16
    ensures { result ≡ markers_epoch state.now }
{
    if state.status.is_prepare() {
        state.epoch
    } else {
        epoch_after(state.epoch)
    }
}

/// The decision of the transaction that a state is of, and which of its partitions have their markers.
fn push_transaction(
    scene: &Scene<'_>,
    rows: &mut Vec<Row>,
    state: Option<TxnValue>,
) -> Result<(), AllocError>
    ensures { OnOk result (TellsEach scene.now rows.old.items rows.new.items (of_state scene.now.logs.now state)) }
{
    match state {
        None => Ok(()),
        Some(state) => push_markers(scene, rows, state.producer, markers_epoch(&state)),
    }
}

/// The last ones, and of their transaction which partitions have their markers.
fn push_unfinished(
    scene: &Scene<'_>,
    rows: &mut Vec<Row>,
    id: &Bytes,
    place: &Place,
) -> Result<(), AllocError>
    ensures { OnOk result (TellsEach scene.now rows.old.items rows.new.items (states_of scene.now.logs.now place.now (Unfinished id.now))) }
{
    let state = last_state(scene, id)?;
    let named = copy_bytes(id)?;
    push_last_of(scene, rows, Sought::OfId(named), 4)?;
    push_transaction(scene, rows, state)?;
    Ok(())
}

/// Adds the states of the transactional id that a fault of the transaction log names.
pub(crate) fn push_states(
    scene: &Scene<'_>,
    rows: &mut Vec<Row>,
    place: &Place,
    kind: &LogFaultKind,
) -> Result<(), AllocError>
    ensures { OnOk result (TellsEach scene.now rows.old.items rows.new.items (states_of scene.now.logs.now place.now kind.now)) }
{
    match kind {
        LogFaultKind::BadRecord { .. } => Ok(()),
        LogFaultKind::Step { id, .. } => push_before(scene, rows, id, place, 4),
        LogFaultKind::SplitId { id } => push_split(scene, rows, id, place),
        LogFaultKind::SharedProducer { id } => push_shared(scene, rows, id, place),
        LogFaultKind::Unfinished { id } => push_unfinished(scene, rows, id, place),
    }
}
