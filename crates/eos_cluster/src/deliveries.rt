//! A message arrives.

ghost use Rattle.std.specs.Prelude.{◌≡◌, ℕ, ◌≤◌, ◌<◌, length, slice_get, Some, OnErr, IfOk};
ghost use Rattle.eos_machine.specs.LogIndexes.{application_count};
ghost use Rattle.eos_machine.specs.Formed.{Names};
ghost use Rattle.eos_machine.specs.World.{coord_at};
ghost use Rattle.eos_machine.specs.Deliveries.{deliver};
ghost use Rattle.eos_broker.specs.Named.{IsNamed};
ghost use Rattle.eos_cluster.specs.steps.Taken.{taken, IsData, IsFromIf};

use crate::accept::{Arrival, Request, take_in};
use crate::deliver_end::deliver_end;
use crate::deliver_marker::{EndMarker, take_marker};
use crate::deliver_offset::{OffsetCommit, offset_arrival};
use crate::deliver_output::{SentRecord, output_arrival};
use eos_broker::Store;
use eos_broker::log_indexes::{OFFSETS_INDEX, written_index};
use eos_machine::{Message, Reply, Switches};
use std::alloc::AllocError;

/// What becomes of data that arrive: the batch that is appended, or the refusal.
fn arrival_of(
    store: &Store,
    switches: Switches,
    number: u64,
    message: &Message,
) -> Result<(Request, Result<Arrival, Reply>), AllocError>
    requires data { IsData message.now }
    requires named { Names store.now.config message.now }
    ensures from { IfOk result (λ x. IfOk x.1 (IsFromIf (application_count store.now.config))) }
    ensures answer { IfOk result (λ x. deliver switches store.now.config store.now.world number (Some message.now) ≡ taken switches store.now.config store.now.world x.0 x.1) }
{
    match message {
        Message::Output {
            application,
            epoch,
            partition,
            sequence,
            claim,
            value,
        } => {
            let place = written_index(store.config(), *application, *partition);
            let request = Request::new(number, *application, *epoch, place);
            let sent = SentRecord::new(*sequence, *value);
            Ok((
                request,
                output_arrival(store, switches, request, sent, claim)?,
            ))
        }
        Message::Offset {
            application,
            epoch,
            generation,
            source,
            offset,
        } => {
            let request = Request::new(number, *application, *epoch, OFFSETS_INDEX);
            let commit = OffsetCommit::new(*generation, *source, *offset);
            Ok((request, offset_arrival(store, switches, request, commit)))
        }
        Message::End { .. } | Message::Marker { .. } => unreachable!(),
    }
}

/// A message arrives.
pub fn deliver(store: &mut Store, switches: Switches, number: u64) -> Result<Reply, AllocError>
    requires named { IsNamed store.old.config (slice_get store.old.world.messages number) }
    requires coordinators { length store.old.world.coordinators ≡ application_count store.old.config }
    requires epochs { (a : ℕ) → (coord_at store.old.world a).epoch ≤ 32767 }
    ensures ok { IfOk result (λ r. (store.new.world, r) ≡ deliver switches store.old.config store.old.world number (slice_get store.old.world.messages number)) }
    ensures err { OnErr result (store.new.world ≡ store.old.world) }
    ensures config { store.new.config ≡ store.old.config }
{
    let Some(message) = store.message(number) else {
        return Ok(Reply::Unknown);
    };
    match message {
        Message::Output { .. } | Message::Offset { .. } => {
            match arrival_of(store, switches, number, message) {
                Ok((request, arrival)) => take_in(store, switches, request, arrival),
                Err(why) => Err(why),
            }
        }
        Message::End {
            application,
            epoch,
            kind,
        } => {
            let (application, epoch, kind) = (*application, *epoch, *kind);
            deliver_end(store, switches, application, epoch, kind)
        }
        Message::Marker {
            application,
            epoch,
            kind,
            place,
        } => {
            let marker = EndMarker::new(*application, *epoch, *kind, *place);
            take_marker(store, switches, marker, true)
        }
    }
}
