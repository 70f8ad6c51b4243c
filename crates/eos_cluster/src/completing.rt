//! End markers that are written, and a transaction that is completed, apart from each other.

ghost use Rattle.std.specs.Prelude.{◌≡◌, slice_get, OnErr, IfOk};
ghost use Rattle.eos_machine.specs.declared.item.Status.TheVariants.{Prepare};
ghost use Rattle.eos_machine.specs.Deliveries.{complete, complete_prepared, write_marker};
ghost use Rattle.eos_broker.specs.Named.{IsNamed};

use crate::deliver_marker::{EndMarker, take_marker};
use eos_batch::Kind;
use eos_broker::{Store, copies};
use eos_machine::{Message, Reply, Status, Switches};
use std::alloc::AllocError;

/// The message of a number arrives, if it is an end marker, and completes nothing.
pub(crate) fn write_marker(
    store: &mut Store,
    switches: Switches,
    number: u64,
) -> Result<Reply, AllocError>
    requires { IsNamed store.old.config (slice_get store.old.world.messages number) }
    ensures ok { IfOk result (λ r. (store.new.world, r) ≡ write_marker switches store.old.config store.old.world (slice_get store.old.world.messages number)) }
    ensures err { OnErr result (store.new.world ≡ store.old.world) }
    ensures config { store.new.config ≡ store.old.config }
{
    let Some(message) = store.message(number) else {
        return Ok(Reply::Unknown);
    };
    match message {
        Message::Output { .. } | Message::Offset { .. } | Message::End { .. } => Ok(Reply::Unknown),
        Message::Marker {
            application,
            epoch,
            kind,
            place,
        } => {
            let marker = EndMarker::new(*application, *epoch, *kind, *place);
            take_marker(store, switches, marker, false)
        }
    }
}

/// The coordinator writes that a prepared transaction is complete, if it awaits no end marker.
#[tactic(auto, unfolding(eos_machine::specs::Answers::when))]
fn complete_prepared(
    store: &mut Store,
    switches: Switches,
    application: usize,
    kind: Kind,
) -> Result<Reply, AllocError>
    ensures ok { IfOk result (λ r. (store.new.world, r) ≡ complete_prepared switches store.old.config store.old.world application (Prepare kind)) }
    ensures err { OnErr result (store.new.world ≡ store.old.world) }
    ensures config { store.new.config ≡ store.old.config }
{
    if !store.awaits_none(application) {
        return Ok(Reply::Busy);
    }
    store.make_room(1)?;
    let now = store.epoch(application);
    let none = copies::none(store.alloc());
    let done = store.step_of(switches, Status::Complete(kind), now, none)?;
    store.write(application, done);
    Ok(Reply::Done(0))
}

/// The coordinator writes that an application's transaction is complete.
#[tactic(auto, unfolding(eos_machine::specs::Answers::when))]
pub(crate) fn complete(
    store: &mut Store,
    switches: Switches,
    application: usize,
) -> Result<Reply, AllocError>
    ensures ok { IfOk result (λ r. (store.new.world, r) ≡ complete switches store.old.config store.old.world application) }
    ensures err { OnErr result (store.new.world ≡ store.old.world) }
    ensures config { store.new.config ≡ store.old.config }
{
    if application >= store.config().application_count() {
        return Ok(Reply::Unknown);
    }
    match store.status(application) {
        Status::Prepare(kind) => complete_prepared(store, switches, application, kind),
        Status::Empty | Status::Ongoing | Status::Complete(_) => Ok(Reply::WrongState),
    }
}
