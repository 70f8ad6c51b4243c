//! Inputs that come in, and sessions that begin.

ghost use Rattle.std.specs.Prelude.{◌≡◌, ◌+◌, ◌-◌, ◌≤◌, if◌then◌else◌, OnErr, IfOk};
ghost use Rattle.eos_machine.specs.World.{coord_at};
ghost use Rattle.eos_machine.specs.Machine.{feed, start, start_session};

use crate::deliver_end::end_by_markers;
use eos_base::Listed;
use eos_batch::Kind;
use eos_broker::answers::{is_ongoing, is_prepare};
use eos_broker::log_indexes::input_index;
use eos_broker::{Store, copies};
use eos_machine::{Item, Reply, Session, Status, Switches};
use std::alloc::AllocError;

/// The greatest epoch at which a session may work: the end of its transaction takes one more.
pub(crate) const LAST_EPOCH: u16 = 32766;

#[tactic(auto, unfolding(eos_machine::specs::Answers::when))]
pub fn feed(store: &mut Store, source: usize) -> Result<Reply, AllocError>
    ensures ok { IfOk result (λ r. (store.new.world, r) ≡ feed store.old.config store.old.world source) }
    ensures err { OnErr result (store.new.world ≡ store.old.world) }
    ensures config { store.new.config ≡ store.old.config }
{
    let config = store.config();
    if source >= config.inputs {
        return Ok(Reply::Unknown);
    }
    let place = input_index(config, source);
    let offset = store.log(place).len() as u64;
    let event = store.events();
    store.make_room(1)?;
    store.put(place, Item::Fed { event });
    Ok(Reply::Done(offset))
}

#[tactic(auto, unfolding(eos_machine::specs::Answers::when))]
fn start_session(
    store: &mut Store,
    switches: Switches,
    application: usize,
    epoch: u16,
) -> Result<Reply, AllocError>
    ensures ok { IfOk result (λ r. (store.new.world, r) ≡ start_session switches store.old.config store.old.world application epoch) }
    ensures err { OnErr result (store.new.world ≡ store.old.world) }
    ensures config { store.new.config ≡ store.old.config }
{
    if epoch > LAST_EPOCH {
        return Ok(Reply::EpochsSpent);
    }
    let number = store.session_count() as u64;
    let alloc = store.alloc();
    let config = store.config();
    store.make_room(2)?;
    let step = store.step_of(switches, Status::Empty, epoch, copies::none(alloc))?;
    let session = Session {
        application,
        epoch,
        generation: store.generation_of(application),
        ending: None,
        sequences: copies::zeros(alloc, config.outputs)?,
        messages: Listed::new(Vec::new(alloc)),
    };
    store.write(application, step);
    store.add_session(session);
    Ok(Reply::Done(number))
}

/// The epoch of an application's next session.
fn next_epoch(store: &Store, application: usize) -> u16
    requires { (coord_at store.now.world application).epoch ≤ 32767 }
    ensures { result ≡ (if (coord_at store.now.world application).started then (coord_at store.now.world application).epoch + 1 else 0) }
{
    if store.has_started(application) {
        store.epoch(application) + 1
    } else {
        0
    }
}

/// A new session of an application begins. An open transaction is aborted first.
#[tactic(auto, unfolding(eos_machine::specs::Answers::when))]
pub fn start(store: &mut Store, switches: Switches, application: usize) -> Result<Reply, AllocError>
    requires { (coord_at store.old.world application).epoch ≤ 32767 }
    ensures ok { IfOk result (λ r. (store.new.world, r) ≡ start switches store.old.config store.old.world application) }
    ensures err { OnErr result (store.new.world ≡ store.old.world) }
    ensures config { store.new.config ≡ store.old.config }
{
    let config = store.config();
    if application >= config.application_count() {
        return Ok(Reply::Unknown);
    }
    let status = store.status(application);
    if is_prepare(status) {
        return Ok(Reply::Busy);
    }
    if is_ongoing(status) {
        let partitions = store.partitions(application)?;
        end_by_markers(store, switches, application, Kind::Abort, partitions)?;
        return Ok(Reply::Busy);
    }
    start_session(store, switches, application, next_epoch(store, application))
}
