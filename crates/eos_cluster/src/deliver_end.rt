//! The end of a transaction arrives at the coordinator.

ghost use Rattle.std.specs.Prelude.{◌≡◌, ◌+◌, ◌-◌, ◌≤◌, ◌<◌, [], length, OnOk, OnErr, IfOk};
ghost use Rattle.eos_machine.specs.declared.switches.Switches.{Switches};
ghost use Rattle.eos_machine.specs.World.{coord_at, prepared, finished};
ghost use Rattle.eos_machine.specs.Deliveries.{deliver_end};
ghost use Rattle.eos_machine.specs.LogIndexes.{application_count};
ghost use Rattle.eos_machine.specs.Machine.{time_out};
ghost use Rattle.eos_cluster.specs.steps.Taken.{ended};

use eos_batch::Kind;
use eos_broker::answers::{is_commit, is_decided, is_next, is_ongoing, is_prepare};
use eos_broker::{Store, copies};
use eos_machine::{LogIndexes, Reply, Status, Switches};
use std::alloc::AllocError;

/// Why the coordinator refuses the end of a transaction, if it does.
#[tactic(auto, unfolding(eos_machine::specs::Answers::when))]
pub(crate) fn end_refusal(
    store: &Store,
    application: usize,
    epoch: u16,
    kind: Kind,
) -> Option<Reply>
    ensures { (u : Switches) → deliver_end u store.now.config store.now.world application epoch kind ≡ ended u store.now.config store.now.world application kind result }
{
    let status = store.status(application);
    if is_decided(status, kind) && is_next(store.epoch(application), epoch) {
        return Some(Reply::DuplicateKept);
    }
    if !store.is_current(application, epoch) || is_prepare(status) {
        return Some(Reply::Fenced);
    }
    if is_commit(kind) && !is_ongoing(status) {
        return Some(Reply::WrongState);
    }
    None
}

/// The end of a transaction arrives at the coordinator.
#[tactic(auto, unfolding(eos_machine::specs::Answers::when))]
pub(crate) fn deliver_end(
    store: &mut Store,
    switches: Switches,
    application: usize,
    epoch: u16,
    kind: Kind,
) -> Result<Reply, AllocError>
    requires there { application < length store.old.world.coordinators }
    requires epoch { (coord_at store.old.world application).epoch ≤ 32767 }
    ensures ok { IfOk result (λ r. (store.new.world, r) ≡ deliver_end switches store.old.config store.old.world application epoch kind) }
    ensures err { OnErr result (store.new.world ≡ store.old.world) }
    ensures config { store.new.config ≡ store.old.config }
{
    if let Some(refusal) = end_refusal(store, application, epoch, kind) {
        return Ok(refusal);
    }
    let number = store.message_count();
    let partitions = store.ongoing_partitions(application)?;
    if partitions.as_slice().is_empty() {
        end_at_once(store, switches, application, kind)?;
    } else {
        end_by_markers(store, switches, application, kind, partitions)?;
    }
    Ok(Reply::Done(number))
}

/// The transaction of an application has been open longer than its time-out: the coordinator ends it, as its producer would that
/// gives it up.
#[tactic(auto, unfolding(eos_machine::specs::Answers::when))]
pub(crate) fn time_out(
    store: &mut Store,
    switches: Switches,
    application: usize,
) -> Result<Reply, AllocError>
    requires all { length store.old.world.coordinators ≡ application_count store.old.config }
    requires epoch { (coord_at store.old.world application).epoch ≤ 32767 }
    ensures ok { IfOk result (λ r. (store.new.world, r) ≡ time_out switches store.old.config store.old.world application) }
    ensures err { OnErr result (store.new.world ≡ store.old.world) }
    ensures config { store.new.config ≡ store.old.config }
{
    if application >= store.config().application_count() {
        return Ok(Reply::Unknown);
    }
    if !is_ongoing(store.status(application)) {
        return Ok(Reply::WrongState);
    }
    let epoch = store.epoch(application);
    deliver_end(store, switches, application, epoch, Kind::Abort)
}

/// Decides and completes a transaction with no partitions.
fn end_at_once(
    store: &mut Store,
    switches: Switches,
    application: usize,
    kind: Kind,
) -> Result<(), AllocError>
    requires there { application < length store.old.world.coordinators }
    requires epoch { (coord_at store.old.world application).epoch ≤ 32767 }
    ensures ok { OnOk result (store.new.world ≡ finished switches store.old.config (prepared switches store.old.config store.old.world application kind []) application kind) }
    ensures err { OnErr result (store.new.world ≡ store.old.world) }
    ensures config { store.new.config ≡ store.old.config }
{
    store.make_room(2)?;
    let now = store.epoch(application);
    let none = copies::none(store.alloc());
    let done = store.step_of(switches, Status::Complete(kind), now + 1, none)?;
    store.prepare(switches, application, kind, copies::none(store.alloc()))?;
    store.write(application, done);
    Ok(())
}

/// Decides a transaction with these partitions, whose end markers are on their way then.
pub(crate) fn end_by_markers(
    store: &mut Store,
    switches: Switches,
    application: usize,
    kind: Kind,
    partitions: LogIndexes,
) -> Result<(), AllocError>
    requires epoch { (coord_at store.old.world application).epoch ≤ 32767 }
    ensures ok { OnOk result (store.new.world ≡ prepared switches store.old.config store.old.world application kind partitions) }
    ensures err { OnErr result (store.new.world ≡ store.old.world) }
    ensures config { store.new.config ≡ store.old.config }
{
    store.make_room(partitions.as_slice().len() + 1)?;
    store.prepare(switches, application, kind, partitions)
}
