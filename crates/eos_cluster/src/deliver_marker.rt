//! An end marker arrives at a broker.

ghost use Rattle.std.specs.Prelude.{◌≡◌, ◌==◌, ◌&&◌, ◌||◌, ◌+◌, ◌-◌, ◌≤◌, ◌<◌, true, false, [], length, OnOk, OnErr, IfOk};
ghost use Rattle.eos_machine.specs.LogIndexes.{application_count, IsConfig};
ghost use Rattle.eos_machine.specs.World.{coord_at};
ghost use Rattle.eos_machine.specs.Logs.{producer_at};
ghost use Rattle.eos_machine.specs.Rules.{is_marker_fenced, marker_epoch, marker_kind, marker_of, other_kind};
ghost use Rattle.eos_machine.specs.Tests.{has, waits_for};
ghost use Rattle.eos_machine.specs.Deliveries.{append_marker, deliver_marker, marked, ticked, without};
ghost use Rattle.eos_cluster.specs.steps.Taken.{settled};

use eos_batch::Kind;
use eos_broker::answers::waits_for;
use eos_broker::log_indexes::is_odd_output;
use eos_broker::{Store, copies, is_not_above};
use eos_machine::{Config, Item, LogIndexes, Reply, Status, Switches};
use std::alloc::AllocError;

/// An end marker on its way to a broker.
#[derive(Clone, Copy)]
pub struct EndMarker {
    pub application: usize,
    pub epoch: u16,
    pub kind: Kind,
    pub place: usize,
}

impl EndMarker {
    pub(crate) fn new(application: usize, epoch: u16, kind: Kind, place: usize) -> EndMarker
        ensures { result ≡ record { application = application; epoch = epoch; kind = kind; place = place } }
    {
        EndMarker {
            application,
            epoch,
            kind,
            place,
        }
    }
}

/// Whether a broker refuses an end marker.
pub(crate) fn is_marker_fenced(store: &Store, switches: Switches, marker: EndMarker) -> bool
    requires { marker.application < application_count store.now.config }
    ensures { result ≡ is_marker_fenced switches (producer_at store.now.world marker.application marker.place) marker.epoch }
{
    if switches.no_bump {
        return false;
    }
    let producer = store.producer(marker.application, marker.place);
    marker.epoch < producer.high || is_not_above(producer, marker.epoch)
}

/// Whether the coordinator waits for an end marker.
fn awaits_marker(store: &Store, marker: EndMarker) -> bool
    ensures { result ≡ (waits_for (coord_at store.now.world marker.application).status (coord_at store.now.world marker.application).epoch marker.epoch marker.kind && has marker.place (coord_at store.now.world marker.application).awaited) }
{
    let EndMarker {
        application,
        epoch,
        kind,
        place,
    } = marker;
    let now = store.epoch(application);
    waits_for(store.status(application), now, epoch, kind) && store.is_awaited(application, place)
}

fn other_kind(kind: Kind) -> Kind
    ensures { result ≡ other_kind kind }
{
    match kind {
        Kind::Commit => Kind::Abort,
        Kind::Abort => Kind::Commit,
    }
}

/// The epoch with which an end marker is appended.
fn marker_epoch(switches: Switches, epoch: u16) -> u16
    ensures { result ≡ marker_epoch switches epoch }
{
    if switches.no_bump {
        return epoch.saturating_sub(1);
    }
    epoch
}

/// The kind with which an end marker is appended.
fn marker_kind(switches: Switches, config: Config, place: usize, kind: Kind) -> Kind
    requires { IsConfig config }
    ensures { result ≡ marker_kind switches config place kind }
{
    if switches.swap_marker && is_odd_output(config, place) {
        return other_kind(kind);
    }
    kind
}

/// The item of an end marker that is appended.
fn marker_of(store: &Store, switches: Switches, marker: EndMarker) -> Item
    ensures { result ≡ marker_of switches store.now.config marker.application marker.epoch marker.kind marker.place store.now.world.events }
{
    Item::Marker {
        application: marker.application,
        epoch: marker_epoch(switches, marker.epoch),
        kind: marker_kind(switches, store.config(), marker.place, marker.kind),
        event: store.events(),
    }
}

/// Appends an end marker, for which there is room, and the coordinator ticks it off: these are left.
fn tick(store: &mut Store, switches: Switches, marker: EndMarker, left: LogIndexes)
    requires room { 1 ≤ store.old.spare }
    requires left { left ≡ without marker.place (coord_at store.old.world marker.application).awaited }
    ensures world { store.new.world ≡ ticked switches store.old.config store.old.world marker.application marker.epoch marker.kind marker.place }
    ensures config { store.new.config ≡ store.old.config }
    ensures spare { store.old.spare ≤ store.new.spare + 1 }
{
    if !switches.lose_marker {
        let item = marker_of(store, switches, marker);
        store.put(marker.place, item);
    }
    store.tick_off(marker.application, marker.place, left);
}

/// Appends an end marker that the coordinator waits for, which ticks it off and completes after the last one.
fn put_awaited(store: &mut Store, switches: Switches, marker: EndMarker) -> Result<(), AllocError>
    requires { marker.application < length store.old.world.coordinators }
    ensures ok { OnOk result (store.new.world ≡ settled switches store.old.config store.old.world marker.application marker.epoch marker.kind marker.place) }
    ensures err { OnErr result (store.new.world ≡ store.old.world) }
    ensures config { store.new.config ≡ store.old.config }
{
    let EndMarker {
        application,
        kind,
        place,
        ..
    } = marker;
    store.make_room(2)?;
    let now = store.epoch(application);
    let none = copies::none(store.alloc());
    let done = store.step_of(switches, Status::Complete(kind), now, none)?;
    let left = store.others_awaited(application, place)?;
    let is_last = left.as_slice().is_empty();
    tick(store, switches, marker, left);
    if is_last {
        store.write(application, done);
    }
    Ok(())
}

/// Appends an end marker that the coordinator waits for, which ticks it off and no more.
fn put_ticked(store: &mut Store, switches: Switches, marker: EndMarker) -> Result<(), AllocError>
    ensures ok { OnOk result (store.new.world ≡ ticked switches store.old.config store.old.world marker.application marker.epoch marker.kind marker.place) }
    ensures err { OnErr result (store.new.world ≡ store.old.world) }
    ensures config { store.new.config ≡ store.old.config }
{
    store.make_room(1)?;
    let left = store.others_awaited(marker.application, marker.place)?;
    tick(store, switches, marker, left);
    Ok(())
}

/// Appends an end marker that nobody waits for.
fn put_alone(store: &mut Store, switches: Switches, marker: EndMarker) -> Result<(), AllocError>
    ensures ok { OnOk result (store.new.world ≡ marked switches store.old.config store.old.world marker.application marker.epoch marker.kind marker.place) }
    ensures err { OnErr result (store.new.world ≡ store.old.world) }
    ensures config { store.new.config ≡ store.old.config }
{
    store.make_room(1)?;
    if !switches.lose_marker {
        let item = marker_of(store, switches, marker);
        store.put(marker.place, item);
    }
    Ok(())
}

/// An end marker arrives at a broker. Unless it completes its transaction, that stays prepared, even where it was the last one.
#[tactic(auto, unfolding(eos_machine::specs::Answers::when))]
pub(crate) fn take_marker(
    store: &mut Store,
    switches: Switches,
    marker: EndMarker,
    completes: bool,
) -> Result<Reply, AllocError>
    requires named { marker.application < application_count store.old.config }
    requires there { completes ≡ true → marker.application < length store.old.world.coordinators }
    ensures completed { completes ≡ true → IfOk result (λ r. (store.new.world, r) ≡ deliver_marker switches store.old.config store.old.world marker.application marker.epoch marker.kind marker.place) }
    ensures written { completes ≡ false → IfOk result (λ r. (store.new.world, r) ≡ append_marker switches store.old.config store.old.world marker.application marker.epoch marker.kind marker.place) }
    ensures err { OnErr result (store.new.world ≡ store.old.world) }
    ensures config { store.new.config ≡ store.old.config }
{
    if is_marker_fenced(store, switches, marker) {
        return Ok(Reply::Fenced);
    }
    let offset = store.log(marker.place).len() as u64;
    if !awaits_marker(store, marker) {
        put_alone(store, switches, marker)?;
    } else if completes {
        put_awaited(store, switches, marker)?;
    } else {
        put_ticked(store, switches, marker)?;
    }
    Ok(Reply::Done(offset))
}
