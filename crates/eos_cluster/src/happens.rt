//! Whatever happens to a cluster: each event, and its effect.

ghost use Rattle.std.specs.Prelude.{◌≡◌, ◌<◌, ◌^◌, Some, OnErr, IfOk};
ghost use Rattle.eos_machine.specs.declared.event.Event.TheVariants.{CoordinatorRestart};
ghost use Rattle.eos_machine.specs.Switching.{none};
ghost use Rattle.eos_machine.specs.Elections.{electable_at, elect};
ghost use Rattle.eos_machine.specs.Machine.{change_members, restart_broker, happens_under};
ghost use Rattle.eos_machine.specs.World.{generation_at};
ghost use Rattle.eos_broker.specs.steps.Named.{Needs};

use crate::add_partition::add_partition;
use crate::completing::{complete, write_marker};
use crate::deliver_end::time_out;
use crate::{commit, deliver, end, feed, fetch, produce, restart, resume, start};
use bytes::Bytes;
use eos_broker::Store;
use eos_broker::log_indexes::{electable_at, is_partition, start_of};
use eos_machine::{Event, Reply, Switches};
use std::alloc::AllocError;

/// The broker of a partition restarts: it makes what it holds anew from its log.
#[tactic(auto, unfolding(eos_machine::specs::Answers::when))]
fn restart_broker(store: &mut Store, topic: &Bytes, partition: usize) -> Reply
    ensures answer { (store.new.world, result) ≡ restart_broker store.old.config store.old.world topic.now partition }
    ensures config { store.new.config ≡ store.old.config }
{
    let config = store.config();
    if !is_partition(config, topic, partition) {
        return Reply::Unknown;
    }
    store.restart_log(start_of(config, topic).saturating_add(partition));
    Reply::Done(0)
}

/// The partition at a place gets another leader, which has so many records of its log.
#[tactic(auto, unfolding(eos_machine::specs::Answers::when))]
fn elect_at(store: &mut Store, place: usize, kept: u64) -> Result<Reply, AllocError>
    ensures ok { IfOk result (λ r. (store.new.world, r) ≡ elect store.old.world kept (Some place)) }
    ensures err { OnErr result (store.new.world ≡ store.old.world) }
    ensures config { store.new.config ≡ store.old.config }
{
    if (store.log(place).len() as u64) < kept {
        return Ok(Reply::Unknown);
    }
    let epoch = store.epoch_at(place);
    if epoch >= u16::MAX {
        return Ok(Reply::EpochsSpent);
    }
    store.elect(place, kept as usize)?;
    Ok(Reply::Done(u64::from(epoch) + 1))
}

/// A partition gets another leader, if its leader may change.
fn elect(store: &mut Store, topic: &Bytes, partition: usize, kept: u64) -> Result<Reply, AllocError>
    ensures ok { IfOk result (λ r. (store.new.world, r) ≡ elect store.old.world kept (electable_at store.old.config topic.now partition)) }
    ensures err { OnErr result (store.new.world ≡ store.old.world) }
    ensures config { store.new.config ≡ store.old.config }
{
    match electable_at(store.config(), topic, partition) {
        Some(place) => elect_at(store, place, kept),
        None => Ok(Reply::Unknown),
    }
}

/// The members of a group change, and those of no other.
#[tactic(auto, unfolding(eos_machine::specs::Answers::when))]
fn change_members(store: &mut Store, group: usize) -> Reply
    requires { generation_at store.old.world group < 2 ^ 31 }
    ensures answer { (store.new.world, result) ≡ change_members store.old.config store.old.world group }
    ensures config { store.new.config ≡ store.old.config }
{
    if group >= store.config().group_count() {
        return Reply::Unknown;
    }
    store.set_generation(group, store.generation(group) + 1);
    Reply::Done(0)
}

/// The coordinator restarts: it makes what it holds anew from its logs.
fn restart_coordinator(store: &mut Store) -> Result<Reply, AllocError>
    ensures ok { IfOk result (λ r. (store.new.world, r) ≡ happens_under none store.old.config store.old.world CoordinatorRestart) }
    ensures err { OnErr result (store.new.world ≡ store.old.world) }
    ensures config { store.new.config ≡ store.old.config }
{
    restart(store)?;
    Ok(Reply::Done(0))
}

/// An event happens. It isn't counted here.
pub(crate) fn happen(
    store: &mut Store,
    switches: Switches,
    event: Event,
) -> Result<Reply, AllocError>
    requires { Needs store.old.config store.old.world event }
    ensures ok { IfOk result (λ r. (store.new.world, r) ≡ happens_under switches store.old.config store.old.world event) }
    ensures err { OnErr result (store.new.world ≡ store.old.world) }
    ensures config { store.new.config ≡ store.old.config }
{
    match event {
        Event::Feed { source } => feed(store, source),
        Event::Start { application } => start(store, switches, application),
        Event::Produce {
            session,
            partition,
            claim,
        } => produce(store, session, partition, claim),
        Event::Commit {
            session,
            source,
            offset,
        } => commit(store, session, source, offset),
        Event::End { session, kind } => end(store, session, kind),
        Event::Resume { session } => resume(store, session),
        Event::Fetch { session, source } => fetch(store, session, source),
        Event::Members { group } => Ok(change_members(store, group)),
        Event::BrokerRestart { topic, partition } => Ok(restart_broker(store, &topic, partition)),
        Event::CoordinatorRestart => restart_coordinator(store),
        Event::Deliver { message } => deliver(store, switches, message),
        Event::TimeOut { application } => time_out(store, switches, application),
        Event::AddPartition { session, partition } => {
            add_partition(store, switches, session, partition)
        }
        Event::WriteMarker { message } => write_marker(store, switches, message),
        Event::Complete { application } => complete(store, switches, application),
        Event::Elect {
            topic,
            partition,
            kept,
        } => elect(store, &topic, partition, kept),
    }
}
