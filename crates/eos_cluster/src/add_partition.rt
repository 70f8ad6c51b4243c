//! A session adds a partition to its transaction, before a batch of it comes there.

ghost use Rattle.std.specs.Prelude.{◌≡◌, true, slice_get, OnErr, IfOk};
ghost use Rattle.eos_machine.specs.LogIndexes.{IsConfig, is_target, target_index};
ghost use Rattle.eos_machine.specs.Machine.{add_partition};

use crate::accept::include;
use crate::sessions::is_active;
use eos_broker::Store;
use eos_broker::answers::is_prepare;
use eos_broker::log_indexes::{OFFSETS_INDEX, written_index};
use eos_machine::{Config, Reply, Switches};
use std::alloc::AllocError;

/// Whether a transaction may write to the partition of this number of its topic, or without one to that of the offsets.
fn is_target(config: Config, partition: Option<usize>) -> bool
    ensures { result ≡ is_target config partition }
{
    match partition {
        Some(partition) => partition < config.outputs,
        None => true,
    }
}

/// The place of that partition.
fn target_index(config: Config, application: usize, partition: Option<usize>) -> usize
    requires sizes { IsConfig config }
    requires there { is_target config partition ≡ true }
    ensures { result ≡ target_index config application partition }
{
    match partition {
        Some(partition) => written_index(config, application, partition),
        None => OFFSETS_INDEX,
    }
}

/// A session adds a partition to its transaction, which its coordinator writes down.
#[tactic(auto, unfolding(eos_machine::specs::Answers::when))]
pub(crate) fn add_partition(
    store: &mut Store,
    switches: Switches,
    number: usize,
    partition: Option<usize>,
) -> Result<Reply, AllocError>
    ensures ok { IfOk result (λ r. (store.new.world, r) ≡ add_partition switches store.old.config store.old.world partition (slice_get store.old.world.sessions number)) }
    ensures err { OnErr result (store.new.world ≡ store.old.world) }
    ensures config { store.new.config ≡ store.old.config }
{
    let Some(session) = store.session(number) else {
        return Ok(Reply::Unknown);
    };
    let application = session.application;
    let config = store.config();
    if !is_target(config, partition) {
        return Ok(Reply::Unknown);
    }
    if !is_active(session) {
        return Ok(Reply::WrongState);
    }
    if !store.is_current(application, session.epoch) {
        return Ok(Reply::Fenced);
    }
    if is_prepare(store.status(application)) {
        return Ok(Reply::Busy);
    }
    let place = target_index(config, application, partition);
    store.make_room(1)?;
    include(store, switches, application, place)?;
    Ok(Reply::Done(0))
}
