//! The transaction coordinator restarts: it reads its states from the log again.

ghost use Rattle.std.specs.Prelude.{◌≡◌, ◌++◌, ◌≤◌, length, map, OnOk, OnErr, IfOk};
ghost use Rattle.std.specs.Option.{option_map};
ghost use Rattle.eos_machine.specs.declared.state.Coordinator.{Coordinator};
ghost use Rattle.eos_machine.specs.World.{fresh, with_messages};
ghost use Rattle.eos_machine.specs.Logs.{entry_in, entries_of, last_state};
ghost use Rattle.eos_machine.specs.Machine.{reread, due_again, restarted};
ghost use Rattle.eos_broker.specs.Held.{becomes};
ghost use Rattle.eos_cluster.specs.steps.Restarting.{said_by, due_message};

use crate::deliver_marker::EndMarker;
use eos_broker::log_indexes::txn_index;
use eos_broker::{Store, copies, fresh, state_of};
use eos_machine::{Coordinator, Entry, Item, Message, Status};
use std::alloc::AllocError;

/// What an item says of an application's transaction.
fn entry_of(item: &Item, application: usize) -> Option<&Entry>
    ensures { option_map (λ x. x.now) result ≡ entry_in application item.now }
{
    match item {
        Item::State {
            application: other,
            entry,
            ..
        } => {
            if *other == application {
                return Some(entry);
            }
            None
        }
        Item::Fed { .. } | Item::Output { .. } | Item::Offset { .. } | Item::Marker { .. } => None,
    }
}

/// The last record of an application in a log.
fn last_entry(log: &[Item], application: usize) -> Option<&Entry>
    ensures { (s : Coordinator) → last_state s (entries_of application log.now) ≡ said_by result s }
{
    for i in (0..log.len()).rev() {
        match entry_of(&log[i], application) {
            Some(entry) => return Some(entry),
            None => {}
        }
    }
    None
}

/// The last record of an application in the transaction log.
pub(crate) fn last_said(store: &Store, application: usize) -> Option<&Entry>
    ensures { reread store.now.config store.now.world application ≡ said_by result fresh }
{
    let log = store.log(txn_index(store.config(), application));
    last_entry(log, application)
}

/// Adds the end markers that a state waits for.
fn push_due(
    due: &mut Vec<EndMarker>,
    application: usize,
    state: &Coordinator,
) -> Result<(), AllocError>
    ensures { OnOk result (map due_message due.new.items ≡ map due_message due.old.items ++ due_again state.now.status application state.now.epoch state.now.partitions) }
{
    if let Status::Prepare(kind) = state.status {
        for place in state.partitions.as_slice() {
            due.push(EndMarker::new(application, state.epoch, kind, *place))?;
        }
    }
    Ok(())
}

/// The state that the last record of an application leaves, if there is one.
fn reread(store: &Store, application: usize) -> Result<Coordinator, AllocError>
    ensures { IfOk result (λ s. s ≡ reread store.now.config store.now.world application) }
{
    match last_said(store, application) {
        Some(entry) => state_of(entry.status, entry.epoch, copies::copy(&entry.partitions)?),
        None => Ok(fresh(store.alloc())),
    }
}

fn queue_due(store: &mut Store, due: &[EndMarker])
    requires { length due.now ≤ store.old.spare }
    ensures { store.new ≡ becomes store.old (with_messages store.old.world (map due_message due.now)) (length due.now) }
{
    for marker in due {
        store.queue(Message::Marker {
            application: marker.application,
            epoch: marker.epoch,
            kind: marker.kind,
            place: marker.place,
        });
    }
}

/// The states are read from the logs, and the end markers of prepared ones are queued again.
pub fn restart(store: &mut Store) -> Result<(), AllocError>
    ensures ok { OnOk result (store.new.world ≡ restarted store.old.config store.old.world) }
    ensures err { OnErr result (store.new.world ≡ store.old.world) }
    ensures config { store.new.config ≡ store.old.config }
{
    let alloc = store.alloc();
    let mut states = Vec::new(alloc);
    let mut due = Vec::new(alloc);
    for application in 0..store.coordinator_count() {
        let state = reread(store, application)?;
        push_due(&mut due, application, &state)?;
        states.push(state)?;
    }
    store.make_room(due.len())?;
    queue_due(store, due.as_slice());
    store.replace_coordinators(states);
    Ok(())
}
