//! What the transaction coordinator holds.

ghost use Rattle.std.specs.Prelude.{◌≡◌, ◌∷◌, ◌++◌, ◌-◌, ◌+◌, ◌≤◌, ◌<◌, ◌^◌, ◌↔◌, true, [], OnOk, OnErr, IfOk, length};
ghost use Rattle.eos_machine.specs.LogIndexes.{txn_index};
ghost use Rattle.eos_machine.specs.World.{coord_at, with_coord, said_entry, recorded, prepared, state_of};
ghost use Rattle.eos_machine.specs.Tests.{has, is_current, is_nil, ongoing_partitions};
ghost use Rattle.eos_machine.specs.Deliveries.{without, ticked_off};
ghost use Rattle.eos_machine.specs.Machine.{with_coordinators};
ghost use Rattle.eos_machine.specs.Rest.{IsAtRest};
ghost use Rattle.eos_broker.specs.Held.{becomes};

use super::Store;
use crate::answers::{is_ongoing, is_prepare};
use crate::copies;
use crate::log_indexes::txn_index;
use eos_batch::Kind;
use eos_machine::{Coordinator, Entry, Item, LogIndexes, Status, Switches};
use std::alloc::AllocError;

/// A record of the transaction log, and the state that it leaves.
#[derive(Drop)]
pub struct Step {
    pub entry: Entry,
    pub state: Coordinator,
}

/// The state that a record with these parts leaves.
pub fn state_of(
    status: Status,
    epoch: u16,
    partitions: LogIndexes,
) -> Result<Coordinator, AllocError>
    ensures { IfOk result (λ s. s ≡ state_of (record { status = status; epoch = epoch; partitions = partitions })) }
{
    let awaited = copies::copy(&partitions)?;
    Ok(Coordinator {
        started: true,
        status,
        epoch,
        partitions,
        awaited,
    })
}

impl Store {
    pub fn status(&self, application: usize) -> Status
        ensures { result ≡ (coord_at self.now.world application).status }
    {
        match self.coordinators.get(application) {
            Some(state) => state.status,
            None => Status::Empty,
        }
    }

    pub fn epoch(&self, application: usize) -> u16
        ensures { result ≡ (coord_at self.now.world application).epoch }
    {
        match self.coordinators.get(application) {
            Some(state) => state.epoch,
            None => 0,
        }
    }

    pub fn has_started(&self, application: usize) -> bool
        ensures { result ≡ (coord_at self.now.world application).started }
    {
        match self.coordinators.get(application) {
            Some(state) => state.started,
            None => false,
        }
    }

    /// Whether the epoch is the coordinator's.
    pub fn is_current(&self, application: usize, epoch: u16) -> bool
        ensures { result ≡ is_current (coord_at self.now.world application) epoch }
    {
        self.has_started(application) && self.epoch(application) == epoch
    }

    /// The partitions of an application's transaction, copied.
    pub fn partitions(&self, application: usize) -> Result<LogIndexes, AllocError>
        ensures { IfOk result (λ p. p ≡ (coord_at self.now.world application).partitions) }
    {
        match self.coordinators.get(application) {
            Some(state) => copies::copy(&state.partitions),
            None => Ok(copies::none(self.alloc)),
        }
    }

    /// The partitions of the open transaction.
    pub fn ongoing_partitions(&self, application: usize) -> Result<LogIndexes, AllocError>
        ensures { IfOk result (λ p. p ≡ ongoing_partitions (coord_at self.now.world application).status (coord_at self.now.world application).partitions) }
    {
        if is_ongoing(self.status(application)) {
            self.partitions(application)
        } else {
            Ok(copies::none(self.alloc))
        }
    }

    /// Whether a transaction has the partition at a place.
    pub fn has_partition(&self, application: usize, place: usize) -> bool
        ensures { result ≡ has place (coord_at self.now.world application).partitions }
    {
        match self.coordinators.get(application) {
            Some(state) => copies::has(place, state.partitions.as_slice()),
            None => false,
        }
    }

    /// Whether the end marker of the partition at a place is awaited.
    pub fn is_awaited(&self, application: usize, place: usize) -> bool
        ensures { result ≡ has place (coord_at self.now.world application).awaited }
    {
        match self.coordinators.get(application) {
            Some(state) => copies::has(place, state.awaited.as_slice()),
            None => false,
        }
    }

    /// Whether no end marker is awaited.
    pub fn awaits_none(&self, application: usize) -> bool
        ensures { result ≡ is_nil (coord_at self.now.world application).awaited }
    {
        match self.coordinators.get(application) {
            Some(state) => state.awaited.as_slice().is_empty(),
            None => true,
        }
    }

    /// The partitions whose end markers are awaited, but for one.
    pub fn others_awaited(&self, application: usize, place: usize) -> Result<LogIndexes, AllocError>
        ensures { IfOk result (λ p. p ≡ without place (coord_at self.now.world application).awaited) }
    {
        match self.coordinators.get(application) {
            Some(state) => copies::without(self.alloc, place, state.awaited.as_slice()),
            None => Ok(copies::none(self.alloc)),
        }
    }

    /// An end marker has come: these are left.
    pub fn tick_off(&mut self, application: usize, _place: usize, left: LogIndexes)
        requires { left ≡ without _place (coord_at self.old.world application).awaited }
        ensures { self.new ≡ becomes self.old (with_coord self.old.world application (ticked_off (coord_at self.old.world application) _place)) 0 }
    {
        if application < self.coordinators.len() {
            let state = &mut self.coordinators[application];
            state.awaited = left;
        }
    }

    pub fn set_coordinator(&mut self, application: usize, state: Coordinator)
        ensures { self.new ≡ becomes self.old (with_coord self.old.world application state) 0 }
    {
        if application < self.coordinators.len() {
            self.coordinators[application] = state;
        }
    }

    /// A record with these parts, as the switches let it say them, and the state that it should leave.
    pub fn step_of(
        &self,
        switches: Switches,
        status: Status,
        epoch: u16,
        partitions: LogIndexes,
    ) -> Result<Step, AllocError>
        ensures entry { IfOk result (λ s. s.entry ≡ said_entry switches self.now.config (record { status = status; epoch = epoch; partitions = partitions })) }
        ensures state { IfOk result (λ s. s.state ≡ state_of (record { status = status; epoch = epoch; partitions = partitions })) }
    {
        let said = copies::said(self.alloc, switches, self.config, &partitions)?;
        let state = state_of(status, epoch, partitions)?;
        Ok(Step {
            entry: Entry {
                status,
                epoch,
                partitions: said,
            },
            state,
        })
    }

    /// Writes a record and takes its state.
    pub fn write(&mut self, application: usize, step: Step)
        requires { 1 ≤ self.old.spare }
        ensures { self.new ≡ becomes self.old (recorded self.old.config self.old.world application step.entry step.state) 1 }
    {
        let place = txn_index(self.config(), application);
        let event = self.events();
        let Step { entry, state } = step;
        self.put(
            place,
            Item::State {
                application,
                entry,
                event,
            },
        );
        self.set_coordinator(application, state);
    }

    /// Decides a transaction with these partitions, and queues its end markers.
    pub fn prepare(
        &mut self,
        switches: Switches,
        application: usize,
        kind: Kind,
        partitions: LogIndexes,
    ) -> Result<(), AllocError>
        requires room { length partitions + 1 ≤ self.old.spare }
        requires epoch { (coord_at self.old.world application).epoch ≤ 32767 }
        ensures ok { OnOk result (self.new ≡ becomes self.old (prepared switches self.old.config self.old.world application kind partitions) (length partitions + 1)) }
        ensures err { OnErr result (self.new ≡ self.old) }
    {
        let epoch = self.epoch(application) + 1;
        let listed = copies::copy(&partitions)?;
        let step = self.step_of(switches, Status::Prepare(kind), epoch, partitions)?;
        self.write(application, step);
        self.queue_markers(application, epoch, kind, listed.as_slice());
        Ok(())
    }

    pub fn replace_coordinators(&mut self, states: Vec<Coordinator>)
        ensures { self.new ≡ becomes self.old (with_coordinators self.old.world states.items) 0 }
    {
        self.coordinators = states;
    }

    /// How many applications have a state.
    pub fn coordinator_count(&self) -> usize
        ensures { result ≡ length self.now.world.coordinators }
    {
        self.coordinators.len()
    }

    /// Whether no transaction is open or still ending.
    pub fn at_rest(&self) -> bool
        ensures { result ≡ true ↔ IsAtRest self.now.world }
    {
        for application in 0..self.coordinator_count() {
            let status = self.status(application);
            if is_ongoing(status) || is_prepare(status) {
                return false;
            }
        }
        true
    }
}
