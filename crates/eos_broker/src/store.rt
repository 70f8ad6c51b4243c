//! What a simulated cluster holds in memory: the machine's state, and room for more of each list, so that an event which
//! takes its memory first can't fail later.

ghost use Rattle.std.specs.Prelude.{◌≡◌, ◌∷◌, ◌++◌, ◌-◌, ◌+◌, ◌≤◌, ◌<◌, ◌^◌, [], OnOk, OnErr, IfOk, length, replicate};
ghost use Rattle.std.specs.List.{All};
ghost use Rattle.eos_machine.specs.LogIndexes.{IsConfig, application_count};
ghost use Rattle.eos_machine.specs.World.{opening, fresh, generation_at, generation_of, log_at, with_item, with_generation};
ghost use Rattle.eos_machine.specs.Logs.{producer_at};
ghost use Rattle.eos_machine.specs.Elections.{epoch_at, elected};
ghost use Rattle.eos_broker.specs.Named.{IsFrom};
ghost use Rattle.eos_broker.specs.Held.{becomes, held, IsKeptFor, items_of};

pub mod clients;
pub mod coordinators;
mod queue;

use crate::producer::unseen;
use crate::{PartitionLog, copies};
use eos_machine::{
    Config, Coordinator, Election, Item, Message, Producer, Session, Status, leader_epoch,
};
use std::alloc::{AllocError, Global};
use std::marker::Model;

/// The state of a cluster, and room for more of each list.
#[derive(Drop)]
pub struct Store {
    alloc: Global,
    config: Config,
    logs: Vec<PartitionLog>,
    coordinators: Vec<Coordinator>,
    messages: Vec<Message>,
    /// For each message, whether a broker has accepted it.
    accepted: Vec<bool>,
    sessions: Vec<Session>,
    /// By group: how often its members have changed.
    generations: Vec<u64>,
    /// Of the leaders of all partitions, the oldest first.
    elections: Vec<Election>,
    events: u64,
    spare: usize,
}

impl Model for Store {
    ghost use Rattle.std.specs.List.{All};
    ghost use Rattle.eos_machine.specs.LogIndexes.{IsConfig, application_count};
    ghost use Rattle.eos_broker.specs.Held.{Held, HasRoom, IsKeptFor, items_of};

    ghost Value = { Held };

    ghost view = { λ s. record {
      config = s.config;
      world = record {
        logs = items_of s.logs.items;
        coordinators = s.coordinators.items;
        messages = s.messages.items;
        accepted = s.accepted.items;
        sessions = s.sessions.items;
        generations = s.generations.items;
        elections = s.elections.items;
        events = s.events;
      };
      spare = s.spare;
    } };

    ghost invariant = { λ s. IsConfig s.config
        × All (IsKeptFor (application_count s.config) s.spare) s.logs.items
        × HasRoom s.spare s.messages
        × HasRoom s.spare s.accepted
        × HasRoom s.spare s.sessions };
}

/// Room for so many more items in each log.
fn reserve_each(
    logs: &mut Vec<PartitionLog>,
    _applications: usize,
    wanted: usize,
) -> Result<(), AllocError>
    requires { All (IsKeptFor _applications 0) logs.old.items }
    ensures same { items_of logs.new.items ≡ items_of logs.old.items }
    ensures kept { All (IsKeptFor _applications 0) logs.new.items }
    ensures ok { OnOk result (All (IsKeptFor _applications wanted) logs.new.items) }
{
    let mut i = 0;
    while i < logs.len() {
        let log = &mut logs[i];
        log.reserve(wanted)?;
        i += 1;
    }
    Ok(())
}

/// An application of which nothing was written.
pub fn fresh(alloc: Global) -> Coordinator
    ensures { result ≡ fresh }
{
    Coordinator {
        started: false,
        status: Status::Empty,
        epoch: 0,
        partitions: copies::none(alloc),
        awaited: copies::none(alloc),
    }
}

/// So many empty logs.
fn empty_logs(
    alloc: Global,
    count: usize,
    applications: usize,
) -> Result<Vec<PartitionLog>, AllocError>
    ensures empty { IfOk result (λ logs. items_of logs.items ≡ replicate count []) }
    ensures kept { IfOk result (λ logs. All (IsKeptFor applications 0) logs.items) }
{
    let mut logs = Vec::new(alloc);
    for _ in 0..count {
        logs.push(PartitionLog::new(alloc, applications)?)?;
    }
    Ok(logs)
}

/// So many groups whose members haven't changed.
fn first_generations(alloc: Global, groups: usize) -> Result<Vec<u64>, AllocError>
    ensures { IfOk result (λ v. v.items ≡ replicate groups 0) }
{
    let mut generations = Vec::new(alloc);
    for _ in 0..groups {
        generations.push(0)?;
    }
    Ok(generations)
}

impl Store {
    /// A cluster before any event.
    pub fn new(alloc: Global, config: Config) -> Result<Store, AllocError>
        requires { IsConfig config }
        ensures { IfOk result (λ s. s ≡ record { config = config; world = opening config; spare = 0 }) }
    {
        let applications = config.application_count();
        let places = 1
            + config.transaction_logs
            + config.final_count()
            + config.inputs
            + config.outputs;
        let logs = empty_logs(alloc, places, applications)?;
        let mut coordinators = Vec::new(alloc);
        for _ in 0..applications {
            coordinators.push(fresh(alloc))?;
        }
        let generations = first_generations(alloc, config.group_count())?;
        Ok(Store {
            alloc,
            config,
            logs,
            coordinators,
            messages: Vec::new(alloc),
            accepted: Vec::new(alloc),
            sessions: Vec::new(alloc),
            generations,
            elections: Vec::new(alloc),
            events: 0,
            spare: 0,
        })
    }

    /// Room for so many more of each list. Where memory is refused the state stays as it was.
    pub fn make_room(&mut self, wanted: usize) -> Result<(), AllocError>
        ensures ok { OnOk result (self.new ≡ held self.old self.old.world wanted) }
        ensures err { OnErr result (self.new.world ≡ self.old.world) }
        ensures config { self.new.config ≡ self.old.config }
    {
        self.spare = 0;
        reserve_each(&mut self.logs, self.config.application_count(), wanted)?;
        self.messages.reserve(wanted)?;
        self.accepted.reserve(wanted)?;
        self.sessions.reserve(wanted)?;
        self.spare = wanted;
        Ok(())
    }

    /// The heap that it takes memory of. There is one.
    pub fn alloc(&self) -> Global
        ensures { (heap : Global) → result ≡ heap }
    {
        self.alloc
    }

    pub fn config(&self) -> Config
        ensures config { result ≡ self.now.config }
        ensures sizes { IsConfig result }
    {
        self.config
    }

    /// The same, lent.
    pub fn config_ref(&self) -> &Config
        ensures config { result.now ≡ self.now.config }
        ensures sizes { IsConfig result.now }
    {
        &self.config
    }

    /// How many events were taken.
    pub fn events(&self) -> u64
        ensures { result ≡ self.now.world.events }
    {
        self.events
    }

    pub fn set_events(&mut self, events: u64)
        ensures { self.new ≡ becomes self.old (record self.old.world { events = events }) 0 }
    {
        self.events = events;
    }

    /// How often the members of a group have changed.
    pub fn generation(&self, group: usize) -> u64
        ensures { result ≡ generation_at self.now.world group }
    {
        match self.generations.get(group) {
            Some(generation) => *generation,
            None => 0,
        }
    }

    /// The same of an application's group.
    pub fn generation_of(&self, application: usize) -> u64
        ensures { result ≡ generation_of self.now.config self.now.world application }
    {
        self.generation(self.config.group_of(application))
    }

    pub fn set_generation(&mut self, group: usize, generation: u64)
        ensures { self.new ≡ becomes self.old (with_generation self.old.world group generation) 0 }
    {
        if group < self.generations.len() {
            self.generations[group] = generation;
        }
    }

    /// The items of the log at a place.
    pub fn log(&self, place: usize) -> &[Item]
        ensures items { result.now ≡ log_at self.now.world place }
        ensures from { All (IsFrom (application_count self.now.config)) result.now }
    {
        match self.logs.get(place) {
            Some(log) => log.as_slice(),
            None => &[],
        }
    }

    /// What a broker holds of an application's producer id.
    pub fn producer(&self, application: usize, place: usize) -> Producer
        requires { application < application_count self.now.config }
        ensures { result ≡ producer_at self.now.world application place }
    {
        match self.logs.get(place) {
            Some(log) => log.producer(application),
            None => unseen(),
        }
    }

    /// Appends to the log at a place.
    pub fn put(&mut self, place: usize, item: Item)
        requires room { 1 ≤ self.old.spare }
        requires from { IsFrom (application_count self.old.config) item }
        ensures { self.new ≡ becomes self.old (with_item self.old.world place item) 1 }
    {
        self.spare -= 1;
        if place < self.logs.len() {
            let log = &mut self.logs[place];
            log.append(item);
        } else {
            drop(item);
        }
    }

    /// The broker of the partition at a place restarts.
    pub fn restart_log(&mut self, place: usize)
        ensures { self.new ≡ self.old }
    {
        if place < self.logs.len() {
            let log = &mut self.logs[place];
            log.restart();
        }
    }

    /// The elections of leaders, the oldest first.
    pub fn elections(&self) -> &[Election]
        ensures { result.now ≡ self.now.world.elections }
    {
        self.elections.as_slice()
    }

    /// The leader epoch of the log at a place.
    pub fn epoch_at(&self, place: usize) -> u16
        ensures { result ≡ epoch_at self.now.world place }
    {
        leader_epoch(
            self.elections.as_slice(),
            place,
            self.log(place).len() as u64,
        )
    }

    /// The partition at a place has another leader, which has so many of its items. Where memory is refused nothing changes.
    pub fn elect(&mut self, place: usize, kept: usize) -> Result<(), AllocError>
        requires kept { kept ≤ length (log_at self.old.world place) }
        requires epoch { epoch_at self.old.world place < 65535 }
        ensures ok { OnOk result (self.new ≡ held self.old (elected self.old.world place kept) self.old.spare) }
        ensures err { OnErr result (self.new ≡ self.old) }
    {
        let election = Election {
            place,
            leader_epoch: self.epoch_at(place) + 1,
            start: kept as u64,
            lost: (self.log(place).len() - kept) as u64,
        };
        self.elections.push(election)?;
        if place < self.logs.len() {
            let log = &mut self.logs[place];
            log.truncate(kept);
        }
        Ok(())
    }
}
