//! A cluster, and how many sessions and messages it has.

use crate::making::{SimulationFault, new_cluster};
use bytes::Bytes;
use eos_cluster::{Cluster, Switch, Switches};
use eos_history_lines::Deed;
use eos_machine::{Config, Event, Reply};
use std::alloc::Global;

/// How many end markers one event queues at most: those of nine applications in all partitions that they may write.
const MOST: usize = 9 * 64;

/// A cluster, and how many sessions it has begun and messages it has queued.
#[derive(Drop)]
pub(crate) struct Side {
    cluster: Cluster,
    switches: Switches,
    pub(crate) sessions: usize,
    pub(crate) messages: u64,
}

impl Side {
    /// Before any event.
    pub(crate) fn new(alloc: Global, config: Config) -> Result<Side, SimulationFault> {
        Ok(Side {
            cluster: new_cluster(alloc, config)?,
            switches: Switches::none(),
            sessions: 0,
            messages: 0,
        })
    }

    /// Does what was done. Gives the value, where an event was done.
    pub(crate) fn follow(
        &mut self,
        deed: &eos_drive::Deed,
    ) -> Result<Option<u64>, SimulationFault> {
        match deed {
            eos_drive::Deed::Asked { event, .. } => self.ask(event),
            eos_drive::Deed::Set(switches) => {
                self.set(*switches);
                Ok(None)
            }
            eos_drive::Deed::Noted(_) => Ok(None),
        }
    }

    /// Does what a line says. Gives the value, where an event was done.
    pub(crate) fn do_said(&mut self, deed: &Deed) -> Result<Option<u64>, SimulationFault> {
        match deed {
            Deed::Asked { event, .. } => self.ask(event),
            Deed::Set(switches) => {
                self.set(*switches);
                Ok(None)
            }
            Deed::Noted(_) => Ok(None),
        }
    }

    fn set(&mut self, switches: Switches) {
        self.switches = switches;
        self.cluster.set(switches);
    }

    fn ask(&mut self, event: &Event) -> Result<Option<u64>, SimulationFault> {
        match self.cluster.step(event.clone()?) {
            Reply::OutOfMemory => Err(SimulationFault::OutOfMemory),
            Reply::Done(value) => {
                self.count(event, value);
                Ok(Some(value))
            }
            _ => {
                self.count_markers();
                Ok(None)
            }
        }
    }

    /// Counts what an event has made that was done with this value.
    fn count(&mut self, event: &Event, value: u64) {
        match event {
            Event::Start { .. } => self.sessions = (value as usize).saturating_add(1),
            Event::Produce { .. } | Event::Commit { .. } | Event::End { .. } => {
                self.messages = value.saturating_add(1);
            }
            Event::Feed { .. }
            | Event::Resume { .. }
            | Event::Fetch { .. }
            | Event::Members { .. }
            | Event::BrokerRestart { .. }
            | Event::AddPartition { .. }
            | Event::WriteMarker { .. }
            | Event::Complete { .. }
            | Event::Elect { .. } => {}
            Event::CoordinatorRestart | Event::Deliver { .. } | Event::TimeOut { .. } => {
                self.count_markers();
            }
        }
    }

    /// Counts the end markers that were queued behind the messages.
    fn count_markers(&mut self) {
        for _ in 0..MOST {
            if !self.is_marker(self.messages) {
                return;
            }
            self.messages = self.messages.saturating_add(1);
        }
    }

    /// Whether the message of this number is an end marker: a cluster that loses these breaks that rule by it.
    fn is_marker(&mut self, message: u64) -> bool {
        self.cluster.set(Switches::only(Switch::LoseMarker));
        let broken = self.cluster.broken(message);
        self.cluster.set(self.switches);
        broken.lose_marker
    }

    /// How many records the log of a partition has, where its leader may change.
    pub(crate) fn records(&self, topic: &Bytes, partition: usize) -> u64 {
        match self.cluster.record_count(topic, partition) {
            Some(records) => records as u64,
            None => 0,
        }
    }

    /// The place of the log of this message.
    pub(crate) fn log_of(&self, message: u64) -> usize {
        self.cluster.log_of(message)
    }

    /// The first message from this one on that is for the log at this place, if there is one.
    pub(crate) fn next_alike(&self, message: u64, place: usize) -> Option<u64> {
        for number in message..self.messages {
            if self.cluster.log_of(number) == place {
                return Some(number);
            }
        }
        None
    }
}
