//! A cluster that takes events one by one.

ghost use Rattle.std.specs.Prelude.{◌≡◌, ◌↔◌, ◌≤◌, ◌<◌, ◌^◌, ◌==◌, ◌&&◌, not, true, [], length, Err, IfOk, option_map, slice_get};
ghost use Rattle.std.specs.List.{list_all};
ghost use Rattle.eos_evidence.specs.Evidence.{IsEvidence};
ghost use Rattle.eos_machine.specs.LogIndexes.{IsConfig, output_index};
ghost use Rattle.eos_machine.specs.World.{opening, log_at};
ghost use Rattle.eos_machine.specs.Elections.{electable_at, LosesNothing};
ghost use Rattle.eos_machine.specs.Rest.{IsAtRest, KeepsSequences, StepsFit, AllAtomic, NeighboursFit};
ghost use Rattle.eos_cluster.specs.declared.cluster.NewFault.{NewFault};
ghost use Rattle.eos_cluster.specs.Names.{new_fault_name};
ghost use Rattle.eos_cluster.specs.declared.evidence.EvidenceRefusal.{EvidenceRefusal};
ghost use Rattle.eos_machine.specs.Evidences.{IsEvidenceOf, HasRoomForAll};
ghost use Rattle.eos_machine.specs.Schedules.{IsOfSchedule};
ghost use Rattle.eos_machine.specs.Switching.{none, any_on};
ghost use Rattle.eos_machine.specs.Machine.{step};
ghost use Rattle.eos_machine.specs.declared.event.Event.TheVariants.{Deliver};
ghost use Rattle.eos_cluster.specs.Breaches.{broken, log_of};
ghost use Rattle.eos_cluster.specs.steps.Refusing.{IsRefusal};
ghost use Rattle.eos_cluster.specs.Courses.{IsStep, IsStepUnder, IsCounted};

use crate::breaches::{broken, log_of_message, refusal};
use crate::evidence::{EvidenceRefusal, evidence_of};
use crate::happens::happen;
use bytes::Bytes;
use eos_broker::Store;
use eos_broker::log_indexes::{electable_at, output_index};
use eos_evidence::{Evidence, MAX_SEGMENTS};
use eos_log_writer::log_count;
use eos_machine::{Config, Election, Event, Item, Reply, Switches};
use std::alloc::{AllocError, Global};
use std::marker::Model;
use thiserror::Error;

/// Why there is no cluster.
#[derive(Clone, Copy, Debug, Error)]
#[error("{name}", name = self.name())]
pub enum NewFault {
    /// A size isn't one that a cluster may have.
    Range,
    /// A growth was refused.
    OutOfMemory,
}

impl NewFault {
    /// The fault's name.
    pub fn name(self) -> &'static str
        ensures { result.now ≡ new_fault_name self }
    {
        match self {
            NewFault::Range => "Range",
            NewFault::OutOfMemory => "OutOfMemory",
        }
    }
}

/// How many events a cluster takes: 2^31.
pub const MAX_EVENTS: u64 = 2147483648;

/// A cluster after some events, each of which did what the machine's definitions say under the switches that were set.
#[derive(Drop)]
pub struct Cluster {
    store: Store,
    switches: Switches,
    is_honest: bool,
}

impl Model for Cluster {
    ghost use Rattle.eos_machine.specs.LogIndexes.{IsConfig};
    ghost use Rattle.std.specs.Prelude.{◌≡◌, ◌≤◌, ◌^◌, true};
    ghost use Rattle.eos_machine.specs.Switching.{none};
    ghost use Rattle.eos_cluster.specs.Courses.{Course, IsReached, IsReachedUnder};

    ghost Value = { Course };

    ghost view = { λ s. record { config = s.store.config; world = s.store.world; switches = s.switches; honest = s.is_honest } };

    ghost invariant = { λ s. IsConfig s.store.config
        × (s.store.world.events ≤ 2 ^ 31)
        × IsReachedUnder s.store.config s.store.world
        × (s.is_honest ≡ true → (s.switches ≡ none) × IsReached s.store.config s.store.world) };
}

/// Whether a number lies in these bounds.
fn is_between(number: usize, least: usize, greatest: usize) -> bool
    ensures { result ≡ true ↔ ((least ≤ number) × (number ≤ greatest)) }
{
    least <= number && number <= greatest
}

/// Whether a cluster may have these sizes.
fn is_config(config: Config) -> bool
    ensures { result ≡ true ↔ IsConfig config }
{
    is_between(config.applications, 1, 8)
        && is_between(config.inputs, 1, 16)
        && is_between(config.outputs, 1, 16)
        && is_between(config.transaction_logs, 1, 4)
        && is_between(config.segment_records, 1, 1000)
        && is_between(config.batch_records, 1, 1000)
}

/// Whether none of these has lost a record.
fn lose_nothing(elections: &[Election]) -> bool
    ensures { result ≡ list_all (λ x. x.lost == 0) elections.now }
{
    elections.iter().all(|election| election.lost == 0)
}

impl Cluster {
    /// A cluster before any event: its logs are empty.
    ///
    /// # Errors
    /// `Range` where a size isn't one that a cluster may have; `OutOfMemory` where a growth was refused, and only then.
    pub fn new(alloc: Global, config: Config) -> Result<Cluster, NewFault>
        ensures ok { IfOk result (λ c. c ≡ record { config = config; world = opening config; switches = none; honest = true }) }
        ensures range { result ≡ Err NewFault.Range ↔ (IsConfig config → ⊥) }
    {
        if !is_config(config) {
            return Err(NewFault::Range);
        }
        match Store::new(alloc, config) {
            Ok(store) => Ok(Cluster {
                store,
                switches: Switches::none(),
                is_honest: true,
            }),
            Err(_) => Err(NewFault::OutOfMemory),
        }
    }

    /// Takes an event, of which there are fewer than a cluster takes.
    fn take(&mut self, event: Event) -> Reply
        requires { self.old.world.events < 2 ^ 31 }
        ensures taken { IsStepUnder self.old event result self.new }
        ensures counted { IsCounted self.old result self.new }
        ensures config { self.new.config ≡ self.old.config }
        ensures honest { self.new.honest ≡ self.old.honest }
    {
        let events = self.store.events();
        match happen(&mut self.store, self.switches, event) {
            Ok(reply) => {
                self.store.set_events(events + 1);
                reply
            }
            Err(_) => Reply::OutOfMemory,
        }
    }

    /// Takes an event. What it does and what is answered is the machine's step under the switches that are set; while the cluster
    /// is honest, that without any. `OutOfMemory` and `Full` leave everything as it was; any other event is counted.
    pub fn step(&mut self, event: Event) -> Reply
        ensures taken { self.old.honest ≡ true → IsStep self.old event result self.new }
        ensures switched { IsStepUnder self.old event result self.new }
        ensures counted { IsCounted self.old result self.new }
        ensures config { self.new.config ≡ self.old.config }
        ensures honest { self.new.honest ≡ self.old.honest }
    {
        if self.store.events() == MAX_EVENTS {
            return Reply::Full;
        }
        self.take(event)
    }

    /// Sets the switches. Once one was on, the cluster isn't honest any more, whatever is set later.
    pub fn set(&mut self, switches: Switches)
        ensures { self.new ≡ record self.old { switches = switches; honest = self.old.honest && not (any_on switches) } }
    {
        self.switches = switches;
        self.is_honest = self.is_honest && !switches.any_on();
    }

    /// Why a cluster that keeps its rules refuses the message of this number here, if it does.
    #[tactic(auto, using(crate::proofs::Reaching::named_there, crate::proofs::Refused::refused_full, crate::proofs::Refused::refused_there))]
    fn refusal(&self, number: u64) -> Option<Reply>
        ensures { IsRefusal result (step self.now.config self.now.world (Deliver number)).1 }
    {
        if self.store.events() == MAX_EVENTS {
            return Some(Reply::Full);
        }
        refusal(&self.store, number)
    }

    /// The rules that are broken where the message of this number is taken here: a cluster that keeps them refuses it, or writes it otherwise.
    #[tactic(auto, using(crate::proofs::Reaching::named_there))]
    pub fn broken(&self, number: u64) -> Switches
        ensures { result ≡ broken self.now.switches self.now.config self.now.world number }
    {
        broken(&self.store, self.switches, self.refusal(number), number)
    }

    /// In which log the message of this number is to stand, by its place among all logs; for an end, which stands in none, 0.
    #[tactic(auto, using(crate::proofs::Reaching::named_there))]
    pub fn log_of(&self, number: u64) -> usize
        ensures { result ≡ log_of self.now.config (slice_get self.now.world.messages number) }
    {
        log_of_message(&self.store, number)
    }

    /// Whether no switch was ever on.
    pub fn is_honest(&self) -> bool
        ensures { result ≡ self.now.honest }
    {
        self.is_honest
    }

    /// How many events it has taken: those that were answered otherwise than `OutOfMemory` or `Full`.
    pub fn events(&self) -> u64
        ensures number { result ≡ self.now.world.events }
        ensures few { result ≤ MAX_EVENTS }
        ensures opening { result ≡ 0 → self.now.honest ≡ true → self.now.world ≡ opening self.now.config }
    {
        self.store.events()
    }

    /// The sizes that it was made with.
    pub fn config(&self) -> &Config
        ensures value { result.now ≡ self.now.config }
        ensures sizes { IsConfig result.now }
    {
        self.store.config_ref()
    }

    /// The elections of leaders, the oldest first, with what each has lost.
    pub fn elections(&self) -> &[Election]
        ensures { result.now ≡ self.now.world.elections }
    {
        self.store.elections()
    }

    /// Whether no election has lost a record.
    pub fn loses_nothing(&self) -> bool
        ensures { result ≡ true ↔ LosesNothing self.now.world }
    {
        lose_nothing(self.store.elections())
    }

    /// How many records the log of a partition has whose leader may change: those of `in`, `out`, `fin` and `__consumer_offsets`.
    pub fn record_count(&self, topic: &Bytes, partition: usize) -> Option<usize>
        ensures { result ≡ option_map (λ p. length (log_at self.now.world p)) (electable_at self.now.config topic.now partition) }
    {
        match electable_at(self.store.config(), topic, partition) {
            Some(place) => Some(self.store.log(place).len()),
            None => None,
        }
    }

    /// What stands in a partition of `out`, by offset: nothing where there is no such partition.
    pub fn output_log(&self, partition: usize) -> &[Item]
        ensures there { partition < self.now.config.outputs → result.now ≡ log_at self.now.world (output_index self.now.config partition) }
        ensures none { self.now.config.outputs ≤ partition → result.now ≡ [] }
    {
        let config = self.store.config();
        if partition >= config.outputs {
            return &[];
        }
        self.store.log(output_index(config, partition))
    }

    /// Whether no transaction is open or still ending. Whatever events an honest cluster has taken, if no election has lost a
    /// record: no fault of a sequence or of an epoch stands at any batch of its logs, and each record of its transaction log may
    /// follow the one before it. At rest, the batches, the markers and the decisions of each application fit together.
    pub fn at_rest(&self) -> bool
        ensures rest { result ≡ true ↔ IsAtRest self.now.world }
        ensures sequences { self.now.honest ≡ true → LosesNothing self.now.world → KeepsSequences self.now.config self.now.world }
        ensures steps { self.now.honest ≡ true → LosesNothing self.now.world → StepsFit self.now.config self.now.world }
        ensures atomic { self.now.honest ≡ true → LosesNothing self.now.world → IsAtRest self.now.world → AllAtomic self.now.config self.now.world }
        ensures neighbours { self.now.honest ≡ true → LosesNothing self.now.world → IsAtRest self.now.world → NeighboursFit self.now.config self.now.world }
    {
        self.store.at_rest()
    }

    /// Whether its segments are sure to be as few as evidence may have: an event appends two records at the most.
    pub fn has_room(&self) -> bool
        ensures { result ≡ true ↔ HasRoomForAll self.now.config self.now.world }
    {
        let config = self.config();
        let partitions = log_count(*config);
        let segments = 2 * self.events() / config.segment_records as u64;
        segments + partitions as u64 <= MAX_SEGMENTS
    }

    /// The logs of a cluster at rest as evidence, honest or not: in segments of the configured number of records, the last of
    /// a partition with as many as are left, with true ends; the groups are `g`, which reads `in` and writes `out`,
    /// and, where there is a second one, `h`, which reads `out` and writes `fin`. Of an honest
    /// cluster, if no election has lost a record, it is the evidence of a schedule, of which `eos_simulate` says that no fault of
    /// the logs stands in it.
    ///
    /// # Errors
    /// `NotAtRest` where a transaction is open or still ending; `OutOfMemory` where a growth was refused.
    pub fn evidence(&self) -> Result<Evidence, EvidenceRefusal>
        requires { HasRoomForAll self.now.config self.now.world }
        ensures ok { IfOk result (IsEvidenceOf self.now.config self.now.world) }
        ensures evidence { IfOk result IsEvidence }
        ensures schedule { self.now.honest ≡ true → LosesNothing self.now.world → IfOk result IsOfSchedule }
        ensures rest { result ≡ Err EvidenceRefusal.NotAtRest ↔ (IsAtRest self.now.world → ⊥) }
    {
        if !self.store.at_rest() {
            return Err(EvidenceRefusal::NotAtRest);
        }
        match evidence_of(&self.store) {
            Ok(evidence) => Ok(evidence),
            Err(_) => Err(EvidenceRefusal::OutOfMemory),
        }
    }

    /// The same at any time, at rest or not: what somebody collects from a cluster that goes on. Nothing is said of faults.
    ///
    /// # Errors
    /// Where a growth was refused.
    pub fn evidence_anywhere(&self) -> Result<Evidence, AllocError>
        requires { HasRoomForAll self.now.config self.now.world }
        ensures ok { IfOk result (IsEvidenceOf self.now.config self.now.world) }
        ensures evidence { IfOk result IsEvidence }
    {
        evidence_of(&self.store)
    }
}
