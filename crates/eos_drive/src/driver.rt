//! What a run does to a cluster: all that is done to it goes through a driver, which knows where it has led.

ghost use Rattle.std.specs.Prelude.{◌≡◌, false, List, length, Some, IsSome, IfSome};
ghost use Rattle.std.specs.Result.{OnOk, OnErr};
ghost use Rattle.eos_machine.specs.Elections.{electable_at};
ghost use Rattle.eos_machine.specs.World.{log_at};
ghost use Rattle.eos_cluster.specs.Courses.{IsStepUnder, IsCounted};
ghost use Rattle.eos_drive.specs.Driven.{after_deed, IsDriven, IsKept};
ghost use Rattle.eos_drive.specs.steps.Drives.{recorded_in, set_in, noted_in, lost_in, is_election, HasAsked, HasDone};
ghost use Rattle.eos_drive.specs.declared.deed.Deed.{Deed};

use crate::history::History;
use bytes::Bytes;
use eos_cluster::Cluster;
use eos_machine::{Event, Note, Reply, Switches};
use std::alloc::AllocError;
use std::marker::Model;
use std::snapshot::Snapshot;

/// What a run has done to its cluster: from where, and to where that has led. It keeps what it does where there is a history.
#[derive(Drop)]
pub(crate) struct Driver {
    history: Option<History>,
    began: Snapshot<Cluster>,
    before: Snapshot<Option<History>>,
    course: Snapshot<Cluster>,
}

impl Model for Driver {
    ghost use Rattle.eos_drive.specs.steps.Drives.{Drive, IsOnCourse};

    ghost Value = { Drive };

    ghost view = { λ d. record { origin = record { began = d.began.value; before = d.before.value }; course = d.course.value } };

    ghost invariant = { λ d. IsOnCourse d.began.value d.before.value d.course.value d.history };
}

/// Asks a cluster for an event, which is kept where there is a history.
fn ask_one(cluster: &mut Cluster, history: &mut Option<History>, event: Event) -> Reply
    ensures step { IsStepUnder cluster.old event result cluster.new }
    ensures counted { IsCounted cluster.old result cluster.new }
    ensures config { cluster.new.config ≡ cluster.old.config }
    ensures honest { cluster.new.honest ≡ cluster.old.honest }
    ensures kept { history.new ≡ recorded_in history.old event result }
{
    match history {
        Some(history) => history.ask(cluster, event),
        None => cluster.step(event),
    }
}

/// How many records the log of a partition has whose leader may change; of any other none.
#[tactic(auto, using(crate::proofs::Losses::counted, crate::proofs::Losses::not_there))]
pub(crate) fn records_in(cluster: &Cluster, topic: &Bytes, partition: usize) -> u64
    ensures { IfSome (electable_at cluster.now.config topic.now partition) (λ place. result ≡ length (log_at cluster.now.world place)) }
{
    match cluster.record_count(topic, partition) {
        Some(records) => records as u64,
        None => 0,
    }
}

/// A reply, if memory sufficed.
fn unless_memory(reply: Reply) -> Result<Reply, AllocError> {
    match reply {
        Reply::OutOfMemory => Err(AllocError),
        reply => Ok(reply),
    }
}

/// Sets the switches of a cluster, which is kept where there is a history.
fn set_one(
    cluster: &mut Cluster,
    history: &mut Option<History>,
    switches: Switches,
) -> Result<(), AllocError>
    ensures cluster { OnOk result (cluster.new ≡ after_deed cluster.old (Deed.Set switches)) }
    ensures kept { OnOk result (history.new ≡ set_in history.old switches) }
    ensures err { OnErr result ((cluster.new ≡ cluster.old) × (history.new ≡ history.old)) }
{
    match history {
        Some(history) => history.set(cluster, switches),
        None => {
            cluster.set(switches);
            Ok(())
        }
    }
}

/// Keeps a note where there is a history.
fn note_one(history: &mut Option<History>, note: Note) -> Result<(), AllocError>
    ensures ok { OnOk result (history.new ≡ noted_in history.old note) }
    ensures err { OnErr result (history.new ≡ history.old) }
{
    match history {
        Some(history) => history.note(note),
        None => Ok(()),
    }
}

impl Driver {
    /// A driver of a cluster as it is now, which goes on with a history, if there is one.
    pub(crate) fn new(cluster: &Cluster, history: Option<History>) -> Driver
        ensures origin { result.origin ≡ record { began = cluster.now; before = history } }
        ensures course { result.course ≡ cluster.now }
    {
        Driver {
            began: Snapshot::of(cluster),
            before: Snapshot::of(&history),
            course: Snapshot::of(cluster),
            history,
        }
    }

    /// Asks the cluster for an event. `OutOfMemory` leaves everything as it was.
    fn take(&mut self, cluster: &mut Cluster, event: Event) -> Reply
        requires { self.old.course ≡ cluster.old }
        ensures done { HasDone cluster.old self.old cluster.new self.new }
        ensures honest { cluster.new.honest ≡ cluster.old.honest }
        ensures step { IsStepUnder cluster.old event result cluster.new }
        ensures counted { IsCounted cluster.old result cluster.new }
    {
        let reply = ask_one(cluster, &mut self.history, event);
        self.course = Snapshot::of(&*cluster);
        reply
    }

    /// What the cluster answers to an event that elects no leader.
    ///
    /// # Errors
    /// Where a growth was refused; the cluster is as it was.
    pub(crate) fn ask(&mut self, cluster: &mut Cluster, event: Event) -> Result<Reply, AllocError>
        requires course { self.old.course ≡ cluster.old }
        requires other { is_election event ≡ false }
        ensures { HasAsked cluster.old self.old cluster.new self.new }
    {
        let reply = self.take(cluster, event);
        unless_memory(reply)
    }

    /// What it answers where a partition gets a leader that has all records of its log.
    ///
    /// # Errors
    /// Where a growth was refused; the cluster is as it was.
    pub(crate) fn elect(
        &mut self,
        cluster: &mut Cluster,
        topic: Bytes,
        partition: usize,
    ) -> Result<Reply, AllocError>
        requires { self.old.course ≡ cluster.old }
        ensures { HasAsked cluster.old self.old cluster.new self.new }
    {
        let kept = records_in(cluster, &topic, partition);
        let reply = self.take(
            cluster,
            Event::Elect {
                topic,
                partition,
                kept,
            },
        );
        unless_memory(reply)
    }

    /// What it answers to any event: that of an election may lose records.
    ///
    /// # Errors
    /// Where a growth was refused; the cluster is as it was.
    pub(crate) fn ask_any(
        &mut self,
        cluster: &mut Cluster,
        event: Event,
    ) -> Result<Reply, AllocError>
        requires { self.old.course ≡ cluster.old }
        ensures done { HasDone cluster.old self.old cluster.new self.new }
        ensures honest { cluster.new.honest ≡ cluster.old.honest }
    {
        let reply = self.take(cluster, event);
        unless_memory(reply)
    }

    /// Sets the cluster's switches.
    ///
    /// # Errors
    /// Where a growth was refused; the cluster is as it was.
    pub(crate) fn set(
        &mut self,
        cluster: &mut Cluster,
        switches: Switches,
    ) -> Result<(), AllocError>
        requires { self.old.course ≡ cluster.old }
        ensures done { HasDone cluster.old self.old cluster.new self.new }
        ensures lossless { lost_in cluster.new.world ≡ lost_in cluster.old.world }
    {
        set_one(cluster, &mut self.history, switches)?;
        self.course = Snapshot::of(&*cluster);
        Ok(())
    }

    /// Keeps what happened beside the cluster, where there is a history.
    ///
    /// # Errors
    /// Where a growth was refused.
    pub(crate) fn note(&mut self, note: Note) -> Result<(), AllocError>
        ensures { self.new ≡ self.old }
    {
        note_one(&mut self.history, note)?;
        Ok(())
    }

    /// The end of a run.
    pub(crate) fn end(self)
        ensures { IsDriven self.origin.began self.course }
    {
        let _ = &self.history;
    }

    /// The end of a run that keeps a history, which it gives back.
    pub(crate) fn give_back(self, history: &mut History)
        requires { IsSome self.origin.before }
        ensures { (b : List Deed) → self.origin.before ≡ Some b → IsKept self.origin.began b self.course history.new }
    {
        let Driver {
            history: kept,
            began: _,
            before: _,
            course: _,
        } = self;
        match kept {
            Some(kept) => *history = kept,
            None => unreachable!(),
        }
    }
}
