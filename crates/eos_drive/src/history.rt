//! What was done to a cluster, kept in order.

ghost use Rattle.std.specs.Prelude.{◌≡◌, ◌+◌, ◌≤◌, ◌++◌, ◌∷◌, [], vec_len, vec_capacity, IfOk};
ghost use Rattle.std.specs.Result.{OnOk, OnErr};
ghost use Rattle.eos_cluster.specs.Courses.{IsStepUnder, IsCounted};
ghost use Rattle.eos_drive.specs.Driven.{is_taken, after_deed, recorded, IsKept};
ghost use Rattle.eos_drive.specs.Totals.{IsTallyOf};

use crate::deed::Deed;
use crate::tally::{Tally, tally_of};
use eos_cluster::Cluster;
use eos_machine::{Event, Note, Reply, Switches};
use std::alloc::{AllocError, Global};
use std::marker::Model;

/// What was done to a cluster, and what happened beside it, in order, which contracts see as that list.
#[derive(Drop)]
pub struct History {
    deeds: Vec<Deed>,
}

impl Model for History {
    ghost use Rattle.std.specs.Prelude.{List};
    ghost use Rattle.eos_drive.specs.declared.deed.Deed.{Deed};

    ghost Value = { List Deed };

    ghost view = { λ h. h.deeds.items };
}

/// Whether an event was taken, by its reply: it is but for those that leave everything as it was.
pub(crate) fn is_taken(reply: Reply) -> bool
    ensures { result ≡ is_taken reply }
{
    !matches!(reply, Reply::OutOfMemory | Reply::Full)
}

/// A copy of an event.
pub(crate) fn copy(event: &Event) -> Result<Event, AllocError>
    ensures { IfOk result (λ e. e ≡ event.now) }
{
    event.clone()
}

/// Makes room for one more, and a copy of the event.
fn prepare(deeds: &mut Vec<Deed>, event: &Event) -> Result<Event, AllocError>
    ensures same { deeds.new.items ≡ deeds.old.items }
    ensures room { OnOk result (vec_len deeds.new + 1 ≤ vec_capacity deeds.new) }
    ensures copy { IfOk result (λ e. e ≡ event.now) }
{
    deeds.reserve(1)?;
    copy(event)
}

/// Appends a deed to a list that has room for it.
fn store(deeds: &mut Vec<Deed>, deed: Deed)
    requires { vec_len deeds.old + 1 ≤ vec_capacity deeds.old }
    ensures { deeds.new.items ≡ deeds.old.items ++ deed ∷ [] }
{
    let Ok(()) = deeds.push(deed) else {
        unreachable!()
    };
}

/// Asks a cluster for an event, and appends it with its reply where it was taken. Room is made before; where that is refused,
/// nothing happens.
fn answer(cluster: &mut Cluster, deeds: &mut Vec<Deed>, event: Event) -> Reply
    ensures step { IsStepUnder cluster.old event result cluster.new }
    ensures counted { IsCounted cluster.old result cluster.new }
    ensures config { cluster.new.config ≡ cluster.old.config }
    ensures honest { cluster.new.honest ≡ cluster.old.honest }
    ensures deeds { deeds.new.items ≡ recorded deeds.old.items event result }
{
    let Ok(copy) = prepare(deeds, &event) else {
        return Reply::OutOfMemory;
    };
    let reply = cluster.step(event);
    if is_taken(reply) {
        store(deeds, Deed::Asked { event: copy, reply });
    }
    reply
}

impl History {
    /// A history in which nothing stands.
    pub fn new(alloc: Global) -> History
        ensures { result ≡ [] }
    {
        History {
            deeds: Vec::new(alloc),
        }
    }

    /// All of it, in order.
    pub fn deeds(&self) -> &[Deed]
        ensures { result.now ≡ self.now }
    {
        self.deeds.as_slice()
    }

    /// Asks a cluster for an event. What it does and what is answered is the machine's step under the switches that are set,
    /// and is kept; `OutOfMemory`, also where there is no room for one more, and `Full` leave everything as it was, and aren't.
    pub fn ask(&mut self, cluster: &mut Cluster, event: Event) -> Reply
        ensures step { IsStepUnder cluster.old event result cluster.new }
        ensures counted { IsCounted cluster.old result cluster.new }
        ensures config { cluster.new.config ≡ cluster.old.config }
        ensures honest { cluster.new.honest ≡ cluster.old.honest }
        ensures appended { self.new ≡ recorded self.old event result }
        ensures kept { IsKept cluster.old self.old cluster.new self.new }
    {
        answer(cluster, &mut self.deeds, event)
    }

    /// Sets the switches of a cluster, and keeps that.
    ///
    /// # Errors
    /// Where a growth was refused. Everything is as it was.
    pub fn set(&mut self, cluster: &mut Cluster, switches: Switches) -> Result<(), AllocError>
        ensures cluster { OnOk result (cluster.new ≡ after_deed cluster.old (Deed.Set switches)) }
        ensures appended { OnOk result (self.new ≡ self.old ++ Deed.Set switches ∷ []) }
        ensures err { OnErr result ((cluster.new ≡ cluster.old) × (self.new ≡ self.old)) }
        ensures kept { IsKept cluster.old self.old cluster.new self.new }
    {
        self.deeds.push(Deed::Set(switches))?;
        cluster.set(switches);
        Ok(())
    }

    /// Keeps what happened beside a cluster.
    ///
    /// # Errors
    /// Where a growth was refused. Everything is as it was.
    pub fn note(&mut self, note: Note) -> Result<(), AllocError>
        ensures ok { OnOk result (self.new ≡ self.old ++ Deed.Noted note ∷ []) }
        ensures err { OnErr result (self.new ≡ self.old) }
    {
        self.deeds.push(Deed::Noted(note))?;
        Ok(())
    }

    /// How often what happened, of a history that began with a new cluster.
    ///
    /// # Errors
    /// Where a growth was refused.
    pub fn tally(&self, alloc: Global) -> Result<Tally, AllocError>
        ensures { IfOk result (IsTallyOf self.now) }
    {
        tally_of(alloc, self.deeds.as_slice())
    }
}
