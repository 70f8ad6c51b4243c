//! A partition's log with what it says of each producer id, kept beside it so that no append looks back.

ghost use Rattle.std.specs.Prelude.{◌≡◌, ◌∷◌, ◌++◌, ◌-◌, ◌+◌, ◌≤◌, ◌<◌, ◌^◌, [], List, length, take, vec_len, OnOk, OnErr, IfOk};
ghost use Rattle.std.specs.List.{All};
ghost use Rattle.eos_machine.specs.declared.item.Item.{Item};
ghost use Rattle.eos_machine.specs.Application.{Batch, End};
ghost use Rattle.eos_machine.specs.Logs.{marks_of, producer_of};
ghost use Rattle.eos_broker.specs.Kept.{AreKept, LogView};
ghost use Rattle.eos_broker.specs.steps.Kept.{noted};

use crate::producer::{after_data, after_marker, unseen};
use eos_batch::Kind;
use eos_machine::{Item, Producer};
use std::alloc::{AllocError, Global};
use std::marker::Model;

/// A partition's log. Contracts see its items, how many producer ids it keeps the state of, and how many more items there
/// is room for.
#[derive(Drop)]
pub struct PartitionLog {
    items: Vec<Item>,
    producers: Vec<Producer>,
    room: usize,
}

impl Model for PartitionLog {
    ghost use Rattle.std.specs.Prelude.{◌≤◌, ◌+◌, vec_len, vec_capacity};
    ghost use Rattle.eos_broker.specs.Kept.{AreKept, LogView};

    ghost Value = { LogView };

    ghost view = { λ l. record { items = l.items.items; applications = vec_len l.producers; room = l.room } };

    ghost invariant = { λ l. (vec_len l.items + l.room ≤ vec_capacity l.items) × AreKept l.producers.items l.items.items };
}

/// Takes data of an application into what is kept of its producer id, if that is kept here.
fn note_data(producers: &mut Vec<Producer>, application: usize, epoch: u16, sequence: Option<u32>)
    requires { All (λ p. p.count < 2 ^ 63) producers.old.items }
    ensures { producers.new.items ≡ noted producers.old.items application (Batch epoch sequence) }
{
    if application < producers.len() {
        producers[application] = after_data(producers[application], epoch, sequence);
    }
}

/// The same for an end marker.
fn note_marker(producers: &mut Vec<Producer>, application: usize, epoch: u16, kind: Kind)
    ensures { producers.new.items ≡ noted producers.old.items application (End epoch kind) }
{
    if application < producers.len() {
        producers[application] = after_marker(producers[application], epoch, kind);
    }
}

/// Takes an item into what is kept of its producer id.
fn note(producers: &mut Vec<Producer>, item: &Item)
    requires { All (λ p. p.count < 2 ^ 63) producers.old.items }
    ensures kept { (xs : List Item) → AreKept producers.old.items xs → AreKept producers.new.items (xs ++ item.now ∷ []) }
    ensures len { vec_len producers.new ≡ vec_len producers.old }
{
    match item {
        Item::Output {
            application,
            epoch,
            sequence,
            ..
        } => note_data(producers, *application, *epoch, Some(*sequence)),
        Item::Offset {
            application,
            epoch,
            ..
        } => note_data(producers, *application, *epoch, None),
        Item::Marker {
            application,
            epoch,
            kind,
            ..
        } => note_marker(producers, *application, *epoch, *kind),
        Item::Fed { .. } => {}
        Item::State { .. } => {}
    }
}

/// Makes the states anew from the items.
fn reread(producers: &mut Vec<Producer>, items: &[Item])
    requires { length items.now < 2 ^ 63 }
    ensures kept { AreKept producers.new.items items.now }
    ensures len { vec_len producers.new ≡ vec_len producers.old }
{
    for i in 0..producers.len() {
        producers[i] = unseen();
    }
    for item in items {
        note(producers, item);
    }
}

impl PartitionLog {
    /// An empty log for so many applications.
    pub fn new(alloc: Global, applications: usize) -> Result<PartitionLog, AllocError>
        ensures { IfOk result (λ l. l ≡ record { items = []; applications = applications; room = 0 }) }
    {
        let mut producers = Vec::new(alloc);
        for _ in 0..applications {
            producers.push(unseen())?;
        }
        Ok(PartitionLog {
            items: Vec::new(alloc),
            producers,
            room: 0,
        })
    }

    /// Makes room for so many more items. Where memory is refused nothing changes.
    pub fn reserve(&mut self, wanted: usize) -> Result<(), AllocError>
        ensures ok { OnOk result (self.new ≡ record { items = self.old.items; applications = self.old.applications; room = wanted }) }
        ensures err { OnErr result (self.new ≡ self.old) }
    {
        self.items.reserve(wanted)?;
        self.room = wanted;
        Ok(())
    }

    /// What the broker holds of an application's producer id: a function of the log.
    pub fn producer(&self, application: usize) -> Producer
        requires { application < self.now.applications }
        ensures { result ≡ producer_of (marks_of application self.now.items) }
    {
        self.producers[application]
    }

    /// The broker restarts: what it holds of each producer id is made anew from the log, and is what it was.
    pub fn restart(&mut self)
        ensures { self.new ≡ self.old }
    {
        reread(&mut self.producers, self.items.as_slice());
    }

    /// The partition has another leader, which has so many of its items: what it holds of each producer id is made of these
    /// (`ProducerStateManager.truncateAndReload` of Kafka's sources).
    pub fn truncate(&mut self, kept: usize)
        ensures { self.new ≡ record { items = take kept self.old.items; applications = self.old.applications; room = self.old.room } }
    {
        self.items.truncate(kept);
        reread(&mut self.producers, self.items.as_slice());
    }

    /// The items, in offset order.
    pub fn as_slice(&self) -> &[Item]
        ensures { result.now ≡ self.now.items }
    {
        self.items.as_slice()
    }

    /// Appends an item, for which there is room.
    pub fn append(&mut self, item: Item)
        requires { 1 ≤ self.old.room }
        ensures { self.new ≡ record { items = self.old.items ++ item ∷ []; applications = self.old.applications; room = self.old.room - 1 } }
    {
        note(&mut self.producers, &item);
        self.room -= 1;
        let Ok(()) = self.items.push(item) else {
            unreachable!()
        };
    }
}
