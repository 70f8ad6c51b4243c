//! Decisions of the transaction log that share their partitions: a log has few sets of them in many records.

ghost use Rattle.std.specs.Prelude.{◌≡◌, ◌∷◌, [], true, Some, IfOk, IfSome};
ghost use Rattle.std.specs.Arc.{arc_value};
ghost use Rattle.eos_table.specs.TransactionLog.{decided_as};

use crate::value::SharedValue;
use bytes::Bytes;
use eos_batch::Kind;
use eos_txnlog::{Partitions, TopicPartitions};
use eos_wire::crc32c;
use std::alloc::{AllocError, Global};
use std::marker::Model;
use std::sync::Arc;

/// How a transaction ends, decided by a Prepare record, which contracts see as a `Decision`.
#[derive(Drop)]
pub struct SharedDecision {
    id: Bytes,
    producer: i64,
    epoch: i16,
    marker_epoch: i16,
    kind: Kind,
    partitions: Arc<Partitions, Global>,
}

impl Model for SharedDecision {
    ghost use Rattle.std.specs.Arc.{arc_value};
    ghost use Rattle.eos_txnlog.specs.declared.decision.Decision.{Decision};

    ghost Value = { Decision };

    ghost view = { λ d. record { id = d.id; producer = d.producer; epoch = d.epoch; marker_epoch = d.marker_epoch; kind = d.kind; partitions = arc_value d.partitions } };
}

impl SharedDecision {
    /// What a record of this id and value decides, after one of the value before, and in this way.
    pub(crate) fn between(
        id: &Bytes,
        before: &SharedValue,
        value: &SharedValue,
        kind: Kind,
    ) -> Result<SharedDecision, AllocError>
        ensures { IfOk result (λ d. decided_as id.now before.now value.now (Some kind) ≡ d ∷ []) }
    {
        Ok(SharedDecision {
            id: id.clone()?,
            producer: value.producer(),
            epoch: before.epoch(),
            marker_epoch: value.epoch(),
            kind,
            partitions: value.partitions()?,
        })
    }

    /// The producer id.
    pub(crate) fn producer(&self) -> i64
        ensures { result ≡ self.now.producer }
    {
        self.producer
    }

    /// The epoch of the transaction's data.
    pub(crate) fn epoch(&self) -> i16
        ensures { result ≡ self.now.epoch }
    {
        self.epoch
    }

    /// The epoch of its end markers.
    pub(crate) fn marker_epoch(&self) -> i16
        ensures { result ≡ self.now.marker_epoch }
    {
        self.marker_epoch
    }

    /// How it ends.
    pub(crate) fn kind(&self) -> Kind
        ensures { result ≡ self.now.kind }
    {
        self.kind
    }

    /// The partitions that it lists.
    pub(crate) fn partitions(&self) -> &[TopicPartitions]
        ensures { result.now ≡ self.now.partitions }
    {
        self.partitions.as_slice()
    }
}

/// Whether both list the same in the same order.
fn are_alike(one: &[TopicPartitions], other: &[TopicPartitions]) -> bool
    ensures { result ≡ true → one.now ≡ other.now }
{
    one == other
}

fn mixed(sum: u64, more: u64) -> u64 {
    sum.wrapping_mul(31).wrapping_add(more)
}

/// Where an equal set is looked for among so many slots.
fn slot_of(set: &[TopicPartitions], slots: usize) -> usize {
    let mut sum = 0;
    for topic in set {
        sum = mixed(sum, crc32c(topic.topic.as_slice()) as u64);
        for number in topic.numbers.as_slice() {
            sum = mixed(sum, number.unsigned_abs() as u64);
        }
    }
    (sum % slots.max(1) as u64) as usize
}

/// So many slots with nothing in them.
pub(crate) fn empty_slots<T: Drop>(
    alloc: Global,
    count: u64,
) -> Result<Vec<Option<T>>, AllocError> {
    let mut slots = Vec::new(alloc);
    for _slot in 0..count {
        slots.push(None)?;
    }
    Ok(slots)
}

/// Puts it into this slot, if there is one, in the place of what was there.
pub(crate) fn put<T: Drop>(slots: &mut Vec<Option<T>>, place: usize, it: T) {
    if let Some(slot) = slots.get_mut(place) {
        *slot = Some(it);
    }
}

/// Sets of partitions that values share, each at the slot of what it lists; the last one stays there.
#[derive(Drop)]
pub(crate) struct Sets {
    alloc: Global,
    slots: Vec<Option<Arc<Partitions, Global>>>,
}

impl Sets {
    /// No set yet, and so many slots.
    pub(crate) fn new(alloc: Global, count: u64) -> Result<Sets, AllocError> {
        Ok(Sets {
            alloc,
            slots: empty_slots(alloc, count)?,
        })
    }

    fn known(
        &self,
        slot: usize,
        set: &Partitions,
    ) -> Result<Option<Arc<Partitions, Global>>, AllocError>
        ensures { IfOk result (λ found. IfSome found (λ known. arc_value known ≡ set.now)) }
    {
        let Some(Some(known)) = self.slots.get(slot) else {
            return Ok(None);
        };
        if !are_alike(known.as_slice(), set.as_slice()) {
            return Ok(None);
        }
        Ok(Some(Arc::try_clone(known)?))
    }

    /// An equal set, which others may have too.
    pub(crate) fn shared(&mut self, set: &Partitions) -> Result<Arc<Partitions, Global>, AllocError>
        ensures { IfOk result (λ shared. arc_value shared ≡ set.now) }
    {
        let slot = slot_of(set.as_slice(), self.slots.len());
        if let Some(known) = self.known(slot, set)? {
            return Ok(known);
        }
        let made = Arc::new(self.alloc, set.clone()?)?;
        let kept = Arc::try_clone(&made)?;
        put(&mut self.slots, slot, kept);
        Ok(made)
    }
}
