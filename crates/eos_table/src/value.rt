//! A value of the transaction log that shares its partitions with others: a log has few sets of them in many records.

ghost use Rattle.std.specs.Prelude.{◌≡◌, true, false, Some, IfOk, option_map};
ghost use Rattle.std.specs.Option.{option_copied};
ghost use Rattle.std.specs.Arc.{arc_value};
ghost use Rattle.eos_txnlog.specs.Skips.{is_skipped};
ghost use Rattle.eos_txnlog.specs.Following.{step_verdict};
ghost use Rattle.eos_table.specs.steps.Known.{bare_of, with_set};

use bytes::Bytes;
use eos_txnlog::{Partitions, Status, TxnFault, TxnValue, is_skipped, step_ok};
use std::alloc::{AllocError, Global};
use std::collections::BTreeMap;
use std::marker::Model;
use std::sync::Arc;

/// A value, which contracts see as a `TxnValue`.
#[derive(Drop)]
pub(crate) struct SharedValue {
    /// What stands around the partitions; those that stand here say nothing.
    fields: TxnValue,
    partitions: Arc<Partitions, Global>,
}

impl Model for SharedValue {
    ghost use Rattle.std.specs.Arc.{arc_value};
    ghost use Rattle.eos_txnlog.specs.declared.value.TxnValue.{TxnValue};
    ghost use Rattle.eos_table.specs.steps.Known.{with_set};

    ghost Value = { TxnValue };

    ghost view = { λ v. with_set v.fields (arc_value v.partitions) };
}

/// The value of the last unskipped record of each transactional id of a partition; none is a tombstone.
pub(crate) type SharedValues = BTreeMap<Bytes, Option<SharedValue>>;

impl SharedValue {
    /// A value with these partitions in the place of its own.
    pub fn new(fields: TxnValue, partitions: Arc<Partitions, Global>) -> SharedValue
        ensures { result ≡ with_set fields (arc_value partitions) }
    {
        SharedValue { fields, partitions }
    }

    pub fn producer(&self) -> i64
        ensures { result ≡ self.now.producer }
    {
        self.fields.producer
    }

    pub fn epoch(&self) -> i16
        ensures { result ≡ self.now.epoch }
    {
        self.fields.epoch
    }

    pub fn status(&self) -> Status
        ensures { result ≡ self.now.status }
    {
        self.fields.status
    }

    /// Its partitions, which have one more owner then.
    pub fn partitions(&self) -> Result<Arc<Partitions, Global>, AllocError>
        ensures { IfOk result (λ set. arc_value set ≡ self.now.partitions) }
    {
        Ok(Arc::try_clone(&self.partitions)?)
    }

    /// The value without its partitions.
    fn fields(&self) -> &TxnValue
        ensures { bare_of result.now ≡ bare_of self.now }
    {
        &self.fields
    }

    /// The value with partitions of its own.
    fn whole(&self) -> Result<TxnValue, AllocError>
        ensures { IfOk result (λ value. value ≡ self.now) }
    {
        Ok(TxnValue {
            producer: self.fields.producer,
            epoch: self.fields.epoch,
            timeout: self.fields.timeout,
            status: self.fields.status,
            partitions: (*self.partitions).clone()?,
            last_update: self.fields.last_update,
            start: self.fields.start,
        })
    }

    /// Whether a record of this value says another thing than one of the value before, by its numbers. No says nothing.
    fn is_other(&self, before: &SharedValue) -> bool
        ensures { result ≡ true → is_skipped (Some (Some before.now)) (Some self.now) ≡ false }
    {
        !self.status().means_nothing()
            && (self.status() != before.status()
                || self.producer() != before.producer()
                || self.epoch() != before.epoch())
    }

    /// Whether a record of this value says nothing after one of the value before.
    fn repeats(&self, alloc: Global, before: &SharedValue) -> Result<bool, AllocError>
        ensures { IfOk result (λ skipped. skipped ≡ is_skipped (Some (Some before.now)) (Some self.now)) }
    {
        if self.is_other(before) {
            return Ok(false);
        }
        let then = before.whole()?;
        let now = self.whole()?;
        is_skipped(alloc, Some(Some(&then)), Some(&now))
    }
}

/// Whether a record is skipped, as `eos_txnlog::is_skipped` says of whole values.
pub(crate) fn is_shared_skipped(
    alloc: Global,
    last: Option<Option<&SharedValue>>,
    next: Option<&SharedValue>,
) -> Result<bool, AllocError>
    ensures { IfOk result (λ skipped. skipped ≡ is_skipped (option_map option_copied last.entry) (option_copied next.entry)) }
{
    match (last, next) {
        (Some(Some(before)), Some(after)) => after.repeats(alloc, before),
        (_, Some(after)) => Ok(after.status().means_nothing()),
        (Some(None), None) => Ok(true),
        (_, None) => Ok(false),
    }
}

fn fields_of(value: Option<&SharedValue>) -> Option<&TxnValue>
    ensures { option_map bare_of (option_copied result) ≡ option_map bare_of (option_copied value.entry) }
{
    match value {
        None => None,
        Some(value) => Some(value.fields()),
    }
}

/// Whether a record may follow another, as `step_ok` says of whole values; it doesn't look at their partitions.
pub(crate) fn shared_step_ok(
    prev: Option<&SharedValue>,
    next: Option<&SharedValue>,
) -> Result<(), TxnFault>
    ensures { result ≡ step_verdict (option_copied prev.entry) (option_copied next.entry) }
{
    step_ok(fields_of(prev), fields_of(next))
}
