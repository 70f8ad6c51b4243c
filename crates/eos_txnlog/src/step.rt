//! Which record of a transactional id may follow which.

ghost use Rattle.std.specs.Prelude.{◌≡◌, Some};
ghost use Rattle.std.specs.Option.{option_copied};
ghost use Rattle.std.specs.List.{list_any};
ghost use Rattle.eos_txnlog.specs.Names.{step_fault_name};
ghost use Rattle.eos_txnlog.specs.Status.{same_status};
ghost use Rattle.eos_txnlog.specs.Following.{next_statuses, changes_producer, keeps_epoch, status_in, value_verdict, step_verdict};

use crate::status::Status;
use crate::value::TxnValue;
use std::fmt::{Display, Formatter, Write};
use thiserror::Error;

/// Why a record of a transactional id may not follow the one before it. The text of a fault is its name. They are
/// ordered as they stand here.
#[derive(Clone, Copy, Debug, PartialEq, Eq, PartialOrd, Ord, Error)]
pub enum TxnFault {
    /// The status may not follow the one before.
    Order,
    /// A transaction goes on or ends under another producer id, or goes on under another epoch.
    Producer,
    /// The end of a transaction doesn't raise the epoch.
    Epoch,
}

impl TxnFault {
    /// The fault's name, as a verdict prints it.
    pub fn name(self) -> &'static str
        ensures { result.now ≡ step_fault_name self }
    {
        match self {
            TxnFault::Order => "Order",
            TxnFault::Producer => "Producer",
            TxnFault::Epoch => "Epoch",
        }
    }
}

impl Display for TxnFault {
    ghost output = { λ fault. Some (step_fault_name fault) };

    fn fmt<W: Write>(&self, f: &mut Formatter<W>) -> std::fmt::Result {
        f.write_str(self.name())
    }
}

fn is_in_order(before: Option<Status>, after: Option<Status>) -> bool
    ensures { result ≡ list_any (same_status after) (next_statuses before) }
{
    match before {
        None => matches!(after, Some(Status::Empty)),
        Some(Status::Empty | Status::CompleteCommit | Status::CompleteAbort) => matches!(
            after,
            None | Some(Status::Empty | Status::Ongoing | Status::PrepareAbort)
        ),
        Some(Status::Ongoing) => matches!(
            after,
            Some(Status::Ongoing | Status::PrepareCommit | Status::PrepareAbort)
        ),
        Some(Status::PrepareCommit) => matches!(after, Some(Status::CompleteCommit)),
        Some(Status::PrepareAbort) => matches!(after, Some(Status::CompleteAbort)),
        Some(Status::Dead | Status::PrepareEpochFence) => false,
    }
}

fn changes_producer(before: &TxnValue, after: &TxnValue) -> bool
    ensures { result ≡ changes_producer before.now after.now }
{
    let goes_on = before.status == Status::Ongoing && after.status == Status::Ongoing;
    if goes_on {
        return after.producer != before.producer || after.epoch != before.epoch;
    }
    after.status.is_prepare() && after.producer != before.producer
}

fn keeps_epoch(before: &TxnValue, after: &TxnValue) -> bool
    ensures { result ≡ keeps_epoch before.now after.now }
{
    after.status.is_prepare() && after.epoch <= before.epoch
}

fn value_ok(before: &TxnValue, after: &TxnValue) -> Result<(), TxnFault>
    ensures { result ≡ value_verdict before.now after.now }
{
    if changes_producer(before, after) {
        return Err(TxnFault::Producer);
    }
    if keeps_epoch(before, after) {
        return Err(TxnFault::Epoch);
    }
    Ok(())
}

fn status_in(value: Option<&TxnValue>) -> Option<Status>
    ensures { result ≡ status_in (option_copied value.entry) }
{
    match value {
        None => None,
        Some(value) => Some(value.status),
    }
}

/// Whether a record of a transactional id may follow the one before it; `None` is no record, or a tombstone.
///
/// The answer is the first refusal that stands: Order where the table of steps doesn't have the two statuses, Producer,
/// Epoch.
pub fn step_ok(prev: Option<&TxnValue>, next: Option<&TxnValue>) -> Result<(), TxnFault>
    ensures { result ≡ step_verdict (option_copied prev.entry) (option_copied next.entry) }
{
    if !is_in_order(status_in(prev), status_in(next)) {
        return Err(TxnFault::Order);
    }
    match (prev, next) {
        (Some(before), Some(after)) => value_ok(before, after),
        _ => Ok(()),
    }
}
