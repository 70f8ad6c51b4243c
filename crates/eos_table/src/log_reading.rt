//! One pass over the records of the transaction log.

ghost use Rattle.std.specs.Prelude.{◌≡◌, List, [], ◌∷◌, ◌++◌, drop, fold, not, unsigned_abs, OnOk, IfOk};
ghost use Rattle.std.specs.List.{flat_map};
ghost use Rattle.std.specs.Option.{option_copied, option_map};
ghost use Rattle.eos_txnlog.specs.Skips.{is_skipped};
ghost use Rattle.eos_table.specs.TransactionLog.{State, content_of, state_of, step_at, steps_after, steps_of, all_steps, next_state, state_after, decision_between, transaction_parts};
ghost use Rattle.eos_table.specs.declared.content.Content.TheVariants.{Of};
ghost use Rattle.eos_table.specs.declared.held.Holding.TheVariants.{Each, Apart};
ghost use Rattle.eos_table.specs.declared.mark.Mark.{Mark};
ghost use Rattle.eos_table.specs.steps.LogCandidates.{after, unread, taken, open_at, step_faults, faults_at, faults_after, part_faults, none_found, producer_of, step_of};
ghost use Rattle.eos_table.specs.steps.Held.{readout, Shows, Takes};

use crate::held::{Held, Holding};
use crate::known::{Known, Read};
use crate::last_values::{is_of_transaction_log, kind_of_status};
use crate::log_faults::{LogFaults, take_at};
use crate::mark::{Mark, Place, producer_of};
use crate::settled::{are_settled, is_open};
use crate::shared::SharedDecision;
use crate::value::{SharedValue, SharedValues, is_shared_skipped, shared_step_ok};
use bytes::Bytes;
use eos_kept::{ItemRef, Part};
use eos_verdict::LogFaultKind;
use std::alloc::{AllocError, Global};
use std::collections::BTreeMap;

/// What was read of the log.
#[derive(Drop)]
pub(crate) struct LogReading {
    /// What is held of its unskipped records.
    pub held: Held,
    pub decisions: Vec<SharedDecision>,
    /// The faults that a record or the end of a partition shows by itself, as long as what was asked for is held.
    pub faults: LogFaults,
    known: Known,
}

/// Puts what a record decides at the end.
fn push_decision(
    decisions: &mut Vec<SharedDecision>,
    id: &Bytes,
    before: Option<&SharedValue>,
    value: Option<&SharedValue>,
) -> Result<(), AllocError>
    ensures { OnOk result (decisions.new.items ≡ decisions.old.items ++ decision_between id.now (option_copied before.entry) (option_copied value.entry)) }
{
    let (Some(before), Some(value)) = (before, value) else {
        return Ok(());
    };
    let Some(kind) = kind_of_status(value.status()) else {
        return Ok(());
    };
    decisions.push(SharedDecision::between(id, before, value, kind)?)?;
    Ok(())
}

/// Takes up the fault of a record that may not follow the one of its id before it.
fn push_refused(
    faults: &mut LogFaults,
    place: Place,
    id: &Bytes,
    before: Option<&SharedValue>,
    value: Option<&SharedValue>,
) -> Result<(), AllocError>
    ensures { OnOk result (faults.new ≡ fold taken faults.old (step_faults (step_of place.partition place.offset id.now (option_copied before.entry) (option_copied value.entry)))) }
{
    if let Err(why) = shared_step_ok(before, value) {
        let kind = LogFaultKind::Step {
            id: id.clone()?,
            why,
        };
        return take_at(faults, place, kind);
    }
    Ok(())
}

/// Takes up an unskipped record.
fn take_step(
    reading: &mut LogReading,
    mark: &Mark,
    before: Option<&SharedValue>,
    value: Option<&SharedValue>,
) -> Result<(), AllocError>
    requires { mark.now.producer ≡ producer_of (option_copied value) }
    ensures { let step = step_of mark.now.partition mark.now.offset mark.now.id (option_copied before.entry) (option_copied value.entry) in
        OnOk result (Takes (readout reading.old) (readout reading.new) (step ∷ []) (step_faults step)) }
{
    let place = Place {
        partition: mark.partition,
        offset: mark.offset,
    };
    push_decision(&mut reading.decisions, &mark.id, before, value)?;
    push_refused(&mut reading.faults, place, &mark.id, before, value)?;
    reading.held.take(mark)?;
    Ok(())
}

/// Takes up a record that follows this one of its id, unless it is skipped, and answers whether it isn't. None is a tombstone.
fn take_next(
    alloc: Global,
    reading: &mut LogReading,
    mark: &Mark,
    before: Option<Option<&SharedValue>>,
    value: Option<&SharedValue>,
) -> Result<bool, AllocError>
    requires { mark.now.producer ≡ producer_of (option_copied value) }
    ensures read { let content = Of mark.now.id (option_copied value.entry) in
        IfOk result (λ taken. (st : State) → st mark.now.id ≡ option_map option_copied before.entry → Takes (readout reading.old) (readout reading.new) (step_at st mark.now.partition mark.now.offset content) (faults_at st mark.now.partition mark.now.offset content)) }
    ensures taken { IfOk result (λ taken. taken ≡ not (is_skipped (option_map option_copied before.entry) (option_copied value.entry))) }
{
    if is_shared_skipped(alloc, before, value)? {
        return Ok(false);
    }
    take_step(reading, mark, before.flatten(), value)?;
    Ok(true)
}

/// Takes up a record of a transactional id, unless it is skipped. None is a tombstone.
fn take_value(
    alloc: Global,
    reading: &mut LogReading,
    last: &mut SharedValues,
    mark: Mark,
    value: Option<SharedValue>,
) -> Result<(), AllocError>
    requires { mark.producer ≡ producer_of value }
    ensures read { let content = Of mark.id value in
        OnOk result (Takes (readout reading.old) (readout reading.new) (step_at (state_of last.old) mark.partition mark.offset content) (faults_at (state_of last.old) mark.partition mark.offset content)) }
    ensures last { OnOk result (state_of last.new ≡ next_state (state_of last.old) (Of mark.id value)) }
{
    let Some(slot) = last.get_mut(&mark.id) else {
        if take_next(alloc, reading, &mark, None, value.as_ref())? {
            let Mark { id, .. } = mark;
            last.insert(id, value)?;
        }
        return Ok(());
    };
    if take_next(alloc, reading, &mark, Some(slot.as_ref()), value.as_ref())? {
        *slot = value;
    }
    Ok(())
}

fn take_record(
    alloc: Global,
    reading: &mut LogReading,
    last: &mut SharedValues,
    part: &Part,
    item: &ItemRef<'_>,
) -> Result<(), AllocError>
    ensures read { OnOk result (Takes (readout reading.old) (readout reading.new) (step_at (state_of last.old) part.now.number item.now.offset (content_of item.now)) (faults_at (state_of last.old) part.now.number item.now.offset (content_of item.now))) }
    ensures last { OnOk result (state_of last.new ≡ next_state (state_of last.old) (content_of item.now)) }
{
    let place = Place {
        partition: part.partition(),
        offset: item.offset(),
    };
    match reading.known.read(alloc, item)? {
        Read::Unreadable(record) => {
            let kind = LogFaultKind::BadRecord { record };
            take_at(&mut reading.faults, place, kind)
        }
        Read::Other => Ok(()),
        Read::Of(id, value) => {
            let mark = Mark {
                partition: place.partition,
                offset: place.offset,
                id,
                producer: producer_of(value.as_ref()),
            };
            take_value(alloc, reading, last, mark, value)
        }
    }
}

fn take_records(
    alloc: Global,
    reading: &mut LogReading,
    last: &mut SharedValues,
    part: &Part,
) -> Result<(), AllocError>
    ensures read { OnOk result (Takes (readout reading.old) (readout reading.new) (steps_after (state_of last.old) part.now.number part.now.items) (faults_after (state_of last.old) part.now.number part.now.items)) }
    ensures last { OnOk result (state_of last.new ≡ state_after (state_of last.old) part.now.items) }
{
    let mut items = part.items().cursor();
    while let Some(item) = items.next() {
        take_record(alloc, reading, last, part, &item)?;
    }
    Ok(())
}

/// Where the partition is declared to end.
fn end_of(part: &Part) -> Place
    ensures partition { result.partition ≡ part.now.number }
    ensures offset { result.offset ≡ unsigned_abs part.now.end }
{
    Place {
        partition: part.partition(),
        offset: part.end().unsigned_abs(),
    }
}

fn push_open_id(
    faults: &mut LogFaults,
    last: &SharedValues,
    mark: &Mark,
    end: Place,
) -> Result<(), AllocError>
    ensures { OnOk result (faults.new ≡ fold taken faults.old (open_at (state_of last.now) end.partition end.offset mark.now)) }
{
    if is_open(last, &mark.id) {
        let kind = LogFaultKind::Unfinished {
            id: mark.id.clone()?,
        };
        return take_at(faults, end, kind);
    }
    Ok(())
}

fn push_open_ids(
    faults: &mut LogFaults,
    last: &SharedValues,
    marks: &[Mark],
    end: Place,
) -> Result<(), AllocError>
    ensures { OnOk result (faults.new ≡ fold taken faults.old (flat_map (open_at (state_of last.now) end.partition end.offset) marks.now)) }
{
    for mark in marks {
        push_open_id(faults, last, mark, end)?;
    }
    Ok(())
}

/// Takes up what is left unfinished at the end of a partition, whose records are those after so many. They are looked at only where
/// something is; where they aren't each held, what is held is given up.
fn push_open(
    faults: &mut LogFaults,
    held: &mut Held,
    last: &SharedValues,
    from: usize,
    end: Place,
) -> Result<(), AllocError>
    ensures each { held.old.holding ≡ Each → OnOk result ((held.new ≡ held.old) × (faults.new ≡ fold taken faults.old (flat_map (open_at (state_of last.now) end.partition end.offset) (drop from held.old.marks.items)))) }
    ensures apart { OnOk result (held.new.holding ≡ Apart → (held.new ≡ held.old)
        × ((marks : List Mark) → faults.new ≡ fold taken faults.old (flat_map (open_at (state_of last.now) end.partition end.offset) marks))) }
{
    if are_settled(last) {
        return Ok(());
    }
    match held.holding {
        Holding::Each => push_open_ids(faults, last, held.since(from), end),
        Holding::Apart | Holding::Nothing => {
            held.holding = Holding::Nothing;
            Ok(())
        }
    }
}

impl LogReading {
    /// Takes up a partition of the log.
    fn take_part(&mut self, alloc: Global, part: &Part) -> Result<(), AllocError>
        ensures { OnOk result (Takes (readout self.old) (readout self.new) (steps_of part.now) (part_faults part.now)) }
    {
        let from = self.held.marks.len();
        let mut last = BTreeMap::new(alloc);
        take_records(alloc, self, &mut last, part)?;
        push_open(&mut self.faults, &mut self.held, &last, from, end_of(part))?;
        Ok(())
    }
}

/// How many records the log has.
fn count_records(parts: &[Part]) -> u64 {
    let mut count = 0u64;
    for part in parts {
        if is_of_transaction_log(part) {
            count = count.saturating_add(part.items().len() as u64);
        }
    }
    count
}

/// Reads the partitions of the log, of these of all topics, and holds their unskipped records so. Of the faults all are kept, or the least.
pub(crate) fn read_log(
    alloc: Global,
    parts: &[Part],
    holding: Holding,
    keeps_all: bool,
) -> Result<LogReading, AllocError>
    ensures { IfOk result (λ reading. Shows holding (readout reading) (after (unread (none_found keeps_all)) (all_steps (transaction_parts parts.now)) (flat_map part_faults (transaction_parts parts.now)))) }
{
    let known = Known::new(alloc, count_records(parts))?;
    let held = Held::new(alloc, holding);
    let decisions = Vec::new(alloc);
    let faults = LogFaults::new(alloc, keeps_all);
    let mut reading = LogReading {
        held,
        decisions,
        faults,
        known,
    };
    for part in parts {
        if is_of_transaction_log(part) {
            match reading.take_part(alloc, part) {
                Ok(()) => {}
                Err(why) => {
                    drop(reading);
                    return Err(why);
                }
            }
        }
    }
    Ok(reading)
}
