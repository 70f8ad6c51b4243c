//! The closes that decisions want in each partition, for the quick walk.

ghost use Rattle.std.specs.Prelude.{◌≡◌, true, [], ◌∷◌, IfOk, IfSome};
ghost use Rattle.eos_txnlog.specs.PartitionSets.{name_of, names_in_topic};
ghost use Rattle.eos_fold.specs.Parts.{part_name};
ghost use Rattle.std.specs.Option.{option_copied};
ghost use Rattle.eos_table.specs.Wanted.{IsWantedOf};
ghost use Rattle.eos_table.specs.steps.Wanted.{wanted_close, wish, wishes_in, wishes_of, wishes, IsAt, Have, Take};

use crate::key::{NameRef, name_of_part};
use crate::shared::SharedDecision;
use crate::table::TxnTable;
use bytes::Bytes;
use eos_fold::Close;
use eos_kept::Part;
use eos_txnlog::TopicPartitions;
use std::alloc::{AllocError, Global};
use std::marker::Model;

/// The first place whose name is not less, where the parts stand by name.
fn first_from(parts: &[Part], name: NameRef<'_>) -> usize {
    let mut low = 0;
    let mut high = parts.len();
    while low < high {
        let middle = low + (high - low) / 2;
        if name_of_part(&parts[middle]) < name {
            low = middle + 1;
        } else {
            high = middle;
        }
    }
    low
}

/// So many parts are looked at one after the other: most are passed by their numbers, and the order of texts takes longer than that.
const FEW: usize = 32;

/// Where the part of this name is, if it is there and the parts stand by name.
fn likely_index(parts: &[Part], name: NameRef<'_>) -> usize {
    if parts.len() > FEW {
        return first_from(parts, name);
    }
    for i in 0..parts.len() {
        if parts[i].partition() == name.partition && parts[i].topic() == name.topic {
            return i;
        }
    }
    parts.len()
}

fn is_named(part: &Part, topic: &[u8], partition: &i32) -> bool
    ensures { result ≡ true → part_name part.now ≡ name_of topic.now partition.now }
{
    part.partition() == *partition && part.topic().as_slice() == topic
}

/// The place of the part of this name, where the parts stand by name.
fn place_of(parts: &[Part], topic: &Bytes, partition: &i32) -> Option<usize>
    ensures { IfSome result (λ place. IsAt parts.now place (name_of topic.now partition.now)) }
{
    let name = NameRef {
        topic,
        partition: *partition,
    };
    let place = likely_index(parts, name);
    let part = parts.get(place)?;
    if is_named(part, topic.as_slice(), partition) {
        Some(place)
    } else {
        None
    }
}

/// Takes up that the close is wanted in a partition, if that is found.
fn want(
    lists: &mut Vec<Vec<Close>>,
    parts: &[Part],
    close: Close,
    topic: &Bytes,
    partition: &i32,
) -> Result<bool, AllocError>
    ensures { IfOk result (λ yes. yes ≡ true → Take parts.now (wish close (name_of topic.now partition.now) ∷ []) lists.old.items lists.new.items) }
{
    let Some(place) = place_of(parts, topic, partition) else {
        return Ok(false);
    };
    if place >= lists.len() {
        return Ok(false);
    }
    lists[place].push(close)?;
    Ok(true)
}

fn want_topic(
    lists: &mut Vec<Vec<Close>>,
    parts: &[Part],
    close: Close,
    topic: &TopicPartitions,
) -> Result<bool, AllocError>
    ensures { IfOk result (λ yes. yes ≡ true → Take parts.now (wishes_in close (names_in_topic topic.now)) lists.old.items lists.new.items) }
{
    for partition in topic.numbers.as_slice() {
        if !want(lists, parts, close, &topic.topic, partition)? {
            return Ok(false);
        }
    }
    Ok(true)
}

/// The close that a decision wants in each partition that it lists.
fn close_of(decision: &SharedDecision) -> Close
    ensures { result ≡ wanted_close decision.now }
{
    Close {
        producer: decision.producer(),
        epoch: decision.epoch(),
        marker_epoch: decision.marker_epoch(),
        kind: decision.kind(),
    }
}

fn want_decision(
    lists: &mut Vec<Vec<Close>>,
    parts: &[Part],
    decision: &SharedDecision,
) -> Result<bool, AllocError>
    ensures { IfOk result (λ yes. yes ≡ true → Take parts.now (wishes_of decision.now) lists.old.items lists.new.items) }
{
    let close = close_of(decision);
    for topic in decision.partitions() {
        if !want_topic(lists, parts, close, topic)? {
            return Ok(false);
        }
    }
    Ok(true)
}

/// A list for each part, with nothing in it.
fn no_lists(alloc: Global, parts: &[Part]) -> Result<Vec<Vec<Close>>, AllocError>
    ensures { IfOk result (λ lists. Have parts.now [] lists.items) }
{
    let mut lists = Vec::new(alloc);
    for i in 0..parts.len() {
        lists.push(Vec::new(alloc))?;
    }
    Ok(lists)
}

/// For each part the closes that decisions want there. None says nothing: the parts may not stand by name, or one that is listed
/// isn't there.
pub(crate) fn wanted_of(
    alloc: Global,
    decisions: &[SharedDecision],
    parts: &[Part],
) -> Result<Option<Vec<Vec<Close>>>, AllocError>
    ensures { IfOk result (λ answer. IfSome answer (λ lists. Have parts.now (wishes decisions.now) lists.items)) }
{
    let mut lists = no_lists(alloc, parts)?;
    for decision in decisions {
        if !want_decision(&mut lists, parts, decision)? {
            return Ok(None);
        }
    }
    Ok(Some(lists))
}

/// Decisions as a table, and for each part the closes that they want there, if these were found; contracts see the decisions and those.
#[derive(Drop)]
pub struct WantedTable {
    table: TxnTable,
    lists: Option<Vec<Vec<Close>>>,
}

impl Model for WantedTable {
    ghost use Rattle.std.specs.Prelude.{List, Option};
    ghost use Rattle.std.specs.Option.{option_map};
    ghost use Rattle.eos_txnlog.specs.declared.decision.Decision.{Decision};
    ghost use Rattle.eos_table.specs.steps.Wanted.{Lists};

    ghost Value = { List Decision × Option Lists };

    ghost view = { λ w. (w.table, option_map (λ lists. lists.items) w.lists) };
}

impl WantedTable {
    /// The table of these decisions, each kept as it is, with what they want of these parts. Where the parts don't stand by name, or one
    /// that is listed isn't there, that isn't found.
    ///
    /// # Errors
    /// Only want of memory.
    pub fn of(
        alloc: Global,
        decisions: Vec<SharedDecision>,
        parts: &[Part],
    ) -> Result<WantedTable, AllocError>
        ensures decisions { IfOk result (λ wanted. wanted.0 ≡ decisions.items) }
        ensures lists { IfOk result (IsWantedOf parts.now) }
    {
        let table = TxnTable::from_decisions(decisions)?;
        let lists = wanted_of(alloc, table.decisions(), parts)?;
        Ok(WantedTable { table, lists })
    }

    /// The table of the decisions.
    pub fn table(&self) -> &TxnTable
        ensures { result.now ≡ self.now.0 }
    {
        &self.table
    }

    /// For each part the closes that the decisions want there, if they were found.
    pub(crate) fn lists(&self) -> Option<&[Vec<Close>]>
        ensures { option_copied result ≡ self.now.1 }
    {
        match &self.lists {
            None => None,
            Some(lists) => Some(lists.as_slice()),
        }
    }
}
