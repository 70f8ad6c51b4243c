//! The faults between decisions and logs: the least of a shard, or all.

ghost use Rattle.std.specs.Prelude.{◌≡◌, ◌<◌, ◌++◌, fold, OnOk, IfOk};
ghost use Rattle.std.specs.List.{flat_map};
ghost use Rattle.eos_table.specs.TransactionLog.{transaction_parts, decisions_of};
ghost use Rattle.eos_table.specs.MatchFaults.{fault_cmp, Stands};
ghost use Rattle.eos_table.specs.Shards.{IsAnswer};
ghost use Rattle.eos_base.specs.AllOf.{IsAllOf};
ghost use Rattle.eos_table.specs.steps.KeptFaults.{none_kept};
ghost use Rattle.eos_table.specs.steps.Shown.{found, decisions_at, closes_at, markers_at, names_at, gathered_in};

use crate::MatchFault;
use crate::decided::deciders_of;
use crate::kept_faults::KeptFaults;
use crate::key::{ended_keys, listed_keys, marked_keys, name_keys};
use crate::one_shard::Shard;
use crate::places::{MatchFaults, push_closes, push_decisions, push_markers, push_names};
use crate::shared::SharedDecision;
use crate::table::TxnTable;
use crate::transaction_log::decisions_in;
use eos_base::distinct_in_order;
use eos_kept::Part;
use std::alloc::{AllocError, Global};

/// What the decisions and their data show.
fn push_by_decision(
    alloc: Global,
    faults: &mut MatchFaults,
    decisions: &[SharedDecision],
    parts: &[Part],
    shard: Shard,
) -> Result<(), AllocError>
    ensures { OnOk result (faults.new ≡ fold found faults.old (decisions_at shard.of shard.number decisions.now ++ closes_at shard.of shard.number decisions.now parts.now)) }
{
    let deciders = deciders_of(alloc, decisions, shard)?;
    push_decisions(faults, &deciders, decisions, shard)?;
    let listed = listed_keys(alloc, decisions, shard)?;
    push_closes(faults, &deciders, &listed, parts, shard)
}

/// What the end markers show.
fn push_by_marker(
    alloc: Global,
    faults: &mut MatchFaults,
    decisions: &[SharedDecision],
    parts: &[Part],
    shard: Shard,
) -> Result<(), AllocError>
    ensures { OnOk result (faults.new ≡ fold found faults.old (markers_at shard.of shard.number decisions.now parts.now)) }
{
    let wanted = ended_keys(alloc, decisions, shard)?;
    push_markers(faults, &wanted, parts, shard)
}

/// What the partitions that decisions list show.
fn push_by_name(
    alloc: Global,
    faults: &mut MatchFaults,
    decisions: &[SharedDecision],
    parts: &[Part],
    shard: Shard,
) -> Result<(), AllocError>
    ensures { OnOk result (faults.new ≡ fold found faults.old (names_at shard.of shard.number decisions.now parts.now)) }
{
    let there = name_keys(alloc, parts)?;
    let marked = marked_keys(alloc, parts, shard)?;
    push_names(faults, &there, &marked, decisions, shard)
}

/// The faults of a shard, of which all are kept, one perhaps more than once, or the least.
fn faults_of(
    alloc: Global,
    decisions: &[SharedDecision],
    parts: &[Part],
    shard: Shard,
    keeps_all: bool,
) -> Result<MatchFaults, AllocError>
    ensures { IfOk result (λ faults. faults ≡ fold found (none_kept keeps_all) (gathered_in shard.of shard.number decisions.now parts.now)) }
{
    let mut faults = KeptFaults::new(alloc, keeps_all);
    push_by_decision(alloc, &mut faults, decisions, parts, shard)?;
    push_by_marker(alloc, &mut faults, decisions, parts, shard)?;
    push_by_name(alloc, &mut faults, decisions, parts, shard)?;
    Ok(faults)
}

/// The least fault between the decisions and the partitions' logs among the producer ids of one shard, those whose
/// remainder by `shards` (never negative) is `shard`; `None` where none stands there.
///
/// The parts may stand in any order. The least over all shards is the least of all.
///
/// # Errors
/// Only want of memory.
pub fn match_shard(
    alloc: Global,
    table: &TxnTable,
    parts: &[Part],
    shard: u32,
    shards: u32,
) -> Result<Option<MatchFault>, AllocError>
    requires { shard < shards }
    ensures { IfOk result (λ o. IsAnswer table.now parts.now shards shard o) }
{
    let shard = Shard::new(shard, shards);
    let faults = faults_of(alloc, table.decisions(), parts, shard, false)?;
    Ok(faults.into_least())
}

/// Every fault between the decisions of the transaction log and the partitions' logs that stands, in the order in which the
/// least of them counts, each once. None where every transaction is committed in all its partitions or aborted in all.
///
/// The parts are those of all topics, in any order, with faults of their own or without. The decisions are those of the log
/// also where it breaks its own rule. The work is that of reading the log and of sorting what decisions list, the end
/// markers and the faults; the memory is theirs.
///
/// # Errors
/// Only want of memory.
pub fn all_match_faults(alloc: Global, parts: &[Part]) -> Result<Vec<MatchFault>, AllocError>
    ensures { let ds = decisions_of (transaction_parts parts.now) in IfOk result (λ faults. IsAllOf fault_cmp (Stands ds parts.now) faults.items) }
{
    let decisions = decisions_in(alloc, parts)?;
    let faults = faults_of(alloc, decisions.as_slice(), parts, Shard::only(), true)?;
    Ok(distinct_in_order(faults.into_all()))
}
