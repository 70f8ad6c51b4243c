//! The quick walk of the matching: a comparison of numbers in order, which finds that nothing is wrong or says nothing.

ghost use Rattle.std.specs.Prelude.{◌≡◌, ◌<◌, ℕ, true, length, IfOk};
ghost use Rattle.eos_base.specs.Least.{NoneStands};
ghost use Rattle.eos_table.specs.MatchFaults.{Stands};
ghost use Rattle.eos_table.specs.Wanted.{IsWantedOf};
ghost use Rattle.eos_table.specs.steps.Wanted.{IsOnce, IsMine, AgreesAt, AgreeAt, IsGood};

use crate::agree::agrees;
use crate::key::decided_keys;
use crate::look::are_apart;
use crate::one_shard::Shard;
use crate::owners::owners_of;
use crate::shared::SharedDecision;
use crate::wanted::WantedTable;
use eos_base::{Sorted, Workers, are_all};
use eos_fold::Close;
use eos_kept::Part;
use std::alloc::{AllocError, Global};
use std::thread;
use std::thread::Threads;

/// What threads walk over: the decisions, and for each part the closes that they want there, and which thread looks at it.
#[derive(Clone, Copy)]
struct Ground<'d, 'p, 'l, 'o> {
    decisions: &'d [SharedDecision],
    parts: &'p [Part],
    lists: &'l [Vec<Close>],
    owners: &'o [usize],
}

/// Whether no two decisions of the shard have one producer id and epoch.
fn is_once(alloc: Global, decisions: &[SharedDecision], shard: Shard) -> Result<bool, AllocError>
    ensures { IfOk result (λ yes. yes ≡ true → IsOnce shard.of shard.number decisions.now) }
{
    let pairs = decided_keys(alloc, decisions, shard)?;
    let keys = Sorted::of(pairs);
    Ok(are_apart(keys.as_slice()))
}

/// Whether the part at this place is of the thread with this rest after a division of its owner's number by the number of threads, or
/// has no owner.
fn is_mine(owners: &[usize], threads: usize, rest: usize, i: usize) -> bool
    requires { 0 < threads }
    ensures { IsMine threads rest owners.now i → result ≡ true }
{
    i >= owners.len() || owners[i] % threads == rest
}

/// Whether the log of the part at this place is as is wanted there, or the part is another thread's.
fn agrees_at(
    alloc: Global,
    ground: &Ground<'_, '_, '_, '_>,
    threads: usize,
    rest: usize,
    i: usize,
) -> Result<bool, AllocError>
    requires { (0 < threads) × (i < length ground.now.parts.now) }
    ensures { IfOk result (λ yes. yes ≡ true → IsMine threads rest ground.now.owners.now i → AgreesAt ground.now.lists.now ground.now.parts.now i) }
{
    if !is_mine(ground.owners, threads, rest, i) {
        return Ok(true);
    }
    if i >= ground.lists.len() {
        return Ok(false);
    }
    let agree = agrees(alloc, ground.lists[i].as_slice(), &ground.parts[i])?;
    Ok(agree)
}

/// Whether the logs of all of a thread's parts are as is wanted there.
fn agree_at(
    alloc: Global,
    ground: &Ground<'_, '_, '_, '_>,
    threads: usize,
    rest: usize,
) -> Result<bool, AllocError>
    requires { 0 < threads }
    ensures { IfOk result (λ yes. yes ≡ true → AgreeAt threads rest ground.now.owners.now ground.now.lists.now ground.now.parts.now) }
{
    for i in 0..ground.parts.len() {
        let agree = agrees_at(alloc, ground, threads, rest, i)?;
        if !agree {
            return Ok(false);
        }
    }
    Ok(true)
}

/// What one thread looks at: the decisions of its shard, and its parts.
fn is_good(
    alloc: Global,
    ground: &Ground<'_, '_, '_, '_>,
    threads: u32,
    rest: u32,
) -> Result<bool, AllocError>
    requires { rest < threads }
    ensures { IfOk result (λ yes. yes ≡ true → IsGood threads rest ground.now.decisions.now ground.now.owners.now ground.now.lists.now ground.now.parts.now) }
{
    let once = is_once(alloc, ground.decisions, Shard::new(rest, threads))?;
    if !once {
        return Ok(false);
    }
    let agree = agree_at(alloc, ground, threads as usize, rest as usize)?;
    Ok(agree)
}

/// The same; no where memory is short.
fn answer_at(alloc: Global, ground: &Ground<'_, '_, '_, '_>, threads: u32, rest: u32) -> bool
    requires { rest < threads }
    ensures { result ≡ true → IsGood threads rest ground.now.decisions.now ground.now.owners.now ground.now.lists.now ground.now.parts.now }
{
    match is_good(alloc, ground, threads, rest) {
        Ok(good) => good,
        Err(_) => false,
    }
}

fn are_good<R: Threads + Sync>(
    alloc: Global,
    rt: &R,
    workers: Workers,
    ground: &Ground<'_, '_, '_, '_>,
) -> Result<bool, AllocError>
    ensures { IfOk result (λ yes. yes ≡ true → (threads : ℕ) × (0 < threads) × ((rest : ℕ) → rest < threads
        → IsGood threads rest ground.now.decisions.now ground.now.owners.now ground.now.lists.now ground.now.parts.now)) }
{
    let threads = workers.get() as u32;
    let answers = thread::map_indices(
        rt,
        alloc,
        threads as usize,
        &|rest| { answer_at(alloc, ground, threads, rest as u32) },
    )?;
    Ok(are_all(answers.as_slice()))
}

/// Whether the decisions and the partitions' logs agree, found by so many threads at most, of which the caller's is one.
///
/// Yes says that no fault stands between them. No says nothing, and `match_shard` has to answer: there may be a fault, or the parts
/// don't stand by name.
///
/// # Errors
/// Only want of memory.
pub fn are_matched<R: Threads + Sync>(
    alloc: Global,
    rt: &R,
    workers: Workers,
    wanted: &WantedTable,
    parts: &[Part],
) -> Result<bool, AllocError>
    requires { IsWantedOf parts.now wanted.now }
    ensures { IfOk result (λ yes. yes ≡ true → NoneStands (Stands wanted.now.0 parts.now)) }
{
    let Some(lists) = wanted.lists() else {
        return Ok(false);
    };
    let owners = owners_of(alloc, lists, workers.get() as usize)?;
    let ground = Ground {
        decisions: wanted.table().decisions(),
        parts,
        lists,
        owners: owners.as_slice(),
    };
    are_good(alloc, rt, workers, &ground)
}
