//! Whether an application's outputs are exact, told by their claims as numbers.

ghost use Rattle.std.specs.Prelude.{◌≡◌, ◌+◌, ◌<◌, ◌++◌, ◌∷◌, [], ℕ, List, Some, map, flat_map, length, slice_index_or, IfSome};
ghost use Rattle.std.specs.List.{sum};
ghost use Rattle.eos_base.specs.declared.partition_name.PartitionName.{PartitionName};
ghost use Rattle.eos_claims.specs.Outputs.{Application, ReadsSources};
ghost use Rattle.eos_fold.specs.declared.item.Item.{Item};
ghost use Rattle.eos_commits.specs.Applications.{inputs_below};
ghost use Rattle.eos_lineage.specs.declared.shares.Share.{Share};
ghost use Rattle.eos_lineage.specs.steps.Shares.{untaken, inputs_between, IsCounted, AddUp};
ghost use Rattle.eos_lineage.specs.steps.Keys.{place_among, steps, keys_for, below_at, plain_left, AreBooks, HasTaken};
ghost use Rattle.eos_lineage.specs.steps.Walks.{output_claims, IsOutputsAnswer};

use crate::application::Tally;
use crate::books::Books;
use crate::claims::Output;
use crate::keys::{Keys, keys_of};
use crate::shares::{Share, cut_shares};
use crate::sorting::sorted;
use eos_base::{Workers, is_below};
use eos_commits::is_visible;
use eos_fold::Fate;
use eos_kept::{KeptBatch, Part};
use std::alloc::Global;
use std::thread;
use std::thread::Threads;

/// The keys that are left, and how many inputs were taken whose keys stood before them.
#[derive(Clone, Copy)]
struct Left<'k> {
    keys: &'k [u64],
    inputs: u64,
}

/// What threads walk over: the shares, with the books beside them.
#[derive(Clone, Copy)]
struct Ground<'n, 's, 'o, 'p, 'l, 'k, 'g, 'a> {
    books: Books<'n, 's, 'o, 'p, 'l, 'a>,
    shares: &'g [Share<'k>],
}

/// What follows so many keys, where each of them is the one before it with the next output's number.
fn after_steps<'k>(keys: &'k [u64], first: u64, count: u64) -> Option<&'k [u64]>
    ensures { IfSome result (λ rest. keys.entry.now ≡ steps (first + 1024) count ++ rest.now) }
{
    let mut left = keys;
    let mut last = first;
    for _step in 0..count {
        let (key, rest) = left.split_first()?;
        if *key < 1024 || *key - 1024 != last {
            return None;
        }
        last = *key;
        left = rest;
    }
    Some(left)
}

/// What follows the keys of the input with this spot, where all of them stand first, each once.
fn after_input<'k>(keys: &'k [u64], spot: u64) -> Option<&'k [u64]>
    ensures { IfSome result (λ rest. (n : ℕ) × (n < 1024) × (keys.entry.now ≡ keys_for spot n ++ rest.now)) }
{
    let (first, rest) = keys.split_first()?;
    let output = *first / 1024 % 1024;
    let of = *first % 1024;
    if *first / 1024 / 1024 != spot {
        return None;
    }
    if of > 0 && output == 1 {
        return after_steps(rest, *first, of - 1);
    }
    if of == 0 && output == 0 {
        Some(rest)
    } else {
        None
    }
}

/// Takes the input at this offset of the partition at this place.
fn take_input<'k>(left: Left<'k>, place: usize, offset: u64) -> Option<Left<'k>>
    ensures { (ns : List PartitionName) (n : PartitionName) → place ≡ place_among ns n → IfSome result (λ after. HasTaken ns (plain_left left.entry) (plain_left after) (record { partition = n; offset = offset } ∷ [])) }
{
    if place >= 4096 || offset >= 4294967296 {
        return None;
    }
    let keys = after_input(left.keys, place as u64 * 4294967296 + offset)?;
    let inputs = left.inputs.checked_add(1)?;
    Some(Left { keys, inputs })
}

/// Takes the record of this fate and offset, if it is visible and below the committed one.
fn take_record<'k>(
    left: Left<'k>,
    place: usize,
    committed: &i64,
    fate: Fate,
    offset: u64,
) -> Option<Left<'k>>
    ensures { (ns : List PartitionName) (n : PartitionName) (item : Item) → place ≡ place_among ns n → fate ≡ item.fate → offset ≡ item.offset
        → IfSome result (λ after. HasTaken ns (plain_left left.entry) (plain_left after) (below_at committed.now n item)) }
{
    if is_visible(fate) && is_below(offset, *committed) {
        take_input(left, place, offset)
    } else {
        Some(left)
    }
}

/// Takes the visible records of a batch that are below the offset.
fn take_batch<'k>(
    before: Left<'k>,
    place: usize,
    committed: &i64,
    batch: &KeptBatch<'_>,
) -> Option<Left<'k>>
    ensures { (ns : List PartitionName) (n : PartitionName) → place ≡ place_among ns n → IfSome result (λ after. HasTaken ns (plain_left before.entry) (plain_left after) (flat_map (below_at committed.now n) batch.now)) }
{
    let mut left = before;
    for i in 0..batch.len() {
        let look = batch.look(i);
        left = take_record(left, place, committed, look.fate, look.offset)?;
    }
    Some(left)
}

/// Takes the visible records of a log that are below the offset.
fn take_log<'k>(before: Left<'k>, place: usize, committed: &i64, part: &Part) -> Option<Left<'k>>
    ensures { (ns : List PartitionName) (n : PartitionName) → place ≡ place_among ns n → IfSome result (λ after. HasTaken ns (plain_left before.entry) (plain_left after) (flat_map (below_at committed.now n) part.now.items)) }
{
    let mut left = before;
    let mut batches = part.items().batches();
    while let Some(batch) = batches.next() {
        left = take_batch(left, place, committed, &batch)?;
    }
    Some(left)
}

/// Takes the inputs below their committed offsets of a share's partitions.
fn take_logs<'k>(share: &Share<'k>, books: &Books<'_, '_, '_, '_, '_, '_>) -> Option<Left<'k>>
    ensures { (a : Application) → AreBooks a books.now → IfSome result (λ after. HasTaken books.now.names.now (untaken share.now) (plain_left after) (inputs_between a books.now share.now.from share.now.until)) }
{
    let mut left = Left {
        keys: share.keys,
        inputs: 0,
    };
    for i in share.from..share.until {
        let part = books.parts.get(i)?;
        if books.sources.has(part.topic().as_slice()) {
            let committed = books.offsets.get(i)?;
            left = take_log(left, i, committed, part)?;
        }
    }
    Some(left)
}

/// The number of inputs below their committed offsets in the partitions of the share at this place, if its keys are those of
/// their claims.
fn count_at(ground: &Ground<'_, '_, '_, '_, '_, '_, '_, '_>, i: usize) -> Option<u64>
    requires { i < length ground.now.shares.now }
    ensures { (a : Application) (d : Share) → AreBooks a ground.now.books → IfSome result (IsCounted a ground.now.books (slice_index_or ground.now.shares.now i d)) }
{
    let left = take_logs(&ground.shares[i], &ground.books)?;
    if left.keys.is_empty() {
        Some(left.inputs)
    } else {
        None
    }
}

/// The sum of both, where the count is there.
fn added(total: u64, count: &Option<u64>) -> Option<u64>
    ensures { IfSome result (λ sum. (n : ℕ) × (count.now ≡ Some n) × (sum ≡ total + n)) }
{
    total.checked_add((*count)?)
}

/// The sum of counts, where all of them are there.
fn sum_of(counts: &[Option<u64>]) -> Option<u64>
    ensures { IfSome result (λ total. (ns : List ℕ) × (counts.now ≡ map Some ns) × (total ≡ sum ns)) }
{
    let mut total = 0u64;
    for i in 0..counts.len() {
        total = added(total, &counts[i])?;
    }
    Some(total)
}

/// The number of inputs below their committed offsets in all shares, if the keys of each are those of their claims. A thread is
/// asked for for each share but one.
fn count_shares<R: Threads + Sync>(
    alloc: Global,
    rt: &R,
    books: &Books<'_, '_, '_, '_, '_, '_>,
    shares: &[Share<'_>],
) -> Option<u64>
    ensures { (a : Application) → AreBooks a books.now → IfSome result (AddUp a books.now shares.now) }
{
    let ground = Ground {
        books: *books,
        shares,
    };
    match thread::map_indices(rt, alloc, shares.len(), &|i| { count_at(&ground, i) }) {
        Ok(counts) => sum_of(counts.as_slice()),
        Err(_) => None,
    }
}

/// The number of inputs below their committed offsets, if the keys, which are in order, are those of their claims. They are
/// counted by so many threads at most, of which the caller's is one.
fn count_inputs<R: Threads + Sync>(
    alloc: Global,
    rt: &R,
    workers: Workers,
    keys: &[u64],
    books: &Books<'_, '_, '_, '_, '_, '_>,
) -> Option<u64>
    ensures { (a : Application) → AreBooks a books.now → IfSome result (λ n. HasTaken books.now.names.now (record { keys = keys.now; inputs = 0 }) (record { keys = []; inputs = n }) (inputs_below a)) }
{
    match cut_shares(alloc, workers, books.parts.len(), keys) {
        Ok(shares) => count_shares(alloc, rt, books, shares.as_slice()),
        Err(_) => None,
    }
}

/// The counts of an application whose outputs are exact. None says nothing: a claim may have greater numbers than the keys have
/// bits for, or memory may be short.
pub(crate) fn exact_tally<'a, R: Threads + Sync>(
    alloc: Global,
    rt: &R,
    workers: Workers,
    books: &Books<'_, '_, '_, '_, '_, 'a>,
    outputs: &[Output<'a>],
) -> Option<Tally>
    ensures { (a : Application) → AreBooks a books.now → ReadsSources a → a.claims ≡ flat_map output_claims outputs.now
        → IfSome result (λ t. IsOutputsAnswer a t.fault t.inputs t.outputs) }
{
    let Keys { keys, outputs } = keys_of(alloc, rt, workers, books, outputs)?;
    let keys = sorted(rt, workers, keys);
    let inputs = count_inputs(alloc, rt, workers, keys.as_slice(), books)?;
    Some(Tally {
        fault: None,
        inputs,
        outputs,
    })
}
