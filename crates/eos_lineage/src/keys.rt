//! The claims of an application's output topics as numbers, which sort fast and take eight bytes each.
//!
//! A number has 12 bits for the place of the source's partition among the names, 32 for the offset, and 10 each for the
//! output's number and the count.

ghost use Rattle.std.specs.Prelude.{◌≡◌, ◌≤◌, ◌<◌, ◌+◌, ◌*◌, ◌&&◌, ◌==◌, not, ◌∷◌, [], ℕ, List, flat_map, length, take, drop, IfSome};
ghost use Rattle.eos_base.specs.declared.partition_name.PartitionName.{PartitionName};
ghost use Rattle.eos_claims.specs.Outputs.{Application, PlacedClaim};
ghost use Rattle.eos_fold.specs.declared.item.Item.{Item};
ghost use Rattle.eos_kept.specs.Looks.{IsLook};
ghost use Rattle.eos_lineage.specs.steps.Keys.{key_at, plain_keys, no_keys, IsJoined, AreBooks, HasKeyed, EachKeyed, in_turn};
ghost use Rattle.eos_lineage.specs.steps.Walks.{one_if, plain_placed, claim_at, output_claims};

use crate::books::Books;
use crate::claims::{Output, PlacedRef, placed_of};
use crate::passes::PassMarks;
use eos_base::{PartitionName, Workers};
use eos_claims::{ClaimRef, SourceRef};
use eos_commits::NameMarks;
use eos_kept::{KeptBatch, Look};
use std::alloc::Global;
use std::thread;
use std::thread::Threads;

/// Claims as numbers, and how many of them are no notes.
#[derive(Drop)]
pub(crate) struct Keys {
    pub(crate) keys: Vec<u64>,
    pub(crate) outputs: u64,
}

/// Where the last look-ups ended. The answers don't depend on these numbers.
#[derive(Clone, Copy)]
struct Marks {
    name: NameMarks,
    pass: PassMarks,
}

/// What threads walk over: the partitions, with the books beside them.
#[derive(Clone, Copy)]
struct Ground<'n, 's, 'o, 'p, 'l, 'g, 'a> {
    books: Books<'n, 's, 'o, 'p, 'l, 'a>,
    outputs: &'g [Output<'a>],
}

/// The number of a claim whose source's partition stands at this place, if it has the bits.
fn key_of(place: usize, claim: &ClaimRef<'_>) -> Option<u64>
    ensures is { IfSome result (λ key. key ≡ key_at (place * 4294967296 + claim.now.offset) claim.now.output claim.now.of) }
    ensures fits { IfSome result (λ key. (claim.now.offset < 4294967296) × (claim.now.output < 1024) × (claim.now.of < 1024)) }
{
    if place >= 4096 || claim.offset >= 4294967296 || claim.output >= 1024 || claim.of >= 1024 {
        return None;
    }
    let spot = place as u64 * 4294967296 + claim.offset;
    Some((spot * 1024 + claim.output as u64) * 1024 + claim.of as u64)
}

/// One more where the claim is no note.
fn counted(outputs: u64, claim: &ClaimRef<'_>) -> Option<u64>
    ensures { IfSome result (λ n. n ≡ outputs + one_if (not ((claim.now.output == 0) && (claim.now.of == 0)))) }
{
    if claim.output == 0 && claim.of == 0 {
        Some(outputs)
    } else {
        outputs.checked_add(1)
    }
}

/// Takes a claim, if its numbers have the bits and its transaction committed past its source.
fn take_claim(
    keys: &mut Keys,
    books: &Books<'_, '_, '_, '_, '_, '_>,
    marks: &mut Marks,
    placed: &PlacedRef<'_>,
) -> Option<()>
    ensures { (a : Application) → AreBooks a books.now → IfSome result (λ done. HasKeyed a books.now.names.now (plain_keys keys.old) (plain_keys keys.new) (plain_placed placed.now ∷ [])) }
{
    let claim = &placed.claim;
    let place = books
        .names
        .index_near(&mut marks.name, claim.topic, claim.partition)?;
    let key = key_of(place, claim)?;
    let source = SourceRef {
        topic: claim.topic,
        partition: claim.partition,
        offset: claim.offset,
    };
    if !books
        .passes
        .is_passed(&mut marks.pass, placed.writer, &source)
    {
        return None;
    }
    keys.outputs = counted(keys.outputs, claim)?;
    match keys.keys.push(key) {
        Ok(()) => Some(()),
        Err(_) => None,
    }
}

/// Takes the claim of a record, if it is visible and one.
fn take_look<'a>(
    keys: &mut Keys,
    books: &Books<'_, '_, '_, '_, '_, 'a>,
    marks: &mut Marks,
    name: &'a PartitionName,
    look: &Look<'a>,
) -> Option<()>
    ensures { (a : Application) (item : Item) → AreBooks a books.now → IsLook item look.now
        → IfSome result (λ done. HasKeyed a books.now.names.now (plain_keys keys.old) (plain_keys keys.new) (claim_at name.now item)) }
{
    match placed_of(name, look) {
        None => Some(()),
        Some(placed) => take_claim(keys, books, marks, &placed),
    }
}

/// Takes the claims of a batch.
fn take_batch<'a>(
    keys: &mut Keys,
    books: &Books<'_, '_, '_, '_, '_, 'a>,
    marks: &mut Marks,
    name: &'a PartitionName,
    batch: &KeptBatch<'a>,
) -> Option<()>
    ensures { (a : Application) → AreBooks a books.now → IfSome result (λ done. HasKeyed a books.now.names.now (plain_keys keys.old) (plain_keys keys.new) (flat_map (claim_at name.now) batch.now)) }
{
    for i in 0..batch.len() {
        take_look(keys, books, marks, name, &batch.look(i))?;
    }
    Some(())
}

/// Takes the claims of a partition.
fn take_part<'a>(
    keys: &mut Keys,
    books: &Books<'_, '_, '_, '_, '_, 'a>,
    output: &Output<'a>,
) -> Option<()>
    ensures { (a : Application) → AreBooks a books.now → IfSome result (λ done. HasKeyed a books.now.names.now (plain_keys keys.old) (plain_keys keys.new) (output_claims output.now)) }
{
    let mut marks = Marks {
        name: NameMarks::new(),
        pass: PassMarks::new(),
    };
    let mut batches = output.part.items().batches();
    while let Some(batch) = batches.next() {
        take_batch(keys, books, &mut marks, output.name, &batch)?;
    }
    Some(())
}

/// Takes the claims of the first of these partitions, at most so many of them.
fn take_first<'a>(
    alloc: Global,
    books: &Books<'_, '_, '_, '_, '_, 'a>,
    outputs: &[Output<'a>],
    most: usize,
) -> Option<Keys>
    ensures { (a : Application) → AreBooks a books.now → IfSome result (λ keys. HasKeyed a books.now.names.now no_keys (plain_keys keys) (flat_map output_claims (take most outputs.now))) }
{
    let mut keys = Keys {
        keys: Vec::new(alloc),
        outputs: 0,
    };
    for i in 0..most.min(outputs.len()) {
        take_part(&mut keys, books, &outputs[i])?;
    }
    Some(keys)
}

/// Takes the claims of a chunk of the partitions, which are cut into chunks of this size.
fn take_chunk(
    alloc: Global,
    ground: &Ground<'_, '_, '_, '_, '_, '_, '_>,
    size: usize,
    chunk: usize,
) -> Option<Keys>
    requires { chunk * size ≤ length ground.now.outputs.now }
    ensures { (a : Application) → AreBooks a ground.now.books → IfSome result (λ keys. HasKeyed a ground.now.books.names.now no_keys (plain_keys keys) (flat_map output_claims (take size (drop (chunk * size) ground.now.outputs.now)))) }
{
    let (_, outputs) = ground.outputs.split_at(chunk * size);
    take_first(alloc, &ground.books, outputs, size)
}

/// Puts keys at the end of others, where they are there.
fn join_two(keys: &mut Keys, next: Option<Keys>) -> Option<()>
    ensures { IfSome result (λ done. IsJoined (plain_keys keys.old) next (plain_keys keys.new)) }
{
    let Keys {
        keys: mut more,
        outputs,
    } = next?;
    keys.outputs = keys.outputs.checked_add(outputs)?;
    if keys.keys.is_empty() {
        keys.keys = more;
        return Some(());
    }
    keys.keys.append(&mut more).ok()
}

/// The keys one after the other, where all of them are there.
fn join_keys(alloc: Global, chunks: Vec<Option<Keys>>) -> Option<Keys>
    ensures { (a : Application) (ns : List PartitionName) (claims : ℕ → List PlacedClaim) → EachKeyed a ns claims chunks.items
        → IfSome result (λ keys. HasKeyed a ns no_keys (plain_keys keys) (in_turn claims (length chunks.items))) }
{
    let mut all = Keys {
        keys: Vec::new(alloc),
        outputs: 0,
    };
    for keys in chunks {
        join_two(&mut all, keys)?;
    }
    Some(all)
}

/// The claims of these partitions, in their order: none where one of them wants more bits, or its transaction did not commit
/// past its source, or memory ran out. They are read by so many threads at most, of which the caller's is one.
pub(crate) fn keys_of<'a, R: Threads + Sync>(
    alloc: Global,
    rt: &R,
    workers: Workers,
    books: &Books<'_, '_, '_, '_, '_, 'a>,
    outputs: &[Output<'a>],
) -> Option<Keys>
    ensures { (a : Application) → AreBooks a books.now → IfSome result (λ keys. HasKeyed a books.now.names.now no_keys (plain_keys keys) (flat_map output_claims outputs.now)) }
{
    let ground = Ground {
        books: *books,
        outputs,
    };
    let last = outputs.len().saturating_sub(1);
    let threads = workers.get() as usize;
    let size = last / threads + 1;
    match thread::map_indices(
        rt,
        alloc,
        last / size + 1,
        &|chunk| { take_chunk(alloc, &ground, size, chunk) },
    ) {
        Ok(chunks) => join_keys(alloc, chunks),
        Err(_) => None,
    }
}
