//! The outputs of one application: the least fault, and what is counted.

ghost use Rattle.std.specs.Prelude.{◌≡◌, ◌≤◌, map, flat_map, filter, length, fold, option_map, IfOk, IsSorted};
ghost use Rattle.eos_base.specs.Least.{lesser_of};
ghost use Rattle.eos_claims.specs.Outputs.{Application, ReadsSources};
ghost use Rattle.eos_claims.specs.Faults.{fault_cmp};
ghost use Rattle.eos_claims.specs.Candidates.{AreApart, unclaimed};
ghost use Rattle.eos_claims.specs.Plain.{plain_place, plain_source, plain_fault, plain_claim};
ghost use Rattle.eos_commits.specs.Applications.{inputs_below};
ghost use Rattle.eos_lineage.specs.steps.Walks.{one_if, AreTables, AreNamed, by_source, is_named, output_claims, is_no_note, IsOutputsAnswer};

use crate::claims::{Output, take_outputs};
use crate::sorting::sorted;
use crate::tables::{Tables, is_committed};
use bytes::Bytes;
use eos_base::{PartitionName, Workers};
use eos_claims::{
    Found, NumberedClaim, OutputFault, Place, PlaceRef, SourceRef, least_of_input,
    least_of_neighbours, source_at,
};
use std::alloc::{AllocError, Global};
use std::thread::Threads;

/// What was found of an application's outputs: the least fault, the number of inputs below their committed offsets, and
/// of claims of these that are no notes.
#[derive(Drop)]
pub(crate) struct Tally {
    pub(crate) fault: Option<OutputFault>,
    pub(crate) inputs: u64,
    pub(crate) outputs: u64,
}

/// The number of claims that are no notes.
fn count_outputs(claims: &[NumberedClaim<'_>]) -> u64
    ensures { result ≡ length (filter is_no_note (map plain_claim claims.now)) }
{
    let mut count = 0u64;
    for claim in claims {
        if claim.output > 0 || claim.of > 0 {
            count += 1;
        }
    }
    count
}

/// Whether one of the claims, which are in order, is of the input: a binary search.
fn is_claimed<'a>(claims: &[NumberedClaim<'a>], input: &PlaceRef<'a>) -> bool
    ensures { IsSorted by_source claims.now → result ≡ is_named claims.now (plain_place input.now) }
{
    claims
        .binary_search_by_key(input, |claim| claim.source)
        .is_ok()
}

fn one_where(test: bool) -> u64
    ensures one { result ≡ one_if test }
    ensures most { result ≤ 1 }
{
    if test { 1 } else { 0 }
}

/// The lesser of the least so far and what inputs show, and the number of inputs below their committed offsets.
fn take_inputs<'a>(
    tables: &Tables<'_, '_, '_, '_, '_, 'a>,
    claims: &[NumberedClaim<'a>],
    first: Option<Found<'a>>,
) -> (Option<Found<'a>>, u64)
    ensures best { (a : Application) → AreTables a tables.entry.now → AreNamed a claims.now
        → option_map plain_fault result.0 ≡ fold (lesser_of fault_cmp) (option_map plain_fault first.entry) (flat_map (unclaimed a) a.inputs) }
    ensures count { (a : Application) → AreTables a tables.entry.now → result.1 ≡ length (inputs_below a) }
{
    let mut best = first;
    let mut count = 0u64;
    for input in tables.inputs {
        let committed = is_committed(tables, input);
        let claimed = is_claimed(claims, input);
        best = least_of_input(best, *input, committed, claimed);
        count += one_where(committed);
    }
    (best, count)
}

/// The source with a name of its own.
fn own_source(alloc: Global, source: &SourceRef<'_>) -> Result<Place, AllocError>
    ensures { IfOk result (λ p. p ≡ plain_source source.now) }
{
    Ok(Place {
        partition: PartitionName {
            topic: Bytes::copy_from_slice(alloc, source.topic)?,
            partition: source.partition,
        },
        offset: source.offset,
    })
}

fn own_place_if(alloc: Global, place: &Option<PlaceRef<'_>>) -> Result<Option<Place>, AllocError>
    ensures { IfOk result (λ p. p ≡ option_map plain_place place.now) }
{
    match place {
        None => Ok(None),
        Some(place) => Ok(Some(own_source(alloc, &source_at(*place))?)),
    }
}

/// The fault with names of its own.
fn published(alloc: Global, found: Option<Found<'_>>) -> Result<Option<OutputFault>, AllocError>
    ensures { IfOk result (λ o. o ≡ option_map plain_fault found.entry) }
{
    let Some(found) = found else {
        return Ok(None);
    };
    let source = own_source(alloc, &found.source)?;
    let at = own_place_if(alloc, &found.at)?;
    Ok(Some(OutputFault {
        source,
        output: found.output,
        kind: found.kind,
        at,
    }))
}

/// Of an application with these tables and these partitions of its output topics, by so many threads at most.
pub(crate) fn make_tally<'a, R: Threads + Sync>(
    alloc: Global,
    rt: &R,
    workers: Workers,
    tables: &Tables<'_, '_, '_, '_, '_, 'a>,
    outputs: &[Output<'a>],
) -> Result<Tally, AllocError>
    ensures { (a : Application) → AreTables a tables.now → ReadsSources a → AreApart a → a.claims ≡ flat_map output_claims outputs.now
        → IfOk result (λ t. IsOutputsAnswer a t.fault t.inputs t.outputs) }
{
    let walk = take_outputs(alloc, tables, outputs)?;
    let outputs = count_outputs(walk.below.as_slice());
    let below = sorted(rt, workers, walk.below);
    let best = least_of_neighbours(walk.best, below.as_slice());
    let (best, inputs) = take_inputs(tables, below.as_slice(), best);
    let fault = published(alloc, best)?;
    Ok(Tally {
        fault,
        inputs,
        outputs,
    })
}
