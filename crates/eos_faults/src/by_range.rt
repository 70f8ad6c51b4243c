//! The faults of one application's outputs, range by range of its sources, so that not all of its claims and inputs are held.

ghost use Rattle.std.specs.Prelude.{◌≡◌, ◌≤◌, ◌<◌, ◌+◌, length, List, IfOk, OnOk};
ghost use Rattle.eos_claims.specs.declared.fault.OutputFault.{OutputFault};
ghost use Rattle.eos_claims.specs.Outputs.{Application, ReadsSources};
ghost use Rattle.eos_faults.specs.steps.OutputFaultsGathered.{AreOutputFaults};
ghost use Rattle.eos_faults.specs.steps.Ranges.{AreFaultsWithin, is_within, restricted};
ghost use Rattle.eos_faults.specs.steps.Shares.{IsShareOf, TakesRanges};
ghost use Rattle.eos_faults.specs.steps.Tables.{AreBooks, AreTables};
ghost use Rattle.eos_faults.specs.steps.Taken.{group_in, named_faults};

use crate::by_source::faults_by_source;
use crate::crew::Crew;
use crate::lent::LentPlace;
use crate::ranges::{Range, bounds_of, range_at};
use crate::reading::{claims_of, inputs_of};
use crate::sink::FaultSink;
use crate::tables::{Books, Tables};
use eos_base::Sorted;
use std::alloc::{AllocError, Global};
use std::marker::Send;
use std::thread;
use std::thread::Threads;

/// What threads walk over: an application's books, and the places at which its ranges begin.
#[derive(Clone, Copy)]
struct Ground<'g, 'b, 'a> {
    alloc: Global,
    books: &'b Books<'a>,
    bounds: &'g [LentPlace<'a>],
}

/// The claims and inputs of a range of sources, beside the books.
fn tables_of<'b, 'a>(
    alloc: Global,
    books: &'b Books<'a>,
    range: &Range<'a>,
) -> Result<Tables<'b, 'a>, AllocError>
    ensures books { IfOk result (λ tables. tables.books.now ≡ books.now) }
    ensures tables { (a : Application) → AreBooks a books.now → IfOk result (AreTables (restricted (is_within range.now) a)) }
{
    let inputs = inputs_of(alloc, &books.sources, range, books.parts)?;
    let claims = claims_of(alloc, &books.outputs, range, books.parts)?;
    Ok(Tables {
        books,
        inputs: Sorted::of(inputs),
        claims: Sorted::of(claims),
    })
}

/// Hands on all faults of a range of sources, each once and in their order. In memory are its claims and inputs.
fn faults_within<'a, S: FaultSink>(
    alloc: Global,
    books: &Books<'a>,
    range: &Range<'a>,
    sink: &mut S,
) -> Result<(), AllocError>
    ensures { OnOk result ((list : List OutputFault) × S.takes sink.old (named_faults (group_in books.now) list) sink.new
        × ((a : Application) → ReadsSources a → AreBooks a books.now → AreFaultsWithin (is_within range.now) a list)) }
{
    let tables = tables_of(alloc, books, range)?;
    faults_by_source(alloc, &tables, sink)
}

/// Hands on all faults of the range of this number.
fn faults_at<S: FaultSink>(
    ground: &Ground<'_, '_, '_>,
    number: usize,
    sink: &mut S,
) -> Result<(), AllocError>
    requires { number ≤ length ground.now.bounds.now }
    ensures { OnOk result (TakesRanges S.takes ground.now.books.now ground.now.bounds.now number (number + 1) sink.old sink.new) }
{
    let range = range_at(ground.bounds, number);
    faults_within(ground.alloc, ground.books, &range, sink)
}

/// A share that took those of the range so many behind the first.
fn share_of<S: FaultSink>(
    ground: &Ground<'_, '_, '_>,
    first: usize,
    behind: usize,
) -> Result<S, AllocError>
    requires { first + behind ≤ length ground.now.bounds.now }
    ensures { IfOk result (IsShareOf S.takes S.is_share ground.now.books.now ground.now.bounds.now (first + behind)) }
{
    let mut share = S::share(ground.alloc);
    faults_at(ground, first + behind, &mut share)?;
    Ok(share)
}

/// Hands on what a share took, or where the sink wants each fault by itself, finds them once more.
fn take_share<S: FaultSink>(
    ground: &Ground<'_, '_, '_>,
    number: usize,
    share: S,
    sink: &mut S,
) -> Result<(), AllocError>
    requires number { number ≤ length ground.now.bounds.now }
    requires share { IsShareOf S.takes S.is_share ground.now.books.now ground.now.bounds.now number share }
    ensures { OnOk result (TakesRanges S.takes ground.now.books.now ground.now.bounds.now number (number + 1) sink.old sink.new) }
{
    let taken = sink.join(share)?;
    if taken {
        return Ok(());
    }
    faults_at(ground, number, sink)
}

/// Hands on all faults of so many ranges from this number on. A thread is asked for for each but one.
fn take_ranges<R: Threads + Sync, S: FaultSink + Send>(
    crew: &Crew<'_, R>,
    ground: &Ground<'_, '_, '_>,
    first: usize,
    count: usize,
    sink: &mut S,
) -> Result<(), AllocError>
    requires within { first + count ≤ length ground.now.bounds.now + 1 }
    requires fits { length ground.now.bounds.now < 18446744073709551615 }
    ensures { OnOk result (TakesRanges S.takes ground.now.books.now ground.now.bounds.now first (first + count) sink.old sink.new) }
{
    let shares = thread::map_indices(
        crew.rt,
        crew.alloc,
        count,
        &|i| { share_of(ground, first, i) },
    )?;
    let mut number = first;
    for share in shares {
        take_share(ground, number, share?, sink)?;
        number += 1;
    }
    Ok(())
}

/// Hands on all faults of the outputs of an application with these books, each once and in their order. Of the outputs that one
/// input lacks it has the first. In memory are the claims and inputs of one range of sources for each thread.
pub(crate) fn faults_by_range<'a, R: Threads + Sync, S: FaultSink + Send>(
    crew: &Crew<'_, R>,
    books: &Books<'a>,
    sink: &mut S,
) -> Result<(), AllocError>
    ensures { OnOk result ((list : List OutputFault) × S.takes sink.old (named_faults (group_in books.now) list) sink.new
        × ((a : Application) → ReadsSources a → AreBooks a books.now → AreOutputFaults a list)) }
{
    let bounds = bounds_of(crew.alloc, books, crew.workers)?;
    let ground = Ground {
        alloc: crew.alloc,
        books,
        bounds: bounds.as_slice(),
    };
    let ranges = ground.bounds.len().checked_add(1).ok_or(AllocError)?;
    let mut first = 0;
    while first < ranges {
        let count = (crew.workers.get() as usize).min(ranges - first);
        take_ranges(crew, &ground, first, count, sink)?;
        first += count;
    }
    Ok(())
}
