//! The walk over the claims of inputs below their committed offsets, in their order.

ghost use Rattle.std.specs.Prelude.{◌≡◌, ◌&&◌, not, ◌==◌, ◌+◌, nat_lt, option_map, fold, map, List, ◌∷◌};
ghost use Rattle.std.specs.Ordering.{is_eq, is_lt};
ghost use Rattle.eos_base.specs.Least.{lesser_of};
ghost use Rattle.eos_claims.specs.Candidates.{fault_at as claim_fault, missing as missing_fault, runs, runs_after, at_start as start_of, at_end as end_of, between as both_of, in_run as run_of};
ghost use Rattle.eos_claims.specs.Faults.{fault_cmp, place_cmp};
ghost use Rattle.eos_claims.specs.Plain.{plain_place, plain_fault, plain_claim};

use crate::fault::OutputKind;
use crate::found::{Found, with_tested};
use crate::place::{PlaceRef, source_at};

/// A claim without its writer. Claims are ordered by source, output number and place.
#[derive(Clone, Copy, PartialEq, Eq, PartialOrd, Ord)]
pub struct NumberedClaim<'a> {
    pub source: PlaceRef<'a>,
    pub output: u32,
    pub at: PlaceRef<'a>,
    pub of: u32,
}

/// The claim's fault of a kind.
fn fault_at<'a>(kind: OutputKind, claim: &NumberedClaim<'a>) -> Found<'a>
    ensures { plain_fault result ≡ claim_fault kind (plain_claim claim.entry.now) }
{
    Found {
        source: source_at(claim.source),
        output: claim.output,
        kind,
        at: Some(claim.at),
    }
}

/// An output of a claim's input that is missing.
fn missing<'a>(claim: &NumberedClaim<'a>, output: u32) -> Found<'a>
    ensures { plain_fault result ≡ missing_fault (plain_place claim.entry.now.source) output }
{
    Found {
        source: source_at(claim.source),
        output,
        kind: OutputKind::Missing,
        at: None,
    }
}

fn starts_late(claim: &NumberedClaim<'_>) -> bool
    ensures { result ≡ (nat_lt 1 claim.now.output && nat_lt 0 claim.now.of) }
{
    claim.output > 1 && claim.of > 0
}

fn leaves_gap(claim: &NumberedClaim<'_>, next: &NumberedClaim<'_>) -> bool
    ensures { result ≡ (nat_lt (claim.now.output + 1) next.now.output && nat_lt claim.now.output claim.now.of) }
{
    claim.output < claim.of && claim.output + 1 < next.output
}

fn is_repeated(claim: &NumberedClaim<'_>, next: &NumberedClaim<'_>) -> bool
    ensures { result ≡ ((claim.now.output == next.now.output) && is_lt (place_cmp (plain_place claim.now.at) (plain_place next.now.at))) }
{
    claim.output == next.output && claim.at < next.at
}

fn is_of_one_source(claim: &NumberedClaim<'_>, next: &NumberedClaim<'_>) -> bool
    ensures { result ≡ is_eq (place_cmp (plain_place claim.now.source) (plain_place next.now.source)) }
{
    claim.source.cmp(&next.source).is_eq()
}

/// The first claim of its source begins with output 1, or is a note.
fn at_start<'a>(best: Option<Found<'a>>, claim: &NumberedClaim<'a>) -> Option<Found<'a>>
    ensures { option_map plain_fault result ≡ fold (lesser_of fault_cmp) (option_map plain_fault best.entry) (start_of (plain_claim claim.entry.now)) }
{
    let late = starts_late(claim);
    with_tested(best, late, missing(claim, 1))
}

/// The last claim of its source ends with the last output.
fn at_end<'a>(best: Option<Found<'a>>, claim: &NumberedClaim<'a>) -> Option<Found<'a>>
    ensures { option_map plain_fault result ≡ fold (lesser_of fault_cmp) (option_map plain_fault best.entry) (end_of (plain_claim claim.entry.now)) }
{
    if claim.output < claim.of {
        with_tested(best, true, missing(claim, claim.output + 1))
    } else {
        best
    }
}

/// Two claims of one source agree in their counts, have two numbers, and no number between.
fn in_run<'a>(
    best: Option<Found<'a>>,
    claim: &NumberedClaim<'a>,
    next: &NumberedClaim<'a>,
) -> Option<Found<'a>>
    ensures { option_map plain_fault result ≡ fold (lesser_of fault_cmp) (option_map plain_fault best.entry) (run_of (plain_claim claim.entry.now) (plain_claim next.entry.now)) }
{
    let best = with_tested(
        best,
        claim.of != next.of,
        fault_at(OutputKind::CountDisagrees, next),
    );
    let repeated = is_repeated(claim, next);
    let best = with_tested(best, repeated, fault_at(OutputKind::Repeated, next));
    if leaves_gap(claim, next) {
        with_tested(best, true, missing(claim, claim.output + 1))
    } else {
        best
    }
}

/// What two neighbours show.
fn between<'a>(
    best: Option<Found<'a>>,
    claim: &NumberedClaim<'a>,
    next: &NumberedClaim<'a>,
) -> Option<Found<'a>>
    ensures { option_map plain_fault result ≡ fold (lesser_of fault_cmp) (option_map plain_fault best.entry) (both_of (plain_claim claim.entry.now) (plain_claim next.entry.now)) }
{
    if is_of_one_source(claim, next) {
        in_run(best, claim, next)
    } else {
        let best = at_end(best, claim);
        at_start(best, next)
    }
}

/// What the claims from one on show.
fn least_after<'a>(
    best: Option<Found<'a>>,
    first: &NumberedClaim<'a>,
    claims: &[NumberedClaim<'a>],
) -> Option<Found<'a>>
    ensures { option_map plain_fault result ≡ fold (lesser_of fault_cmp) (option_map plain_fault best.entry) (runs_after (plain_claim first.entry.now) (map plain_claim claims.entry.now)) }
{
    let mut best = best;
    let mut claim = *first;
    for next in claims {
        best = between(best, &claim, next);
        claim = *next;
    }
    at_end(best, &claim)
}

/// The lesser of the least so far and what the neighbours among the claims show, which stand in their order.
pub fn least_of_neighbours<'a>(
    best: Option<Found<'a>>,
    claims: &[NumberedClaim<'a>],
) -> Option<Found<'a>>
    ensures { option_map plain_fault result ≡ fold (lesser_of fault_cmp) (option_map plain_fault best.entry) (runs (map plain_claim claims.entry.now)) }
{
    match claims.split_first() {
        None => best,
        Some((first, rest)) => {
            let best = at_start(best, first);
            least_after(best, first, rest)
        }
    }
}
