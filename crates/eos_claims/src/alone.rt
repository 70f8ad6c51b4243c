//! What a claim, or an input without one, shows by itself.

ghost use Rattle.std.specs.Prelude.{◌≡◌, ◌&&◌, ◌||◌, ◌==◌, not, nat_lt, option_map, fold};
ghost use Rattle.eos_base.specs.Least.{lesser_of};
ghost use Rattle.eos_claims.specs.Candidates.{fault_at as claim_fault, is_out_of_range as is_out, missing as missing_fault, shown as shown_alone, when};
ghost use Rattle.eos_claims.specs.Faults.{fault_cmp};
ghost use Rattle.eos_claims.specs.Plain.{plain_place, plain_fault, plain_lent};

use crate::fault::OutputKind;
use crate::found::{Found, with_tested};
use crate::place::{PlaceRef, SourceRef, source_at};

/// What is known of a claim's source: whether its topic is one that the application reads, whether a visible record
/// stands there, whether that is below its committed offset, and whether the claim's transaction committed past it.
#[derive(Clone, Copy)]
pub struct SourceTests {
    pub is_source: bool,
    pub is_input: bool,
    pub is_committed: bool,
    pub is_passed: bool,
}

/// A claim whose source's topic is lent as its bytes.
#[derive(Clone, Copy)]
pub struct LentClaim<'a> {
    pub source: SourceRef<'a>,
    pub output: u32,
    pub of: u32,
    /// Where the claim stands.
    pub at: PlaceRef<'a>,
}

/// The claim's fault of a kind.
fn fault_at<'a>(kind: OutputKind, claim: &LentClaim<'a>) -> Found<'a>
    ensures { plain_fault result ≡ claim_fault kind (plain_lent claim.entry.now) }
{
    Found {
        source: claim.source,
        output: claim.output,
        kind,
        at: Some(claim.at),
    }
}

/// Whether a claim's number is neither in 1 to its count, nor the note 0 of 0.
pub fn is_out_of_range(of: u32, output: u32) -> bool
    ensures { result ≡ is_out of output }
{
    if of == 0 {
        output > 0
    } else {
        output == 0 || output > of
    }
}

/// The lesser of the least so far and what a claim shows by itself.
pub fn least_of_claim<'a>(
    best: Option<Found<'a>>,
    tests: SourceTests,
    claim: &LentClaim<'a>,
) -> Option<Found<'a>>
    ensures { option_map plain_fault result
        ≡ fold (lesser_of fault_cmp) (option_map plain_fault best.entry)
        (shown_alone tests.is_source tests.is_input tests.is_committed (is_out claim.entry.now.of claim.entry.now.output) tests.is_passed (plain_lent claim.entry.now)) }
{
    if !tests.is_source {
        return with_tested(best, true, fault_at(OutputKind::ForeignSource, claim));
    }
    if !tests.is_input {
        return with_tested(best, true, fault_at(OutputKind::NoSuchInput, claim));
    }
    if !tests.is_committed {
        return with_tested(best, true, fault_at(OutputKind::Early, claim));
    }
    let best = with_tested(
        best,
        is_out_of_range(claim.of, claim.output),
        fault_at(OutputKind::NumberRange, claim),
    );
    with_tested(
        best,
        !tests.is_passed,
        fault_at(OutputKind::OtherTransaction, claim),
    )
}

/// The lesser of the least so far and an input's first output, which is missing where nothing claims the input though it
/// is below its committed offset.
pub fn least_of_input<'a>(
    best: Option<Found<'a>>,
    source: PlaceRef<'a>,
    is_committed: bool,
    is_claimed: bool,
) -> Option<Found<'a>>
    ensures { option_map plain_fault result
        ≡ fold (lesser_of fault_cmp) (option_map plain_fault best.entry) (when (is_committed && not is_claimed) (missing_fault (plain_place source.entry) 1)) }
{
    let missing = Found {
        source: source_at(source),
        output: 1,
        kind: OutputKind::Missing,
        at: None,
    };
    with_tested(best, is_committed && !is_claimed, missing)
}
