//! The claims of one source, in their order.

ghost use Rattle.std.specs.Prelude.{◌≡◌};
ghost use Rattle.eos_claims.specs.declared.place.Place.{Place};
ghost use Rattle.eos_claims.specs.Outputs.{Application};
ghost use Rattle.eos_claims.specs.Candidates.{AreApart};
ghost use Rattle.eos_faults.specs.steps.OutputFaultsGathered.{first_of, first_absent as first_absent_of, is_there as is_there_in, top_of as top_by};
ghost use Rattle.eos_faults.specs.steps.SourceClaims.{AreClaimsOf, DoNumbersRise, IsLastThere, IsNextFirst, IsNextThere};

use crate::lent::VisibleClaim;

/// The first claim of this one's number, by that of the claim before it.
pub(crate) fn first_numbered<'a>(
    before: VisibleClaim<'a>,
    claim: &VisibleClaim<'a>,
) -> VisibleClaim<'a>
    ensures { IsNextFirst before.entry claim.now result }
{
    if claim.output == before.output {
        before
    } else {
        *claim
    }
}

fn next_there(last: u32, output: u32) -> u32
    ensures { IsNextThere last output result }
{
    if output > last && output - last == 1 {
        output
    } else {
        last
    }
}

/// The number up to which each from one on is there.
fn last_there(claims: &[VisibleClaim<'_>]) -> u32
    ensures { DoNumbersRise claims.now → IsLastThere claims.now result }
{
    let mut last = 0;
    for claim in claims {
        last = next_there(last, claim.output);
    }
    last
}

/// What the first claim says, and 1 where there is none.
fn top_of(claims: &[VisibleClaim<'_>]) -> u32
    ensures { (a : Application) (i : Place) → AreApart a → AreClaimsOf a i claims.now → result ≡ top_by (first_of a.claims i) }
{
    match claims.first() {
        None => 1,
        Some(first) => first.of,
    }
}

/// The first output that a source with these claims lacks, up to what the first of them says.
pub(crate) fn first_absent(claims: &[VisibleClaim<'_>]) -> Option<u32>
    ensures { (a : Application) (i : Place) → AreApart a → AreClaimsOf a i claims.now
        → result ≡ first_absent_of (is_there_in a.claims i) (top_by (first_of a.claims i)) 1 }
{
    let last = last_there(claims);
    if last < top_of(claims) {
        Some(last + 1)
    } else {
        None
    }
}
