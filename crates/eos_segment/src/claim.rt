//! The claim of an output.

ghost use Rattle.std.specs.Prelude.{◌≡◌, ◌++◌, OnOk, string_bytes};
ghost use Rattle.eos_claims.specs.Headers.{claim_of};
ghost use Rattle.eos_text.specs.Adding.{Adds};
ghost use Rattle.eos_segment.specs.Decoding.{said_by_claim};
ghost use Rattle.eos_segment.specs.DecodedLines.{claim_line};

use crate::name::push_unread;
use eos_batch::Header;
use eos_claims::{Claim, read_claim};
use eos_verdict::push_name;
use std::alloc::{AllocError, Global};

#[tactic(auto, unfolding(crate::specs::DecodedLines::claim_line))]
fn push_claim(alloc: Global, out: &mut String, claim: &Claim) -> Result<(), AllocError>
    ensures { OnOk result (Adds (string_bytes out.old) (string_bytes out.new) (claim_line claim.now)) }
{
    push_name(
        alloc,
        out,
        "  claim ",
        claim.topic.as_slice(),
        &claim.partition,
    )?;
    write!(out, ":{} {}/{}\n", claim.offset, claim.output, claim.of)
}

/// Adds what these headers claim.
pub(crate) fn push_output(
    alloc: Global,
    out: &mut String,
    headers: &[Header],
) -> Result<(), AllocError>
    ensures { OnOk result (Adds (string_bytes out.old) (string_bytes out.new) (said_by_claim (claim_of headers.now))) }
{
    match read_claim(alloc, headers)? {
        None => push_unread(out, "BadLineage"),
        Some(claim) => push_claim(alloc, out, &claim),
    }
}
