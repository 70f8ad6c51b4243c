//! Whether the claims of a fold are claims that headers say. Those of a fold that was made of a segment are.

ghost use Rattle.std.specs.Prelude.{◌≡◌, All, true, option_map};
ghost use Rattle.eos_claims.specs.Slots.{plain_claim};
ghost use Rattle.eos_reading.specs.Outputs.{claim_kept};
ghost use Rattle.eos_reading.specs.Records.{ReadsBack};
ghost use Rattle.eos_fold_file.specs.steps.Kept.{AreReadBack};

use crate::FoldKept;
use bytes::Bytes;
use eos_claims::ClaimRef;
use eos_reading::KeptOutput;

/// Whether there are headers that say a claim, or say none. Their numbers are signed, and none of a claim is below 0.
pub(crate) fn is_said(claim: Option<ClaimRef<'_>>) -> bool
    ensures yes { result ≡ true → ReadsBack (option_map plain_claim claim.entry) }
    ensures no { ReadsBack (option_map plain_claim claim.entry) → result ≡ true }
{
    let Some(claim) = claim else {
        return true;
    };
    if claim.partition < 0 {
        return false;
    }
    if claim.offset >= 1 << 63 {
        return false;
    }
    claim.output < 1 << 31 && claim.of < 1 << 31
}

fn are_outputs_said(topics: &[Bytes], outputs: &[KeptOutput]) -> bool
    ensures yes { result ≡ true → All (λ one. ReadsBack (claim_kept topics.now one)) outputs.now }
    ensures no { All (λ one. ReadsBack (claim_kept topics.now one)) outputs.now → result ≡ true }
{
    for output in outputs {
        if !is_said(output.claim(topics)) {
            return false;
        }
    }
    true
}

/// Whether there are headers that say each claim.
pub(crate) fn are_said(kept: &FoldKept) -> bool
    ensures yes { result ≡ true → AreReadBack kept.now }
    ensures no { AreReadBack kept.now → result ≡ true }
{
    match kept {
        FoldKept::Presence => true,
        FoldKept::Claims { topics, outputs } => {
            are_outputs_said(topics.as_slice(), outputs.as_slice())
        }
        FoldKept::Texts(texts) => texts.are_said(),
    }
}
