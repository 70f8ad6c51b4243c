//! What is kept says exactly what is wanted. This function does nothing; its contract is a theorem.

ghost use Rattle.std.specs.Prelude.{◌≡◌, ℕ, List, Option};
ghost use Rattle.eos_claims.specs.declared.claim.Claim.{Claim};
ghost use Rattle.eos_reading.specs.Outputs.{kept_output, claim_kept};

/// What is kept of an output's record is its claim, whatever topics are asked for.
pub fn exact_claims()
    ensures { (topics : List (List ℕ)) (claim : Option Claim) → claim_kept topics (kept_output topics claim) ≡ claim }
{}
