//! What each claim shows, and what each input lacks.

ghost use Rattle.std.specs.Prelude.{◌≡◌, ◌++◌, Some, map, flat_map, IfOk, OnOk};
ghost use Rattle.eos_claims.specs.declared.place.Place.{Place};
ghost use Rattle.eos_claims.specs.Outputs.{Application};
ghost use Rattle.eos_claims.specs.Candidates.{AreApart, counted, fault_at, is_out_of_range as is_out, when};
ghost use Rattle.eos_faults.specs.steps.OutputFaultsGathered.{place_faults, number_faults, disagrees as disagrees_with, is_repeated as is_repeated_after, shown_at, missing_at, lacking, gathered_by};
ghost use Rattle.eos_faults.specs.steps.Plain.{claim_at, fault_of, place_at};
ghost use Rattle.eos_faults.specs.steps.SourceClaims.{AreClaimsOf, AreInputsAt};
ghost use Rattle.eos_faults.specs.steps.Tables.{AreTables, IsKnown};

use crate::claims::{first_absent, first_numbered};
use crate::lent::{LentFault, LentPlace, VisibleClaim};
use crate::tables::{Known, Tables, is_passed, known_of};
use eos_claims::{OutputKind, is_out_of_range};
use std::alloc::{AllocError, Global};

/// Puts the claim's fault of this kind at the end, where it stands.
fn push_when<'a>(
    faults: &mut Vec<LentFault<'a>>,
    stands: bool,
    kind: OutputKind,
    claim: &VisibleClaim<'a>,
) -> Result<(), AllocError>
    ensures { OnOk result (map fault_of faults.new.items ≡ map fault_of faults.old.items ++ when stands (fault_at kind (counted (claim_at claim.now)))) }
{
    if !stands {
        return Ok(());
    }
    faults.push(LentFault {
        source: claim.source,
        output: claim.output,
        kind,
        at: Some(claim.at),
    })?;
    Ok(())
}

/// What a claim shows by the place that it names.
fn push_placed<'a>(
    faults: &mut Vec<LentFault<'a>>,
    known: Known,
    passed: bool,
    claim: &VisibleClaim<'a>,
) -> Result<(), AllocError>
    ensures { OnOk result (map fault_of faults.new.items ≡ map fault_of faults.old.items
        ++ place_faults known.is_source known.is_input known.is_committed passed (counted (claim_at claim.now))) }
{
    let Known {
        is_source,
        is_input,
        is_committed,
    } = known;
    push_when(faults, !is_source, OutputKind::ForeignSource, claim)?;
    let no_input = is_source && !is_input;
    push_when(faults, no_input, OutputKind::NoSuchInput, claim)?;
    push_when(faults, is_input && !is_committed, OutputKind::Early, claim)?;
    let other = is_input && (is_committed && !passed);
    push_when(faults, other, OutputKind::OtherTransaction, claim)?;
    Ok(())
}

/// What a claim shows by its number and its count, beside the first claim of its source and the first of its number.
fn push_numbered<'a>(
    faults: &mut Vec<LentFault<'a>>,
    claim: &VisibleClaim<'a>,
    first: &VisibleClaim<'a>,
    numbered: &VisibleClaim<'a>,
) -> Result<(), AllocError>
    ensures { OnOk result (map fault_of faults.new.items ≡ map fault_of faults.old.items
        ++ number_faults (is_out claim.now.of claim.now.output) (disagrees_with (Some (claim_at first.now)) claim.now.of)
        (is_repeated_after (Some (claim_at numbered.now)) (place_at claim.now.at)) (counted (claim_at claim.now))) }
{
    let out = is_out_of_range(claim.of, claim.output);
    let repeated = numbered.at.cmp(&claim.at).is_lt();
    push_when(faults, out, OutputKind::NumberRange, claim)?;
    let disagrees = claim.of != first.of;
    push_when(faults, disagrees, OutputKind::CountDisagrees, claim)?;
    push_when(faults, repeated, OutputKind::Repeated, claim)?;
    Ok(())
}

/// What the claims of a source show.
fn push_claims<'a>(
    faults: &mut Vec<LentFault<'a>>,
    tables: &Tables<'_, 'a>,
    known: Known,
    claims: &[VisibleClaim<'a>],
) -> Result<(), AllocError>
    ensures { (a : Application) (i : Place) → AreTables a tables.now → IsKnown a i known → AreClaimsOf a i claims.now
        → OnOk result (map fault_of faults.new.items ≡ map fault_of faults.old.items ++ flat_map (shown_at a) (map claim_at claims.now)) }
{
    let Some(first) = claims.first() else {
        return Ok(());
    };
    let mut numbered = *first;
    for claim in claims {
        numbered = first_numbered(numbered, claim);
        push_placed(faults, known, is_passed(tables, claim), claim)?;
        push_numbered(faults, claim, first, &numbered)?;
    }
    Ok(())
}

/// Puts an output that an input lacks at the end, if there is one.
fn push_missing<'a>(
    faults: &mut Vec<LentFault<'a>>,
    input: &LentPlace<'a>,
    output: Option<u32>,
) -> Result<(), AllocError>
    ensures { OnOk result (map fault_of faults.new.items ≡ map fault_of faults.old.items ++ missing_at (place_at input.now) output) }
{
    let Some(output) = output else {
        return Ok(());
    };
    faults.push(LentFault {
        source: *input,
        output,
        kind: OutputKind::Missing,
        at: None,
    })?;
    Ok(())
}

fn push_inputs<'a>(
    faults: &mut Vec<LentFault<'a>>,
    inputs: &[LentPlace<'a>],
    output: Option<u32>,
) -> Result<(), AllocError>
    ensures { OnOk result (map fault_of faults.new.items ≡ map fault_of faults.old.items ++ flat_map (λ i. missing_at i output) (map place_at inputs.now)) }
{
    for input in inputs {
        push_missing(faults, input, output)?;
    }
    Ok(())
}

/// The first output that an input with these claims lacks, where it is below its committed offset.
fn first_lacking(known: Known, claims: &[VisibleClaim<'_>]) -> Option<u32>
    ensures { (a : Application) (i : Place) → AreApart a → IsKnown a i known → AreClaimsOf a i claims.now → missing_at i result ≡ lacking a i }
{
    if known.is_committed {
        first_absent(claims)
    } else {
        None
    }
}

/// What these claims of a source show, and what the inputs that stand there lack, as it is found.
pub(crate) fn found<'a>(
    alloc: Global,
    tables: &Tables<'_, 'a>,
    source: &LentPlace<'a>,
    claims: &[VisibleClaim<'a>],
    inputs: &[LentPlace<'a>],
) -> Result<Vec<LentFault<'a>>, AllocError>
    ensures { (a : Application) → AreTables a tables.now → AreClaimsOf a (place_at source.now) claims.now → AreInputsAt a (place_at source.now) inputs.now
        → IfOk result (λ faults. map fault_of faults.items ≡ gathered_by a (map claim_at claims.now) (map place_at inputs.now)) }
{
    let mut faults = Vec::new(alloc);
    let known = known_of(tables, source, !inputs.is_empty());
    push_claims(&mut faults, tables, known, claims)?;
    push_inputs(&mut faults, inputs, first_lacking(known, claims))?;
    Ok(faults)
}
