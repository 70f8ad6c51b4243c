//! The faults of one application's outputs, source by source, so that no list of all is held.

ghost use Rattle.std.specs.Prelude.{◌≤◌, length, map, option_map, List, OnOk, IsSorted, slice_get};
ghost use Rattle.eos_claims.specs.declared.fault.OutputFault.{OutputFault};
ghost use Rattle.eos_claims.specs.Outputs.{Application, ReadsSources};
ghost use Rattle.eos_verdict.specs.declared.verdict.Fault.TheVariants.{Lineage};
ghost use Rattle.eos_faults.specs.steps.BySource.{IsEndOf, IsNext, itself, source_of, by_lent};
ghost use Rattle.eos_faults.specs.steps.OutputFaultsGathered.{AreOutputFaults};
ghost use Rattle.eos_faults.specs.steps.Tables.{AreTables, by_claim};
ghost use Rattle.eos_faults.specs.steps.Taken.{group_in, named_faults, named_in};

use crate::lent::{LentFault, LentPlace, VisibleClaim};
use crate::outputs::LentOutput;
use crate::shown_by_claims::found;
use crate::sink::FaultSink;
use crate::tables::Tables;
use eos_base::distinct_in_order;
use eos_evidence::GroupId;
use std::alloc::{AllocError, Global};

/// The lesser of the sources of the claim and of the input at these places.
fn next_source<'a>(
    claims: &[VisibleClaim<'a>],
    claim: usize,
    inputs: &[LentPlace<'a>],
    input: usize,
) -> Option<LentPlace<'a>>
    ensures { IsNext (slice_get claims.now claim) (slice_get inputs.now input) result }
{
    let Some(claim) = claims.get(claim) else {
        let Some(input) = inputs.get(input) else {
            return None;
        };
        return Some(*input);
    };
    let Some(input) = inputs.get(input) else {
        return Some(claim.source);
    };
    if input.cmp(&claim.source).is_lt() {
        return Some(*input);
    }
    Some(claim.source)
}

/// Where, from this claim on, those of the sources up to this one end.
fn end_of_claims<'a>(claims: &[VisibleClaim<'a>], from: usize, source: &LentPlace<'a>) -> usize
    requires { from ≤ length claims.now }
    ensures { IsSorted by_claim claims.now → IsEndOf source_of claims.now from source.now result }
{
    let mut end = from;
    while let Some(claim) = claims.get(end) {
        if claim.source.cmp(source).is_gt() {
            return end;
        }
        end += 1;
    }
    end
}

/// Where, from this input on, those up to this place end.
fn end_of_inputs<'a>(inputs: &[LentPlace<'a>], from: usize, source: &LentPlace<'a>) -> usize
    requires { from ≤ length inputs.now }
    ensures { IsSorted by_lent inputs.now → IsEndOf itself inputs.now from source.now result }
{
    let mut end = from;
    while let Some(input) = inputs.get(end) {
        if input.cmp(source).is_gt() {
            return end;
        }
        end += 1;
    }
    end
}

/// Hands faults on, one after the other.
fn hand_on<'a, S: FaultSink>(
    alloc: Global,
    group: Option<&'a GroupId>,
    faults: Vec<LentFault<'a>>,
    sink: &mut S,
) -> Result<(), AllocError>
    ensures { OnOk result (S.takes sink.old (map Lineage (map (named_in (option_map (λ g. g.now) group.entry)) faults.entry.items)) sink.new) }
{
    for fault in faults {
        let output = LentOutput::new(group, fault);
        sink.take_output(alloc, &output)?;
    }
    Ok(())
}

/// Hands on all faults of the outputs of an application with these tables, each once and in their order. Of the outputs that one
/// input lacks it has the first. In memory are the faults of one source.
pub(crate) fn faults_by_source<'a, S: FaultSink>(
    alloc: Global,
    tables: &Tables<'_, 'a>,
    sink: &mut S,
) -> Result<(), AllocError>
    ensures { OnOk result ((list : List OutputFault) × S.takes sink.old (named_faults (group_in tables.now.books.now) list) sink.new
        × ((a : Application) → ReadsSources a → AreTables a tables.now → AreOutputFaults a list)) }
{
    let claims = tables.claims.as_slice();
    let inputs = tables.inputs.as_slice();
    let mut claim = 0;
    let mut input = 0;
    while let Some(source) = next_source(claims, claim, inputs, input) {
        let last_claim = end_of_claims(claims, claim, &source);
        let last_input = end_of_inputs(inputs, input, &source);
        let mine = &claims[claim..last_claim];
        let read = &inputs[input..last_input];
        let faults = found(alloc, tables, &source, mine, read)?;
        hand_on(alloc, tables.books.group, distinct_in_order(faults), sink)?;
        claim = last_claim;
        input = last_input;
    }
    Ok(())
}
