//! The visible records of an application's topics: its inputs, and the claims that its outputs make, of a range of sources.

ghost use Rattle.std.specs.Prelude.{◌≡◌, ◌++◌, Bool, map, filter, flat_map, option_map, IfOk, OnOk};
ghost use Rattle.eos_claims.specs.declared.place.Place.{Place};
ghost use Rattle.eos_fold.specs.Parts.{part_name};
ghost use Rattle.eos_lineage.specs.steps.Walks.{input_at, inputs_at, claim_at as claims_of_item, claims_of_part};
ghost use Rattle.eos_faults.specs.steps.Claimed.{claimed};
ghost use Rattle.eos_faults.specs.steps.Plain.{claim_at, name_at, place_at};
ghost use Rattle.eos_faults.specs.steps.Cuts.{IsCutOf, IsNear};
ghost use Rattle.eos_faults.specs.steps.Ranges.{is_source_within, is_within, listed};

use crate::cuts::{Cut, Near, cut_of};
use crate::lent::{LentName, LentPlace, VisibleClaim};
use crate::ranges::Range;
use eos_claims::ClaimRef;
use eos_commits::{TopicSet, is_visible};
use eos_kept::{ItemRef, Part};
use std::alloc::{AllocError, Global};

pub(crate) fn name_of<'a>(part: &'a Part) -> LentName<'a>
    ensures { name_at result ≡ part_name part.entry.now }
{
    LentName {
        topic: part.topic().as_slice(),
        partition: part.partition(),
    }
}

/// The place of a record, if it is visible.
fn input_of<'a>(partition: LentName<'a>, item: &ItemRef<'_>) -> Option<LentPlace<'a>>
    ensures { listed (option_map place_at result) ≡ input_at (name_at partition.entry) item.now }
{
    if !is_visible(item.fate()) {
        return None;
    }
    Some(LentPlace {
        partition,
        offset: item.offset(),
    })
}

/// Puts the place of a record at the end, if it is visible and one of these offsets.
fn push_input<'a>(
    all: &mut Vec<LentPlace<'a>>,
    cut: &Cut,
    partition: LentName<'a>,
    item: &ItemRef<'_>,
) -> Result<(), AllocError>
    ensures { (within : Place → Bool) → IsCutOf within (name_at partition.entry) cut.now
        → OnOk result (map place_at all.new.items ≡ map place_at all.old.items ++ filter within (input_at (name_at partition.entry) item.now)) }
{
    let Some(input) = input_of(partition, item) else {
        return Ok(());
    };
    if cut.has(input.offset) {
        all.push(input)?;
    }
    Ok(())
}

/// Puts the places of a partition's visible records that are in the range at the end, if it is of one of these topics.
fn push_inputs<'a>(
    all: &mut Vec<LentPlace<'a>>,
    sources: &TopicSet<'_>,
    range: &Range<'_>,
    part: &'a Part,
) -> Result<(), AllocError>
    ensures { OnOk result (map place_at all.new.items ≡ map place_at all.old.items ++ filter (is_within range.now) (inputs_at sources.now part.now)) }
{
    if !sources.has(part.topic().as_slice()) {
        return Ok(());
    }
    let name = name_of(part);
    let cut = cut_of(range, &name);
    if cut.from.is_none() {
        return Ok(());
    }
    let mut records = part.items().cursor();
    while let Some(item) = records.next() {
        push_input(all, &cut, name, &item)?;
    }
    Ok(())
}

/// The places of the visible records of these topics that are in the range, in the order of the parts.
pub(crate) fn inputs_of<'a>(
    alloc: Global,
    sources: &TopicSet<'_>,
    range: &Range<'_>,
    parts: &'a [Part],
) -> Result<Vec<LentPlace<'a>>, AllocError>
    ensures { IfOk result (λ all. map place_at all.items ≡ filter (is_within range.now) (flat_map (inputs_at sources.now) parts.now)) }
{
    let mut all = Vec::new(alloc);
    for part in parts {
        push_inputs(&mut all, sources, range, part)?;
    }
    Ok(all)
}

fn visible_claim<'a>(
    claim: &ClaimRef<'a>,
    at: LentPlace<'a>,
    writer: Option<(i64, i16)>,
) -> VisibleClaim<'a>
    ensures { claim_at result ≡ claimed claim.entry.now (place_at at.entry) writer }
{
    VisibleClaim {
        source: LentPlace {
            partition: LentName {
                topic: claim.topic,
                partition: claim.partition,
            },
            offset: claim.offset,
        },
        output: claim.output,
        at,
        of: claim.of,
        writer,
    }
}

/// The claim of a record, if it is visible and one.
fn claim_of<'a>(partition: LentName<'a>, item: ItemRef<'a>) -> Option<VisibleClaim<'a>>
    ensures { listed (option_map claim_at result) ≡ claims_of_item (name_at partition.entry) item.entry }
{
    if !is_visible(item.fate()) {
        return None;
    }
    let at = LentPlace {
        partition,
        offset: item.offset(),
    };
    let writer = item.writer();
    let claim = item.into_claim()?;
    Some(visible_claim(&claim, at, writer))
}

/// Puts the claim of a record at the end, if it is visible and one, and its source in the range.
fn push_claim<'a>(
    all: &mut Vec<VisibleClaim<'a>>,
    range: &Range<'a>,
    near: &mut Near<'a>,
    partition: LentName<'a>,
    item: ItemRef<'a>,
) -> Result<(), AllocError>
    ensures claims { IsNear range.now near.old → OnOk result (map claim_at all.new.items ≡ map claim_at all.old.items ++ filter (is_source_within range.now) (claims_of_item (name_at partition.entry) item.entry)) }
    ensures near { IsNear range.now near.old → IsNear range.now near.new }
{
    let Some(claim) = claim_of(partition, item) else {
        return Ok(());
    };
    if near.has(range, &claim.source) {
        all.push(claim)?;
    }
    Ok(())
}

/// Puts the claims of a partition whose sources are in the range at the end, if it is of one of these topics.
fn push_claims<'a>(
    all: &mut Vec<VisibleClaim<'a>>,
    outputs: &TopicSet<'_>,
    range: &Range<'a>,
    part: &'a Part,
) -> Result<(), AllocError>
    ensures { OnOk result (map claim_at all.new.items ≡ map claim_at all.old.items ++ filter (is_source_within range.now) (claims_of_part outputs.now part.now)) }
{
    if !outputs.has(part.topic().as_slice()) {
        return Ok(());
    }
    let name = name_of(part);
    let mut near = Near::new(range, name);
    let mut records = part.items().cursor();
    while let Some(item) = records.next() {
        push_claim(all, range, &mut near, name, item)?;
    }
    Ok(())
}

/// The claims of the visible records of these topics whose sources are in the range, in the order of the parts.
pub(crate) fn claims_of<'a>(
    alloc: Global,
    outputs: &TopicSet<'_>,
    range: &Range<'a>,
    parts: &'a [Part],
) -> Result<Vec<VisibleClaim<'a>>, AllocError>
    ensures { IfOk result (λ all. map claim_at all.items ≡ filter (is_source_within range.now) (flat_map (claims_of_part outputs.now) parts.now)) }
{
    let mut all = Vec::new(alloc);
    for part in parts {
        push_claims(&mut all, outputs, range, part)?;
    }
    Ok(all)
}
