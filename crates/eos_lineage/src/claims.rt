//! The walk over the claims of an application's output topics.

ghost use Rattle.std.specs.Prelude.{◌≡◌, ◌++◌, ◌∷◌, [], flat_map, map, option_map, IfOk, OnOk};
ghost use Rattle.std.specs.Option.{option_to_list};
ghost use Rattle.eos_claims.specs.Outputs.{Application};
ghost use Rattle.eos_claims.specs.Plain.{plain_claim, plain_lent};
ghost use Rattle.eos_fold.specs.Parts.{part_name};
ghost use Rattle.eos_fold.specs.declared.item.Item.{Item};
ghost use Rattle.eos_kept.specs.Looks.{IsLook};
ghost use Rattle.eos_lineage.specs.steps.Walks.{kept_of, counted_ref, AreTables, HasWalked, plain_walk, begun, plain_placed, claim_at, output_claims, claims_of_part};

use crate::tables::{Known, Tables, known_of, tests_of};
use eos_base::PartitionName;
use eos_claims::{ClaimRef, Found, LentClaim, NumberedClaim, PlaceRef, SourceRef, least_of_claim};
use eos_commits::{TopicSet, is_visible};
use eos_kept::{ItemRef, Look, Part};
use std::alloc::{AllocError, Global};

/// What the walk has met: the least fault that claims show one by one, and the claims of inputs below their committed
/// offsets.
#[derive(Drop)]
pub(crate) struct Walk<'a> {
    pub(crate) best: Option<Found<'a>>,
    pub(crate) below: Vec<NumberedClaim<'a>>,
}

/// The log of a partition of an output topic, and its name.
#[derive(Clone, Copy)]
pub(crate) struct Output<'a> {
    pub(crate) name: &'a PartitionName,
    pub(crate) part: &'a Part,
}

/// A claim as a log has it: what it says, where it stands, and which transaction wrote it.
#[derive(Clone, Copy)]
pub(crate) struct PlacedRef<'a> {
    pub(crate) claim: ClaimRef<'a>,
    at: PlaceRef<'a>,
    pub(crate) writer: Option<(i64, i16)>,
}

/// The claim of a record, if it is visible and one.
pub(crate) fn placed_of<'a>(name: &'a PartitionName, look: &Look<'a>) -> Option<PlacedRef<'a>>
    ensures { (item : Item) → IsLook item look.now → option_to_list (option_map plain_placed result) ≡ claim_at name.now item }
{
    if !is_visible(look.fate) {
        return None;
    }
    let at = PlaceRef {
        partition: name,
        offset: look.offset,
    };
    Some(PlacedRef {
        claim: look.claim?,
        at,
        writer: look.writer,
    })
}

/// Keeps a claim of an input that is below its committed offset.
fn keep_below<'a>(
    below: &mut Vec<NumberedClaim<'a>>,
    known: &Option<Known<'a>>,
    claim: &LentClaim<'a>,
) -> Result<(), AllocError>
    ensures { OnOk result (map plain_claim below.new.items ≡ map plain_claim below.old.items ++ kept_of known.now (plain_lent claim.now)) }
{
    let Some(known) = known else {
        return Ok(());
    };
    if known.is_input && known.is_committed {
        below.push(NumberedClaim {
            source: known.place,
            output: claim.output,
            at: claim.at,
            of: claim.of,
        })?;
    }
    Ok(())
}

fn lent_of<'a>(placed: &PlacedRef<'a>) -> LentClaim<'a>
    ensures { plain_lent result ≡ counted_ref placed.entry.now.claim placed.entry.now.at }
{
    let claim = placed.claim;
    LentClaim {
        source: SourceRef {
            topic: claim.topic,
            partition: claim.partition,
            offset: claim.offset,
        },
        output: claim.output,
        of: claim.of,
        at: placed.at,
    }
}

/// Takes a claim.
fn take_claim<'a>(
    walk: &mut Walk<'a>,
    tables: &Tables<'_, '_, '_, '_, '_, 'a>,
    placed: &PlacedRef<'a>,
) -> Result<(), AllocError>
    ensures { (a : Application) → AreTables a tables.now → OnOk result (HasWalked a (plain_walk walk.old) (plain_walk walk.new) (plain_placed placed.now ∷ [])) }
{
    let lent = lent_of(placed);
    let known = known_of(tables, &lent.source);
    let tests = tests_of(tables, &known, &lent.source, placed.writer);
    walk.best = least_of_claim(walk.best, tests, &lent);
    keep_below(&mut walk.below, &known, &lent)
}

/// Takes the claim of a record, if it is visible and one.
fn take_item<'a>(
    walk: &mut Walk<'a>,
    tables: &Tables<'_, '_, '_, '_, '_, 'a>,
    name: &'a PartitionName,
    item: ItemRef<'a>,
) -> Result<(), AllocError>
    ensures { (a : Application) → AreTables a tables.now → OnOk result (HasWalked a (plain_walk walk.old) (plain_walk walk.new) (claim_at name.now item.entry)) }
{
    match placed_of(name, &item.into_look()) {
        None => Ok(()),
        Some(placed) => take_claim(walk, tables, &placed),
    }
}

/// Takes the claims of a partition.
fn take_part<'a>(
    walk: &mut Walk<'a>,
    tables: &Tables<'_, '_, '_, '_, '_, 'a>,
    name: &'a PartitionName,
    part: &'a Part,
) -> Result<(), AllocError>
    ensures { (a : Application) → AreTables a tables.now → OnOk result (HasWalked a (plain_walk walk.old) (plain_walk walk.new) (flat_map (claim_at name.now) part.now.items)) }
{
    let mut records = part.items().cursor();
    while let Some(item) = records.next() {
        take_item(walk, tables, name, item)?;
    }
    Ok(())
}

/// The partitions of these topics, in their order.
pub(crate) fn outputs_of<'a>(
    alloc: Global,
    topics: &TopicSet<'_>,
    names: &'a [PartitionName],
    parts: &'a [Part],
) -> Result<Vec<Output<'a>>, AllocError>
    requires { names.now ≡ map part_name parts.now }
    ensures { IfOk result (λ outputs. flat_map output_claims outputs.items ≡ flat_map (claims_of_part topics.now) parts.now) }
{
    let mut outputs = Vec::new(alloc);
    for i in 0..parts.len() {
        let part = &parts[i];
        if topics.has(part.topic().as_slice()) {
            outputs.push(Output {
                name: &names[i],
                part,
            })?;
        }
    }
    Ok(outputs)
}

/// Takes the claims of these partitions, in their order.
pub(crate) fn take_outputs<'a>(
    alloc: Global,
    tables: &Tables<'_, '_, '_, '_, '_, 'a>,
    outputs: &[Output<'a>],
) -> Result<Walk<'a>, AllocError>
    ensures { (a : Application) → AreTables a tables.now → IfOk result (λ walk. HasWalked a begun (plain_walk walk) (flat_map output_claims outputs.now)) }
{
    let mut walk = Walk {
        best: None,
        below: Vec::new(alloc),
    };
    for i in 0..outputs.len() {
        take_part(&mut walk, tables, outputs[i].name, outputs[i].part)?;
    }
    Ok(walk)
}
