//! The visible records of the topics that an application reads.

ghost use Rattle.std.specs.Prelude.{◌≡◌, ◌++◌, map, flat_map, IfOk, OnOk};
ghost use Rattle.eos_claims.specs.Plain.{plain_place};
ghost use Rattle.eos_fold.specs.Parts.{part_name};
ghost use Rattle.eos_lineage.specs.steps.Walks.{input_at, inputs_at};

use eos_base::PartitionName;
use eos_claims::PlaceRef;
use eos_commits::{TopicSet, is_visible};
use eos_kept::{ItemRef, Part};
use std::alloc::{AllocError, Global};

/// Puts the place of a record at the end, if it is visible.
fn push_input<'a>(
    all: &mut Vec<PlaceRef<'a>>,
    name: &'a PartitionName,
    item: &ItemRef<'_>,
) -> Result<(), AllocError>
    ensures { OnOk result (map plain_place all.new.items ≡ map plain_place all.old.items ++ input_at name.now item.now) }
{
    if is_visible(item.fate()) {
        all.push(PlaceRef {
            partition: name,
            offset: item.offset(),
        })?;
    }
    Ok(())
}

/// Puts the places of a partition's visible records at the end, if it is of one of these topics.
fn push_inputs<'a>(
    all: &mut Vec<PlaceRef<'a>>,
    sources: &TopicSet<'_>,
    name: &'a PartitionName,
    part: &Part,
) -> Result<(), AllocError>
    requires { name.now ≡ part_name part.now }
    ensures { OnOk result (map plain_place all.new.items ≡ map plain_place all.old.items ++ inputs_at sources.now part.now) }
{
    if !sources.has(part.topic().as_slice()) {
        return Ok(());
    }
    let mut records = part.items().cursor();
    while let Some(item) = records.next() {
        push_input(all, name, &item)?;
    }
    Ok(())
}

/// The places of the visible records of these topics, in the order of the parts.
pub(crate) fn inputs_of<'a>(
    alloc: Global,
    sources: &TopicSet<'_>,
    names: &'a [PartitionName],
    parts: &[Part],
) -> Result<Vec<PlaceRef<'a>>, AllocError>
    requires { names.now ≡ map part_name parts.now }
    ensures { IfOk result (λ all. map plain_place all.items ≡ flat_map (inputs_at sources.now) parts.now) }
{
    let mut all = Vec::new(alloc);
    for i in 0..parts.len() {
        push_inputs(&mut all, sources, &names[i], &parts[i])?;
    }
    Ok(all)
}
