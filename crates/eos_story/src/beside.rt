//! Rows that a kind of fault of an output has beside the others: of an output that is there the commits of its transaction, of one
//! that is missing the claims that name it in another layout.

ghost use Rattle.std.specs.Prelude.{◌≡◌, ◌++◌, ◌∷◌, [], IfOk, OnOk, Some, slice_get};
ghost use Rattle.std.specs.List.{filter, list_any};
ghost use Rattle.eos_sought.specs.Finds.{all_of};
ghost use Rattle.eos_sought.specs.declared.sought.Sought.TheVariants.{At, Alike};
ghost use Rattle.eos_story.specs.Listings.{is_same_name, listed_by as listed_in, epoch_after as after};
ghost use Rattle.eos_story.specs.Questions.{is_of_offsets as is_of_offsets_log, decision, offsets_among, owed_of, owed_by, writer_of, owed_at, any_of, beside};
ghost use Rattle.eos_story.specs.steps.Telling.{TellsEach};

use crate::copies::{copy_name, copy_place};
use crate::decisions::{decided_names, epoch_after, listed_by, push_each};
use crate::records::{count_of, first_found, push_counted};
use crate::row::Row;
use crate::scene::Scene;
use eos_base::PartitionName;
use eos_claims::{OutputFault, OutputKind, Place};
use eos_sought::{Find, Sought, Wanted};
use std::alloc::{AllocError, Global};

// ---- the commits of an output's transaction

/// Whether a partition is of the offsets log.
pub fn is_of_offsets(name: &PartitionName) -> bool
    ensures { result ≡ is_of_offsets_log name.now }
{
    name.topic
        .as_slice()
        .cmp(b"__consumer_offsets".as_slice())
        .is_eq()
}

fn is_same_name(a: &PartitionName, b: &PartitionName) -> bool
    ensures { result ≡ is_same_name a.now b.now }
{
    a.topic.as_slice().cmp(b.topic.as_slice()).is_eq() && a.partition == b.partition
}

fn has_name(names: &[PartitionName], name: &PartitionName) -> bool
    ensures { result ≡ list_any (is_same_name name.now) names.now }
{
    for other in names {
        if is_same_name(name, other) {
            return true;
        }
    }
    false
}

/// Whether a record of the transaction log lists a partition.
///
/// # Errors
/// Only want of memory.
pub fn lists(alloc: Global, find: &Find, name: &PartitionName) -> Result<bool, AllocError>
    ensures { IfOk result (λ is. is ≡ list_any (is_same_name name.now) (listed_in (Some find.now))) }
{
    let names = listed_by(alloc, find)?;
    Ok(has_name(names.as_slice(), name))
}

fn keep_offsets(kept: &mut Vec<PartitionName>, name: &PartitionName) -> Result<(), AllocError>
    ensures { OnOk result (kept.new.items ≡ kept.old.items ++ offsets_among (name.now ∷ [])) }
{
    if is_of_offsets(name) {
        kept.push(copy_name(name)?)?;
    }
    Ok(())
}

fn offsets_among(alloc: Global, names: &[PartitionName]) -> Result<Vec<PartitionName>, AllocError>
    ensures { IfOk result (λ kept. kept.items ≡ offsets_among names.now) }
{
    let mut kept = Vec::new(alloc);
    for name in names {
        keep_offsets(&mut kept, name)?;
    }
    Ok(kept)
}

/// The partitions of the offsets log that the decision of the transaction of this producer id and epoch lists.
fn owed_names(
    scene: &Scene<'_>,
    producer: i64,
    epoch: i16,
) -> Result<Vec<PartitionName>, AllocError>
    ensures { IfOk result (λ names. names.items ≡ offsets_among (listed_in (decision producer (after epoch) scene.now.logs.now))) }
{
    let names = decided_names(scene, producer, epoch_after(epoch))?;
    offsets_among(scene.alloc, names.as_slice())
}

/// In each of them the first data of the transaction.
fn push_owed_of(
    scene: &Scene<'_>,
    rows: &mut Vec<Row>,
    producer: i64,
    epoch: i16,
) -> Result<(), AllocError>
    ensures { OnOk result (TellsEach scene.now rows.old.items rows.new.items (owed_of scene.now.logs.now producer epoch)) }
{
    let names = owed_names(scene, producer, epoch)?;
    let wanted = Wanted::Data { producer, epoch };
    push_each(scene, rows, names.as_slice(), wanted)?;
    Ok(())
}

fn push_owed(
    scene: &Scene<'_>,
    rows: &mut Vec<Row>,
    writer: Option<(i64, i16)>,
) -> Result<(), AllocError>
    ensures { OnOk result (TellsEach scene.now rows.old.items rows.new.items (owed_by scene.now.logs.now writer)) }
{
    match writer {
        None => Ok(()),
        Some((producer, epoch)) => push_owed_of(scene, rows, producer, epoch),
    }
}

fn writer_of(finds: &[Find]) -> Option<(i64, i16)>
    ensures { result ≡ writer_of (slice_get finds.now 0) }
{
    if finds.is_empty() {
        return None;
    }
    finds[0].item.writer
}

/// Who wrote the record of this place, in a transaction.
fn writer_at(scene: &Scene<'_>, place: &Place) -> Result<Option<(i64, i16)>, AllocError>
    ensures { IfOk result (λ writer. writer ≡ writer_of (slice_get (all_of (At place.now) scene.now.logs.now) 0)) }
{
    let place = copy_place(place)?;
    let found = first_found(scene, Sought::At(place))?;
    Ok(writer_of(found.as_slice()))
}

fn push_owed_by(scene: &Scene<'_>, rows: &mut Vec<Row>, place: &Place) -> Result<(), AllocError>
    ensures { OnOk result (TellsEach scene.now rows.old.items rows.new.items (owed_at scene.now.logs.now (Some place.now))) }
{
    let writer = writer_at(scene, place)?;
    push_owed(scene, rows, writer)?;
    Ok(())
}

/// Of the transaction of the record of this place.
fn push_owed_at(
    scene: &Scene<'_>,
    rows: &mut Vec<Row>,
    at: &Option<Place>,
) -> Result<(), AllocError>
    ensures { OnOk result (TellsEach scene.now rows.old.items rows.new.items (owed_at scene.now.logs.now at.now)) }
{
    match at {
        None => Ok(()),
        Some(place) => push_owed_by(scene, rows, place),
    }
}

// ---- claims in another layout

/// Adds the first data records that are sought, so many at most, and how many more there are; nothing where there is none.
fn push_any(
    scene: &Scene<'_>,
    rows: &mut Vec<Row>,
    sought: &Sought,
    most: u64,
) -> Result<(), AllocError>
    ensures { OnOk result (TellsEach scene.now rows.old.items rows.new.items (any_of scene.now.logs.now sought.now most)) }
{
    if count_of(scene, sought)? == 0 {
        return Ok(());
    }
    push_counted(scene, rows, sought, most)?;
    Ok(())
}

fn push_alike(
    scene: &Scene<'_>,
    rows: &mut Vec<Row>,
    place: &Place,
    output: u32,
) -> Result<(), AllocError>
    ensures { OnOk result (TellsEach scene.now rows.old.items rows.new.items (any_of scene.now.logs.now (Alike place.now output) 2)) }
{
    let named = copy_place(place)?;
    let alike = Sought::Alike {
        place: named,
        output,
    };
    let told = push_any(scene, rows, &alike, 2);
    drop(alike);
    told?;
    Ok(())
}

// ---- by kind

/// Adds what the kind of a fault of an output is asked beside.
pub(crate) fn push_beside(
    scene: &Scene<'_>,
    rows: &mut Vec<Row>,
    fault: &OutputFault,
) -> Result<(), AllocError>
    ensures { OnOk result (TellsEach scene.now rows.old.items rows.new.items (beside scene.now.logs.now fault.now fault.now.kind)) }
{
    match fault.kind {
        OutputKind::Early | OutputKind::OtherTransaction => push_owed_at(scene, rows, &fault.at),
        OutputKind::Missing => push_alike(scene, rows, &fault.source, fault.output),
        _ => Ok(()),
    }
}
