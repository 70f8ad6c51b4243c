//! Rows of data records.
//!
//! What is sought has many variants, and the proof goes through all of them at each way out at which it is owned. So it is dropped by a
//! call before these.

ghost use Rattle.std.specs.Prelude.{◌≡◌, ◌∷◌, [], IfOk, OnOk, All, length, slice_get};
ghost use Rattle.eos_base.specs.Members.{Has};
ghost use Rattle.eos_sought.specs.declared.wanted.Wanted.TheVariants.{Holding};
ghost use Rattle.eos_sought.specs.Finds.{all_of};
ghost use Rattle.eos_story.specs.Answers.{StandInOrder, IsRecordRow, AreFirstShown};
ghost use Rattle.eos_story.specs.Questions.{Records, Latest as LatestOf};
ghost use Rattle.eos_story.specs.steps.Telling.{Tells, TellsEach, IsRecordBehind, IsRestTold};

use crate::copies::{copy_find, copy_sought};
use crate::row::{Row, add_row};
use crate::scene::Scene;
use crate::slices::from_on;
use eos_sought::{Find, Placed, Sought, Wanted, batches_of, find_records};
use std::alloc::AllocError;

/// The first of these, if there is one.
pub(crate) fn first_of(found: &[Placed]) -> Option<Placed>
    ensures { result ≡ slice_get found.now 0 }
{
    if found.is_empty() {
        return None;
    }
    Some(found[0])
}

/// How many data records are sought so.
pub(crate) fn count_of(scene: &Scene<'_>, sought: &Sought) -> Result<u64, AllocError>
    ensures { IfOk result (λ count. count ≡ length (all_of sought.now scene.now.logs.now)) }
{
    let finds = find_records(scene.alloc, scene.logs, sought, 0)?;
    Ok(finds.count)
}

/// The first data record that is sought, if there is one.
pub(crate) fn first_found(scene: &Scene<'_>, sought: Sought) -> Result<Vec<Find>, AllocError>
    ensures { IfOk result (λ found. slice_get found.items 0 ≡ slice_get (all_of sought scene.now.logs.now) 0) }
{
    let finds = find_records(scene.alloc, scene.logs, &sought, 1);
    drop(sought);
    Ok(finds?.first)
}

/// Adds a data record that is sought.
pub(crate) fn push_find(
    scene: &Scene<'_>,
    rows: &mut Vec<Row>,
    sought: &Sought,
    find: &Find,
) -> Result<(), AllocError>
    requires { Has (all_of sought.now scene.now.logs.now) find.now }
    ensures { OnOk result (Tells scene.now rows.old.items rows.new.items (IsRecordBehind sought.now find.now rows.old.items)) }
{
    let wanted = Wanted::Holding {
        offset: find.item.offset,
    };
    let found = batches_of(scene.alloc, scene.partitions, &find.partition, wanted)?;
    let spot = first_of(found.as_slice());
    let find = copy_find(find)?;
    let sought = copy_sought(sought)?;
    add_row(scene, rows, Row::Record { sought, find, spot })?;
    Ok(())
}

/// Adds that there are more than are shown, or that there is none, if so.
pub(crate) fn push_rest(
    scene: &Scene<'_>,
    rows: &mut Vec<Row>,
    sought: &Sought,
    shown: u64,
    all: u64,
) -> Result<(), AllocError>
    requires { all ≡ length (all_of sought.now scene.now.logs.now) }
    ensures { OnOk result (Tells scene.now rows.old.items rows.new.items (IsRestTold sought.now shown all)) }
{
    if all == 0 {
        let sought = copy_sought(sought)?;
        add_row(scene, rows, Row::NoRecord { sought })?;
        return Ok(());
    }
    if shown < all {
        let sought = copy_sought(sought)?;
        add_row(scene, rows, Row::MoreRecords { shown, all, sought })?;
        return Ok(());
    }
    Ok(())
}

fn push_finds(
    scene: &Scene<'_>,
    rows: &mut Vec<Row>,
    sought: &Sought,
    finds: &[Find],
) -> Result<(), AllocError>
    requires { All (Has (all_of sought.now scene.now.logs.now)) finds.now }
    ensures { OnOk result (Tells scene.now rows.old.items rows.new.items (StandInOrder (IsRecordRow sought.now) finds.now)) }
{
    for find in finds {
        push_find(scene, rows, sought, find)?;
    }
    Ok(())
}

/// Adds the first data records that are sought, so many at most, and how many more there are, or that there is none; and counts all.
pub(crate) fn push_shown(
    scene: &Scene<'_>,
    rows: &mut Vec<Row>,
    sought: &Sought,
    most: u64,
) -> Result<u64, AllocError>
    ensures count { IfOk result (λ count. count ≡ length (all_of sought.now scene.now.logs.now)) }
    ensures told { OnOk result (Tells scene.now rows.old.items rows.new.items (AreFirstShown scene.now.logs.now sought.now most)) }
{
    let finds = find_records(scene.alloc, scene.logs, sought, most)?;
    push_finds(scene, rows, sought, finds.first.as_slice())?;
    push_rest(scene, rows, sought, most, finds.count)?;
    Ok(finds.count)
}

/// The same, which answers a question.
pub(crate) fn push_counted(
    scene: &Scene<'_>,
    rows: &mut Vec<Row>,
    sought: &Sought,
    most: u64,
) -> Result<u64, AllocError>
    ensures count { IfOk result (λ count. count ≡ length (all_of sought.now scene.now.logs.now)) }
    ensures told { OnOk result (TellsEach scene.now rows.old.items rows.new.items (Records sought.now most ∷ [])) }
{
    let count = push_shown(scene, rows, sought, most)?;
    Ok(count)
}

/// The same, of what is sought for this alone, without the count.
pub(crate) fn push_records(
    scene: &Scene<'_>,
    rows: &mut Vec<Row>,
    sought: Sought,
    most: u64,
) -> Result<(), AllocError>
    ensures { OnOk result (TellsEach scene.now rows.old.items rows.new.items (Records sought most ∷ [])) }
{
    let count = push_counted(scene, rows, &sought, most);
    drop(sought);
    count?;
    Ok(())
}

/// Adds how many data records are sought so, where there are more than so many, or that there is none; and the last of them.
///
/// All of them are held at once: a producer id has some states for each of its epochs, of which there are 32,768 at most.
pub(crate) fn push_latest(
    scene: &Scene<'_>,
    rows: &mut Vec<Row>,
    sought: &Sought,
    most: usize,
) -> Result<(), AllocError>
    ensures { OnOk result (TellsEach scene.now rows.old.items rows.new.items (LatestOf sought.now most ∷ [])) }
{
    let count = find_records(scene.alloc, scene.logs, sought, 0)?.count;
    let finds = find_records(scene.alloc, scene.logs, sought, count)?;
    push_rest(scene, rows, sought, most as u64, count)?;
    let all = finds.first.as_slice();
    let last = from_on(all, all.len().saturating_sub(most));
    push_finds(scene, rows, sought, last)?;
    Ok(())
}

/// The same, of what is sought for this alone.
pub(crate) fn push_last_of(
    scene: &Scene<'_>,
    rows: &mut Vec<Row>,
    sought: Sought,
    most: usize,
) -> Result<(), AllocError>
    ensures { OnOk result (TellsEach scene.now rows.old.items rows.new.items (LatestOf sought most ∷ [])) }
{
    let told = push_latest(scene, rows, &sought, most);
    drop(sought);
    told
}
