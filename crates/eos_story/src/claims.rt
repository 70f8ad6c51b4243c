//! Rows of the claims of an input, and of what became of them.

ghost use Rattle.std.specs.Prelude.{◌≡◌, ◌∷◌, [], IfOk, OnOk, All, length};
ghost use Rattle.eos_sought.specs.declared.sought.Sought.TheVariants.{Hidden};
ghost use Rattle.eos_base.specs.Members.{Has};
ghost use Rattle.eos_sought.specs.Finds.{all_of};
ghost use Rattle.eos_story.specs.Answers.{IsDecided, IsEndingShown, IsEndShown};
ghost use Rattle.eos_story.specs.Questions.{Claims, unseen};
ghost use Rattle.eos_story.specs.steps.Claims.{IsClaimTold, AreClaimsTold};
ghost use Rattle.eos_story.specs.steps.Telling.{Tells, TellsEach};

use crate::batches::push_first;
use crate::copies::copy_place;
use crate::records::{count_of, push_find, push_rest, push_shown};
use crate::row::Row;
use crate::scene::Scene;
use eos_base::PartitionName;
use eos_claims::Place;
use eos_sought::{Find, Placed, Sought, Wanted, find_records};
use std::alloc::AllocError;

/// Adds the decision of an end marker, if there is one.
fn push_decision(
    scene: &Scene<'_>,
    rows: &mut Vec<Row>,
    producer: i64,
    marker: Option<Placed>,
) -> Result<(), AllocError>
    ensures { OnOk result (Tells scene.now rows.old.items rows.new.items (IsDecided scene.now.logs.now producer marker)) }
{
    let Some(marker) = marker else {
        return Ok(());
    };
    let epoch = marker.standing.head.epoch;
    let decided = Sought::Deciding { producer, epoch };
    let count = push_shown(scene, rows, &decided, 1);
    drop(decided);
    count?;
    Ok(())
}

/// Adds the end of the transaction of a record: the next marker of its producer id, and the decision of it.
fn push_fate(
    scene: &Scene<'_>,
    rows: &mut Vec<Row>,
    name: &PartitionName,
    producer: i64,
    offset: u64,
) -> Result<(), AllocError>
    ensures { OnOk result (Tells scene.now rows.old.items rows.new.items (IsEndingShown scene.now.logs.now name.now producer offset)) }
{
    let wanted = Wanted::Ending {
        producer,
        from: offset,
    };
    let marker = push_first(scene, rows, name, wanted)?;
    push_decision(scene, rows, producer, marker)?;
    Ok(())
}

/// Adds the end of the transaction of a record, if it is in one.
fn push_end(scene: &Scene<'_>, rows: &mut Vec<Row>, find: &Find) -> Result<(), AllocError>
    ensures { OnOk result (Tells scene.now rows.old.items rows.new.items (IsEndShown scene.now.logs.now find.now.partition find.now.item.offset find.now.item.writer)) }
{
    match find.item.writer {
        None => Ok(()),
        Some((producer, _)) => {
            push_fate(scene, rows, &find.partition, producer, find.item.offset)
        }
    }
}

/// Adds a claim, and the end of its transaction.
fn push_claim(
    scene: &Scene<'_>,
    rows: &mut Vec<Row>,
    sought: &Sought,
    find: &Find,
) -> Result<(), AllocError>
    requires { Has (all_of sought.now scene.now.logs.now) find.now }
    ensures { OnOk result (Tells scene.now rows.old.items rows.new.items (IsClaimTold scene.now.logs.now sought.now find.now rows.old.items)) }
{
    push_find(scene, rows, sought, find)?;
    push_end(scene, rows, find)?;
    Ok(())
}

fn push_each(
    scene: &Scene<'_>,
    rows: &mut Vec<Row>,
    sought: &Sought,
    finds: &[Find],
) -> Result<(), AllocError>
    requires { All (Has (all_of sought.now scene.now.logs.now)) finds.now }
    ensures { OnOk result (Tells scene.now rows.old.items rows.new.items (AreClaimsTold scene.now.logs.now sought.now finds.now)) }
{
    for find in finds {
        push_claim(scene, rows, sought, find)?;
    }
    Ok(())
}

/// Adds the first claims that are sought, so many at most, each with the end of its transaction, and how many more there are, or
/// that there is none.
pub(crate) fn push_claims(
    scene: &Scene<'_>,
    rows: &mut Vec<Row>,
    sought: &Sought,
    most: u64,
) -> Result<(), AllocError>
    ensures { OnOk result (TellsEach scene.now rows.old.items rows.new.items (Claims sought.now most ∷ [])) }
{
    let finds = find_records(scene.alloc, scene.logs, sought, most)?;
    push_each(scene, rows, sought, finds.first.as_slice())?;
    push_rest(scene, rows, sought, most, finds.count)?;
    Ok(())
}

/// Adds the first claims of an input that no reader of committed records is given, two at most, each with the end of its
/// transaction, and how many more there are; nothing where there is none.
pub(crate) fn push_unseen(
    scene: &Scene<'_>,
    rows: &mut Vec<Row>,
    place: Place,
) -> Result<(), AllocError>
    ensures { OnOk result (TellsEach scene.now rows.old.items rows.new.items (unseen scene.now.logs.now place)) }
{
    if count_hidden(scene, &place)? == 0 {
        return Ok(());
    }
    let hidden = Sought::Hidden(place);
    let told = push_claims(scene, rows, &hidden, 2);
    drop(hidden);
    told?;
    Ok(())
}

fn count_hidden(scene: &Scene<'_>, place: &Place) -> Result<u64, AllocError>
    ensures { IfOk result (λ count. count ≡ length (all_of (Hidden place.now) scene.now.logs.now)) }
{
    let place = copy_place(place)?;
    let sought = Sought::Hidden(place);
    let count = count_of(scene, &sought);
    drop(sought);
    count
}
