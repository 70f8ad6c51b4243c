//! What a transaction did in a partition, besides writing data there.

ghost use Rattle.std.specs.Prelude.{◌≡◌, ◌<◌, ℕ, length, slice_get, IfSome, OnOk};
ghost use Rattle.eos_base.specs.Members.{Has};
ghost use Rattle.eos_fold.specs.declared.item.Item.{Item};
ghost use Rattle.eos_picture.specs.Marks.{IsSo, IsTrueAt, AreTrue};
ghost use Rattle.eos_picture.specs.Whole.{ShowsClose};
ghost use Rattle.eos_picture.specs.steps.Acts.{FindsDecision, FindsEnds, FindsMissing, FindsClose, IsShown, ShowsActs};
ghost use Rattle.eos_picture.specs.steps.Kept.{Keeps};

use crate::ends::{End, count_ends, has_data, has_no_end};
use crate::mark::{Column, Mark, Sign};
use crate::marks::{Scene, is_missed, push_mark};
use eos_batch::Kind;
use eos_fold::Close;
use eos_kept::Part;
use eos_table::is_of_transaction_log;
use std::alloc::AllocError;

/// The Prepare record of a transaction, if it is in the partition.
fn decision_of(part: &Part, column: &Column) -> Option<Sign>
    ensures so { IfSome result (IsSo part.now column.now) }
    ensures shows { FindsDecision part.now column.now result }
{
    let decided = column.decided.as_ref()?;
    if !is_of_transaction_log(part) || decided.partition != part.partition() {
        return None;
    }
    Some(Sign::Decision {
        offset: decided.offset,
        kind: decided.kind,
    })
}

/// The end markers of this kind with the epoch that was decided for a transaction.
#[tactic(auto, using(crate::proofs::TrueMarks::marked_true))]
fn ends_of(part: &Part, column: &Column, kind: Kind) -> Option<Sign>
    ensures so { IfSome result (IsSo part.now column.now) }
    ensures shows { FindsEnds part.now.markers column.now kind result }
{
    let decided = column.decided.as_ref()?;
    let end = End {
        producer: column.producer,
        epoch: decided.marker_epoch,
        kind,
    };
    let count = count_ends(part, end);
    if count == 0 {
        return None;
    }
    Some(Sign::Marker { kind, count })
}

/// That there is none, if the transaction has data in the partition, or the fault says so.
#[tactic(auto, using(crate::proofs::TrueMarks::missing_true))]
fn missing_of(scene: Scene<'_>, part: &Part, column: &Column) -> Option<Sign>
    ensures so { IfSome result (IsSo part.now column.now) }
    ensures shows { (x : Item) → Has part.now.items x → FindsMissing part.now.markers column.now x result }
{
    let decided = column.decided.as_ref()?;
    if !has_no_end(part, column.producer, decided.marker_epoch) {
        return None;
    }
    if !is_missed(scene, part, column) && !has_data(part, (column.producer, column.epoch)) {
        return None;
    }
    Some(Sign::Missing(decided.kind))
}

/// The end marker, if it is the next one behind the data of a transaction, and nothing decided that.
#[tactic(auto, using(crate::proofs::TrueMarks::closed_true))]
fn close_of(part: &Part, column: &Column, close: &Close) -> Option<Sign>
    requires { Has part.now.closes close.now }
    ensures so { IfSome result (IsSo part.now column.now) }
    ensures shows { FindsClose part.now.markers column.now close.now result }
{
    if column.decided.is_some()
        || column.producer != close.producer
        || column.epoch != close.epoch
    {
        return None;
    }
    let end = End {
        producer: close.producer,
        epoch: close.marker_epoch,
        kind: close.kind,
    };
    Some(Sign::Marker {
        kind: close.kind,
        count: count_ends(part, end),
    })
}

/// Puts a sign of the transaction at this place at the end, if one is found.
fn push_found(
    marks: &mut Vec<Mark>,
    scene: Scene<'_>,
    part: &Part,
    i: usize,
    found: Option<Sign>,
) -> Result<(), AllocError>
    requires inside { i < length scene.columns.now }
    requires so { IfSome found (IsTrueAt part.now (slice_get scene.columns.now i)) }
    ensures so { AreTrue part.now scene.entry.columns.now marks.old.items → OnOk result (AreTrue part.now scene.entry.columns.now marks.new.items) }
    ensures keeps { OnOk result (Keeps marks.old.items marks.new.items) }
    ensures shows { OnOk result (IsShown marks.new.items i found) }
{
    match found {
        None => {
            drop(found);
            Ok(())
        }
        Some(sign) => push_mark(marks, scene, part, i, sign),
    }
}

/// Those that are the next ones behind its data, if nothing decided the transaction.
fn push_closes(
    marks: &mut Vec<Mark>,
    scene: Scene<'_>,
    part: &Part,
    i: usize,
) -> Result<(), AllocError>
    requires { i < length scene.columns.now }
    ensures so { AreTrue part.now scene.entry.columns.now marks.old.items → OnOk result (AreTrue part.now scene.entry.columns.now marks.new.items) }
    ensures keeps { OnOk result (Keeps marks.old.items marks.new.items) }
    ensures shows { OnOk result ((x : Close) → Has part.now.closes x → ShowsClose part.now.markers scene.entry.columns.now marks.new.items x i) }
{
    let column = &scene.columns[i];
    for close in part.closes() {
        push_found(marks, scene, part, i, close_of(part, column, close))?;
    }
    Ok(())
}

/// All of it, of the transaction at this place.
fn push_of(marks: &mut Vec<Mark>, scene: Scene<'_>, part: &Part, i: usize) -> Result<(), AllocError>
    requires { i < length scene.columns.now }
    ensures so { AreTrue part.now scene.entry.columns.now marks.old.items → OnOk result (AreTrue part.now scene.entry.columns.now marks.new.items) }
    ensures keeps { OnOk result (Keeps marks.old.items marks.new.items) }
    ensures shows { OnOk result (ShowsActs part.now scene.entry.columns.now marks.new.items i) }
{
    let column = &scene.columns[i];
    push_found(marks, scene, part, i, decision_of(part, column))?;
    push_found(marks, scene, part, i, ends_of(part, column, Kind::Commit))?;
    push_found(marks, scene, part, i, ends_of(part, column, Kind::Abort))?;
    push_found(marks, scene, part, i, missing_of(scene, part, column))?;
    push_closes(marks, scene, part, i)?;
    Ok(())
}

/// Puts at the end what each transaction did in a partition.
///
/// # Errors
/// Only want of memory.
pub(crate) fn push_acts(
    marks: &mut Vec<Mark>,
    scene: Scene<'_>,
    part: &Part,
) -> Result<(), AllocError>
    ensures so { AreTrue part.now scene.entry.columns.now marks.old.items → OnOk result (AreTrue part.now scene.entry.columns.now marks.new.items) }
    ensures keeps { OnOk result (Keeps marks.old.items marks.new.items) }
    ensures shows { OnOk result ((i : ℕ) → ShowsActs part.now scene.entry.columns.now marks.new.items i) }
{
    for i in 0..scene.columns.len() {
        push_of(marks, scene, part, i)?;
    }
    Ok(())
}
