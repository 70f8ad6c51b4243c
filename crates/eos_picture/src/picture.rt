//! The picture of an evidence.

ghost use Rattle.std.specs.Prelude.{◌≡◌, [], Some, None, IfOk};
ghost use Rattle.std.specs.Option.{option_copied};
ghost use Rattle.eos_picture.specs.Marks.{HasTrueRows};
ghost use Rattle.eos_picture.specs.Whole.{HasWholeRows};
ghost use Rattle.eos_picture.specs.Window.{IsWindow, place_of};
ghost use Rattle.eos_picture.specs.steps.Spots.{StartsAt};

use crate::chosen::{Wanted, columns_at, columns_shown};
use crate::mark::{Column, Picture, Row};
use crate::marks::Scene;
use crate::passes::passes_of;
use crate::rows::rows_of;
use crate::spots::{Spot, spots_of};
use crate::transactions::columns_of;
use crate::window::middle_of;
use eos_evidence::App;
use eos_kept::Part;
use eos_verdict::Fault;
use std::alloc::{AllocError, Global};

fn spots_in(
    alloc: Global,
    apps: &[App],
    logs: &[Part],
    columns: &[Column],
    fault: Option<&Fault>,
) -> Result<Vec<Spot>, AllocError>
    ensures none { option_copied fault.entry ≡ None → IfOk result (λ spots. spots.items ≡ []) }
    ensures first { (f : Fault) → option_copied fault.entry ≡ Some f → IfOk result (λ spots. StartsAt spots.items (place_of f)) }
{
    match fault {
        None => Ok(Vec::new(alloc)),
        Some(fault) => spots_of(alloc, apps, logs, columns, fault),
    }
}

/// The rows of what these transactions did, with these places of the fault.
fn rows_shown(
    alloc: Global,
    columns: &[Column],
    spots: &[Spot],
    logs: &[Part],
) -> Result<Vec<Row>, AllocError>
    ensures so { IfOk result (λ rows. HasTrueRows logs.now columns.now rows.items) }
    ensures whole { IfOk result (λ rows. HasWholeRows logs.now columns.now rows.items) }
{
    let passes = passes_of(alloc, columns, logs)?;
    let scene = Scene {
        columns,
        passes: passes.as_slice(),
        spots,
        logs,
    };
    rows_of(alloc, scene)
}

/// The picture around a fault of an evidence whose logs these are: so many transactions on each side of the first one that has to do
/// with it, in the order of a partition that they share with it; or where there is no fault, or none of its places is of a transaction, the
/// first of all, twice so many.
///
/// It never fails for what stands in the logs: of a partition whose log has a fault it shows the front.
///
/// # Errors
/// Only want of memory.
pub fn picture_of(
    alloc: Global,
    apps: &[App],
    logs: &[Part],
    fault: Option<&Fault>,
    around: usize,
) -> Result<Picture, AllocError>
    ensures so { IfOk result (λ picture. HasTrueRows logs.now picture.columns.items picture.rows.items) }
    ensures whole { IfOk result (λ picture. HasWholeRows logs.now picture.columns.items picture.rows.items) }
    ensures window { IfOk result (IsWindow logs.now (option_copied fault.entry) around) }
{
    let every = columns_of(alloc, logs)?;
    let spots = spots_in(alloc, apps, logs, every.as_slice(), fault)?;
    let middle = middle_of(every.as_slice(), logs, spots.as_slice());
    let wanted = Wanted { fault, around };
    let places = columns_shown(alloc, every.as_slice(), logs, wanted, middle)?;
    let columns = columns_at(alloc, every.as_slice(), places.as_slice())?;
    let all = every.len();
    drop(every);
    let rows = rows_shown(alloc, columns.as_slice(), spots.as_slice(), logs);
    drop(spots);
    let rows = rows?;
    Ok(Picture {
        columns,
        places,
        all,
        rows,
    })
}
