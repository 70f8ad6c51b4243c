//! The commits by which a group went past an input.

ghost use Rattle.std.specs.Prelude.{Option, OnOk};
ghost use Rattle.eos_claims.specs.declared.place.Place.{Place as APlace};
ghost use Rattle.eos_picture.specs.steps.Spots.{StartsAt};

use crate::spots::{Spot, name_of, push_offset};
use eos_claims::Place;
use eos_commits::is_visible;
use eos_evidence::App;
use eos_kept::Part;
use eos_sought::{is_of_offsets_log, passes};
use std::alloc::AllocError;

/// The offset of a partition's first visible commit of the application's group that goes past the input.
fn first_past(app: &App, input: &Place, part: &Part) -> Option<u64> {
    let mut items = part.items().cursor();
    while let Some(item) = items.next() {
        if is_visible(item.fate()) && passes(app.group.as_bytes(), input, part, &item) {
            return Some(item.offset());
        }
    }
    None
}

/// Puts the first commit of the application's group that goes past the input at the end of the places.
///
/// # Errors
/// Only want of memory.
pub(crate) fn push_past(
    spots: &mut Vec<Spot>,
    app: &App,
    logs: &[Part],
    input: &Place,
) -> Result<(), AllocError>
    ensures stays { (at : Option APlace) → StartsAt spots.old.items at → OnOk result (StartsAt spots.new.items at) }
{
    for part in logs {
        if is_of_offsets_log(part) {
            if let Some(offset) = first_past(app, input, part) {
                push_offset(spots, name_of(part)?, offset)?;
            }
        }
    }
    Ok(())
}
