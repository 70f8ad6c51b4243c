//! Whether a partition's log is as the decisions want it, for the quick walk.

ghost use Rattle.std.specs.Prelude.{◌≡◌, true, map, IfOk, IsPermutation};
ghost use Rattle.eos_base.specs.Members.{Has};
ghost use Rattle.eos_table.specs.steps.Wanted.{marker_end, close_end, AreWithin, Agrees};

use eos_base::in_order;
use eos_batch::Marker;
use eos_fold::Close;
use eos_kept::Part;
use std::alloc::{AllocError, Global};

/// The first place from this one on whose close is not less, where they stand in order.
fn first_from(closes: &[Close], from: usize, close: &Close) -> usize {
    let mut place = from;
    while place < closes.len() && closes[place].order(close).is_lt() {
        place += 1;
    }
    place
}

fn is_at(closes: &[Close], place: usize, close: &Close) -> bool
    ensures { result ≡ true → Has closes.now close.now }
{
    match closes.get(place) {
        None => false,
        Some(there) => there.order(close).is_eq(),
    }
}

/// Whether the few are among the many, by one walk along both. Where one of them isn't in order, no says nothing.
fn are_within(few: &[Close], many: &[Close]) -> bool
    ensures { result ≡ true → AreWithin few.now many.now }
{
    let mut place = 0;
    for close in few {
        place = first_from(many, place, close);
        if !is_at(many, place, close) {
            return false;
        }
    }
    true
}

/// Whether both are the same as sets. Where one of them isn't in order, no says nothing.
fn are_same(ends: &[Close], others: &[Close]) -> bool
    ensures there { result ≡ true → AreWithin ends.now others.now }
    ensures back { result ≡ true → AreWithin others.now ends.now }
{
    if !are_within(ends, others) {
        return false;
    }
    are_within(others, ends)
}

/// The end markers in order, each as a close of data of its own epoch.
fn markers_in_order(alloc: Global, markers: &[Marker]) -> Result<Vec<Close>, AllocError>
    ensures { IfOk result (λ v. IsPermutation (map marker_end markers.now) v.items) }
{
    let mut ends = Vec::new(alloc);
    for marker in markers {
        ends.push(Close {
            producer: marker.producer,
            epoch: marker.epoch,
            marker_epoch: marker.epoch,
            kind: marker.kind,
        })?;
    }
    Ok(in_order(ends))
}

/// In order, and in the same form, the end markers with which the transactions of these closes end.
fn ends_in_order(alloc: Global, closes: &[Close]) -> Result<Vec<Close>, AllocError>
    ensures { IfOk result (λ v. IsPermutation (map close_end closes.now) v.items) }
{
    let mut ends = Vec::new(alloc);
    for close in closes {
        ends.push(Close {
            producer: close.producer,
            epoch: close.marker_epoch,
            marker_epoch: close.marker_epoch,
            kind: close.kind,
        })?;
    }
    Ok(in_order(ends))
}

/// Whether the log of a part is as is wanted there. The closes are put in order, as then mostly are their markers.
pub(crate) fn agrees(alloc: Global, wanted: &[Close], part: &Part) -> Result<bool, AllocError>
    ensures { IfOk result (λ yes. yes ≡ true → Agrees wanted.now part.now) }
{
    let copied = Vec::from_slice(alloc, wanted)?;
    let there = in_order(copied);
    if !are_within(part.closes(), there.as_slice()) {
        return Ok(false);
    }
    let ends = ends_in_order(alloc, there.as_slice())?;
    let markers = markers_in_order(alloc, part.markers())?;
    Ok(are_same(markers.as_slice(), ends.as_slice()))
}
