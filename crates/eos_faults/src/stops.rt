//! What the end of a front shows.

ghost use Rattle.std.specs.Prelude.{◌≡◌, ◌++◌, OnOk, IfOk};
ghost use Rattle.std.specs.List.{flat_map};
ghost use Rattle.std.specs.Ordering.{int_cmp};
ghost use Rattle.std.specs.BTreeMap.{get};
ghost use Rattle.eos_faults.specs.PartitionPlaces.{is_left_open};
ghost use Rattle.eos_faults.specs.steps.Found.{end_at, open_of, found_at};

use crate::shown_by_log::{Shown, push_shown};
use crate::walk::Walk;
use eos_fold::{Stop, is_declared};
use eos_touch::{PartitionFaultKind, Touch, is_open};
use std::alloc::AllocError;
use std::collections::BTreeMap;

/// Whether a producer id whose last touch this is is left open.
fn is_left_open(last: Option<Touch>) -> bool
    ensures { result ≡ is_left_open last }
{
    match last {
        None => false,
        Some(touch) => is_open(touch),
    }
}

fn push_end(shown: &mut Vec<Shown>, next: u64, end: i64) -> Result<(), AllocError>
    ensures { OnOk result (shown.new.items ≡ shown.old.items ++ end_at end next) }
{
    if is_declared(next, end) {
        return Ok(());
    }
    let end = end.unsigned_abs();
    push_shown(shown, next, PartitionFaultKind::End { end })
}

fn push_open_id(
    shown: &mut Vec<Shown>,
    last: &BTreeMap<i64, Touch>,
    next: u64,
    producer: i64,
) -> Result<(), AllocError>
    ensures { OnOk result (shown.new.items ≡ shown.old.items ++ open_of (get int_cmp last.now) next producer) }
{
    if is_left_open(last.get(&producer).copied()) {
        return push_shown(shown, next, PartitionFaultKind::OpenAtEnd { producer });
    }
    Ok(())
}

fn push_open(
    shown: &mut Vec<Shown>,
    last: &BTreeMap<i64, Touch>,
    next: u64,
    ids: &[i64],
) -> Result<(), AllocError>
    ensures { OnOk result (shown.new.items ≡ shown.old.items ++ flat_map (open_of (get int_cmp last.now) next) ids.now) }
{
    for id in ids {
        push_open_id(shown, last, next, *id)?;
    }
    Ok(())
}

/// All that a walk was shown, when its front has ended for this reason.
pub(crate) fn found_of(walk: Walk, stop: Stop, end: i64) -> Result<Vec<Shown>, AllocError>
    ensures { IfOk result (λ found. found.items ≡ walk.shown.items ++ found_at (get int_cmp walk.last) walk.ids.items end walk.next stop) }
{
    let Walk {
        next,
        last,
        ids,
        mut shown,
        ..
    } = walk;
    match stop {
        Stop::NoBatch {
            segment,
            byte,
            fault,
        } => {
            let kind = PartitionFaultKind::BadBatch {
                segment,
                byte,
                batch: fault,
            };
            push_shown(&mut shown, next, kind)?;
        }
        Stop::Elsewhere { found } => {
            push_shown(&mut shown, next, PartitionFaultKind::Gap { found })?;
        }
        Stop::AtEnd => {
            push_end(&mut shown, next, end)?;
            push_open(&mut shown, &last, next, ids.as_slice())?;
        }
    }
    Ok(shown)
}
