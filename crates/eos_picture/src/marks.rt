//! The marks of a row: which are of the fault, and the places of the fault at which none stands.

ghost use Rattle.std.specs.Prelude.{◌≡◌, ◌<◌, Some, length, slice_get, IfSome, OnOk};
ghost use Rattle.eos_fold.specs.Parts.{PartLog};
ghost use Rattle.eos_picture.specs.Marks.{IsTrueAt, IsTrueOf, AreTrue};
ghost use Rattle.eos_picture.specs.Signs.{IsOfWriter};
ghost use Rattle.eos_picture.specs.Whole.{IsAt, Shows};
ghost use Rattle.eos_picture.specs.steps.Kept.{Keeps};

use crate::ends::{End, count_ends, first_end, first_end_of, has_end};
use crate::growing::put;
use crate::mark::{Column, Mark, Sign};
use crate::named::is_named;
use crate::passes::Pass;
use crate::spots::{At, Spot};
use crate::window::{column_of, is_written_by};
use eos_commits::is_visible;
use eos_kept::Part;
use std::alloc::AllocError;

/// What a row is made of.
#[derive(Clone, Copy)]
pub(crate) struct Scene<'a> {
    /// The transactions that are shown.
    pub columns: &'a [Column],
    pub passes: &'a [Pass<'a>],
    pub spots: &'a [Spot],
    pub logs: &'a [Part],
}

// ---- what is of the fault

/// Whether this sign of the transaction is at this place.
fn is_at(at: At, column: &Column, sign: &Sign) -> bool {
    match at {
        At::Offset(place) => match sign {
            Sign::Decision { offset, .. }
            | Sign::Record { offset, .. }
            | Sign::Commit { offset, .. } => place == *offset,
            _ => false,
        },
        At::Transaction { producer, epoch } => match sign {
            Sign::Record { .. } | Sign::Commit { .. } | Sign::Marker { .. } | Sign::Missing(_) => {
                is_written_by(column, (producer, epoch))
            }
            _ => false,
        },
        At::Open { producer, epoch } => {
            matches!(sign, Sign::Missing(_)) && is_written_by(column, (producer, epoch))
        }
        At::Marker { end, .. } => match sign {
            Sign::Marker { kind, .. } => end.kind == *kind && has_end(column, end),
            _ => false,
        },
        At::Passing(place) => match sign {
            Sign::Passed { fate, from, to } => is_visible(*fate) && is_within(place, *from, *to),
            _ => false,
        },
        At::Near(_) => false,
    }
}

fn is_within(offset: u64, from: i64, to: i64) -> bool {
    (from < 0 || from as u64 <= offset) && 0 < to && offset < to as u64
}

/// The place of the fault that the sign is, if it is one.
fn spot_of(scene: Scene<'_>, part: &Part, column: &Column, sign: &Sign) -> Option<At> {
    for spot in scene.spots {
        if is_named(part, &spot.name) && is_at(spot.at, column, sign) {
            return Some(spot.at);
        }
    }
    None
}

/// Whether the fault says of the transaction that its end marker isn't in the partition.
pub(crate) fn is_missed(scene: Scene<'_>, part: &Part, column: &Column) -> bool {
    for spot in scene.spots {
        if let At::Open { producer, epoch } = spot.at {
            if is_named(part, &spot.name) && is_written_by(column, (producer, epoch)) {
                return true;
            }
        }
    }
    false
}

/// Where an end marker stands: at a place of the fault, or else where the first of them does.
fn marker_offset(part: &Part, column: &Column, sign: &Sign, at: Option<At>) -> Option<u64> {
    match (sign, at) {
        (
            Sign::Marker { .. },
            Some(
                At::Marker {
                    offset: Some(offset),
                    ..
                },
            ),
        ) => Some(offset),
        (Sign::Marker { kind, .. }, _) => first_end_of(part, column, *kind),
        _ => None,
    }
}

/// Puts a sign at the end.
pub(crate) fn push_mark(
    marks: &mut Vec<Mark>,
    scene: Scene<'_>,
    part: &Part,
    column: usize,
    sign: Sign,
) -> Result<(), AllocError>
    requires { IsTrueAt part.now (slice_get scene.columns.now column) sign }
    ensures so { AreTrue part.now scene.entry.columns.now marks.old.items → OnOk result (AreTrue part.now scene.entry.columns.now marks.new.items) }
    ensures keeps { OnOk result (Keeps marks.old.items marks.new.items) }
    ensures shows { column < length scene.entry.columns.now → OnOk result (Shows marks.new.items (IsAt column sign)) }
{
    let Some(of) = scene.columns.get(column) else {
        drop(sign);
        return Ok(());
    };
    let at = spot_of(scene, part, of, &sign);
    let offset = marker_offset(part, of, &sign, at);
    let mark = Mark {
        column,
        sign,
        is_of_fault: at.is_some(),
        offset,
    };
    put(marks, mark)
}

// ---- places where nothing stands

fn has_spot(marks: &[Mark], scene: Scene<'_>, at: At) -> bool {
    for mark in marks {
        if let Some(column) = scene.columns.get(mark.column) {
            if is_at(at, column, &mark.sign) {
                return true;
            }
        }
    }
    false
}

/// The places of the fault in the partition at which nothing stands.
pub(crate) fn push_spots(
    marks: &mut Vec<Mark>,
    scene: Scene<'_>,
    part: &Part,
) -> Result<(), AllocError>
    ensures so { AreTrue part.now scene.entry.columns.now marks.old.items → OnOk result (AreTrue part.now scene.entry.columns.now marks.new.items) }
    ensures keeps { OnOk result (Keeps marks.old.items marks.new.items) }
{
    for spot in scene.spots {
        push_absent(marks, scene, part, spot)?;
    }
    Ok(())
}

/// Puts the mark of the place at the end, if it is in the partition and nothing stands there.
fn push_absent(
    marks: &mut Vec<Mark>,
    scene: Scene<'_>,
    part: &Part,
    spot: &Spot,
) -> Result<(), AllocError>
    ensures so { AreTrue part.now scene.entry.columns.now marks.old.items → OnOk result (AreTrue part.now scene.entry.columns.now marks.new.items) }
    ensures keeps { OnOk result (Keeps marks.old.items marks.new.items) }
{
    match absent_of(marks.as_slice(), scene, part, spot) {
        None => Ok(()),
        Some(mark) => put(marks, mark),
    }
}

/// The mark of the place, if it is in the partition and nothing stands there.
fn absent_of(marks: &[Mark], scene: Scene<'_>, part: &Part, spot: &Spot) -> Option<Mark>
    ensures { IfSome result (IsTrueOf part.now scene.entry.columns.now) }
{
    if !is_named(part, &spot.name) || has_spot(marks, scene, spot.at) || is_at_end(scene, spot) {
        return None;
    }
    match spot.at {
        At::Offset(offset) => Some(Mark {
            column: scene.columns.len(),
            sign: Sign::Spot(Some(offset)),
            is_of_fault: true,
            offset: None,
        }),
        At::Marker { end, offset } => stray_of(scene, part, end, offset),
        At::Transaction { producer, epoch } => Some(unseen_of(scene, (producer, epoch))),
        At::Open { producer, epoch } => Some(unseen_of(scene, (producer, epoch))),
        At::Passing(_) | At::Near(_) => None,
    }
}

/// Whether it is a place at which an end marker of the fault stands, or one should.
fn is_at_end(scene: Scene<'_>, spot: &Spot) -> bool {
    let At::Offset(place) = spot.at else {
        return false;
    };
    for other in scene.spots {
        let is_there = match other.at {
            At::Marker { offset, .. } => offset == Some(place),
            At::Open { .. } => true,
            _ => false,
        };
        if is_there && other.name == spot.name {
            return true;
        }
    }
    false
}

/// The column of the transaction whose data have this producer id and epoch, or the one behind the last.
fn own_column(columns: &[Column], writer: (i64, i16)) -> usize
    ensures { (c : Column) → slice_get columns.now result ≡ Some c → IsOfWriter (Some c) writer }
{
    match column_of(columns, writer) {
        Some(column) => column,
        None => columns.len(),
    }
}

/// End markers that no transaction was decided to have, with the one whose data have their epoch.
fn stray_of(scene: Scene<'_>, part: &Part, end: End, offset: Option<u64>) -> Option<Mark>
    ensures { IfSome result (IsTrueOf part.now scene.entry.columns.now) }
{
    let count = count_ends(part, end);
    if count == 0 {
        return None;
    }
    Some(Mark {
        column: own_column(scene.columns, (end.producer, end.epoch)),
        sign: Sign::Marker {
            kind: end.kind,
            count,
        },
        is_of_fault: true,
        offset: offset.or(first_end(part, end)),
    })
}

/// What a transaction didn't do, of which nothing says what it should have been.
fn unseen_of(scene: Scene<'_>, writer: (i64, i16)) -> Mark
    ensures { (p : PartLog) → IsTrueOf p scene.entry.columns.now result }
{
    Mark {
        column: own_column(scene.columns, writer),
        sign: Sign::Spot(None),
        is_of_fault: true,
        offset: None,
    }
}
