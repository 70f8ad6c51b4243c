//! The rows of a drawing.

ghost use Rattle.std.specs.Prelude.{◌≡◌, ◌≤◌, ◌<◌, ◌++◌, ℕ, List, length, slice_get, OnOk};
ghost use Rattle.std.specs.Option.{option_copied};
ghost use Rattle.eos_picture.specs.Titles.{mark_offset, time_at};
ghost use Rattle.eos_picture.specs.Told.{tellings, AreTold};
ghost use Rattle.eos_picture.specs.steps.Tellings.{IsToldIf};

use crate::canvas::{Canvas, moved};
use crate::cells::{
    Cell, DrawnRow, Room, cells_of, column_in, empty_cells, offset_of, pitch_of, put_mark, room_of,
};
use crate::labels::{commit_label, labelled, name_label, passed_label};
use crate::plan::{CHARACTER, NAME, Plan};
use crate::told::{Marked, time_at, told_of};
use crate::{Column, Look, Mark, Point, Row, Sign, Size};
use eos_batch::Kind;
use eos_fold::Fate;
use eos_text::push_text;
use std::alloc::{AllocError, Global};

/// The height of a box.
const BOX: u64 = 16;

/// The room of an end marker.
const DIAMOND: Size = Size {
    width: 14,
    height: 14,
};

// ---- how marks look

fn kind_look(kind: Kind, commit: Look, abort: Look) -> Look {
    match kind {
        Kind::Commit => commit,
        Kind::Abort => abort,
    }
}

fn fate_look(fate: Fate, held: Look, aborted: Look, open: Look) -> Look {
    match fate {
        Fate::Plain | Fate::Committed => held,
        Fate::Aborted => aborted,
        Fate::Waiting(_) => open,
    }
}

/// How a mark looks in a cell in which an end marker is missing, or not: then its data are open, whatever marker comes later.
fn sign_look(sign: &Sign, is_open: bool) -> Look {
    match sign {
        Sign::Record { .. } | Sign::Commit { .. } if is_open => Look::Open,
        Sign::Decision { kind, .. } => kind_look(*kind, Look::Committed, Look::Aborted),
        Sign::Record { fate, .. } | Sign::Commit { fate, .. } => {
            fate_look(*fate, Look::Committed, Look::Aborted, Look::Open)
        }
        Sign::Passed { fate, .. } => {
            fate_look(*fate, Look::Passed, Look::NotPassed, Look::NotPassed)
        }
        Sign::Marker { kind, .. } => kind_look(*kind, Look::CommitMarker, Look::AbortMarker),
        Sign::Missing(_) => Look::Missing,
        Sign::Spot(_) => Look::Page,
    }
}

fn words_on(look: Look) -> Look {
    match look {
        Look::Committed => Look::LightWords,
        _ => Look::Words,
    }
}

/// What stands in the box of a sign, of at most so many characters where it is a line.
fn words_of(alloc: Global, sign: &Sign, most: usize) -> Result<String, AllocError> {
    match sign {
        Sign::Decision { offset, .. } | Sign::Record { offset, .. } => labelled(alloc, "", offset),
        Sign::Commit {
            source,
            committed,
            ..
        } => commit_label(alloc, source, *committed, most),
        Sign::Passed { from, to, .. } => passed_label(alloc, from, to),
        Sign::Spot(Some(offset)) => labelled(alloc, "", offset),
        Sign::Spot(None) | Sign::Marker { .. } | Sign::Missing(_) => String::from_str(alloc, "?"),
    }
}

// ---- marks

/// A ring around a place of the fault, and its offset below it.
fn draw_ring(canvas: &mut Canvas, at: Point, size: Size, mark: &Mark) -> Result<(), AllocError>
    ensures { OnOk result (tellings canvas.new.shapes.items ≡ tellings canvas.old.shapes.items) }
{
    canvas.ring(at, size)?;
    if let Some(offset) = offset_of(mark) {
        let text = labelled(canvas.alloc, ":", &offset)?;
        let below = moved(at, 0, size.height.saturating_add(14));
        canvas.text(below, text, Look::FaultWords)?;
    }
    Ok(())
}

/// An end marker, by its upper corner and that of its room.
fn draw_marker(
    canvas: &mut Canvas,
    place: DrawnRow<'_>,
    at: Point,
    corner: Point,
    mark: &Mark,
) -> Result<(), AllocError>
    ensures { OnOk result (tellings canvas.new.shapes.items ≡ tellings canvas.old.shapes.items) }
{
    canvas.diamond(at, sign_look(&mark.sign, false))?;
    draw_count(
        canvas,
        moved(corner, 0, place.pitch.saturating_sub(2)),
        &mark.sign,
    )?;
    if mark.is_of_fault {
        draw_ring(canvas, corner, DIAMOND, mark)?;
    }
    Ok(())
}

/// How many there are, where there is more than one.
fn draw_count(canvas: &mut Canvas, at: Point, sign: &Sign) -> Result<(), AllocError>
    ensures { OnOk result (tellings canvas.new.shapes.items ≡ tellings canvas.old.shapes.items) }
{
    if let Sign::Marker { count, .. } = sign {
        if *count > 1 {
            let text = labelled(canvas.alloc, "x", count)?;
            return canvas.text(at, text, Look::Words);
        }
    }
    Ok(())
}

/// A box with a text.
fn draw_box(
    canvas: &mut Canvas,
    at: Point,
    size: Size,
    mark: &Mark,
    is_open: bool,
) -> Result<(), AllocError>
    ensures { OnOk result (tellings canvas.new.shapes.items ≡ tellings canvas.old.shapes.items) }
{
    let width = size.width;
    let look = sign_look(&mark.sign, is_open);
    canvas.rectangle(at, size, look)?;
    let text = words_of(canvas.alloc, &mark.sign, (width / CHARACTER) as usize)?;
    canvas.text(moved(at, 4, 12), text, words_on(look))?;
    if mark.is_of_fault {
        draw_ring(canvas, at, size, mark)?;
    }
    Ok(())
}

/// How large a box is.
fn box_size(plan: &Plan, mark: &Mark) -> Size {
    let width = match room_of(&mark.sign) {
        Room::Line => plan.column.saturating_sub(36),
        Room::Box | Room::Edge => plan.record,
    };
    Size { width, height: BOX }
}

/// Draws a mark in the column at this place, in a cell of which so much is drawn, and gives the corner and the size of what is drawn.
fn draw_shape(
    canvas: &mut Canvas,
    place: DrawnRow<'_>,
    column: usize,
    mark: &Mark,
    drawn: Cell,
) -> Result<(Point, Size), AllocError>
    requires { column < length place.cells.now }
    ensures { OnOk result (tellings canvas.new.shapes.items ≡ tellings canvas.old.shapes.items) }
{
    let all = place.cells[column];
    let at = match room_of(&mark.sign) {
        Room::Box => place.next_box(column, drawn),
        Room::Line => place.next_line(column, all, drawn),
        Room::Edge => {
            let at = place.next_marker(column, drawn);
            let corner = Point {
                x: at.x.saturating_sub(DIAMOND.width / 2),
                y: at.y,
            };
            draw_marker(canvas, place, at, corner, mark)?;
            return Ok((corner, DIAMOND));
        }
    };
    let size = box_size(place.plan, mark);
    draw_box(canvas, at, size, mark, all.is_open)?;
    Ok((at, size))
}

/// A row, the transactions of its picture, and the times of its records.
#[derive(Clone, Copy)]
pub(crate) struct Telling<'a> {
    pub columns: &'a [Column],
    pub row: &'a Row,
    pub times: &'a [(u64, i64)],
}

impl<'a> Telling<'a> {
    /// A mark of the row, with what is told of it.
    fn marked(self, mark: &'a Mark) -> Marked<'a>
        ensures name { result.name.now ≡ self.entry.row.now.name }
        ensures column { option_copied result.column ≡ slice_get self.entry.columns.now mark.now.column }
        ensures time { result.time ≡ time_at self.entry.times.now (mark_offset mark.now) }
        ensures mark { result.mark.now ≡ mark.now }
    {
        Marked {
            name: &self.row.name,
            mark,
            column: self.columns.get(mark.column),
            time: time_at(self.times, offset_of(mark)),
        }
    }
}

/// Draws the mark and what is told of it, if there is room; a mark of the fault always has some.
fn draw_if_room(
    canvas: &mut Canvas,
    place: DrawnRow<'_>,
    column: usize,
    marked: Marked<'_>,
    drawn: Cell,
) -> Result<(), AllocError>
    requires { column < length place.cells.now }
    ensures { OnOk result (IsToldIf (tellings canvas.old.shapes.items) marked.entry.name.now (option_copied marked.entry.column) marked.entry.time marked.entry.mark.now (tellings canvas.new.shapes.items)) }
{
    if drawn.is_full(marked.mark) {
        return Ok(());
    }
    let (at, size) = draw_shape(canvas, place, column, marked.mark, drawn)?;
    let text = told_of(canvas.alloc, marked, place.cells[column].is_open)?;
    canvas.told(at, size, text)?;
    Ok(())
}

fn draw_marks(canvas: &mut Canvas, place: DrawnRow<'_>, told: Telling<'_>) -> Result<(), AllocError>
    requires { 1 ≤ length place.cells.now }
    ensures { OnOk result ((texts : List (List ℕ)) × (tellings canvas.new.shapes.items ≡ tellings canvas.old.shapes.items ++ texts) × AreTold told.entry.row.now.name told.entry.columns.now told.entry.times.now told.entry.row.now.marks.items texts) }
{
    let columns = place.cells.len();
    let mut drawn = empty_cells(canvas.alloc, columns)?;
    let marks = told.row.marks.as_slice();
    for mark in marks {
        let column = column_in(mark, columns);
        draw_if_room(canvas, place, column, told.marked(mark), drawn[column])?;
        put_mark(&mut drawn, column, mark);
    }
    Ok(())
}

fn draw_more(canvas: &mut Canvas, at: Point, left_out: u64) -> Result<(), AllocError>
    ensures { OnOk result (tellings canvas.new.shapes.items ≡ tellings canvas.old.shapes.items) }
{
    let mut text = labelled(canvas.alloc, ".. and ", &left_out)?;
    push_text(&mut text, " more")?;
    canvas.text(at, text, Look::Remark)
}

/// How many are left out, in each cell where some are.
fn draw_left_out(canvas: &mut Canvas, place: DrawnRow<'_>) -> Result<(), AllocError>
    ensures { OnOk result (tellings canvas.new.shapes.items ≡ tellings canvas.old.shapes.items) }
{
    for column in 0..place.cells.len() {
        let cell = place.cells[column];
        if cell.left_out > 0 {
            let at = place.next_line(column, cell, cell);
            draw_more(canvas, moved(at, 4, 12), cell.left_out)?;
        }
    }
    Ok(())
}

/// The name of a row, and the line below it.
fn draw_frame(
    canvas: &mut Canvas,
    place: DrawnRow<'_>,
    row: &Row,
    bottom: u64,
) -> Result<(), AllocError>
    ensures { OnOk result (tellings canvas.new.shapes.items ≡ tellings canvas.old.shapes.items) }
{
    let at = Point {
        x: 10,
        y: place.top.saturating_add(18),
    };
    let name = name_label(canvas.alloc, &row.name, NAME)?;
    canvas.text(at, name, Look::Words)?;
    let from = Point { x: 10, y: bottom };
    let to = Point {
        x: place.plan.right(),
        y: bottom,
    };
    canvas.line(from, to, Look::Row)
}

/// Draws a row from this height on, and gives the height where it ends.
pub(crate) fn draw_row(
    canvas: &mut Canvas,
    plan: &Plan,
    top: u64,
    told: Telling<'_>,
) -> Result<u64, AllocError>
    requires { 1 ≤ plan.now.columns }
    ensures { OnOk result ((texts : List (List ℕ)) × (tellings canvas.new.shapes.items ≡ tellings canvas.old.shapes.items ++ texts) × AreTold told.entry.row.now.name told.entry.columns.now told.entry.times.now told.entry.row.now.marks.items texts) }
{
    let row = told.row;
    let cells = cells_of(canvas.alloc, plan.columns, row)?;
    let place = DrawnRow {
        plan,
        top,
        pitch: pitch_of(row),
        cells: cells.as_slice(),
    };
    let bottom = place.bottom();
    draw_frame(canvas, place, row, bottom)?;
    draw_marks(canvas, place, told)?;
    draw_left_out(canvas, place)?;
    Ok(bottom)
}
