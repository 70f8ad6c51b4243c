//! How much a cell of a row holds, and where in it what lies.

ghost use Rattle.std.specs.Prelude.{◌≡◌, ◌<◌, ◌≤◌, true, false, length, IfOk};
ghost use Rattle.eos_picture.specs.Titles.{mark_offset};

use crate::canvas::moved;
use crate::plan::{LINE, Plan};
use crate::{Mark, Point, Row, Sign};
use std::alloc::{AllocError, Global};

/// How many records, and how many lines of commits, a cell has at most; but the fault's are always there.
const MOST: u64 = 12;

/// The height of a label under a box.
const LABEL: u64 = 14;

/// Where in a cell a mark lies.
pub(crate) enum Room {
    /// In a box, beside others.
    Box,
    /// In a box of its own line, below those.
    Line,
    /// At the right.
    Edge,
}

pub(crate) fn room_of(sign: &Sign) -> Room {
    match sign {
        Sign::Decision { .. } | Sign::Record { .. } | Sign::Spot(_) => Room::Box,
        Sign::Commit { .. } | Sign::Passed { .. } => Room::Line,
        Sign::Marker { .. } | Sign::Missing(_) => Room::Edge,
    }
}

/// The offset at which the mark's record stands, if it is known.
pub fn offset_of(mark: &Mark) -> Option<u64>
    ensures { result ≡ mark_offset mark.now }
{
    match &mark.sign {
        Sign::Decision { offset, .. } | Sign::Record { offset, .. } | Sign::Commit { offset, .. } =>
            Some(*offset),
        Sign::Spot(offset) => *offset,
        Sign::Marker { .. } => mark.offset,
        Sign::Passed { .. } | Sign::Missing(_) => None,
    }
}

/// What a cell holds: how many boxes with an offset, lines, end markers, and how many of these aren't drawn; and whether an end marker
/// is missing.
#[derive(Clone, Copy)]
pub(crate) struct Cell {
    boxes: u64,
    lines: u64,
    markers: u64,
    pub left_out: u64,
    pub is_open: bool,
}

const EMPTY: Cell = Cell {
    boxes: 0,
    lines: 0,
    markers: 0,
    left_out: 0,
    is_open: false,
};

impl Cell {
    /// Whether there is no room for the mark.
    pub(crate) fn is_full(self, mark: &Mark) -> bool
        ensures { result ≡ true → mark.now.is_of_fault ≡ false }
    {
        let taken = match room_of(&mark.sign) {
            Room::Box => self.boxes,
            Room::Line => self.lines,
            Room::Edge => self.markers,
        };
        MOST <= taken && !mark.is_of_fault
    }

    /// With the mark.
    pub(crate) fn with(self, mark: &Mark) -> Cell {
        let mut cell = self;
        if matches!(mark.sign, Sign::Missing(_)) {
            cell.is_open = true;
        }
        if self.is_full(mark) {
            cell.left_out = self.left_out.saturating_add(1);
            return cell;
        }
        match room_of(&mark.sign) {
            Room::Box => cell.boxes = self.boxes.saturating_add(1),
            Room::Line => cell.lines = self.lines.saturating_add(1),
            Room::Edge => cell.markers = self.markers.saturating_add(1),
        }
        cell
    }

    /// How many lines it takes.
    pub(crate) fn lines(self, plan: &Plan) -> u64 {
        let more = if self.left_out > 0 { 1 } else { 0 };
        plan.lines_of(self.boxes)
            .saturating_add(self.lines)
            .saturating_add(more)
            .max(self.markers)
            .max(1)
    }
}

pub(crate) fn empty_cells(alloc: Global, columns: usize) -> Result<Vec<Cell>, AllocError>
    ensures { IfOk result (λ cells. length cells.items ≡ columns) }
{
    let mut cells = Vec::new(alloc);
    for _ in 0..columns {
        cells.push(EMPTY)?;
    }
    Ok(cells)
}

/// The place of the mark's column among so many that are drawn; the last one stands for those that aren't.
pub(crate) fn column_in(mark: &Mark, columns: usize) -> usize
    requires { 1 ≤ columns }
    ensures { result < columns }
{
    mark.column.min(columns - 1)
}

/// Puts the mark into the cell at this place.
pub(crate) fn put_mark(cells: &mut Vec<Cell>, column: usize, mark: &Mark)
    requires { column < length cells.old.items }
    ensures { length cells.new.items ≡ length cells.old.items }
{
    cells[column] = cells[column].with(mark);
}

/// What each cell of a row holds.
pub(crate) fn cells_of(alloc: Global, columns: usize, row: &Row) -> Result<Vec<Cell>, AllocError>
    requires { 1 ≤ columns }
    ensures { IfOk result (λ cells. length cells.items ≡ columns) }
{
    let mut cells = empty_cells(alloc, columns)?;
    for mark in row.marks.as_slice() {
        let column = column_in(mark, columns);
        put_mark(&mut cells, column, mark);
    }
    Ok(cells)
}

/// The height of a line of the row: more where a place of the fault has its offset below it.
pub(crate) fn pitch_of(row: &Row) -> u64 {
    for mark in row.marks.as_slice() {
        if mark.is_of_fault && offset_of(mark).is_some() {
            return LINE.saturating_add(LABEL);
        }
    }
    LINE
}

/// A row that is drawn: its upper edge, the height of its lines, and what its cells hold.
#[derive(Clone, Copy)]
pub(crate) struct DrawnRow<'a> {
    pub plan: &'a Plan,
    pub top: u64,
    pub pitch: u64,
    pub cells: &'a [Cell],
}

impl DrawnRow<'_> {
    /// The corner of the column's cell.
    fn corner(&self, column: usize) -> Point {
        Point {
            x: self.plan.x_of(column as u64).saturating_add(6),
            y: self.top.saturating_add(6),
        }
    }

    /// Where the next box with an offset lies.
    pub(crate) fn next_box(&self, column: usize, drawn: Cell) -> Point {
        let per_line = self.plan.per_line.max(1);
        let right = drawn.boxes % per_line;
        let down = drawn.boxes / per_line;
        moved(
            self.corner(column),
            right.saturating_mul(self.plan.record.saturating_add(8)),
            down.saturating_mul(self.pitch),
        )
    }

    /// Where the next line lies, below all boxes that the cell holds.
    pub(crate) fn next_line(&self, column: usize, all: Cell, drawn: Cell) -> Point {
        let down = self.plan.lines_of(all.boxes).saturating_add(drawn.lines);
        moved(self.corner(column), 0, down.saturating_mul(self.pitch))
    }

    /// Where the next end marker lies, at the right of the cell.
    pub(crate) fn next_marker(&self, column: usize, drawn: Cell) -> Point {
        moved(
            self.corner(column),
            self.plan.column.saturating_sub(19),
            drawn.markers.saturating_mul(self.pitch).saturating_add(1),
        )
    }

    /// Where the row ends.
    pub(crate) fn bottom(&self) -> u64 {
        let mut lines = 1;
        for cell in self.cells {
            lines = cell.lines(self.plan).max(lines);
        }
        self.top
            .saturating_add(lines.saturating_mul(self.pitch))
            .saturating_add(8)
    }
}
