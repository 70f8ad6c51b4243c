//! How wide what is.

ghost use Rattle.std.specs.Prelude.{◌≤◌, IfOk};

use crate::Picture;
use crate::cells::offset_of;
use crate::headings::{HeadingLine, index_of, line_of};
use crate::labels::{digits, name_label};
use std::alloc::{AllocError, Global};

/// The width of a character, and more.
pub(crate) const CHARACTER: u64 = 7;

/// The height of a line of a cell.
pub(crate) const LINE: u64 = 24;

/// The space around the whole, and between columns.
pub(crate) const GAP: u64 = 10;

/// How many characters a row's name has at most.
pub(crate) const NAME: usize = 40;

/// The widths of a drawing, in pixels.
#[derive(Clone, Copy)]
pub(crate) struct Plan {
    /// Where the first column begins.
    pub left: u64,
    /// Of a column.
    pub column: u64,
    /// How many columns have room, at least one.
    pub columns: usize,
    /// Of a record.
    pub record: u64,
    /// How many records have room side by side, at least one.
    pub per_line: u64,
}

/// The longest name of a row.
fn name_characters(alloc: Global, picture: &Picture) -> Result<usize, AllocError> {
    let mut most = 10;
    for row in picture.rows.as_slice() {
        most = name_label(alloc, &row.name, NAME)?.len().max(most);
    }
    Ok(most)
}

/// The longest line of a heading.
fn heading_characters(alloc: Global, picture: &Picture) -> Result<usize, AllocError> {
    let mut most = 18;
    for i in 0..picture.columns.len() {
        let column = &picture.columns[i];
        let place = index_of(picture, i);
        let id = line_of(alloc, HeadingLine::Id, place, column)?.len();
        let producer = line_of(alloc, HeadingLine::Producer, place, column)?.len();
        let decision = line_of(alloc, HeadingLine::Decision, place, column)?.len();
        most = id.max(producer).max(decision).max(most);
    }
    Ok(most)
}

/// The digits of the greatest offset that is printed.
fn offset_digits(picture: &Picture) -> u64 {
    let mut most = 2;
    for row in picture.rows.as_slice() {
        for mark in row.marks.as_slice() {
            most = digits(offset_of(mark).unwrap_or(0)).max(most);
        }
    }
    most
}

/// How many columns there are: one more where a mark is of none of the transactions.
pub(crate) fn columns_of(picture: &Picture) -> usize
    ensures { 1 ≤ result }
{
    let columns = picture.columns.len();
    for row in picture.rows.as_slice() {
        for mark in row.marks.as_slice() {
            if mark.column >= columns {
                return columns.saturating_add(1);
            }
        }
    }
    columns.max(1)
}

pub(crate) fn plan_of(alloc: Global, picture: &Picture) -> Result<Plan, AllocError>
    ensures { IfOk result (λ plan. 1 ≤ plan.columns) }
{
    let names = name_characters(alloc, picture)?;
    let characters = heading_characters(alloc, picture)?;
    let column = CHARACTER
        .saturating_mul(characters as u64)
        .saturating_add(12);
    let record = CHARACTER
        .saturating_mul(offset_digits(picture))
        .saturating_add(8);
    let room = column.saturating_sub(26);
    let per_line = room / record.saturating_add(8).max(1);
    Ok(Plan {
        left: CHARACTER
            .saturating_mul(names as u64)
            .saturating_add(2 * GAP),
        column,
        columns: columns_of(picture),
        record,
        per_line: per_line.max(1),
    })
}

impl Plan {
    /// Where a column begins.
    pub(crate) fn x_of(&self, column: u64) -> u64 {
        let pitch = self.column.saturating_add(GAP);
        self.left.saturating_add(pitch.saturating_mul(column))
    }

    /// Where the last column ends.
    pub(crate) fn right(&self) -> u64 {
        self.x_of(self.columns as u64)
    }

    /// How many lines so many records take.
    pub(crate) fn lines_of(&self, records: u64) -> u64 {
        let per_line = self.per_line.max(1);
        records.saturating_add(per_line - 1) / per_line
    }
}
