//! The heading of a column: which transaction it is.

ghost use Rattle.std.specs.Prelude.{◌≡◌, OnOk};
ghost use Rattle.eos_picture.specs.Told.{tellings};

use crate::canvas::{Canvas, moved};
use crate::labels::shortened;
use crate::{Column, Look, Picture, Point};
use eos_batch::Kind;
use eos_text::{push_escaped, push_text, push_value};
use std::alloc::{AllocError, Global};

/// How many characters a line of a heading has at most.
const MOST: usize = 30;

/// What a line of a heading tells of a transaction.
pub(crate) enum HeadingLine {
    /// Its number in the order of the Prepare records, from 1, and its transactional id.
    Id,
    /// The producer id and epoch of its data.
    Producer,
    /// What its Prepare record decided, and where that stands.
    Decision,
}

fn push_id(
    alloc: Global,
    out: &mut String,
    place: usize,
    column: &Column,
) -> Result<(), AllocError> {
    push_value(out, "T", &place.saturating_add(1))?;
    match &column.decided {
        None => push_text(out, " undecided"),
        Some(decided) => push_escaped(alloc, out, " ", decided.id.as_slice()),
    }
}

fn push_producer(out: &mut String, column: &Column) -> Result<(), AllocError> {
    push_value(out, "pid ", &column.producer)?;
    push_value(out, " epoch ", &column.epoch)
}

fn push_decision(out: &mut String, column: &Column) -> Result<(), AllocError> {
    let Some(decided) = &column.decided else {
        return push_text(out, "no Prepare record");
    };
    let kind = match decided.kind {
        Kind::Commit => "commit",
        Kind::Abort => "abort",
    };
    push_text(out, kind)?;
    push_value(out, " (state-", &decided.partition)?;
    push_value(out, ":", &decided.offset)?;
    push_text(out, ")")
}

fn push_line(
    alloc: Global,
    out: &mut String,
    line: HeadingLine,
    place: usize,
    column: &Column,
) -> Result<(), AllocError> {
    match line {
        HeadingLine::Id => push_id(alloc, out, place, column),
        HeadingLine::Producer => push_producer(out, column),
        HeadingLine::Decision => push_decision(out, column),
    }
}

/// The line about the transaction at this index of all.
pub(crate) fn line_of(
    alloc: Global,
    line: HeadingLine,
    place: usize,
    column: &Column,
) -> Result<String, AllocError> {
    let mut out = String::new(alloc);
    push_line(alloc, &mut out, line, place, column)?;
    shortened(alloc, out.as_str(), MOST)
}

/// The index among all transactions of the one that is shown in this column.
pub(crate) fn index_of(picture: &Picture, column: usize) -> usize {
    match picture.places.get(column) {
        None => column,
        Some(place) => *place,
    }
}

/// Draws the lines at the upper left corner of the column.
pub(crate) fn draw_heading(
    canvas: &mut Canvas,
    at: Point,
    place: usize,
    column: &Column,
) -> Result<(), AllocError>
    ensures { OnOk result (tellings canvas.new.shapes.items ≡ tellings canvas.old.shapes.items) }
{
    let id = line_of(canvas.alloc, HeadingLine::Id, place, column)?;
    canvas.text(moved(at, 6, 14), id, Look::Heading)?;
    let producer = line_of(canvas.alloc, HeadingLine::Producer, place, column)?;
    canvas.text(moved(at, 6, 28), producer, Look::Words)?;
    let decision = line_of(canvas.alloc, HeadingLine::Decision, place, column)?;
    canvas.text(moved(at, 6, 42), decision, Look::Words)
}
