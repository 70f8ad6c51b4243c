//! The drawing of a picture.

ghost use Rattle.std.specs.Prelude.{[], ◌≡◌, ◌++◌, ◌≤◌, ℕ, List, IfOk, OnOk, string_bytes};
ghost use Rattle.eos_picture.specs.Told.{tellings, AreRowsTold, TellOf};
ghost use Rattle.eos_picture.specs.steps.Tellings.{times_of};

use crate::canvas::{Canvas, moved};
use crate::drawn_rows::{Telling, draw_row};
use crate::headings::{draw_heading, index_of};
use crate::labels::push_bytes;
use crate::legend::{ROOM, draw_legend};
use crate::plan::{GAP, Plan, plan_of};
use crate::times::Times;
use crate::{Drawing, Look, Picture, Point, Shape, Size};
use eos_base::Listed;
use std::alloc::{AllocError, Global};

/// The width of a character of the title, and more.
const TITLE_CHARACTER: u64 = 8;

/// The height of a line of the title.
const TITLE_LINE: u64 = 17;

/// The height of the headings.
const HEADINGS: u64 = 50;

/// What a picture can't say.
const NO_CLOCK: &str =
    "a column is a transaction, T1 the one of the first Prepare record; partitions have no clock in common";

/// Draws a line of the title at this height.
fn draw_line(canvas: &mut Canvas, y: u64, bytes: &[u8]) -> Result<(), AllocError>
    ensures { OnOk result (tellings canvas.new.shapes.items ≡ tellings canvas.old.shapes.items) }
{
    let mut line = String::new(canvas.alloc);
    push_bytes(&mut line, bytes)?;
    canvas.text(Point { x: GAP, y }, line, Look::Title)
}

/// Draws a text in ASCII in lines of at most so many characters, and gives the height where they end.
fn draw_title(canvas: &mut Canvas, title: &str, most: usize) -> Result<u64, AllocError>
    requires { 1 ≤ most }
    ensures { OnOk result (tellings canvas.new.shapes.items ≡ tellings canvas.old.shapes.items) }
{
    let mut y = GAP.saturating_add(12);
    let mut rest = title.as_bytes();
    while most < rest.len() {
        draw_line(canvas, y, &rest[..most])?;
        rest = &rest[most..];
        y = y.saturating_add(TITLE_LINE);
    }
    draw_line(canvas, y, rest)?;
    Ok(y.saturating_add(TITLE_LINE))
}

/// Draws what stands above the columns in a drawing of this width, and gives the height where that ends.
fn draw_head(canvas: &mut Canvas, title: &str, width: u64) -> Result<u64, AllocError>
    ensures { OnOk result (tellings canvas.new.shapes.items ≡ tellings canvas.old.shapes.items) }
{
    let most = width.saturating_sub(2 * GAP) / TITLE_CHARACTER;
    let below = draw_title(canvas, title, most.max(1) as usize)?;
    canvas.words(Point { x: GAP, y: below }, NO_CLOCK, Look::Remark)?;
    Ok(below.saturating_add(12))
}

/// Draws the headings of the columns from this height on.
fn draw_headings(
    canvas: &mut Canvas,
    plan: &Plan,
    picture: &Picture,
    top: u64,
) -> Result<(), AllocError>
    ensures { OnOk result (tellings canvas.new.shapes.items ≡ tellings canvas.old.shapes.items) }
{
    for i in 0..picture.columns.len() {
        let at = Point {
            x: plan.x_of(i as u64),
            y: top,
        };
        draw_heading(canvas, at, index_of(picture, i), &picture.columns[i])?;
    }
    if plan.columns > picture.columns.len() {
        let at = Point {
            x: plan.x_of(picture.columns.len() as u64),
            y: top,
        };
        canvas.words(moved(at, 6, 28), "of none of these", Look::Remark)?;
    }
    Ok(())
}

/// Of the row at this place the times.
#[tactic(auto, using(crate::proofs::Tellings::times_past, crate::proofs::Tellings::times_there))]
fn times_of(times: &[Times], i: usize) -> &[(u64, i64)]
    ensures { result.now ≡ times_of times.now i }
{
    if i >= times.len() {
        return &[];
    }
    times[i].at.as_slice()
}

/// Draws the rows from this height on, and gives the height where they end.
fn draw_rows(
    canvas: &mut Canvas,
    plan: &Plan,
    picture: &Picture,
    times: &[Times],
    top: u64,
) -> Result<u64, AllocError>
    requires { 1 ≤ plan.now.columns }
    ensures { OnOk result ((texts : List (List ℕ)) × (tellings canvas.new.shapes.items ≡ tellings canvas.old.shapes.items ++ texts) × AreRowsTold picture.now.columns.items picture.now.rows.items times.now texts) }
{
    let columns = picture.columns.as_slice();
    let rows = picture.rows.as_slice();
    let mut bottom = top;
    for i in 0..rows.len() {
        let told = Telling {
            columns,
            row: &rows[i],
            times: times_of(times, i),
        };
        let end = draw_row(canvas, plan, bottom, told)?;
        bottom = end;
    }
    Ok(bottom)
}

/// How large the page is, and where its columns begin and end.
#[derive(Clone, Copy)]
struct Frame {
    page: Size,
    top: u64,
    bottom: u64,
}

/// What lies below all that is drawn: the page, and the ground of each column.
fn draw_ground(
    ground: &mut Canvas,
    plan: &Plan,
    columns: usize,
    frame: Frame,
) -> Result<(), AllocError>
    ensures { OnOk result (tellings ground.new.shapes.items ≡ tellings ground.old.shapes.items) }
{
    ground.rectangle(Point { x: 0, y: 0 }, frame.page, Look::Page)?;
    for i in 0..columns {
        let at = Point {
            x: plan.x_of(i as u64),
            y: frame.top,
        };
        let size = Size {
            width: plan.column,
            height: frame.bottom.saturating_sub(frame.top),
        };
        ground.rectangle(at, size, Look::Column)?;
    }
    Ok(())
}

/// The ground with the arcs between the fault's places, and on it the shapes of the canvas, which are taken from there.
fn laid_upon(
    plan: &Plan,
    columns: usize,
    frame: Frame,
    canvas: &mut Canvas,
) -> Result<Vec<Shape>, AllocError>
    ensures { IfOk result (λ shapes. tellings shapes.items ≡ tellings canvas.old.shapes.items) }
{
    let mut ground = Canvas::new(canvas.alloc);
    draw_ground(&mut ground, plan, columns, frame)?;
    ground.arcs(canvas.spots.as_slice())?;
    ground.shapes.append(&mut canvas.shapes)?;
    Ok(ground.shapes)
}

/// Draws all but the ground.
fn draw_all(
    canvas: &mut Canvas,
    plan: &Plan,
    picture: &Picture,
    times: &[Times],
    title: &str,
) -> Result<Frame, AllocError>
    requires plan { 1 ≤ plan.now.columns }
    requires none { tellings canvas.old.shapes.items ≡ [] }
    ensures { OnOk result (AreRowsTold picture.now.columns.items picture.now.rows.items times.now (tellings canvas.new.shapes.items)) }
{
    let width = plan.right().max(ROOM.width).saturating_add(GAP);
    let top = draw_head(canvas, title, width)?;
    draw_headings(canvas, plan, picture, top)?;
    let bottom = draw_rows(canvas, plan, picture, times, top.saturating_add(HEADINGS))?;
    let legend = Point {
        x: GAP,
        y: bottom.saturating_add(16),
    };
    draw_legend(canvas, legend)?;
    let page = Size {
        width,
        height: legend.y.saturating_add(ROOM.height),
    };
    Ok(Frame { page, top, bottom })
}

/// The drawing of a picture under a title, which is in ASCII. Of each mark is told what it is, with the time of its record where its row's
/// times have it.
///
/// # Errors
/// Only want of memory.
pub fn drawing_of(
    alloc: Global,
    picture: &Picture,
    times: &[Times],
    title: String,
) -> Result<Drawing, AllocError>
    ensures title { IfOk result (λ drawing. string_bytes drawing.title ≡ string_bytes title) }
    ensures told { IfOk result (λ drawing. TellOf picture.now times.now drawing.shapes) }
{
    let plan = plan_of(alloc, picture)?;
    let mut canvas = Canvas::new(alloc);
    let frame = draw_all(&mut canvas, &plan, picture, times, title.as_str())?;
    let shapes = laid_upon(&plan, picture.columns.len(), frame, &mut canvas)?;
    Ok(Drawing {
        size: frame.page,
        title,
        shapes: Listed::new(shapes),
    })
}
