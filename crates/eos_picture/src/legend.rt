//! What the shapes stand for.

ghost use Rattle.std.specs.Prelude.{◌≡◌, OnOk};
ghost use Rattle.eos_picture.specs.Told.{tellings};

use crate::canvas::{Canvas, moved};
use crate::{Look, Point, Size};
use std::alloc::AllocError;

const SAMPLE: Size = Size {
    width: 16,
    height: 14,
};

fn draw_sample(canvas: &mut Canvas, at: Point, look: Look, words: &str) -> Result<(), AllocError>
    ensures { OnOk result (tellings canvas.new.shapes.items ≡ tellings canvas.old.shapes.items) }
{
    canvas.rectangle(at, SAMPLE, look)?;
    canvas.words(moved(at, 22, 11), words, Look::Remark)
}

/// The same of an end marker.
fn draw_marker(canvas: &mut Canvas, at: Point, look: Look, words: &str) -> Result<(), AllocError>
    ensures { OnOk result (tellings canvas.new.shapes.items ≡ tellings canvas.old.shapes.items) }
{
    canvas.diamond(moved(at, 8, 0), look)?;
    canvas.words(moved(at, 22, 11), words, Look::Remark)
}

/// Draws it below the rows.
pub(crate) fn draw_legend(canvas: &mut Canvas, at: Point) -> Result<(), AllocError>
    ensures { OnOk result (tellings canvas.new.shapes.items ≡ tellings canvas.old.shapes.items) }
{
    draw_sample(canvas, at, Look::Committed, "committed")?;
    draw_sample(canvas, moved(at, 110, 0), Look::Aborted, "aborted")?;
    draw_sample(canvas, moved(at, 205, 0), Look::Open, "open: no end marker")?;
    let down = moved(at, 0, 22);
    let last = moved(at, 0, 44);
    draw_marker(canvas, down, Look::CommitMarker, "commits")?;
    draw_marker(canvas, moved(down, 110, 0), Look::AbortMarker, "aborts")?;
    draw_marker(
        canvas,
        moved(last, 300, 0),
        Look::Missing,
        "an end marker that is missing; x2: it stands there twice",
    )?;
    draw_sample(
        canvas,
        moved(down, 205, 0),
        Look::Passed,
        "[a,b) inputs that its commit passed, dashed where it didn't hold",
    )?;
    draw_sample(
        canvas,
        last,
        Look::Fault,
        "a place of the fault, its offset below",
    )
}

/// How much room it takes.
pub(crate) const ROOM: Size = Size {
    width: 700,
    height: 70,
};
