//! Shapes, and their text.

ghost use Rattle.std.specs.Prelude.{◌≡◌, OnOk, string_bytes};
ghost use Rattle.eos_text.specs.Adding.{Adds};
ghost use Rattle.eos_picture.specs.Shapes.{rectangle_text, diamond_text, line_text, arc_text, words_text, told_text, shape_text};

use crate::drawing::push_pair;
use crate::escaping::push_xml;
use crate::look::Look;
use eos_text::push_text;
use std::alloc::AllocError;

/// A point of the drawing, in pixels from its left and its upper edge.
#[derive(Clone, Copy)]
pub struct Point {
    pub x: u64,
    pub y: u64,
}

/// In pixels.
#[derive(Clone, Copy)]
pub struct Size {
    pub width: u64,
    pub height: u64,
}

/// From a point to another.
#[derive(Clone, Copy)]
pub struct Line {
    pub from: Point,
    pub to: Point,
}

/// A part of a drawing.
#[derive(Drop)]
pub enum Shape {
    /// A rectangle, by its upper left corner.
    Rectangle { at: Point, size: Size, look: Look },
    /// A diamond of 14 pixels each way, by its upper corner.
    Diamond { at: Point, look: Look },
    /// A straight line.
    Line { line: Line, look: Look },
    /// A curve between two points that is drawn towards a third one.
    Arc { line: Line, over: Point, look: Look },
    /// A text, by the left end of its base line. Its bytes may be any.
    Text { at: Point, text: String, look: Look },
    /// What is told where a pointer rests on this part of the drawing, by its upper left corner. Its bytes may be any.
    Told { at: Point, size: Size, text: String },
}

#[tactic(auto, unfolding(crate::specs::Shapes::rectangle_text, crate::specs::Shapes::pair_text, crate::specs::Shapes::end_text))]
fn push_rectangle(out: &mut String, at: Point, size: Size, look: Look) -> Result<(), AllocError>
    ensures { OnOk result (Adds (string_bytes out.old) (string_bytes out.new) (rectangle_text at size look)) }
{
    write!(
        out,
        "<rect x=\"{}\" y=\"{}\" width=\"{}\" height=\"{}\"{}/>\n",
        at.x,
        at.y,
        size.width,
        size.height,
        look.attributes()
    )
}

#[tactic(auto, unfolding(crate::specs::Shapes::diamond_text, crate::specs::Shapes::pair_text, crate::specs::Shapes::end_text))]
fn push_diamond(out: &mut String, at: Point, look: Look) -> Result<(), AllocError>
    ensures { OnOk result (Adds (string_bytes out.old) (string_bytes out.new) (diamond_text at look)) }
{
    write!(
        out,
        "<path d=\"M{} {}l7 7 -7 7 -7 -7z\"{}/>\n",
        at.x,
        at.y,
        look.attributes()
    )
}

#[tactic(auto, unfolding(crate::specs::Shapes::line_text, crate::specs::Shapes::pair_text, crate::specs::Shapes::end_text))]
fn push_line(out: &mut String, line: Line, look: Look) -> Result<(), AllocError>
    ensures { OnOk result (Adds (string_bytes out.old) (string_bytes out.new) (line_text line look)) }
{
    write!(
        out,
        "<line x1=\"{}\" y1=\"{}\" x2=\"{}\" y2=\"{}\"{}/>\n",
        line.from.x,
        line.from.y,
        line.to.x,
        line.to.y,
        look.attributes()
    )
}

#[tactic(auto, unfolding(crate::specs::Shapes::arc_text, crate::specs::Shapes::pair_text, crate::specs::Shapes::end_text))]
fn push_arc(out: &mut String, line: Line, over: Point, look: Look) -> Result<(), AllocError>
    ensures { OnOk result (Adds (string_bytes out.old) (string_bytes out.new) (arc_text line over look)) }
{
    write!(
        out,
        "<path d=\"M{} {}Q{} {} {} {}\"{}/>\n",
        line.from.x,
        line.from.y,
        over.x,
        over.y,
        line.to.x,
        line.to.y,
        look.attributes()
    )
}

#[tactic(auto, unfolding(crate::specs::Shapes::words_text, crate::specs::Shapes::pair_text))]
fn push_words(out: &mut String, at: Point, text: &str, look: Look) -> Result<(), AllocError>
    ensures { OnOk result (Adds (string_bytes out.old) (string_bytes out.new) (words_text at text.now look)) }
{
    write!(
        out,
        "<text x=\"{}\" y=\"{}\"{}>",
        at.x,
        at.y,
        look.attributes()
    )?;
    push_xml(out, text.as_bytes())?;
    push_text(out, "</text>\n")?;
    Ok(())
}

fn push_told(out: &mut String, at: Point, size: Size, text: &str) -> Result<(), AllocError>
    ensures { OnOk result (Adds (string_bytes out.old) (string_bytes out.new) (told_text at size text.now)) }
{
    push_pair(out, "<rect x=\"", at.x, "\" y=\"", at.y)?;
    push_pair(out, "\" width=\"", size.width, "\" height=\"", size.height)?;
    push_text(
        out,
        "\" class=\"mark\" fill=\"none\" pointer-events=\"all\"><title>",
    )?;
    push_xml(out, text.as_bytes())?;
    push_text(out, "</title></rect>\n")?;
    Ok(())
}

/// Adds a shape.
pub(crate) fn push_shape(out: &mut String, shape: &Shape) -> Result<(), AllocError>
    ensures { OnOk result (Adds (string_bytes out.old) (string_bytes out.new) (shape_text shape.now)) }
{
    match shape {
        Shape::Rectangle { at, size, look } => push_rectangle(out, *at, *size, *look),
        Shape::Diamond { at, look } => push_diamond(out, *at, *look),
        Shape::Line { line, look } => push_line(out, *line, *look),
        Shape::Arc { line, over, look } => push_arc(out, *line, *over, *look),
        Shape::Text { at, text, look } => push_words(out, *at, text.as_str(), *look),
        Shape::Told { at, size, text } => push_told(out, *at, *size, text.as_str()),
    }
}
