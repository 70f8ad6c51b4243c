//! A drawing, and its text.

ghost use Rattle.std.specs.Prelude.{◌≡◌, flat_map, IfOk, OnOk, string_bytes};
ghost use Rattle.eos_text.specs.Adding.{Adds};
ghost use Rattle.eos_picture.specs.Shapes.{pair_text, head_text, shape_text, svg_text};

use crate::escaping::push_xml;
use crate::shape::{Shape, Size, push_shape};
use eos_base::Listed;
use eos_text::push_text;
use std::alloc::{AllocError, Global};

/// A drawing.
#[derive(Drop)]
pub struct Drawing {
    pub size: Size,
    /// What it is called. Its bytes may be any.
    pub title: String,
    /// What is drawn, the later upon the earlier.
    pub shapes: Listed<Shape>,
}

/// Adds two numbers, each after a label.
#[tactic(auto, unfolding(crate::specs::Shapes::pair_text))]
pub(crate) fn push_pair(
    out: &mut String,
    first: &str,
    a: u64,
    second: &str,
    b: u64,
) -> Result<(), AllocError>
    ensures { OnOk result (Adds (string_bytes out.old) (string_bytes out.new) (pair_text first.now a second.now b)) }
{
    write!(out, "{first}{a}{second}{b}")
}

fn push_head(out: &mut String, drawing: &Drawing) -> Result<(), AllocError>
    ensures { OnOk result (Adds (string_bytes out.old) (string_bytes out.new) (head_text drawing.now)) }
{
    let size = drawing.size;
    push_pair(
        out,
        "<svg xmlns=\"http://www.w3.org/2000/svg\" width=\"",
        size.width,
        "\" height=\"",
        size.height,
    )?;
    push_pair(out, "\" viewBox=\"0 0 ", size.width, " ", size.height)?;
    push_text(
        out,
        "\" font-family=\"monospace\" font-size=\"11\">\n<title>",
    )?;
    push_xml(out, drawing.title.as_bytes())?;
    push_text(out, "</title>\n")?;
    Ok(())
}

fn push_shapes(out: &mut String, shapes: &[Shape]) -> Result<(), AllocError>
    ensures { OnOk result (Adds (string_bytes out.old) (string_bytes out.new) (flat_map shape_text shapes.now)) }
{
    for shape in shapes {
        push_shape(out, shape)?;
    }
    Ok(())
}

/// A drawing as an SVG document, in ASCII.
///
/// # Errors
/// A growth of memory was refused.
pub fn svg_text(alloc: Global, drawing: &Drawing) -> Result<String, AllocError>
    ensures { IfOk result (λ text. string_bytes text ≡ svg_text drawing.now) }
{
    let mut out = String::new(alloc);
    push_head(&mut out, drawing)?;
    push_shapes(&mut out, drawing.shapes.as_slice())?;
    push_text(&mut out, "</svg>\n")?;
    Ok(out)
}
