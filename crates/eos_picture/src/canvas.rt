//! Shapes that are drawn one after the other.

ghost use Rattle.std.specs.Prelude.{◌≡◌, ◌++◌, ◌∷◌, [], OnOk, string_bytes};
ghost use Rattle.eos_picture.specs.Told.{telling, tellings};

use crate::growing::put;
use crate::{Line, Look, Point, Shape, Size};
use std::alloc::{AllocError, Global};

/// What is drawn so far.
#[derive(Drop)]
pub(crate) struct Canvas {
    /// Where texts and shapes are allocated.
    pub alloc: Global,
    pub shapes: Vec<Shape>,
    /// Where the fault has its places, in the order in which they were drawn.
    pub spots: Vec<Point>,
}

/// A point further to the right and further down.
pub(crate) fn moved(at: Point, right: u64, down: u64) -> Point {
    Point {
        x: at.x.saturating_add(right),
        y: at.y.saturating_add(down),
    }
}

impl Canvas {
    pub(crate) fn new(alloc: Global) -> Canvas
        ensures { tellings result.shapes.items ≡ [] }
    {
        Canvas {
            alloc,
            shapes: Vec::new(alloc),
            spots: Vec::new(alloc),
        }
    }

    /// Draws a shape of which nothing is told.
    fn push(&mut self, shape: Shape) -> Result<(), AllocError>
        requires { telling shape ≡ [] }
        ensures { OnOk result (tellings self.new.shapes.items ≡ tellings self.old.shapes.items) }
    {
        put(&mut self.shapes, shape)
    }

    pub(crate) fn rectangle(&mut self, at: Point, size: Size, look: Look) -> Result<(), AllocError>
        ensures { OnOk result (tellings self.new.shapes.items ≡ tellings self.old.shapes.items) }
    {
        self.push(Shape::Rectangle { at, size, look })
    }

    pub(crate) fn diamond(&mut self, at: Point, look: Look) -> Result<(), AllocError>
        ensures { OnOk result (tellings self.new.shapes.items ≡ tellings self.old.shapes.items) }
    {
        self.push(Shape::Diamond { at, look })
    }

    pub(crate) fn line(&mut self, from: Point, to: Point, look: Look) -> Result<(), AllocError>
        ensures { OnOk result (tellings self.new.shapes.items ≡ tellings self.old.shapes.items) }
    {
        self.push(Shape::Line {
            line: Line { from, to },
            look,
        })
    }

    pub(crate) fn text(&mut self, at: Point, text: String, look: Look) -> Result<(), AllocError>
        ensures { OnOk result (tellings self.new.shapes.items ≡ tellings self.old.shapes.items) }
    {
        self.push(Shape::Text { at, text, look })
    }

    pub(crate) fn words(&mut self, at: Point, words: &str, look: Look) -> Result<(), AllocError>
        ensures { OnOk result (tellings self.new.shapes.items ≡ tellings self.old.shapes.items) }
    {
        let text = String::from_str(self.alloc, words)?;
        self.text(at, text, look)
    }

    /// What is told of a shape of this size where a pointer rests on it.
    pub(crate) fn told(&mut self, at: Point, size: Size, text: String) -> Result<(), AllocError>
        ensures { OnOk result (tellings self.new.shapes.items ≡ tellings self.old.shapes.items ++ string_bytes text ∷ []) }
    {
        put(&mut self.shapes, Shape::Told { at, size, text })
    }

    /// A ring around a shape of this size, which is a place of the fault.
    pub(crate) fn ring(&mut self, at: Point, size: Size) -> Result<(), AllocError>
        ensures { OnOk result (tellings self.new.shapes.items ≡ tellings self.old.shapes.items) }
    {
        let corner = Point {
            x: at.x.saturating_sub(3),
            y: at.y.saturating_sub(3),
        };
        let around = Size {
            width: size.width.saturating_add(6),
            height: size.height.saturating_add(6),
        };
        self.rectangle(corner, around, Look::Fault)?;
        put(&mut self.spots, moved(corner, around.width / 2, 0))
    }

    fn arc(&mut self, from: Point, to: Point) -> Result<(), AllocError>
        ensures { OnOk result (tellings self.new.shapes.items ≡ tellings self.old.shapes.items) }
    {
        let over = Point {
            x: from.x / 2 + to.x / 2,
            y: from.y.min(to.y).saturating_sub(44),
        };
        self.push(Shape::Arc {
            line: Line { from, to },
            over,
            look: Look::FaultArc,
        })
    }

    /// Arcs from each of these points to the next one.
    pub(crate) fn arcs(&mut self, spots: &[Point]) -> Result<(), AllocError>
        ensures { OnOk result (tellings self.new.shapes.items ≡ tellings self.old.shapes.items) }
    {
        for i in 1..spots.len() {
            self.arc(spots[i - 1], spots[i])?;
        }
        Ok(())
    }
}
