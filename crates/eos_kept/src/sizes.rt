//! How large a list of segments is.

ghost use Rattle.std.specs.Prelude.{◌++◌, List, IfSome};
ghost use Rattle.eos_evidence.specs.declared.segment.Segment.{Segment};
ghost use Rattle.eos_kept.specs.Sizes.{AreSized};

/// How many segments there are, and how many bytes they have.
#[derive(Clone, Copy)]
pub struct Sizes {
    pub segments: u64,
    pub bytes: u64,
}

impl Sizes {
    /// Those of two lists of segments, unless they are more than a u64 holds.
    pub(crate) fn plus(self, after: Sizes) -> Option<Sizes>
        ensures { IfSome result (λ both. (xs ys : List Segment) → AreSized xs self → AreSized ys after → AreSized (xs ++ ys) both) }
    {
        Some(Sizes {
            segments: self.segments.checked_add(after.segments)?,
            bytes: self.bytes.checked_add(after.bytes)?,
        })
    }
}
