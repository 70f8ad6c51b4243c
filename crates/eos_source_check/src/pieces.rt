//! Where the pieces of an evidence are read, and which ones there are.

use eos_evidence::Evidence;

/// Where the pieces of an evidence are read, and which ones there are.
#[derive(Clone, Copy)]
pub struct Pieces<'a, S> {
    pub source: &'a S,
    /// The evidence, with no bytes in its segments.
    pub shape: &'a Evidence,
}
