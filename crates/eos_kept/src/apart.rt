//! What is kept of a partition's segments, taken apart.

ghost use Rattle.eos_kept.specs.steps.Fronts.{AreEach, IsApart};

use crate::{Front, Kept, Sizes};
use eos_reading::KeptList;
use std::alloc::Global;

/// The front, what is kept of its records, and how large the segments are; of no segment no front and no records.
pub(crate) fn apart<L: KeptList>(alloc: Global, run: Option<Kept<L>>) -> (Option<Front>, L, Sizes)
    ensures parts { IsApart run result.0 (L.list result.1) result.2 }
    ensures each { AreEach result.0 (L.list result.1) }
{
    match run {
        None => {
            let sizes = Sizes {
                segments: 0,
                bytes: 0,
            };
            (None, KeptList::new(alloc), sizes)
        }
        Some(run) => {
            let sizes = run.sizes();
            let (front, kept) = run.into_parts();
            (Some(front), kept, sizes)
        }
    }
}
