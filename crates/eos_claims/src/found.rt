//! The least fault so far.

ghost use Rattle.std.specs.Prelude.{◌≡◌, option_map, fold};
ghost use Rattle.eos_base.specs.Least.{lesser_of};
ghost use Rattle.eos_claims.specs.Candidates.{when};
ghost use Rattle.eos_claims.specs.Faults.{fault_cmp};
ghost use Rattle.eos_claims.specs.Plain.{plain_fault};

use crate::fault::OutputKind;
use crate::place::{PlaceRef, SourceRef};
use eos_base::lesser;

/// A fault whose names are borrowed, so that it takes no memory to keep or to drop one; in the order of faults.
#[derive(Clone, Copy, PartialEq, Eq, PartialOrd, Ord)]
pub struct Found<'a> {
    pub source: SourceRef<'a>,
    pub output: u32,
    pub kind: OutputKind,
    pub at: Option<PlaceRef<'a>>,
}

/// The least so far, with a fault that stands where the test says so.
pub(crate) fn with_tested<'a>(
    best: Option<Found<'a>>,
    stands: bool,
    next: Found<'a>,
) -> Option<Found<'a>>
    ensures { option_map plain_fault result
        ≡ fold (lesser_of fault_cmp) (option_map plain_fault best.entry) (when stands (plain_fault next.entry)) }
{
    if stands { lesser(best, next) } else { best }
}
