//! Ranges of an application's sources, of which each thread takes one at a time: no more is in memory than the claims and inputs of these.
//!
//! Where a range ends is no part of any answer. A sample of the sources tells how many ranges there are to be, and where each begins.

ghost use Rattle.std.specs.Prelude.{◌≡◌, ◌≤◌};
ghost use Rattle.eos_faults.specs.steps.Ranges.{bound_before as bound_in_front, range_at as range_of};

use crate::lent::LentPlace;
use crate::sample::sample_of;
use crate::tables::Books;
use eos_base::{Sorted, Workers, distinct_in_order};
use std::alloc::{AllocError, Global};

/// So many steps of the sample are in memory, 32 MiB: a range for each thread.
const STEPS_IN_MEMORY: usize = 4096;

/// For each range all claims that are kept are walked along again, so a thread takes no more than these.
const MOST_RANGES: usize = 16;

/// The sources from one place on and below another; from the first on, and to the last, where there is none.
#[derive(Clone, Copy)]
pub(crate) struct Range<'a> {
    pub from: Option<LentPlace<'a>>,
    pub below: Option<LentPlace<'a>>,
}

/// Where the range of this number begins: the first begins with the first source.
fn bound_before<'a>(bounds: &[LentPlace<'a>], number: usize) -> Option<LentPlace<'a>>
    ensures { result ≡ bound_in_front bounds.now number }
{
    if number == 0 {
        return None;
    }
    bounds.get(number - 1).copied()
}

/// The range of this number, where these are the places at which each but the first begins.
pub(crate) fn range_at<'a>(bounds: &[LentPlace<'a>], number: usize) -> Range<'a>
    ensures { result ≡ range_of bounds.now number }
{
    Range {
        from: bound_before(bounds, number),
        below: bounds.get(number).copied(),
    }
}

/// The source so many places behind the first, and each that is so many behind the one before.
fn each_at<'a>(
    alloc: Global,
    sources: &[LentPlace<'a>],
    step: usize,
) -> Result<Vec<LentPlace<'a>>, AllocError>
    requires { 1 ≤ step }
{
    let mut bounds = Vec::new(alloc);
    let mut at = step;
    while let Some(source) = sources.get(at) {
        bounds.push(*source)?;
        at = at.saturating_add(step);
    }
    Ok(bounds)
}

/// The places at which the ranges of an application's sources begin, but the first, where so many threads take one each at a time: each
/// range has claims and inputs of about as many bytes. Those of one source are of one range, however many they are.
pub(crate) fn bounds_of<'a>(
    alloc: Global,
    books: &Books<'a>,
    workers: Workers,
) -> Result<Sorted<LentPlace<'a>>, AllocError> {
    let sample = Sorted::of(sample_of(alloc, books)?);
    let sources = sample.as_slice();
    let threads = workers.get() as usize;
    let ranges = (sources.len() / STEPS_IN_MEMORY + 1).min(MOST_RANGES) * threads;
    let bounds = each_at(alloc, sources, sources.len() / ranges + 1)?;
    Ok(Sorted::of(distinct_in_order(bounds)))
}
