//! What a run says where it is a whole log, before which there is nothing.

ghost use Rattle.std.specs.Prelude.{◌≡◌, ◌⊎◌, true, false, Some};
ghost use Rattle.eos_fold.specs.Faults.{IsLeastOf};
ghost use Rattle.eos_fold.specs.BatchesWhole.{StandsFirst, IsLeftOpen, IsLeastId};

use crate::fault::Fault;
use eos_touch::{Touch, pair_ok};

/// The fault at the first touch of an id.
pub fn at_first(first: Option<(u64, Touch)>, producer: i64, sequenced: bool) -> Option<Fault>
    ensures { IsLeastOf (λ offset id kind. (id ≡ producer) × StandsFirst sequenced first offset kind) result }
{
    let (offset, next) = first?;
    match pair_ok(None, next, sequenced) {
        Ok(()) => None,
        Err(kind) => Some(Fault {
            offset,
            producer,
            kind,
        }),
    }
}

/// Whether the last touch of an id is data of a transaction.
fn is_left_open(last: Option<(u64, Touch)>) -> bool
    ensures open { result ≡ true → IsLeftOpen last }
    ensures closed { result ≡ false → IsLeftOpen last → ⊥ }
{
    match last {
        Some((_, Touch::Data { transactional, .. })) => transactional,
        _ => false,
    }
}

/// The least so far, or this id if it is less and its last touch is data of a transaction.
pub fn lesser_open(least: Option<i64>, id: i64, last: Option<(u64, Touch)>) -> Option<i64>
    ensures { IsLeastId (λ i. (least ≡ Some i) ⊎ ((i ≡ id) × IsLeftOpen last)) result }
{
    if !is_left_open(last) {
        return least;
    }
    match least {
        Some(least) if least < id => Some(least),
        _ => Some(id),
    }
}
