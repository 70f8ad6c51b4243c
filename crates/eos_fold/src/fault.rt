//! The faults of pairs of touches.

ghost use Rattle.std.specs.Prelude.{◌≡◌};
ghost use Rattle.eos_touch.specs.Pair.{number_of};
ghost use Rattle.eos_fold.specs.Faults.{IsLeastOf, StandsAt};
ghost use Rattle.eos_fold.specs.Earlier.{earlier, earlier_of};

use eos_touch::{PairFault, Touch, pair_ok};

/// A touch that may not follow the one of its id before it.
#[derive(Clone, Copy)]
pub struct Fault {
    pub offset: u64,
    pub producer: i64,
    pub kind: PairFault,
}

fn earlier_of(a: Fault, b: Fault) -> Fault
    ensures { result ≡ earlier_of a b }
{
    if a.offset < b.offset {
        return a;
    }
    if b.offset < a.offset {
        return b;
    }
    if a.kind.number() <= b.kind.number() {
        a
    } else {
        b
    }
}

/// The lesser one, by offset and then by kind.
pub fn earlier(a: Option<Fault>, b: Option<Fault>) -> Option<Fault>
    ensures { result ≡ earlier a b }
{
    match (a, b) {
        (None, b) => b,
        (a, None) => a,
        (Some(a), Some(b)) => Some(earlier_of(a, b)),
    }
}

/// The fault at the first touch of an id in a run, after its last one in the run before.
pub fn at_seam(
    last: Option<(u64, Touch)>,
    first: Option<(u64, Touch)>,
    producer: i64,
    sequenced: bool,
) -> Option<Fault>
    ensures { IsLeastOf (λ offset id kind. (id ≡ producer) × StandsAt sequenced last first offset kind) result }
{
    let (_, before) = last?;
    let (offset, next) = first?;
    match pair_ok(Some(before), next, sequenced) {
        Ok(()) => None,
        Err(kind) => Some(Fault {
            offset,
            producer,
            kind,
        }),
    }
}
