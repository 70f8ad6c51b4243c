//! The least of what is found, one after the other.

ghost use Rattle.std.specs.Prelude.{◌≡◌};
ghost use Rattle.eos_base.specs.Least.{lesser_of};

/// The lesser of the least so far and another one; of two that are tied, the one that was there.
pub fn lesser<T: Ord + Drop>(best: Option<T>, next: T) -> Option<T>
    ensures { result ≡ lesser_of T.cmp best next }
{
    match best {
        Some(least) if least <= next => Some(least),
        _ => Some(next),
    }
}

/// Takes another one for the least so far, if it is less.
pub fn offer<T: Ord + Drop>(best: &mut Option<T>, next: T)
    ensures { best.new ≡ lesser_of T.cmp best.old next }
{
    let first = best.take();
    *best = lesser(first, next);
}
