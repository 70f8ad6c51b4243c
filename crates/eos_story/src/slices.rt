//! Parts of lists.

ghost use Rattle.std.specs.Prelude.{◌≡◌, ◌≤◌, ◌+◌, ◌-◌, min, length, take, drop};

/// So many more than these, or as many as there are.
fn up_to(count: usize, more: usize, all: usize) -> usize
    requires { count ≤ all }
    ensures { result ≡ min (count + more) all }
{
    if more < all - count {
        count + more
    } else {
        all
    }
}

/// Those from a place of a list on.
pub(crate) fn from_on<T>(xs: &[T], from: usize) -> &[T]
    requires { from ≤ length xs.now }
    ensures { result.now ≡ drop from xs.now }
{
    &xs[from..]
}

/// So many before a place of a list, and so many from it on.
pub(crate) fn around<T>(xs: &[T], at: usize, before: usize, after: usize) -> &[T]
    requires { at ≤ length xs.now }
    ensures { result.now ≡ drop (at - before) (take (at + after) xs.now) }
{
    let front = &xs[..up_to(at, after, xs.len())];
    from_on(front, at.saturating_sub(before))
}
