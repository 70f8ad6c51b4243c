//! Vectors in order, as sets that are looked up.

ghost use Rattle.std.specs.Prelude.{◌≡◌, List, IsPermutation, IsSorted};
ghost use Rattle.eos_base.specs.Members.{is_found};

use std::marker::Model;

/// The same items, in order. Items that are tied may change places.
pub fn in_order<T: Ord>(mut items: Vec<T>) -> Vec<T>
    ensures same { IsPermutation items.items result.items }
    ensures sorted { IsSorted T.cmp result.items }
{
    items.sort_unstable();
    items
}

/// Whether one of the items, which are in order, is tied with the key: a binary search.
pub fn holds<T: Ord>(items: &[T], key: &T) -> bool
    requires { IsSorted T.cmp items.now }
    ensures { result ≡ is_found T.cmp items.now key.now }
{
    items.binary_search(key).is_ok()
}

/// Items in their order, by its type; contracts see the list of them.
#[derive(Drop)]
pub struct Sorted<T: Ord> {
    items: Vec<T>,
}

impl<T: Ord> Model for Sorted<T> {
    ghost Value = { List T };

    ghost view = { λ s. s.items.items };

    ghost invariant = { λ s. IsSorted T.cmp s.items.items };
}

impl<T: Ord> Sorted<T> {
    /// The same items, in order.
    pub fn of(items: Vec<T>) -> Sorted<T>
        ensures { IsPermutation items.items result }
    {
        Sorted {
            items: in_order(items),
        }
    }

    /// Whether one of them is tied with the key: a binary search.
    pub fn holds(&self, key: &T) -> bool
        ensures { result ≡ is_found T.cmp self.now key.now }
    {
        holds(self.items.as_slice(), key)
    }

    /// The items, in order.
    pub fn as_slice(&self) -> &[T]
        ensures items { result.now ≡ self.now }
        ensures sorted { IsSorted T.cmp result.now }
    {
        self.items.as_slice()
    }
}
