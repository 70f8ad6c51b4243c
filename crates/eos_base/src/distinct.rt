//! Items in order, each once.

ghost use Rattle.std.specs.Prelude.{◌≡◌, true};
ghost use Rattle.std.specs.List.Sorted.{IsStrictlySortedBy};
ghost use Rattle.std.specs.Ordering.{is_eq};
ghost use Rattle.eos_base.specs.Members.{Has};

/// The items in order, and of those that are tied one. It sorts in place and takes no memory.
pub fn distinct_in_order<T: Ord + Drop>(mut items: Vec<T>) -> Vec<T>
    ensures rises { IsStrictlySortedBy T.cmp result.items }
    ensures each { (x : T) → Has result.items x → Has items.items x }
    ensures all { (x : T) → Has items.items x → (y : T) × Has result.items y × (is_eq (T.cmp x y) ≡ true) }
{
    items.sort_unstable();
    items.dedup();
    items
}
