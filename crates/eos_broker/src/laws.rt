//! The law of a partition. Its function does nothing; its contract is the law.

ghost use Rattle.std.specs.Prelude.{ℕ, Bool, List, [], None, length, ◌≤◌, ◌^◌};
ghost use Rattle.eos_touch.specs.Neighbours.{EachAfter, KeepsOrder};
ghost use Rattle.eos_machine.specs.declared.item.Item.{Item};
ghost use Rattle.eos_machine.specs.Rest.{touches_of};
ghost use Rattle.eos_broker.specs.Kept.{kept};

/// Whatever is asked of a broker, and in whatever order: of what it appends, none of the kinds FirstSequence, Sequence,
/// ZombieEpoch and NoBump stands at any batch, sequences looked at where the partition has them.
pub fn appends_in_order()
    ensures { (b : Bool) (xs : List Item) (a : ℕ) → length xs ≤ 2 ^ 31 → EachAfter (KeepsOrder b) None (touches_of a (kept b [] xs)) }
{}
