//! Look-ups among the keys, which are in order.

ghost use Rattle.std.specs.Prelude.{◌≡◌, true, map};
ghost use Rattle.eos_base.specs.Members.{is_found};
ghost use Rattle.eos_base.specs.PartitionNames.{name_cmp};
ghost use Rattle.eos_table.specs.steps.Keys.{plain_name, plain_listed, plain_ended, listed_cmp, ended_cmp};
ghost use Rattle.eos_table.specs.steps.Neighbours.{AreApart};

use crate::key::{Ended, Listed, NameRef};
use eos_base::Sorted;

/// Does one list the partition?
pub(crate) fn is_listed(keys: &Sorted<Listed<'_>>, key: &Listed<'_>) -> bool
    ensures { result ≡ is_found listed_cmp (map plain_listed keys.now) (plain_listed key.now) }
{
    keys.holds(key)
}

/// Is the marker there?
pub(crate) fn is_ended(keys: &Sorted<Ended<'_>>, key: &Ended<'_>) -> bool
    ensures { result ≡ is_found ended_cmp (map plain_ended keys.now) (plain_ended key.now) }
{
    keys.holds(key)
}

/// Is the partition there?
pub(crate) fn is_name(keys: &Sorted<NameRef<'_>>, key: &NameRef<'_>) -> bool
    ensures { result ≡ is_found name_cmp (map plain_name keys.now) (plain_name key.now) }
{
    keys.holds(key)
}

/// Whether no two neighbours among the keys are equal.
pub(crate) fn are_apart(keys: &[(i64, i16)]) -> bool
    ensures { result ≡ true → AreApart keys.now }
{
    for i in 1..keys.len() {
        if keys[i - 1] == keys[i] {
            return false;
        }
    }
    true
}
