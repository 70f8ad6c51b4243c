//! The table of a run's producer ids, and room in it.

ghost use Rattle.std.specs.Prelude.{◌≡◌, ◌+◌, ◌≤◌, ℤ, length, Some, None, IsSome, OnOk};
ghost use Rattle.std.specs.Ordering.{int_cmp};
ghost use Rattle.std.specs.BTreeMap.{get};
ghost use Rattle.eos_fold.specs.declared.ends.Ends.{Ends};
ghost use Rattle.eos_fold.specs.Tables.{ends_at};
ghost use Rattle.eos_fold.specs.Taken.{IsReadyFor};
ghost use Rattle.eos_fold.specs.Summaries.{SameEnds};

use crate::ends::Ends;
use std::alloc::{AllocError, Global};
use std::collections::BTreeMap;

/// Puts an id that the table doesn't have into it, with room for so many places.
fn insert_blank(
    alloc: Global,
    producers: &mut BTreeMap<i64, Ends>,
    producer: i64,
    count: usize,
) -> Result<(), AllocError>
    requires { get int_cmp producers.old producer ≡ None }
    ensures same { (id : ℤ) → SameEnds (ends_at producers.old id) (ends_at producers.new id) }
    ensures keeps { (id : ℤ) → IsSome (get int_cmp producers.old id) → IsSome (get int_cmp producers.new id) }
    ensures present { OnOk result (IsSome (get int_cmp producers.new producer)) }
    ensures room { OnOk result (count ≤ (ends_at producers.new producer).waiting.room) }
{
    let mut ends = Ends::blank(alloc);
    ends.waiting.reserve(count)?;
    producers.insert(producer, ends)?;
    Ok(())
}

/// Makes sure that the table has this id, with room for so many more places. What is known stays.
///
/// # Errors
/// Only want of memory.
pub fn make_room_for(
    alloc: Global,
    producers: &mut BTreeMap<i64, Ends>,
    producer: i64,
    count: usize,
) -> Result<(), AllocError>
    ensures same { (id : ℤ) → SameEnds (ends_at producers.old id) (ends_at producers.new id) }
    ensures keeps { (id : ℤ) → IsSome (get int_cmp producers.old id) → IsSome (get int_cmp producers.new id) }
    ensures present { OnOk result (IsSome (get int_cmp producers.new producer)) }
    ensures room { OnOk result (length (ends_at producers.old producer).waiting.list + count ≤ (ends_at producers.new producer).waiting.room) }
{
    let Some(ends) = producers.get_mut(&producer) else {
        return insert_blank(alloc, producers, producer, count);
    };
    ends.waiting.reserve(count)
}

/// Makes room for all that comes after. What is known stays.
///
/// # Errors
/// Only want of memory.
pub fn make_room(
    alloc: Global,
    producers: &mut BTreeMap<i64, Ends>,
    after: &BTreeMap<i64, Ends>,
) -> Result<(), AllocError>
    ensures same { (id : ℤ) → SameEnds (ends_at producers.old id) (ends_at producers.new id) }
    ensures ready { OnOk result ((id : ℤ) (ends : Ends) → get int_cmp after.now id ≡ Some ends → IsReadyFor producers.new id ends) }
{
    let mut rest = after.iter();
    while let Some((producer, ends)) = rest.next() {
        make_room_for(alloc, producers, *producer, ends.waiting.len())?;
    }
    Ok(())
}
