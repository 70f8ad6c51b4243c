//! Finding them.

ghost use Rattle.std.specs.Prelude.{◌≡◌, ◌++◌, ◌∷◌, [], ◌<◌, length, List, IfOk, OnOk, Some, slice_get};
ghost use Rattle.eos_fold.specs.declared.item.Item.{Item as Data};
ghost use Rattle.eos_sought.specs.declared.finding.Find.{Find as Record};
ghost use Rattle.eos_sought.specs.Finds.{find_in, among, all_in, all_of, AreFirst};
ghost use Rattle.eos_sought.specs.Sought.{meets};

use crate::holding::may_hold;
use crate::sought::{Sought, meets};
use eos_base::PartitionName;
use eos_fold::Item;
use eos_kept::{ItemRef, Part};
use std::alloc::{AllocError, Global};

/// A data record of a partition's log.
#[derive(Drop)]
pub struct Find {
    pub partition: PartitionName,
    pub item: Item,
}

/// The first of those that were found, and how many there are.
#[derive(Drop)]
pub struct Finds {
    /// So many are kept at most.
    pub most: u64,
    pub first: Vec<Find>,
    pub count: u64,
}

fn find_at(alloc: Global, part: &Part, i: usize) -> Result<Find, AllocError>
    requires { i < length part.now.items }
    ensures { IfOk result (λ find. (x : Data) × (slice_get part.now.items i ≡ Some x) × (find ≡ find_in part.now x)) }
{
    let partition = PartitionName {
        topic: part.topic().clone()?,
        partition: part.partition(),
    };
    let item = part.items().get(alloc, i)?;
    Ok(Find { partition, item })
}

/// With one more.
fn keep(alloc: Global, finds: &mut Finds, part: &Part, i: usize) -> Result<(), AllocError>
    requires { i < length part.now.items }
    ensures most { finds.new.most ≡ finds.old.most }
    ensures kept { (xs : List Record) (x : Data) → slice_get part.now.items i ≡ Some x → AreFirst xs finds.old → OnOk result (AreFirst (xs ++ find_in part.now x ∷ []) finds.new) }
{
    if finds.count < finds.most {
        finds.first.push(find_at(alloc, part, i)?)?;
    }
    finds.count = finds.count.checked_add(1).ok_or(AllocError)?;
    Ok(())
}

/// A data record, and its number in the part that holds it.
#[derive(Drop)]
struct Numbered<'a> {
    i: usize,
    item: ItemRef<'a>,
}

/// With one record more, if it is sought.
fn take_item(
    alloc: Global,
    finds: &mut Finds,
    sought: &Sought,
    part: &Part,
    numbered: Numbered<'_>,
) -> Result<(), AllocError>
    requires { slice_get part.now.items numbered.i ≡ Some numbered.item }
    ensures most { finds.new.most ≡ finds.old.most }
    ensures taken { (xs : List Record) → AreFirst xs finds.old → OnOk result (AreFirst (xs ++ among sought.now part.now (numbered.entry.item ∷ [])) finds.new) }
{
    let Numbered { i, item } = numbered;
    if meets(alloc, sought, part, item)? {
        keep(alloc, finds, part, i)?;
    }
    Ok(())
}

/// With those of a partition, each of whose records is looked at.
fn walk_part(
    alloc: Global,
    finds: &mut Finds,
    sought: &Sought,
    part: &Part,
) -> Result<(), AllocError>
    ensures most { finds.new.most ≡ finds.old.most }
    ensures taken { (xs : List Record) → AreFirst xs finds.old → OnOk result (AreFirst (xs ++ all_in sought.now part.now) finds.new) }
{
    let count = part.items().len();
    let mut left = part.items().cursor();
    let mut i = 0;
    while let Some(item) = left.next() {
        take_item(alloc, finds, sought, part, Numbered { i, item })?;
        i += 1;
    }
    Ok(())
}

/// With those of a partition.
fn take_part(
    alloc: Global,
    finds: &mut Finds,
    sought: &Sought,
    part: &Part,
) -> Result<(), AllocError>
    ensures most { finds.new.most ≡ finds.old.most }
    ensures taken { (xs : List Record) → AreFirst xs finds.old → OnOk result (AreFirst (xs ++ all_in sought.now part.now) finds.new) }
{
    if !may_hold(sought, part) {
        return Ok(());
    }
    walk_part(alloc, finds, sought, part)
}

/// The first data records of the logs that are sought, so many at most, by partition and offset, and how many there are. The
/// records of those partitions that may have some by their names are passed over once.
///
/// # Errors
/// Only want of memory.
pub fn find_records(
    alloc: Global,
    logs: &[Part],
    sought: &Sought,
    most: u64,
) -> Result<Finds, AllocError>
    ensures { IfOk result (λ finds. (finds.most ≡ most) × AreFirst (all_of sought.now logs.now) finds) }
{
    let mut finds = Finds {
        most,
        first: Vec::new(alloc),
        count: 0,
    };
    for part in logs {
        take_part(alloc, &mut finds, sought, part)?;
    }
    Ok(finds)
}
