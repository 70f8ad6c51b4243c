//! The partitions of a transaction as a set of names. Order and repetition don't matter.

ghost use Rattle.std.specs.Prelude.{◌≡◌, ◌↔◌, ◌++◌, ◌&&◌, true, IfOk, OnOk, IsSorted};
ghost use Rattle.eos_base.specs.Members.{is_found};
ghost use Rattle.eos_base.specs.PartitionNames.{name_cmp};
ghost use Rattle.eos_txnlog.specs.PartitionSets.{name_of, names_in_topic, names_of, Lists, IsSameSet, lists, are_within, is_same_set};

use crate::partitions::TopicPartitions;
use eos_base::{PartitionName, holds, in_order};
use std::alloc::{AllocError, Global};

fn is_in_topic(t: &TopicPartitions, topic: &[u8], number: i32) -> bool
    ensures { result ≡ is_found name_cmp (names_in_topic t.now) (name_of topic.now number) }
{
    t.topic.as_slice() == topic && t.numbers.as_slice().contains(&number)
}

/// Whether a partition is among those of a transaction. It takes no memory.
pub fn lists(partitions: &[TopicPartitions], topic: &[u8], number: i32) -> bool
    ensures value { result ≡ lists partitions.now topic.now number }
    ensures meaning { (result ≡ true) ↔ Lists partitions.now topic.now number }
{
    for t in partitions {
        if is_in_topic(t, topic, number) {
            return true;
        }
    }
    false
}

fn push_of_topic(names: &mut Vec<PartitionName>, t: &TopicPartitions) -> Result<(), AllocError>
    ensures { OnOk result (names.new.items ≡ names.old.items ++ names_in_topic t.now) }
{
    for number in t.numbers.as_slice() {
        let topic = t.topic.clone()?;
        names.push(PartitionName {
            topic,
            partition: *number,
        })?;
    }
    Ok(())
}

/// Appends the names of a transaction's partitions, as often as they are listed.
///
/// # Errors
/// Want of memory alone.
pub fn push_names(
    names: &mut Vec<PartitionName>,
    partitions: &[TopicPartitions],
) -> Result<(), AllocError>
    ensures { OnOk result (names.new.items ≡ names.old.items ++ names_of partitions.now) }
{
    for topic in partitions {
        push_of_topic(names, topic)?;
    }
    Ok(())
}

fn names_of(alloc: Global, partitions: &[TopicPartitions]) -> Result<Vec<PartitionName>, AllocError>
    ensures { IfOk result (λ names. names.items ≡ names_of partitions.now) }
{
    let mut names = Vec::new(alloc);
    push_names(&mut names, partitions)?;
    Ok(names)
}

fn are_within(few: &[PartitionName], many: &[PartitionName]) -> bool
    requires { IsSorted name_cmp many.now }
    ensures { result ≡ are_within few.now many.now }
{
    for name in few {
        if !holds(many, name) {
            return false;
        }
    }
    true
}

fn are_same(xs: &[PartitionName], ys: &[PartitionName]) -> bool
    requires xs { IsSorted name_cmp xs.now }
    requires ys { IsSorted name_cmp ys.now }
    ensures { result ≡ (are_within xs.now ys.now && are_within ys.now xs.now) }
{
    are_within(xs, ys) && are_within(ys, xs)
}

/// Whether both list the same in one order, as a record does that stands twice.
fn are_alike(a: &[TopicPartitions], b: &[TopicPartitions]) -> bool
    ensures { result ≡ true → a.now ≡ b.now }
{
    a == b
}

/// Whether two lists of partitions are one set. Where they aren't one list, what they list is put in order, so that no list is
/// walked for each item of the other.
///
/// # Errors
/// Want of memory alone.
pub fn is_same_set(
    alloc: Global,
    a: &[TopicPartitions],
    b: &[TopicPartitions],
) -> Result<bool, AllocError>
    ensures value { IfOk result (λ same. same ≡ is_same_set a.now b.now) }
    ensures meaning { IfOk result (λ same. (same ≡ true) ↔ IsSameSet a.now b.now) }
{
    if are_alike(a, b) {
        return Ok(true);
    }
    let xs = in_order(names_of(alloc, a)?);
    let ys = in_order(names_of(alloc, b)?);
    Ok(are_same(xs.as_slice(), ys.as_slice()))
}
