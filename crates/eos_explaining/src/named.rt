//! The partitions that rows name, each once.

ghost use Rattle.std.specs.Prelude.{◌≡◌, ◌&&◌, [], true, IfOk, OnOk};
ghost use Rattle.std.specs.Cmp.Lexicographic.{slice_cmp};
ghost use Rattle.std.specs.Option.{option_copied};
ghost use Rattle.std.specs.Ordering.{int_eq, is_eq, nat_cmp};
ghost use Rattle.eos_base.specs.Members.{Has};
ghost use Rattle.eos_base.specs.declared.partition_name.PartitionName.{PartitionName as AName};
ghost use Rattle.eos_story.specs.Names.{name_in};
ghost use Rattle.eos_explaining.specs.steps.Again.{AreNamedOrRead, IsNamedOrRead};
ghost use Rattle.eos_explaining.specs.steps.Times.{timed_in};

use crate::times::timed_in;
use eos_base::PartitionName;
use eos_sought::{Folded, folded_named};
use eos_story::{Row, name_in};
use std::alloc::{AllocError, Global};

pub(crate) fn is_same(one: &PartitionName, other: &PartitionName) -> bool
    ensures { result ≡ (is_eq (slice_cmp nat_cmp one.now.topic other.now.topic) && int_eq one.now.partition other.now.partition) }
{
    one.topic.as_slice().cmp(other.topic.as_slice()).is_eq() && one.partition == other.partition
}

fn is_among(names: &[PartitionName], name: &PartitionName) -> bool
    ensures { result ≡ true → Has names.now name.now }
{
    for one in names {
        if is_same(one, name) {
            return true;
        }
    }
    false
}

/// Adds a name, unless it is among them.
fn push_once(names: &mut Vec<PartitionName>, name: &PartitionName) -> Result<(), AllocError>
    ensures kept { OnOk result ((other : AName) → Has names.old.items other → Has names.new.items other) }
    ensures has { OnOk result (Has names.new.items name.now) }
{
    if is_among(names.as_slice(), name) {
        return Ok(());
    }
    names.push(name.clone()?)?;
    Ok(())
}

/// Adds the name of a partition, if there is one, unless it was read or is among them.
fn push_left(
    names: &mut Vec<PartitionName>,
    read: &[Folded],
    name: Option<&PartitionName>,
) -> Result<(), AllocError>
    ensures kept { OnOk result ((other : AName) → Has names.old.items other → Has names.new.items other) }
    ensures left { OnOk result (IsNamedOrRead read.now names.new.items (option_copied name.entry)) }
{
    let Some(name) = name else {
        return Ok(());
    };
    match folded_named(read, name) {
        Some(_folded) => Ok(()),
        None => push_once(names, name),
    }
}

/// This one and the partitions that these rows name, but for those that were read.
pub(crate) fn names_left(
    alloc: Global,
    read: &[Folded],
    own: Option<&PartitionName>,
    rows: &[Row],
) -> Result<Vec<PartitionName>, AllocError>
    ensures own { IfOk result (λ names. IsNamedOrRead read.now names.items (option_copied own.entry)) }
    ensures rows { IfOk result (λ names. AreNamedOrRead read.now names.items name_in rows.now) }
{
    let mut names = Vec::new(alloc);
    push_left(&mut names, read, own)?;
    for row in rows {
        push_left(&mut names, read, name_in(row))?;
    }
    Ok(names)
}

/// The partitions that have the times of these rows.
pub(crate) fn names_timed(alloc: Global, rows: &[Row]) -> Result<Vec<PartitionName>, AllocError>
    ensures { IfOk result (λ names. AreNamedOrRead [] names.items timed_in rows.now) }
{
    let mut names = Vec::new(alloc);
    for row in rows {
        push_left(&mut names, &[], timed_in(row))?;
    }
    Ok(names)
}
