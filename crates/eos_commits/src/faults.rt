//! The faults of visible records: the least of them, and all as one list.

ghost use Rattle.std.specs.Prelude.{◌≡◌, true, slice_get, IfOk};
ghost use Rattle.eos_base.specs.AllOf.{IsAllOf};
ghost use Rattle.eos_base.specs.Least.{IsLeastOrNone};
ghost use Rattle.eos_commits.specs.Faults.{visible_cmp, Stands, AreInOrder};
ghost use Rattle.eos_commits.specs.steps.Settled.{AreSettled};
ghost use Rattle.eos_commits.specs.steps.Gathered.{gathered};

use crate::gathering::gather;
use crate::roles::Roles;
use crate::settled::are_settled;
use eos_base::Workers;
use eos_evidence::App;
use eos_kept::Part;
use eos_verdict::VisibleFault;
use std::alloc::{AllocError, Global};
use std::thread::Threads;

/// The first fault of all records, where all partitions may be settled.
fn first_fault(
    alloc: Global,
    roles: &Roles<'_>,
    parts: &[Part],
    settled: bool,
) -> Result<Option<VisibleFault>, AllocError>
    requires { settled ≡ true → AreSettled roles.now parts.now }
    ensures { IfOk result (λ fault. fault ≡ slice_get (gathered roles.now parts.now) 0) }
{
    let faults = gather(alloc, roles, parts, settled, true)?;
    Ok(faults.into_iter().next())
}

/// The least fault of the visible records of these partitions, for these applications: by partition, offset and kind.
/// Partitions that don't stand by their names have an answer too, of which nothing is said.
///
/// # Errors
/// Only want of memory.
pub fn least_visible_fault(
    alloc: Global,
    apps: &[App],
    parts: &[Part],
) -> Result<Option<VisibleFault>, AllocError>
    ensures { AreInOrder parts.now → IfOk result (IsLeastOrNone visible_cmp (Stands apps.now parts.now)) }
{
    let roles = Roles::of(alloc, apps)?;
    first_fault(alloc, &roles, parts, false)
}

/// The same. At most so many threads read the records of output topics, of which the caller's is one: with one none is
/// started.
///
/// # Errors
/// Only want of memory.
pub fn least_visible_fault_by(
    alloc: Global,
    rt: &(impl Threads + Sync),
    workers: Workers,
    apps: &[App],
    parts: &[Part],
) -> Result<Option<VisibleFault>, AllocError>
    ensures { AreInOrder parts.now → IfOk result (IsLeastOrNone visible_cmp (Stands apps.now parts.now)) }
{
    let roles = Roles::of(alloc, apps)?;
    let settled = are_settled(alloc, rt, workers, &roles, parts)?;
    first_fault(alloc, &roles, parts, settled)
}

/// Every fault of the visible records of these partitions that stands, for these applications, in the order in which the least
/// of them counts, each once: where a group has a record in a lesser partition of `__consumer_offsets`, each of its records in
/// this one has a fault, and a record whose value doesn't read may have that of a split group too. None where the records keep
/// their rule; else the first is that of `least_visible_fault`.
///
/// The parts stand by their names; of others nothing is said. It is the walk of `least_visible_fault` to its end: once over the
/// records of the offsets log and of the output topics, with each group looked up in a table. The memory is that of the
/// faults, and an entry for each group.
///
/// # Errors
/// Only want of memory.
pub fn all_record_faults(
    alloc: Global,
    apps: &[App],
    parts: &[Part],
) -> Result<Vec<VisibleFault>, AllocError>
    ensures { AreInOrder parts.now → IfOk result (λ faults. IsAllOf visible_cmp (Stands apps.now parts.now) faults.items) }
{
    let roles = Roles::of(alloc, apps)?;
    gather(alloc, &roles, parts, false, false)
}
