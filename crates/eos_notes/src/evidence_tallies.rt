//! The tables of an evidence.

ghost use Rattle.std.specs.Prelude.{◌≡◌, IfOk};
ghost use Rattle.eos_commits.specs.Faults.{AreInOrder};
ghost use Rattle.eos_notes.specs.TalliesByLogs.{tallies_by};

use crate::group_rows::group_tallies_of;
use crate::partitions::partition_tallies_of;
use crate::tally::{Counted, Tallies};
use eos_evidence::Spec;
use eos_kept::Logs;
use std::alloc::{AllocError, Global};

/// The tables of an evidence with this manifest and these logs, whole ones or what is kept of them, of whose segments so much is
/// counted.
///
/// # Errors
/// Only want of memory.
pub fn tallies_of(
    alloc: Global,
    spec: &Spec,
    logs: &Logs,
    counted: &[Counted],
) -> Result<Tallies, AllocError>
    ensures { AreInOrder logs.now.parts.items
        → IfOk result (λ tallies. tallies ≡ tallies_by spec.now.apps logs.now.parts.items logs.now.faults.items counted.now) }
{
    let apps = spec.apps().as_slice();
    let partitions = partition_tallies_of(alloc, apps, logs, counted)?;
    let groups = group_tallies_of(alloc, apps, logs)?;
    Ok(Tallies { partitions, groups })
}
