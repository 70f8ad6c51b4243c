//! Whether the records of output topics are claims, found by threads that take partitions side by side.

ghost use Rattle.std.specs.Prelude.{◌≡◌, ◌<◌, ◌%◌, ◌&&◌, ℕ, true, is_none, length, slice_index_or, IfOk};
ghost use Rattle.eos_claims.specs.Headers.{claim_of};
ghost use Rattle.eos_fold.specs.declared.item.Item.{Item};
ghost use Rattle.eos_fold.specs.Parts.{PartLog};
ghost use Rattle.eos_kept.specs.Looks.{IsLook};
ghost use Rattle.eos_commits.specs.Visible.{is_visible as is_visible_fate};
ghost use Rattle.eos_commits.specs.steps.Settled.{are_claimed, is_settled as is_settled_part, AreSettled};

use crate::roles::Roles;
use crate::shown::role_of;
use crate::visible::is_visible;
use eos_base::{Workers, are_all};
use eos_kept::{KeptBatch, Look, Part};
use std::alloc::{AllocError, Global};
use std::thread;
use std::thread::Threads;

/// What threads walk over: the partitions, with what the applications read and write.
#[derive(Clone, Copy)]
struct Ground<'r, 's, 'p> {
    roles: &'r Roles<'s>,
    parts: &'p [Part],
}

/// Whether it is a visible record that is no claim.
fn is_bare(look: &Look<'_>) -> bool
    ensures { (item : Item) → IsLook item look.now → result ≡ (is_visible_fate item.fate && is_none (claim_of item.headers)) }
{
    is_visible(look.fate) && look.claim.is_none()
}

/// Whether each visible record of the batch is a claim.
fn is_batch_claimed(batch: &KeptBatch<'_>) -> bool
    ensures { result ≡ are_claimed batch.now }
{
    for i in 0..batch.len() {
        if is_bare(&batch.look(i)) {
            return false;
        }
    }
    true
}

/// Whether each visible record of the partition is a claim.
fn is_claimed(part: &Part) -> bool
    ensures { result ≡ are_claimed part.now.items }
{
    let mut batches = part.items().batches();
    while let Some(batch) = batches.next() {
        if !is_batch_claimed(&batch) {
            return false;
        }
    }
    true
}

/// Whether the partition's records show no fault, or it is of the offsets log.
fn is_settled(roles: &Roles<'_>, part: &Part) -> bool
    ensures { result ≡ is_settled_part roles.now part.now }
{
    let role = role_of(roles, part);
    role.is_offsets || !role.is_output || is_claimed(part)
}

/// Whether those partitions are settled whose place leaves this rest after a division by the number of threads.
fn are_settled_at(ground: &Ground<'_, '_, '_>, threads: usize, rest: usize) -> bool
    requires { 0 < threads }
    ensures { result ≡ true → (i : ℕ) (d : PartLog) → i < length ground.now.parts.now → i % threads ≡ rest
        → is_settled_part ground.now.roles.now (slice_index_or ground.now.parts.now i d) ≡ true }
{
    for i in 0..ground.parts.len() {
        if i % threads == rest && !is_settled(ground.roles, &ground.parts[i]) {
            return false;
        }
    }
    true
}

/// Whether all partitions are settled, found by so many threads at most, of which the caller's is one. They take the partitions
/// in turns, so that those of one topic fall to all of them.
pub(crate) fn are_settled<R: Threads + Sync>(
    alloc: Global,
    rt: &R,
    workers: Workers,
    roles: &Roles<'_>,
    parts: &[Part],
) -> Result<bool, AllocError>
    ensures { IfOk result (λ settled. settled ≡ true → AreSettled roles.now parts.now) }
{
    let threads = (workers.get() as usize).min(parts.len());
    if threads == 0 {
        return Ok(false);
    }
    let ground = Ground { roles, parts };
    let answers = thread::map_indices(
        rt,
        alloc,
        threads,
        &|rest| { are_settled_at(&ground, threads, rest) },
    )?;
    Ok(are_all(answers.as_slice()))
}
