//! All pieces, read by several threads, each into a slot of its own.

ghost use Rattle.std.specs.Prelude.{◌≡◌, vec_len, length, map, Some, None, All, IsSome, IfOk, IsPermutation};
ghost use Rattle.eos_evidence.specs.Evidence.{segments_of};
ghost use Rattle.eos_evidence.specs.SpecFields.{outputs_of};
ghost use Rattle.eos_source.specs.Said.{known_by};
ghost use Rattle.eos_source.specs.steps.Runs.{AreSlots};
ghost use Rattle.eos_source.specs.SeatViews.{AreBelow};

use crate::plan::Plan;
use crate::seats::{fill, read_by_threads};
use crate::source::Source;
use crate::tickets::Drawn;
use eos_base::Workers;
use eos_kept::KeptRun;
use std::alloc::{AllocError, Global};
use std::thread::Threads;

/// So many slots, none of them filled.
fn unread<F: Drop>(alloc: Global, count: u64) -> Result<Vec<Option<Result<KeptRun, F>>>, AllocError>
    ensures each { IfOk result (λ slots. vec_len slots ≡ count) }
    ensures empty { IfOk result (λ slots. All (λ slot. slot ≡ None) slots.items) }
{
    let mut slots = Vec::new(alloc);
    for _ in 0..count {
        slots.push(None)?;
    }
    Ok(slots)
}

/// What is in the slots, which are all filled.
fn filled<F: Drop>(
    alloc: Global,
    slots: Vec<Option<Result<KeptRun, F>>>,
) -> Result<Vec<Result<KeptRun, F>>, AllocError>
    requires { All IsSome slots.items }
    ensures { IfOk result (λ runs. map Some runs.items ≡ slots.items) }
{
    let mut runs = Vec::new(alloc);
    for slot in slots {
        let Some(run) = slot else { unreachable!() };
        runs.push(run)?;
    }
    Ok(runs)
}

/// What became of each piece, in order, beside the pieces that were drawn and read: each one once.
pub(crate) fn read_all<S: Source, R: Threads + Sync>(
    alloc: Global,
    rt: &R,
    plan: &Plan<'_, S>,
    workers: Workers,
) -> Result<(Vec<Result<KeptRun, S::Fault>>, Drawn), AllocError>
    requires { IsPermutation (outputs_of plan.now.shape.now.spec.apps) plan.now.wants }
    ensures slots { IfOk result (λ r. AreSlots (known_by (S.said plan.now.source.now) (S.is_log plan.now.source.now)) (S.outcomes plan.now.source.now) plan.now.topics.now plan.now.shape.now.spec.apps 0 (segments_of plan.now.shape.now.partitions) r.0.items) }
    ensures once { IfOk result (λ r. AreBelow (length (segments_of plan.now.shape.now.partitions)) r.1) }
{
    let (seats, drawn) = read_by_threads(alloc, rt, plan, workers)?;
    let mut slots = unread(alloc, plan.shape.pieces())?;
    for seat in seats {
        fill(plan, seat, slots.as_mut_slice());
    }
    Ok((filled(alloc, slots)?, drawn))
}
