//! What is told of partitions, made by several threads of what became of their pieces.

ghost use Rattle.std.specs.Prelude.{◌≡◌, ◌⊎◌, ◌+◌, ◌^◌, ◌++◌, ◌∷◌, [], ◌<◌, ◌≤◌, ℕ, List, length, IfOk, IfErr, OnOk, IsPermutation, alloc_error};
ghost use Rattle.std.specs.List.{AllByRecursion};
ghost use Rattle.std.specs.Thread.{IsSync};
ghost use Rattle.std.specs.Vec.Iter.{into_iter_items};
ghost use Rattle.eos_evidence.specs.Evidence.{IsPartition, segments_of};
ghost use Rattle.eos_evidence.specs.SpecFields.{outputs_of};
ghost use Rattle.eos_evidence.specs.declared.segment.Segment.{Segment};
ghost use Rattle.eos_source.specs.Said.{Said, known_by};
ghost use Rattle.eos_source.specs.steps.Partitions.{IsToldOf, IsToldFrom, AreHalves};
ghost use Rattle.eos_source.specs.steps.Runs.{AreSlotsOf, IsFirstRefused, ArePassed};

use crate::joined::next_run;
use crate::plan::Plan;
use crate::source::Source;
use eos_base::Workers;
use eos_evidence::Partition;
use eos_kept::{KeptRun, Told, told_of};
use std::alloc::{AllocError, Global};
use std::thread::{Threads, join};
use std::vec::IntoIter;

/// Partitions that stand side by side, and what became of their pieces, in order.
#[derive(Drop)]
pub(crate) struct Share<'a, F> {
    pub(crate) shapes: &'a [Partition],
    pub(crate) slots: Vec<Result<KeptRun, F>>,
}

/// What is told of a partition of this shape, out of the next slots.
fn next_told<S: Source>(
    alloc: Global,
    plan: &Plan<'_, S>,
    shape: &Partition,
    slots: &mut IntoIter<Result<KeptRun, S::Fault>>,
) -> Result<Told, S::Fault>
    requires wants { IsPermutation (outputs_of plan.now.shape.now.spec.apps) plan.now.wants }
    requires partition { IsPartition shape.now }
    requires slots { (said : ℕ → Said) × (piece : ℕ) × (later : List Segment)
        × AreSlotsOf (known_by (S.said plan.now.source.now) (S.is_log plan.now.source.now)) said plan.now.topics.now plan.now.shape.now.spec.apps piece (shape.now.segments ++ later) (into_iter_items slots.old) }
    ensures told { (said : ℕ → Said) (piece : ℕ) (later : List Segment)
        → AreSlotsOf (known_by (S.said plan.now.source.now) (S.is_log plan.now.source.now)) said plan.now.topics.now plan.now.shape.now.spec.apps piece (shape.now.segments ++ later) (into_iter_items slots.old)
        → IfOk result (λ told. IsToldOf (known_by (S.said plan.now.source.now) (S.is_log plan.now.source.now)) said plan.now.shape.now.spec.apps piece shape.now told
        × AreSlotsOf (known_by (S.said plan.now.source.now) (S.is_log plan.now.source.now)) said plan.now.topics.now plan.now.shape.now.spec.apps (piece + length shape.now.segments) later (into_iter_items slots.new)) }
    ensures passed { IfOk result (λ told. ArePassed (length shape.now.segments) (into_iter_items slots.old) (into_iter_items slots.new)) }
    ensures refused { IfErr result (λ why. IsFirstRefused (into_iter_items slots.old) why ⊎ S.Fault.from_gives alloc_error why) }
{
    let end = shape.end.clone()?;
    let run = next_run(alloc, shape.segments.as_slice(), slots)?;
    let asked = plan.asked_of(shape.end.topic.as_slice());
    Ok(told_of(alloc, end, asked, run)?)
}

/// Puts what is told of a partition at the end.
fn push(all: &mut Vec<Told>, told: Told) -> Result<(), AllocError>
    ensures { OnOk result (all.new.items ≡ all.old.items ++ told ∷ []) }
{
    all.push(told)?;
    Ok(())
}

/// What is told of these partitions, one after the other.
fn told_in_turn<S: Source>(
    alloc: Global,
    plan: &Plan<'_, S>,
    share: Share<'_, S::Fault>,
) -> Result<Vec<Told>, S::Fault>
    requires wants { IsPermutation (outputs_of plan.now.shape.now.spec.apps) plan.now.wants }
    requires partitions { AllByRecursion IsPartition share.shapes.now }
    requires slots { (said : ℕ → Said) × (piece : ℕ) × AreSlotsOf (known_by (S.said plan.now.source.now) (S.is_log plan.now.source.now)) said plan.now.topics.now plan.now.shape.now.spec.apps piece (segments_of share.shapes.now) share.slots.items }
    ensures { IsToldFrom (known_by (S.said plan.now.source.now) (S.is_log plan.now.source.now)) plan.now.topics.now plan.now.shape.now.spec.apps (S.Fault.from_gives alloc_error) share.entry.shapes.now share.entry.slots.items result }
{
    let Share { shapes, slots } = share;
    let mut slots = slots.into_iter();
    let mut all = Vec::new(alloc);
    for i in 0..shapes.len() {
        push(&mut all, next_told(alloc, plan, &shapes[i], &mut slots)?)?;
    }
    Ok(all)
}

/// How many batches are kept of a piece, if it wasn't refused.
fn batches_of<F>(slot: &Result<KeptRun, F>) -> usize {
    match slot {
        Ok(KeptRun::Presence(kept)) => kept.heads().len(),
        Ok(KeptRun::Claims(kept)) => kept.heads().len(),
        Ok(KeptRun::Texts(kept)) => kept.heads().len(),
        Err(_) => 0,
    }
}

/// How much work pieces of a partition are, about.
fn work_of<F>(slots: &[Result<KeptRun, F>]) -> u64 {
    let mut work = 1u64;
    for slot in slots {
        work = work.saturating_add(batches_of(slot) as u64);
    }
    work
}

/// Who has fewer batches than so many to go over is as quick alone.
const ALONE: u64 = 16384;

/// By how many threads partitions of these slots are told, of so many workers.
pub(crate) fn threads_for<F>(slots: &[Result<KeptRun, F>], workers: Workers) -> u64 {
    let shares = work_of(slots) / ALONE;
    shares.min(workers.get()).max(1)
}

/// So many of these partitions that about half of the work is theirs.
fn middle_of<F>(shapes: &[Partition], slots: &[Result<KeptRun, F>]) -> usize
    ensures { result ≤ length shapes.now }
{
    let all = work_of(slots).saturating_add(shapes.len() as u64);
    let mut passed = 0u64;
    let mut left = slots;
    for place in 0..shapes.len() {
        let count = shapes[place].segments.len();
        let (mine, others) = left.split_at(count.min(left.len()));
        let work = work_of(mine);
        if passed.saturating_mul(2).saturating_add(work) > all {
            return place;
        }
        passed = passed.saturating_add(work);
        left = others;
    }
    shapes.len()
}

/// How many pieces these partitions have.
fn pieces_of(shapes: &[Partition]) -> usize
    requires { length (segments_of shapes.now) < 2 ^ 64 }
    ensures { result ≡ length (segments_of shapes.now) }
{
    let mut pieces = 0;
    for i in 0..shapes.len() {
        pieces += shapes[i].segments.len();
    }
    pieces
}

/// Both halves of a share, of about as much work.
fn halves<'a, F: Drop>(share: Share<'a, F>) -> Result<(Share<'a, F>, Share<'a, F>), AllocError>
    requires { length (segments_of share.shapes.now) ≤ length share.slots.items }
    ensures { IfOk result (λ r. AreHalves share.entry.shapes.now share.entry.slots.items r.0.shapes.now r.0.slots.items r.1.shapes.now r.1.slots.items) }
{
    let Share { shapes, mut slots } = share;
    let place = middle_of(shapes, slots.as_slice());
    let (front, back) = shapes.split_at(place);
    let rest = slots.split_off(pieces_of(front))?;
    Ok((
        Share {
            shapes: front,
            slots,
        },
        Share {
            shapes: back,
            slots: rest,
        },
    ))
}

/// What is told of these partitions, by so many threads at most, of which the caller's is one.
#[cycle(threads)]
pub(crate) fn told_by<S: Source, R: Threads + Sync>(
    alloc: Global,
    rt: &R,
    plan: &Plan<'_, S>,
    share: Share<'_, S::Fault>,
    threads: u64,
) -> Result<Vec<Told>, S::Fault>
    requires wants { IsPermutation (outputs_of plan.now.shape.now.spec.apps) plan.now.wants }
    requires partitions { AllByRecursion IsPartition share.shapes.now }
    requires slots { (said : ℕ → Said) × (piece : ℕ) × AreSlotsOf (known_by (S.said plan.now.source.now) (S.is_log plan.now.source.now)) said plan.now.topics.now plan.now.shape.now.spec.apps piece (segments_of share.shapes.now) share.slots.items }
    ensures { IsToldFrom (known_by (S.said plan.now.source.now) (S.is_log plan.now.source.now)) plan.now.topics.now plan.now.shape.now.spec.apps (S.Fault.from_gives alloc_error) share.entry.shapes.now share.entry.slots.items result }
{
    if threads < 2 || share.shapes.len() < 2 {
        return told_in_turn(alloc, plan, share);
    }
    let few = threads / 2;
    let others = threads - few;
    let (front, back) = halves(share)?;
    let front_told = move || -> Result<Vec<Told>, S::Fault>
        requires sync { IsSync R.row }
        requires wants { IsPermutation (outputs_of plan.now.shape.now.spec.apps) plan.now.wants }
        requires partitions { AllByRecursion IsPartition front.shapes.now }
        requires slots { (said : ℕ → Said) × (piece : ℕ) × AreSlotsOf (known_by (S.said plan.now.source.now) (S.is_log plan.now.source.now)) said plan.now.topics.now plan.now.shape.now.spec.apps piece (segments_of front.shapes.now) front.slots.items }
        ensures { IsToldFrom (known_by (S.said plan.entry.now.source.now) (S.is_log plan.entry.now.source.now)) plan.entry.now.topics.now plan.entry.now.shape.now.spec.apps (S.Fault.from_gives alloc_error) front.entry.shapes.now front.entry.slots.items result }
    { told_by(alloc, rt, plan, front, few) };
    let back_told = move || -> Result<Vec<Told>, S::Fault>
        requires sync { IsSync R.row }
        requires wants { IsPermutation (outputs_of plan.now.shape.now.spec.apps) plan.now.wants }
        requires partitions { AllByRecursion IsPartition back.shapes.now }
        requires slots { (said : ℕ → Said) × (piece : ℕ) × AreSlotsOf (known_by (S.said plan.now.source.now) (S.is_log plan.now.source.now)) said plan.now.topics.now plan.now.shape.now.spec.apps piece (segments_of back.shapes.now) back.slots.items }
        ensures { IsToldFrom (known_by (S.said plan.entry.now.source.now) (S.is_log plan.entry.now.source.now)) plan.entry.now.topics.now plan.entry.now.shape.now.spec.apps (S.Fault.from_gives alloc_error) back.entry.shapes.now back.entry.slots.items result }
    { told_by(alloc, rt, plan, back, others) };
    let (first, second) = join(rt, front_told, back_told);
    let mut all = first?;
    let mut rest = second?;
    all.append(&mut rest)?;
    Ok(all)
}
