//! Threads that draw pieces, one after the other, and keep what they read: a thread that is done with a small piece draws the next,
//! so that large ones don't wait for each other. Large ones are drawn first.

ghost use Rattle.std.specs.Prelude.{◌≡◌, vec_len, length, map, set, All, Any, IsOk, IfOk, IsPermutation};
ghost use Rattle.eos_evidence.specs.Evidence.{segments_of};
ghost use Rattle.eos_evidence.specs.SpecFields.{outputs_of};
ghost use Rattle.eos_source.specs.Said.{known_by};
ghost use Rattle.eos_source.specs.steps.Order.{IsOrder};
ghost use Rattle.eos_source.specs.steps.Seats.{IsReading, IsDesk, IsStint, numbers_in, all_numbers};
ghost use Rattle.eos_source.specs.steps.Slots.{AreSlotsSoFar, AreFilledAsWell, IsFilled};
ghost use Rattle.eos_source.specs.SeatViews.{IsFresh, AreBelow};

use crate::order::order_of;
use crate::plan::Plan;
use crate::source::Source;
use crate::tickets::{Drawn, Seat, Tickets};
use eos_base::Workers;
use eos_kept::KeptRun;
use std::alloc::{AllocError, Global};
use std::thread;
use std::thread::Threads;

/// What became of the piece of this number.
#[derive(Drop)]
pub(crate) struct Reading<F> {
    pub(crate) piece: u64,
    pub(crate) run: Result<KeptRun, F>,
}

/// A seat, with an empty list for what is read from it, in which there is a place for one reading.
#[derive(Drop)]
pub(crate) struct Desk<F> {
    pub(crate) seat: Seat,
    pub(crate) read: Vec<Reading<F>>,
}

/// What one thread read: of each number that its seat drew, in order, what became of the piece.
#[derive(Drop)]
pub(crate) struct Stint<F> {
    pub(crate) seat: Seat,
    pub(crate) read: Vec<Reading<F>>,
    /// That all pieces are drawn, or that memory for a further reading was refused.
    pub(crate) end: Result<(), AllocError>,
}

/// A desk for each of these seats.
fn desks_of<F: Drop>(
    alloc: Global,
    tickets: &Tickets,
    seats: Vec<Seat>,
) -> Result<Vec<Desk<F>>, AllocError>
    requires { All (IsFresh tickets.now) seats.items }
    ensures len { IfOk result (λ desks. vec_len desks ≡ vec_len seats) }
    ensures each { IfOk result (λ desks. All (IsDesk tickets.now) desks.items) }
{
    let mut desks = Vec::new(alloc);
    for seat in seats {
        let read = Vec::with_capacity(alloc, 1)?;
        desks.push(Desk { seat, read })?;
    }
    Ok(desks)
}

/// Draws pieces until all are drawn, and reads each. There is a place for a reading before its piece is drawn: a thread that is
/// refused memory for that place leaves the rest to others.
fn read_drawn<S: Source>(
    alloc: Global,
    plan: &Plan<'_, S>,
    order: &[u64],
    tickets: &Tickets,
    desk: Desk<S::Fault>,
) -> Stint<S::Fault>
    requires wants { IsPermutation (outputs_of plan.now.shape.now.spec.apps) plan.now.wants }
    requires order { IsOrder (length (segments_of plan.now.shape.now.partitions)) order.now }
    requires count { tickets.now.count ≡ length (segments_of plan.now.shape.now.partitions) }
    requires desk { IsDesk tickets.now desk }
    ensures { IsStint tickets.now (known_by (S.said plan.now.source.now) (S.is_log plan.now.source.now)) (S.outcomes plan.now.source.now) plan.now.topics.now plan.now.shape.now.spec.apps (segments_of plan.now.shape.now.partitions) order.now result }
{
    let Desk { mut seat, mut read } = desk;
    for _ in 0..plan.shape.pieces() {
        if let Err(refused) = read.reserve(1) {
            return Stint {
                seat,
                read,
                end: Err(refused),
            };
        }
        let Some(number) = tickets.draw(&mut seat) else {
            return Stint {
                seat,
                read,
                end: Ok(()),
            };
        };
        let piece = order[number as usize];
        let run = plan.read(alloc, piece);
        read.push_reserved(Reading { piece, run });
    }
    Stint {
        seat,
        read,
        end: Ok(()),
    }
}

/// The seats and what was read from them, apart, if one of the threads found that all pieces are drawn.
fn split_stints<F: Drop>(
    alloc: Global,
    stints: Vec<Stint<F>>,
) -> Result<(Vec<Seat>, Vec<Vec<Reading<F>>>), AllocError>
    ensures seats { IfOk result (λ r. r.0.items ≡ map (λ s. s.seat) stints.items) }
    ensures read { IfOk result (λ r. r.1.items ≡ map (λ s. s.read) stints.items) }
    ensures ended { IfOk result (λ r. Any (λ s. IsOk s.end) stints.items) }
{
    let mut seats = Vec::new(alloc);
    let mut all = Vec::new(alloc);
    let mut end = Err(AllocError);
    for stint in stints {
        if stint.end.is_ok() {
            end = Ok(());
        }
        seats.push(stint.seat)?;
        all.push(stint.read)?;
    }
    end?;
    Ok((seats, all))
}

/// What all threads read, beside the numbers that their seats drew.
fn gathered<S: Source>(
    alloc: Global,
    plan: &Plan<'_, S>,
    order: &[u64],
    tickets: &Tickets,
    stints: Vec<Stint<S::Fault>>,
) -> Result<(Vec<Vec<Reading<S::Fault>>>, Drawn), AllocError>
    requires order { IsOrder (length (segments_of plan.now.shape.now.partitions)) order.now }
    requires all { vec_len stints ≡ tickets.now.workers }
    requires count { tickets.now.count ≡ length (segments_of plan.now.shape.now.partitions) }
    requires each { All (IsStint tickets.now (known_by (S.said plan.now.source.now) (S.is_log plan.now.source.now)) (S.outcomes plan.now.source.now) plan.now.topics.now plan.now.shape.now.spec.apps (segments_of plan.now.shape.now.partitions) order.now) stints.items }
    ensures each { IfOk result (λ r. All (λ seat. All (IsReading (known_by (S.said plan.now.source.now) (S.is_log plan.now.source.now)) (S.outcomes plan.now.source.now) plan.now.topics.now plan.now.shape.now.spec.apps (segments_of plan.now.shape.now.partitions)) seat.items) r.0.items) }
    ensures pieces { IfOk result (λ r. AreBelow (length (segments_of plan.now.shape.now.partitions)) (all_numbers r.0.items)) }
    ensures once { IfOk result (λ r. AreBelow (length (segments_of plan.now.shape.now.partitions)) r.1) }
{
    let (seats, read) = split_stints(alloc, stints)?;
    Ok((read, tickets.gather(seats)))
}

/// What each thread read, beside what all of them drew: each piece once.
pub(crate) fn read_by_threads<S: Source, R: Threads + Sync>(
    alloc: Global,
    rt: &R,
    plan: &Plan<'_, S>,
    workers: Workers,
) -> Result<(Vec<Vec<Reading<S::Fault>>>, Drawn), AllocError>
    requires { IsPermutation (outputs_of plan.now.shape.now.spec.apps) plan.now.wants }
    ensures each { IfOk result (λ r. All (λ seat. All (IsReading (known_by (S.said plan.now.source.now) (S.is_log plan.now.source.now)) (S.outcomes plan.now.source.now) plan.now.topics.now plan.now.shape.now.spec.apps (segments_of plan.now.shape.now.partitions)) seat.items) r.0.items) }
    ensures pieces { IfOk result (λ r. AreBelow (length (segments_of plan.now.shape.now.partitions)) (all_numbers r.0.items)) }
    ensures once { IfOk result (λ r. AreBelow (length (segments_of plan.now.shape.now.partitions)) r.1) }
{
    let pieces = order_of(alloc, plan.shape)?;
    let order = pieces.as_slice();
    let (tickets, seats) = Tickets::new(alloc, plan.shape.pieces(), workers.get())?;
    let desks = desks_of(alloc, &tickets, seats)?;
    let stints = thread::map_vec(
        rt,
        desks,
        &|desk: Desk<S::Fault>| -> Stint<S::Fault>
            requires wants { IsPermutation (outputs_of plan.now.shape.now.spec.apps) plan.now.wants }
            requires order { IsOrder (length (segments_of plan.now.shape.now.partitions)) order.now }
            requires count { tickets.count ≡ length (segments_of plan.now.shape.now.partitions) }
            requires desk { IsDesk tickets desk }
            ensures { IsStint tickets (known_by (S.said plan.entry.now.source.now) (S.is_log plan.entry.now.source.now)) (S.outcomes plan.entry.now.source.now) plan.entry.now.topics.now plan.entry.now.shape.now.spec.apps (segments_of plan.entry.now.shape.now.partitions) order.entry.now result }
        { read_drawn(alloc, plan, order, &tickets, desk) },
    )?;
    gathered(alloc, plan, order, &tickets, stints)
}

/// Puts an item at a place of a list, where there is one.
fn put_at<T: Drop>(items: &mut [T], place: u64, item: T)
    ensures { items.new ≡ set items.old place item }
{
    if place < items.len() as u64 {
        items[place as usize] = item;
    }
}

/// Puts what a thread read into the slots.
pub(crate) fn fill<S: Source>(
    plan: &Plan<'_, S>,
    seat: Vec<Reading<S::Fault>>,
    slots: &mut [Option<Result<KeptRun, S::Fault>>],
)
    requires read { All (IsReading (known_by (S.said plan.now.source.now) (S.is_log plan.now.source.now)) (S.outcomes plan.now.source.now) plan.now.topics.now plan.now.shape.now.spec.apps (segments_of plan.now.shape.now.partitions)) seat.items }
    requires slots { AreSlotsSoFar (known_by (S.said plan.now.source.now) (S.is_log plan.now.source.now)) (S.outcomes plan.now.source.now) plan.now.topics.now plan.now.shape.now.spec.apps 0 (segments_of plan.now.shape.now.partitions) slots.old }
    ensures slots { AreSlotsSoFar (known_by (S.said plan.now.source.now) (S.is_log plan.now.source.now)) (S.outcomes plan.now.source.now) plan.now.topics.now plan.now.shape.now.spec.apps 0 (segments_of plan.now.shape.now.partitions) slots.new }
    ensures stay { AreFilledAsWell slots.old slots.new }
    ensures filled { All (λ n. IsFilled slots.new n) (numbers_in seat.items) }
{
    for reading in seat {
        let Reading { piece, run } = reading;
        put_at(slots, piece, Some(run));
    }
}
