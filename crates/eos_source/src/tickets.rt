//! The tickets and the seats that draw them.

ghost use Rattle.std.specs.Prelude.{◌≡◌, ◌+◌, ◌≤◌, ◌<◌, true, false, [], ◌∷◌, ◌++◌, length, if◌then◌else◌, vec_len, All, Any, IfOk, IfSome, IfNone};
ghost use Rattle.eos_source.specs.SeatViews.{IsFresh, AreBelow, drawn_of_all};

use crate::rule::{Draw, EachOnce, Limits, Look, Nobody, OneEach, Together, View};
use atomic_table::Table;
use std::alloc::{AllocError, Global};
use std::marker::Model;

/// The greatest number of tickets.
pub const MAX_TICKETS: u64 = 65_536;

/// The greatest number of workers.
pub const MAX_WORKERS: u64 = 64;

/// The numbers below a count, which those with a seat draw, each number once. By this type's rule the numbers that all seats
/// have drawn are those below the lesser of the shared word and the count, each once, and the word stays at most the count and
/// the number of workers together.
#[derive(Drop)]
pub struct Tickets {
    table: Table<(), View, Limits, EachOnce, Global>,
    count: u64,
}

impl Model for Tickets {
    ghost use Rattle.std.specs.Prelude.{◌≡◌};
    ghost use Rattle.eos_source.specs.SeatViews.{Counter};

    ghost Value = { Counter };

    ghost view = { λ t. record { table = t.table.shared.table_id; count = t.count; workers = t.table.shared.key.workers } };

    ghost invariant = { λ t. (t.table.shared.table_id.words ≡ 1) × (t.table.shared.table_id.slots ≡ 0) × (t.table.shared.key.count ≡ t.count) };
}

/// The right to draw, for one worker, until a draw finds no number.
#[derive(Drop)]
pub struct Seat {
    seat: atomic_table::Seat<(), View>,
    count: u64,
    is_done: bool,
}

impl Model for Seat {
    ghost use Rattle.std.specs.Prelude.{◌≡◌, [], if◌then◌else◌};
    ghost use Rattle.eos_source.specs.SeatViews.{SeatView};

    ghost Value = { SeatView };

    ghost view = { λ s. record { of = record { table = s.seat.table_id; count = s.count; workers = s.seat.me.0.workers }; drawn = s.seat.me.0.drawn; is_done = s.is_done } };

    ghost invariant = { λ s. (s.seat.me.1 ≡ []) × (s.seat.me.0.count ≡ s.count) × (s.seat.me.0.parts ≡ 1) × (s.seat.me.0.allowance ≡ (if s.is_done then 0 else 1)) };
}

/// What all seats of some tickets have drawn, seat after seat. It has no bytes.
#[derive(Drop)]
pub struct Drawn {
    seat: atomic_table::Seat<(), View>,
}

impl Model for Drawn {
    ghost use Rattle.std.specs.Prelude.{ℕ, List};

    ghost Value = { List ℕ };

    ghost view = { λ d. d.seat.me.0.drawn };
}

impl Tickets {
    /// The numbers below `count`, at most `MAX_TICKETS`, and a seat for each worker, of which there are 1 to `MAX_WORKERS`.
    pub fn new(alloc: Global, count: u64, workers: u64) -> Result<(Tickets, Vec<Seat>), AllocError>
        requires count { count ≤ MAX_TICKETS }
        requires workers { (1 ≤ workers) × (workers ≤ MAX_WORKERS) }
        ensures count { IfOk result (λ r. (r.0.count ≡ count) × (r.0.workers ≡ workers)) }
        ensures seats { IfOk result (λ r. vec_len r.1 ≡ workers) }
        ensures each { IfOk result (λ r. All (IsFresh r.0) r.1.items) }
    {
        let limits = Limits { count, workers };
        let (table, first) = Table::of_words(alloc, &[0], &limits)?;
        let tickets = Tickets { table, count };
        let seats = tickets.seats_from(alloc, first, workers)?;
        Ok((tickets, seats))
    }

    /// As many seats as the first one's allowance has room for.
    fn seats_from(
        &self,
        alloc: Global,
        mut first: atomic_table::Seat<(), View>,
        workers: u64,
    ) -> Result<Vec<Seat>, AllocError>
        requires made { (first.table_id ≡ self.now.table) × (first.me.0.count ≡ self.now.count) × (first.me.0.workers ≡ self.now.workers) }
        requires room { (first.me.0.allowance ≡ workers) × (first.me.0.parts ≡ workers) × (first.me.0.drawn ≡ []) }
        ensures len { IfOk result (λ v. vec_len v ≡ workers) }
        ensures each { IfOk result (λ v. All (IsFresh self.now) v.items) }
    {
        let mut seats = Vec::new(alloc);
        for _ in 0..workers {
            seats.push(self.seat_from(&mut first))?;
        }
        Ok(seats)
    }

    /// A seat, with one part of the first one's and an allowance of 1.
    fn seat_from(&self, first: &mut atomic_table::Seat<(), View>) -> Seat
        requires made { (first.old.table_id ≡ self.now.table) × (first.old.me.0.count ≡ self.now.count) × (first.old.me.0.workers ≡ self.now.workers) }
        requires left { (1 ≤ first.old.me.0.allowance) × (first.old.me.0.parts ≡ first.old.me.0.allowance) × (first.old.me.0.drawn ≡ []) }
        ensures first { (first.new.table_id ≡ self.now.table) × (first.new.me.0.count ≡ self.now.count) × (first.new.me.0.workers ≡ self.now.workers) }
        ensures less { (first.new.me.0.allowance + 1 ≡ first.old.me.0.allowance) × (first.new.me.0.parts ≡ first.new.me.0.allowance) × (first.new.me.0.drawn ≡ []) }
        ensures seat { IsFresh self.now result }
    {
        let seat = self.table.shared.split_seat::<OneEach>(first);
        Seat {
            seat,
            count: self.count,
            is_done: false,
        }
    }

    /// The next number that nobody has drawn, or none where all are.
    ///
    /// It is one atomic addition: it takes no lock and waits for nobody.
    pub fn draw(&self, seat: &mut Seat) -> Option<u64>
        requires made { seat.old.of ≡ self.now }
        requires open { seat.old.is_done ≡ false }
        ensures of { seat.new.of ≡ self.now }
        ensures some { IfSome result (λ d. (d < self.now.count) × (seat.new.drawn ≡ seat.old.drawn ++ d ∷ []) × (seat.new.is_done ≡ false)) }
        ensures none { IfNone result ((seat.new.drawn ≡ seat.old.drawn) × (seat.new.is_done ≡ true)) }
    {
        let number = self.table.shared.fetch_add::<Draw>(&mut seat.seat, 0, 1);
        if number < self.count {
            Some(number)
        } else {
            seat.is_done = true;
            None
        }
    }

    /// Brings all seats together: what they drew, seat after seat, are the first numbers, each once. They are all numbers below
    /// the count where one of the seats is done, which found that all were drawn.
    pub fn gather(&self, seats: Vec<Seat>) -> Drawn
        requires made { All (λ s. s.of ≡ self.now) seats.items }
        requires all { vec_len seats ≡ self.now.workers }
        ensures lists { result ≡ drawn_of_all seats.items }
        ensures each_once { AreBelow (length result) result }
        ensures none_left { Any (λ s. s.is_done ≡ true) seats.items → length result ≡ self.now.count }
    {
        let (_, mut all) = self.table.shared.load_new_seat::<Nobody>(0);
        for seat in seats {
            self.take_in(&mut all, seat);
        }
        self.table.shared.load::<Look>(&mut all, 0);
        Drawn { seat: all }
    }

    /// Joins one seat more into one that has all before it.
    fn take_in(&self, all: &mut atomic_table::Seat<(), View>, seat: Seat)
        requires made { (all.old.table_id ≡ self.now.table) × (seat.of ≡ self.now) }
        ensures made { (all.new.table_id ≡ self.now.table) × (all.new.me.0.count ≡ self.now.count) }
        ensures drawn { all.new.me.0.drawn ≡ all.old.me.0.drawn ++ seat.drawn }
        ensures parts { all.new.me.0.parts ≡ all.old.me.0.parts + 1 }
        ensures allowance { all.new.me.0.allowance ≡ all.old.me.0.allowance + (if seat.is_done then 0 else 1) }
    {
        let Seat { seat, .. } = seat;
        self.table.shared.join_seat::<Together>(all, seat);
    }
}
