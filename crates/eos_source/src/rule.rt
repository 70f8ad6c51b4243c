//! The rule of the shared word, and the steps that touch it: the table is made with one seat, a seat is split, a number is
//! drawn, and at the end all seats are joined into a new one, which then knows what all have drawn. The table has no slots.

use atomic_table::{Join, Play, Split, TableRule};
use std::collections::LinkedList;

/// What the table is told when it is made.
#[derive(Drop)]
pub(crate) struct Limits {
    /// How many numbers there are.
    pub(crate) count: u64,
    pub(crate) workers: u64,
}

/// What a seat knows. No value of it is ever made.
pub(crate) struct View {
    /// How many numbers there are.
    pub(crate) count: u64,
    /// How many seats were made for workers.
    pub(crate) workers: u64,
    /// How many of these it stands for.
    pub(crate) parts: u64,
    /// The numbers that it has drawn, in order.
    pub(crate) drawn: LinkedList<u64>,
    /// How many draws past the count it may still make.
    pub(crate) allowance: u64,
}

/// Each number below the word and the count was drawn once.
pub(crate) struct EachOnce;

impl TableRule<(), View, Limits> for EachOnce {
    ghost use Rattle.std.specs.Prelude.{[]};
    ghost use Rattle.eos_source.specs.TicketRule.{KeepsRule};

    ghost holds = { KeepsRule };

    ghost first = { λ key. record { count = key.count; workers = key.workers; parts = key.workers; drawn = []; allowance = key.workers } };
}

/// One atomic addition of 1.
pub(crate) struct Draw;

impl Play<(), View> for Draw {
    ghost use Rattle.eos_source.specs.TicketRule.{IsDraw};

    ghost then = { IsDraw };
}

/// A new seat takes one part of another's, with its allowance.
pub(crate) struct OneEach;

impl Split<View> for OneEach {
    ghost use Rattle.eos_source.specs.TicketRule.{one_less, newcomer};

    ghost left = { one_less };

    ghost right = { newcomer };
}

/// A new seat with no part.
pub(crate) struct Nobody;

impl Play<(), View> for Nobody {
    ghost use Rattle.eos_source.specs.TicketRule.{IsNobody};

    ghost then = { IsNobody };
}

/// Two seats become one.
pub(crate) struct Together;

impl Join<View> for Together {
    ghost use Rattle.eos_source.specs.TicketRule.{together, nobody};

    ghost both = { together };

    ghost spent = { nobody };
}

/// A seat with all parts looks at the word.
pub(crate) struct Look;

impl Play<(), View> for Look {
    ghost use Rattle.eos_source.specs.TicketRule.{IsLook};

    ghost then = { IsLook };
}
