//! The leaders under which a log was written.

ghost use Rattle.std.specs.Prelude.{◌≡◌, pos};
ghost use Rattle.eos_machine.specs.Elections.{leader_epoch};

use eos_machine::{Election, leader_epoch};

/// A partition, by its place among all logs, and the elections of leaders in all of them, the oldest first.
#[derive(Clone, Copy)]
pub struct Leaders<'a> {
    pub place: usize,
    pub elections: &'a [Election],
}

/// Where a batch begins, and in which leader epoch.
#[derive(Clone, Copy)]
pub(crate) struct Base {
    pub(crate) offset: usize,
    pub(crate) leader_epoch: u16,
}

/// A batch that begins at an offset is in the leader epoch of that.
pub(crate) fn base_at(leaders: Leaders<'_>, offset: usize) -> Base
    ensures { result ≡ record { offset = offset; leader_epoch = leader_epoch leaders.entry.place (pos offset) leaders.entry.elections.now } }
{
    Base {
        offset,
        leader_epoch: leader_epoch(leaders.elections, leaders.place, offset as u64),
    }
}
