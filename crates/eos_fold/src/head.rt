//! What a walk over a log learns of a data batch beside its records.

ghost use Rattle.std.specs.Prelude.{◌≡◌};
ghost use Rattle.eos_fold.specs.Batches.{fate_of};
ghost use Rattle.eos_fold.specs.Heads.{head_read, head_ended};

use crate::entry::Ending;
use crate::item::Fate;
use crate::mark::EndMark;
use eos_batch::{BatchHead, Kind};
use std::marker::Model;

/// How a batch's transaction ended, beside the numbers of its ending.
#[derive(Clone, Copy)]
enum State {
    Plain,
    Waiting,
    Committed,
    Aborted,
}

/// What the records of a data batch have in common. A log has many, so it is small; contracts see its base offset, the number
/// of its records, its writer and its ending.
#[derive(Drop)]
pub struct DataHead {
    offset: u64,
    /// The producer id, which is also the one whose end marker a waiting batch waits for.
    producer: i64,
    count: u32,
    epoch: i16,
    /// The epoch of the end marker, where there is one.
    marker_epoch: i16,
    state: State,
    is_transactional: bool,
}

const _: () = prove!(size_of::<DataHead>() <= 32);

impl Model for DataHead {
    ghost use Rattle.std.specs.Prelude.{Some, None, if◌then◌else◌};
    ghost use Rattle.eos_fold.specs.Heads.{DataHead};
    ghost use Rattle.eos_fold.specs.steps.States.{ending_in};

    ghost Value = { DataHead };

    ghost view = { λ h. record { offset = h.offset; count = h.count; writer = if h.is_transactional then Some (h.producer, h.epoch) else None; ending = ending_in h.state h.producer h.marker_epoch } };
}

impl DataHead {
    /// Of a data batch as it is read, before any end marker.
    pub fn of(head: &BatchHead) -> DataHead
        ensures { result ≡ head_read head.now }
    {
        DataHead {
            offset: head.offset,
            producer: head.producer,
            count: head.count,
            epoch: head.epoch,
            marker_epoch: 0,
            state: if head.is_transactional {
                State::Waiting
            } else {
                State::Plain
            },
            is_transactional: head.is_transactional,
        }
    }

    /// The base offset.
    pub fn offset(&self) -> u64
        ensures { result ≡ self.now.offset }
    {
        self.offset
    }

    /// The number of records.
    pub fn count(&self) -> usize
        ensures { result ≡ self.now.count }
    {
        self.count as usize
    }

    /// The producer id and epoch, where the batch is transactional.
    pub fn writer(&self) -> Option<(i64, i16)>
        ensures { result ≡ self.now.writer }
    {
        if self.is_transactional {
            Some((self.producer, self.epoch))
        } else {
            None
        }
    }

    /// How its transaction ended, as far as it is known.
    pub fn ending(&self) -> Ending
        ensures { result ≡ self.now.ending }
    {
        match self.state {
            State::Plain => Ending::Plain,
            State::Waiting => Ending::Waiting {
                producer: self.producer,
            },
            State::Committed => Ending::Ended {
                epoch: self.marker_epoch,
                kind: Kind::Commit,
            },
            State::Aborted => Ending::Ended {
                epoch: self.marker_epoch,
                kind: Kind::Abort,
            },
        }
    }

    /// What its ending means for its records.
    pub fn fate(&self) -> Fate
        ensures { result ≡ fate_of self.now.ending }
    {
        match self.state {
            State::Plain => Fate::Plain,
            State::Waiting => Fate::Waiting(self.producer),
            State::Committed => Fate::Committed,
            State::Aborted => Fate::Aborted,
        }
    }

    /// Says that this marker ended its transaction.
    pub fn end(&mut self, marker: EndMark)
        ensures { self.new ≡ head_ended marker self.old }
    {
        self.state = match marker.kind {
            Kind::Commit => State::Committed,
            Kind::Abort => State::Aborted,
        };
        self.marker_epoch = marker.epoch;
    }
}
