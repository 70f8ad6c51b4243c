//! What a run of a log says of one producer id.

ghost use Rattle.std.specs.Prelude.{◌≡◌, ◌+◌, ◌<◌, ◌^◌, [], None, All, IfOk};
ghost use Rattle.eos_fold.specs.Tables.{ends_in};
ghost use Rattle.eos_fold.specs.Taken.{IsJoined, HasRoom, AreEndsOf};

use crate::indexes::Indexes;
use crate::mark::{EndMark, mark_in};
use eos_touch::Touch;
use std::alloc::{AllocError, Global};

/// The ends of a producer id's touches in a run of a log.
#[derive(Drop)]
pub struct Ends {
    /// Its first touch, with its offset.
    pub(crate) first: Option<(u64, Touch)>,
    /// Its last touch.
    pub(crate) last: Option<(u64, Touch)>,
    /// Its first end marker.
    pub(crate) marker: Option<EndMark>,
    /// The indexes of the run's data batches that wait for a marker of this id.
    pub(crate) waiting: Indexes,
}

impl Ends {
    /// Of an id that has no touch.
    pub fn blank(alloc: Global) -> Ends
        ensures first { result.first ≡ None }
        ensures last { result.last ≡ None }
        ensures marker { result.marker ≡ None }
        ensures waiting { result.waiting.list ≡ [] }
    {
        Ends {
            first: None,
            last: None,
            marker: None,
            waiting: Indexes::new(alloc),
        }
    }

    /// Of the id that a batch at this offset is of, in that batch alone.
    ///
    /// # Errors
    /// Only want of memory.
    pub fn of(
        alloc: Global,
        offset: u64,
        is_data: bool,
        producer: i64,
        touch: Touch,
    ) -> Result<Ends, AllocError>
        ensures { IfOk result (AreEndsOf offset is_data producer touch) }
    {
        let is_open = match touch {
            Touch::Data { transactional, .. } => transactional,
            Touch::End { .. } => false,
        };
        let waiting = if is_data && is_open {
            Indexes::one(alloc, 0)?
        } else {
            Indexes::new(alloc)
        };
        Ok(Ends {
            first: Some((offset, touch)),
            last: Some((offset, touch)),
            marker: mark_in(offset, producer, touch),
            waiting,
        })
    }

    /// The first touch, with its offset.
    pub fn first(&self) -> Option<(u64, Touch)>
        ensures { result ≡ self.now.first }
    {
        self.first
    }

    /// The last touch, with its offset.
    pub fn last(&self) -> Option<(u64, Touch)>
        ensures { result ≡ self.now.last }
    {
        self.last
    }

    /// The first end marker.
    pub fn marker(&self) -> Option<EndMark>
        ensures { result ≡ self.now.marker }
    {
        self.marker
    }

    /// The indexes of the run's data batches that wait for a marker of this id.
    pub fn waiting(&self) -> &Indexes
        ensures { result.now ≡ self.now.waiting }
    {
        &self.waiting
    }

    /// Takes over what comes after, in a run whose data batches begin after so many.
    pub fn take_over(&mut self, after: Ends, by: usize)
        requires room { HasRoom self.old after }
        requires fits { All (λ p. p + by < 2 ^ 64) after.waiting.list }
        ensures { IsJoined by self.old after self.new }
    {
        let Ends {
            first,
            last,
            marker,
            mut waiting,
        } = after;
        waiting.shift(by);
        if self.first.is_none() {
            self.first = first;
        }
        if last.is_some() {
            self.last = last;
        }
        if marker.is_some() {
            self.waiting.replace(waiting);
        } else {
            self.waiting.append(waiting);
        }
        if self.marker.is_none() {
            self.marker = marker;
        }
    }
}
