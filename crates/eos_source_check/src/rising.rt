//! Offsets that rise, and the times of a batch's records at them. A batch that holds one of them is decoded once, and which of them it holds is
//! found by halving.

ghost use Rattle.std.specs.Prelude.{◌≡◌, [], true, ◌+◌, ◌^◌, ◌<◌, ◌≤◌, ◌++◌, length, take, drop, nat_lt, nat_le, slice_get, slice_index, IfOk, OnOk};
ghost use Rattle.std.specs.List.{filter, flat_map};
ghost use Rattle.eos_source_check.specs.Timed.{all_timed_by};
ghost use Rattle.eos_source_check.specs.Times.{lies_in};
ghost use Rattle.eos_source_check.specs.steps.Rising.{timed_of};

use bytes::Bytes;
use eos_base::Sorted;
use eos_batch::{Batch, next_batch};
use eos_sought::{Standing, Wanted, time_of_number};
use std::alloc::{AllocError, Global};
use std::marker::Model;

/// Some of the offsets that are asked for, in their order; contracts see the list of them.
#[derive(Drop)]
pub(crate) struct Rising<'a> {
    offsets: &'a [u64],
}

impl<'a> Model for Rising<'a> {
    ghost use Rattle.std.specs.Prelude.{List, ℕ};
    ghost use Rattle.std.specs.List.Sorted.{IsNonDecreasing};

    ghost Value = { List ℕ };

    ghost view = { λ r. r.offsets.now };

    ghost invariant = { λ r. IsNonDecreasing r.offsets.now };
}

/// Some of the offsets, and the name of the segment of which they are asked.
#[derive(Drop)]
pub(crate) struct Asked {
    begin: u64,
    offsets: Vec<u64>,
}

impl Model for Asked {
    ghost use Rattle.std.specs.List.Sorted.{IsNonDecreasing};
    ghost use Rattle.eos_source_check.specs.steps.Timing.{AskedView};

    ghost Value = { AskedView };

    ghost view = { λ a. record { begin = a.begin; offsets = a.offsets.items } };

    ghost invariant = { λ a. IsNonDecreasing a.offsets.items };
}

impl Asked {
    pub(crate) fn begin(&self) -> u64
        ensures { result ≡ self.now.begin }
    {
        self.begin
    }

    pub(crate) fn offsets(&self) -> Rising<'_>
        ensures { result ≡ self.now.offsets }
    {
        Rising {
            offsets: self.offsets.as_slice(),
        }
    }
}

fn is_below(offsets: &[u64], at: usize, bound: u64) -> bool
    requires { at < length offsets.now }
    ensures { result ≡ nat_lt (slice_index offsets.now at) bound }
{
    offsets[at] < bound
}

impl<'a> Rising<'a> {
    /// All of these.
    pub(crate) fn of(offsets: &'a Sorted<u64>) -> Rising<'a>
        ensures { result ≡ offsets.now }
    {
        Rising {
            offsets: offsets.as_slice(),
        }
    }

    pub(crate) fn is_empty(&self) -> bool
        ensures { result ≡ true → self.now ≡ [] }
    {
        self.offsets.is_empty()
    }

    /// They are asked of a segment of this name.
    pub(crate) fn asked(&self, alloc: Global, begin: u64) -> Result<Asked, AllocError>
        ensures { IfOk result (λ asked. asked ≡ record { begin = begin; offsets = self.now }) }
    {
        let mut offsets = Vec::new(alloc);
        offsets.extend_from_slice(self.offsets)?;
        Ok(Asked { begin, offsets })
    }

    /// How many of them are below this one.
    fn count_below(&self, bound: u64) -> usize
        ensures within { result ≤ length self.now }
        ensures below { take result self.now ≡ filter (λ o. nat_lt o bound) self.now }
        ensures from { drop result self.now ≡ filter (nat_le bound) self.now }
    {
        let mut low = 0;
        let mut high = self.offsets.len();
        while low < high {
            let middle = low + (high - low) / 2;
            if is_below(self.offsets, middle, bound) {
                low = middle + 1;
            } else {
                high = middle;
            }
        }
        low
    }

    /// Those that are below this one.
    #[tactic(auto, using(crate::proofs::RisingTimes::rising_front))]
    fn below(&self, bound: u64) -> Rising<'a>
        ensures { result ≡ filter (λ o. nat_lt o bound) self.now }
    {
        let count = self.count_below(bound);
        Rising {
            offsets: &self.offsets[..count],
        }
    }

    /// The others.
    #[tactic(auto, using(crate::proofs::RisingTimes::rising_rest))]
    fn from(&self, bound: u64) -> Rising<'a>
        ensures { result ≡ filter (nat_le bound) self.now }
    {
        let count = self.count_below(bound);
        Rising {
            offsets: &self.offsets[count..],
        }
    }

    /// Those from an offset on, as far as the next one, if there is one.
    #[tactic(auto, using(crate::proofs::RisingTimes::without_end))]
    pub(crate) fn between(&self, begin: u64, next: Option<u64>) -> Rising<'a>
        ensures { result ≡ filter (lies_in begin next) self.now }
    {
        match next {
            None => self.from(begin),
            Some(next) => self.below(next).from(begin),
        }
    }
}

/// Adds this offset with its time, if the batch that stands there holds it.
fn push_timed(
    times: &mut Vec<(u64, i64)>,
    batch: &Batch,
    standing: Standing,
    offset: u64,
) -> Result<(), AllocError>
    ensures { OnOk result (times.new.items ≡ times.old.items ++ timed_of batch.now standing offset) }
{
    if !(Wanted::Holding { offset }).is_met(standing.head) {
        return Ok(());
    }
    let number = offset.saturating_sub(standing.head.offset);
    if let Some(time) = time_of_number(batch, number) {
        times.push((offset, time))?;
    }
    Ok(())
}

fn push_all_timed(
    times: &mut Vec<(u64, i64)>,
    batch: &Batch,
    standing: Standing,
    offsets: &Rising<'_>,
) -> Result<(), AllocError>
    ensures { OnOk result (times.new.items ≡ times.old.items ++ flat_map (timed_of batch.now standing) offsets.now) }
{
    for offset in offsets.offsets {
        push_timed(times, batch, standing, *offset)?;
    }
    Ok(())
}

/// Adds of these offsets those that the batch holds, with their times. An offset past 64 bits counts as want of memory.
pub(crate) fn push_held(
    alloc: Global,
    times: &mut Vec<(u64, i64)>,
    bytes: &Bytes,
    standing: Standing,
    offsets: &Rising<'_>,
) -> Result<(), AllocError>
    ensures { OnOk result (times.new.items ≡ times.old.items ++ all_timed_by bytes.now offsets.now standing) }
{
    let head = &standing.head;
    let Some(behind) = head.offset.checked_add(u64::from(head.count)) else {
        return Err(AllocError);
    };
    let held = offsets.between(head.offset, Some(behind));
    if held.is_empty() {
        return Ok(());
    }
    if standing.byte >= bytes.len() {
        return Ok(());
    }
    match next_batch(alloc, bytes, standing.byte)? {
        Ok((batch, _size)) => push_all_timed(times, &batch, standing, &held),
        Err(_) => Ok(()),
    }
}
