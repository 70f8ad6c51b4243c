//! Which offsets of one partition are in a range of sources: names are compared where they change, and not at each record.

ghost use Rattle.std.specs.Prelude.{◌≡◌, ℕ, not, IfSome};
ghost use Rattle.eos_faults.specs.steps.Cuts.{IsCutOf, IsNear, IsSpanOf, is_before, is_cut, is_from, is_in_span, spot};
ghost use Rattle.eos_faults.specs.steps.Plain.{name_at, place_at};
ghost use Rattle.eos_faults.specs.steps.Ranges.{is_done, is_within};

use crate::lent::{LentName, LentPlace};
use crate::ranges::Range;
use std::cmp::Ordering;

/// Which offsets of a partition are in a range.
#[derive(Clone, Copy)]
pub(crate) struct Cut {
    /// From which on; none is, where none is said.
    pub from: Option<u64>,
    /// Below which; all that follow are, where none is said.
    pub below: Option<u64>,
}

fn is_from(from: Option<u64>, offset: u64) -> bool
    ensures { result ≡ is_from from offset }
{
    match from {
        None => false,
        Some(from) => from <= offset,
    }
}

fn is_before(below: Option<u64>, offset: u64) -> bool
    ensures { result ≡ is_before below offset }
{
    match below {
        None => true,
        Some(below) => offset < below,
    }
}

impl Cut {
    /// Whether it has this offset.
    pub(crate) fn has(&self, offset: u64) -> bool
        ensures { result ≡ is_cut self.now offset }
    {
        is_from(self.from, offset) && is_before(self.below, offset)
    }
}

/// From which offset on those of this partition aren't in front of a range that begins here.
fn first_of(from: &Option<LentPlace<'_>>, name: &LentName<'_>) -> Option<u64>
    ensures { (o : ℕ) → not (is_done from.now (spot (name_at name.now) o)) ≡ is_from result o }
{
    match from {
        None => Some(0),
        Some(from) => match name.cmp(&from.partition) {
            Ordering::Less => None,
            Ordering::Equal => Some(from.offset),
            Ordering::Greater => Some(0),
        },
    }
}

/// Which offsets of this partition are in a range.
pub(crate) fn cut_of(range: &Range<'_>, name: &LentName<'_>) -> Cut
    ensures { IsCutOf (is_within range.now) (name_at name.now) result }
{
    let from = first_of(&range.from, name);
    match &range.below {
        None => Cut { from, below: None },
        Some(end) => match name.cmp(&end.partition) {
            Ordering::Less => Cut { from, below: None },
            Ordering::Equal => Cut {
                from,
                below: Some(end.offset),
            },
            Ordering::Greater => Cut {
                from: None,
                below: None,
            },
        },
    }
}

/// The sources of a range that are of one partition, where it has no others.
#[derive(Clone, Copy)]
pub(crate) struct Span<'a> {
    pub(crate) partition: LentName<'a>,
    pub(crate) from: u64,
    pub(crate) below: u64,
}

impl<'a> Span<'a> {
    /// Whether it has this source. Most that it hasn't are told by their numbers.
    fn has(&self, source: &LentPlace<'_>) -> bool
        ensures { result ≡ is_in_span self.now (place_at source.now) }
    {
        source.partition.partition == self.partition.partition
            && self.from <= source.offset
            && source.offset < self.below
            && source.partition.cmp(&self.partition).is_eq()
    }
}

/// The sources of a range, if they are of one partition.
fn span_of<'a>(range: &Range<'a>) -> Option<Span<'a>>
    ensures { IfSome result (IsSpanOf range.now) }
{
    let from = range.from?;
    let end = range.below?;
    if !from.partition.cmp(&end.partition).is_eq() {
        return None;
    }
    Some(Span {
        partition: from.partition,
        from: from.offset,
        below: end.offset,
    })
}

/// The sources of a range if they are of one partition, and else the partition that was looked at last, with those of its offsets.
#[derive(Clone, Copy)]
pub(crate) struct Near<'a> {
    pub(crate) span: Option<Span<'a>>,
    pub(crate) partition: LentName<'a>,
    pub(crate) cut: Cut,
}

impl<'a> Near<'a> {
    /// Of this partition.
    pub(crate) fn new(range: &Range<'a>, partition: LentName<'a>) -> Near<'a>
        ensures { IsNear range.now result }
    {
        Near {
            span: span_of(range),
            partition,
            cut: cut_of(range, &partition),
        }
    }

    /// Of this partition, where the last was another.
    fn at(self, range: &Range<'a>, partition: LentName<'a>) -> Near<'a>
        ensures near { IsNear range.now self.entry → IsNear range.now result }
        ensures named { IsNear range.now self.entry → IsCutOf (is_within range.now) (name_at partition.entry) result.cut }
    {
        if partition.cmp(&self.partition).is_eq() {
            return self;
        }
        Near {
            span: self.span,
            partition,
            cut: cut_of(range, &partition),
        }
    }

    /// Whether the range has this source.
    pub(crate) fn has(&mut self, range: &Range<'a>, source: &LentPlace<'a>) -> bool
        ensures has { IsNear range.now self.old → result ≡ is_within range.now (place_at source.now) }
        ensures near { IsNear range.now self.old → IsNear range.now self.new }
    {
        if let Some(span) = &self.span {
            return span.has(source);
        }
        *self = self.at(range, source.partition);
        self.cut.has(source.offset)
    }
}
