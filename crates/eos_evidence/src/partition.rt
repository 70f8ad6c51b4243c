//! A partition of the evidence.

ghost use Rattle.std.specs.Prelude.{◌≡◌, ◌≢◌, ◌↔◌, true, IfOk, OnOk, OnErr};
ghost use Rattle.eos_evidence.specs.Evidence.{has_base, empty_partition, insert_segment, IsRising};
ghost use Rattle.eos_evidence.specs.Ends.{end_cmp};
ghost use Rattle.eos_evidence.specs.steps.SegmentIndexes.{own_end};

use crate::ends::End;
use crate::fault::AddFault;
use crate::segment::{Segment, index_of_base};
use eos_base::Listed;
use std::alloc::{AllocError, Global};
use std::cmp::Ordering;

/// A partition: its name and end, and its segments by base.
#[derive(Drop)]
pub struct Partition {
    pub end: End,
    pub segments: Listed<Segment>,
}

impl Partition {
    /// The partition of this end, with no segments.
    pub(crate) fn empty(alloc: Global, end: &End) -> Result<Partition, AllocError>
        ensures { IfOk result (λ partition. partition ≡ empty_partition end.now) }
    {
        Ok(Partition {
            end: end.clone()?,
            segments: Listed::new(Vec::new(alloc)),
        })
    }

    /// How this partition stands to the segment's, by topic bytes, then number.
    pub(crate) fn order_to(&self, segment: &Segment) -> Ordering
        ensures { result ≡ end_cmp self.now.end (own_end segment.now) }
    {
        match self.end.topic.cmp(&segment.topic) {
            Ordering::Equal => self.end.partition.cmp(&segment.partition),
            order => order,
        }
    }

    /// Puts a segment in its place, unless one of its base is there.
    pub(crate) fn add(&mut self, segment: Segment) -> Result<(), AddFault>
        requires { IsRising self.old.segments }
        ensures ok { OnOk result (self.new ≡ record self.old { segments = insert_segment segment self.old.segments }) }
        ensures duplicate { (result ≡ Err AddFault.Duplicate) ↔ (has_base segment.base self.old.segments ≡ true) }
        ensures err { OnErr result (self.new ≡ self.old) }
        ensures no_name { result ≢ Err AddFault.Name }
        ensures no_limit { result ≢ Err AddFault.Limit }
    {
        match index_of_base(self.segments.as_slice(), &segment.base) {
            Ok(_) => Err(AddFault::Duplicate),
            Err(at) => {
                self.segments.insert(at, segment)?;
                Ok(())
            }
        }
    }
}
