//! A segment of a partition's log.

ghost use Rattle.std.specs.Prelude.{◌≡◌, true, IfOk, IfErr, OnOk};
ghost use Rattle.eos_evidence.specs.steps.SegmentIndexes.{IsIndexFor};
ghost use Rattle.eos_evidence.specs.Evidence.{IsRising, has_base};

use bytes::Bytes;
use std::alloc::AllocError;

/// A segment: the bytes of one file of a partition's log, whose name is the offset of its first
/// record.
#[derive(Drop)]
pub struct Segment {
    pub topic: Bytes,
    pub partition: i32,
    pub base: i64,
    pub bytes: Bytes,
}

impl Segment {
    /// An equal segment, which shares the bytes.
    pub fn copy(&self) -> Result<Segment, AllocError>
        ensures { IfOk result (λ copy. copy ≡ self.now) }
    {
        Ok(Segment {
            topic: self.topic.clone()?,
            partition: self.partition,
            base: self.base,
            bytes: self.bytes.clone()?,
        })
    }
}

/// Where the segment of this base is among rising ones, or where it would go.
pub(crate) fn index_of_base(segments: &[Segment], base: &i64) -> Result<usize, usize>
    requires { IsRising segments.now }
    ensures there { OnOk result (has_base base.now segments.now ≡ true) }
    ensures place { IfErr result (IsIndexFor base.now segments.now) }
{
    segments.binary_search_by_key(base, |segment| segment.base)
}
