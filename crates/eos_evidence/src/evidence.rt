//! The evidence: a spec and, for each partition, its segments in order.

ghost use Rattle.std.specs.Prelude.{◌≡◌, ◌<◌, ◌≤◌, Some, length, slice_get};
ghost use Rattle.eos_evidence.specs.Evidence.{IsEvidence, segments_of};
ghost use Rattle.eos_evidence.specs.steps.SegmentIndexes.{IsFinished};

use crate::partition::Partition;
use crate::pieces::partition_of_piece;
use crate::segment::Segment;
use crate::spec::Spec;
use std::marker::Model;

/// The greatest number of segments of evidence.
pub const MAX_SEGMENTS: u64 = 65_536;

/// A spec and the segments of its partitions, as `EvidenceBuilder::finish` gives it.
#[derive(Drop)]
pub struct Evidence {
    spec: Spec,
    partitions: Vec<Partition>,
    /// The place of each partition's first segment among all.
    firsts: Vec<usize>,
    count: u64,
}

impl Model for Evidence {
    ghost use Rattle.eos_evidence.specs.Evidence.{EvidenceParts};
    ghost use Rattle.eos_evidence.specs.steps.SegmentIndexes.{IsFinished};

    ghost Value = { EvidenceParts };

    ghost view = { λ e. record { spec = e.spec; partitions = e.partitions.items } };

    ghost invariant = { λ e. IsFinished (record { spec = e.spec; partitions = e.partitions.items }) e.firsts.items e.count };
}

impl Evidence {
    /// The evidence of these parts. It takes no memory.
    pub(crate) fn of_parts(
        spec: Spec,
        partitions: Vec<Partition>,
        firsts: Vec<usize>,
        count: u64,
    ) -> Evidence
        requires { IsFinished (record { spec = spec; partitions = partitions.items }) firsts.items count }
        ensures { result ≡ record { spec = spec; partitions = partitions.items } }
    {
        Evidence {
            spec,
            partitions,
            firsts,
            count,
        }
    }

    /// What the evidence is of.
    pub fn spec(&self) -> &Spec
        ensures value { result.now ≡ self.now.spec }
        ensures evidence { IsEvidence self.now }
    {
        &self.spec
    }

    /// The partitions, one for each end of the spec and in its order, each with its segments by base.
    pub fn partitions(&self) -> &[Partition]
        ensures value { result.now ≡ self.now.partitions }
        ensures evidence { IsEvidence self.now }
    {
        self.partitions.as_slice()
    }

    /// The number of segments, at most 65,536.
    pub fn pieces(&self) -> u64
        ensures count { result ≡ length (segments_of self.now.partitions) }
        ensures few { result ≤ MAX_SEGMENTS }
    {
        self.count
    }

    /// The segment at this place: partitions by topic bytes, then number, segments by base. It is found
    /// by halving.
    pub fn piece(&self, i: u64) -> &Segment
        requires { i < length (segments_of self.now.partitions) }
        ensures { slice_get (segments_of self.now.partitions) i ≡ Some result.now }
    {
        let i = i as usize;
        let at = partition_of_piece(self.firsts.as_slice(), i);
        let segments = self.partitions[at].segments.as_slice();
        &segments[i - self.firsts[at]]
    }
}
