//! What is asked of the pieces of an evidence.

ghost use Rattle.std.specs.Prelude.{◌≡◌, ◌<◌, length, slice_get, Some, IsPermutation};
ghost use Rattle.eos_evidence.specs.Evidence.{segments_of};
ghost use Rattle.eos_evidence.specs.SpecFields.{outputs_of};
ghost use Rattle.eos_evidence.specs.declared.segment.Segment.{Segment};
ghost use Rattle.eos_source.specs.Said.{known_by};
ghost use Rattle.eos_source.specs.steps.Runs.{IsSlot};
ghost use Rattle.eos_reading.specs.Wanted.{wanted_of};

use crate::piece::read_piece;
use crate::source::Source;
use bytes::Bytes;
use eos_evidence::Evidence;
use eos_kept::{Asked, KeptRun};
use eos_reading::Wants;
use std::alloc::Global;

/// Where the pieces of an evidence of this shape are read from, and what is asked of them.
#[derive(Drop)]
pub(crate) struct Plan<'a, S: Source> {
    pub(crate) source: &'a S,
    pub(crate) shape: &'a Evidence,
    pub(crate) wants: Wants<'a>,
    /// The topics whose claims are kept by a number.
    pub(crate) topics: &'a [Bytes],
}

impl<'a, S: Source> Plan<'a, S> {
    /// What is asked of the segments of this topic.
    pub(crate) fn asked_of(&self, topic: &[u8]) -> Asked<'a>
        requires { IsPermutation (outputs_of self.now.shape.now.spec.apps) self.now.wants }
        ensures topics { result.topics.now ≡ self.now.topics.now }
        ensures wanted { result.wanted ≡ wanted_of self.now.shape.now.spec.apps topic.now }
    {
        Asked {
            wanted: self.wants.of_topic(topic),
            topics: self.topics,
        }
    }

    /// What is asked of the piece of this number.
    pub(crate) fn read(&self, alloc: Global, piece: u64) -> Result<KeptRun, S::Fault>
        requires piece { piece < length (segments_of self.now.shape.now.partitions) }
        requires wants { IsPermutation (outputs_of self.now.shape.now.spec.apps) self.now.wants }
        ensures { (name : Segment) → slice_get (segments_of self.now.shape.now.partitions) piece ≡ Some name
            → IsSlot (known_by (S.said self.now.source.now) (S.is_log self.now.source.now)) (S.outcomes self.now.source.now) self.now.topics.now self.now.shape.now.spec.apps piece name result }
    {
        let name = self.shape.piece(piece);
        let asked = self.asked_of(name.topic.as_slice());
        read_piece(alloc, self.source, asked, piece, name)
    }
}
