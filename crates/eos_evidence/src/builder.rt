//! `EvidenceBuilder` takes the segments in any order and refuses what can't be evidence.

ghost use Rattle.std.specs.Prelude.{◌≡◌, Ok, Err, IfOk, IfErr, OnErr, MatchOption, None, find, map, length, vec_len};
ghost use Rattle.std.specs.List.Sorted.{IsStrictlySortedBy};
ghost use Rattle.eos_evidence.specs.Ends.{end_cmp};
ghost use Rattle.eos_evidence.specs.Evidence.{IsEvidence, is_in, is_past_limit, without_segments, added, empty_partition, AddAnswers};
ghost use Rattle.eos_evidence.specs.steps.SegmentIndexes.{IsFirst, MayTake};

use crate::ends::End;
use crate::evidence::{Evidence, MAX_SEGMENTS};
use crate::fault::AddFault;
use crate::partition::Partition;
use crate::pieces::number_pieces;
use crate::segment::Segment;
use crate::segment_reader::MAX_SEGMENT_BYTES;
use crate::spec::Spec;
use std::alloc::{AllocError, Global};
use std::marker::Model;

/// Makes evidence of a spec and segments that come in any order.
#[derive(Drop)]
pub struct EvidenceBuilder {
    spec: Spec,
    partitions: Vec<Partition>,
    /// Room for the index of each partition's first segment.
    firsts: Vec<usize>,
    count: u64,
}

impl Model for EvidenceBuilder {
    ghost use Rattle.eos_evidence.specs.Evidence.{EvidenceParts};
    ghost use Rattle.eos_evidence.specs.steps.SegmentIndexes.{IsBuilt};

    ghost Value = { EvidenceParts };

    ghost view = { λ b. record { spec = b.spec; partitions = b.partitions.items } };

    ghost invariant = { λ b. IsBuilt (record { spec = b.spec; partitions = b.partitions.items }) b.firsts.items b.count };
}

impl EvidenceBuilder {
    /// No segments yet, and a partition for each end.
    ///
    /// # Errors
    /// A growth of memory was refused.
    pub fn new(alloc: Global, spec: Spec) -> Result<EvidenceBuilder, AllocError>
        ensures { IfOk result (λ builder. builder ≡ without_segments spec) }
    {
        let (partitions, firsts) = empty_lists(alloc, spec.ends().as_slice())?;
        Ok(EvidenceBuilder {
            spec,
            partitions,
            firsts,
            count: 0,
        })
    }

    /// Puts a segment at its index, which is found by halving. Where it is refused the builder stays as
    /// it was.
    ///
    /// # Errors
    /// `Name` where the spec has no such partition or the base is below 0; `Limit` where the segment is
    /// too long or there are 65,536; `Duplicate` where there is one of this partition and base;
    /// `OutOfMemory` where a growth was refused, and all else is accepted.
    pub fn add(&mut self, segment: Segment) -> Result<(), AddFault>
        ensures answer { AddAnswers result self.new (added self.old segment) }
        ensures err { OnErr result (self.new ≡ self.old) }
    {
        let at = self.index_for(&segment)?;
        let partition = &mut self.partitions[at];
        partition.add(segment)?;
        self.count += 1;
        Ok(())
    }

    /// The index of the partition that may take the segment, unless one of its base is there.
    fn index_for(&self, segment: &Segment) -> Result<usize, AddFault>
        ensures ok { IfOk result (MayTake self.now segment.now) }
        ensures err { IfErr result (λ e. AddAnswers (Err e) self.now (added self.now segment.now)) }
    {
        let Some(at) = index_in(self.partitions.as_slice(), segment) else {
            return Err(AddFault::Name);
        };
        if segment.base < 0 {
            return Err(AddFault::Name);
        }
        if self.is_past_limit(segment) {
            return Err(AddFault::Limit);
        }
        Ok(at)
    }

    /// Whether the segment is too long, or there are as many as there may be.
    fn is_past_limit(&self, segment: &Segment) -> bool
        ensures { result ≡ is_past_limit self.now segment.now }
    {
        segment.bytes.len() > MAX_SEGMENT_BYTES || self.count >= MAX_SEGMENTS
    }

    /// The evidence. It takes no memory.
    pub fn finish(self) -> Evidence
        ensures value { result ≡ self }
        ensures evidence { IsEvidence result }
    {
        let mut firsts = self.firsts;
        number_pieces(&mut firsts, self.partitions.as_slice());
        Evidence::of_parts(self.spec, self.partitions, firsts, self.count)
    }
}

/// A partition with no segments for each end, and room for the index of its first segment.
fn empty_lists(alloc: Global, ends: &[End]) -> Result<(Vec<Partition>, Vec<usize>), AllocError>
    ensures partitions { IfOk result (λ made. made.0.items ≡ map empty_partition ends.now) }
    ensures firsts { IfOk result (λ made. vec_len made.1 ≡ length ends.now) }
{
    let firsts = vec![in alloc; 0; ends.len()]?;
    let partitions = empty_partitions(alloc, ends)?;
    Ok((partitions, firsts))
}

/// A partition with no segments for each end.
fn empty_partitions(alloc: Global, ends: &[End]) -> Result<Vec<Partition>, AllocError>
    ensures { IfOk result (λ partitions. partitions.items ≡ map empty_partition ends.now) }
{
    let mut partitions = Vec::new(alloc);
    for end in ends {
        partitions.push(Partition::empty(alloc, end)?)?;
    }
    Ok(partitions)
}

/// The index of the segment's partition among those in order.
fn index_in(partitions: &[Partition], segment: &Segment) -> Option<usize>
    requires { IsStrictlySortedBy end_cmp (map (λ p. p.end) partitions.now) }
    ensures { MatchOption result (find (λ p. is_in segment.now p.end) partitions.now ≡ None) (IsFirst segment.now partitions.now) }
{
    match partitions.binary_search_by(|partition| partition.order_to(segment)) {
        Ok(at) => Some(at),
        Err(_) => None,
    }
}
