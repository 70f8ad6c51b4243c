//! Where each partition's segments stand among all.

ghost use Rattle.std.specs.Prelude.{◌≡◌, ◌<◌, ◌≤◌, ◌^◌, length, slice_index, vec_len};
ghost use Rattle.std.specs.List.Sorted.{IsNonDecreasing};
ghost use Rattle.eos_evidence.specs.Evidence.{segments_of};
ghost use Rattle.eos_evidence.specs.steps.SegmentIndexes.{AreFirsts, IsLastFrom};

use crate::partition::Partition;

/// Notes for each partition the place of its first segment among all.
pub(crate) fn number_pieces(firsts: &mut Vec<usize>, partitions: &[Partition])
    requires few { length (segments_of partitions.now) ≤ 2 ^ 16 }
    requires as_many { vec_len firsts.old ≡ length partitions.now }
    ensures { AreFirsts firsts.new.items partitions.now }
{
    let mut first = 0;
    for at in 0..partitions.len() {
        firsts[at] = first;
        first += partitions[at].segments.len();
    }
}

/// The partition of the segment at this place: the last one whose first segment isn't after it.
pub(crate) fn partition_of_piece(firsts: &[usize], i: usize) -> usize
    requires some { 0 < length firsts.now }
    requires begins { slice_index firsts.now 0 ≤ i }
    requires rises { IsNonDecreasing firsts.now }
    ensures { IsLastFrom firsts.now i result }
{
    firsts.partition_point(|first| *first <= i) - 1
}
