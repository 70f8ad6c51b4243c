//! The ends of the partitions: what they may be, and their order.

ghost use Rattle.std.specs.Prelude.{◌≡◌, ◌^◌, false, MatchBool};
ghost use Rattle.std.specs.List.{list_all};
ghost use Rattle.eos_evidence.specs.Ends.{is_within, is_legal_end, are_apart};
ghost use Rattle.eos_evidence.specs.steps.OrderedEnds.{IsInOrder, are_of_one, AreNeighboursApart, AreNeighboursTied};

use crate::topics::is_topic_name;
use bytes::Bytes;
use eos_base::Listed;

/// Where a partition ends: the offset after its last record. Ends are ordered by topic bytes, then
/// number, then offset.
#[derive(Clone, PartialEq, Eq, PartialOrd, Ord, Drop)]
pub struct End {
    pub topic: Bytes,
    pub partition: i32,
    pub end: i64,
}

/// Ends of partitions, in order.
pub type Ends = Listed<End>;

impl End {
    /// Whether a partition may have this name and this end.
    fn is_legal(&self) -> bool
        ensures { result ≡ is_legal_end self.now }
    {
        is_topic_name(self.topic.as_slice()) && is_number(self.partition) && is_offset(self.end)
    }

    /// Whether both are ends of one partition.
    fn is_of_same_partition(&self, other: &End) -> bool
        ensures { result ≡ are_of_one self.now other.now }
    {
        self.topic == other.topic && self.partition == other.partition
    }
}

/// Whether a partition may have this number.
fn is_number(number: i32) -> bool
    ensures { result ≡ is_within (2 ^ 31) number }
{
    number >= 0
}

/// Whether a partition may end at this offset.
fn is_offset(offset: i64) -> bool
    ensures { result ≡ is_within (2 ^ 63) offset }
{
    offset >= 0
}

/// Whether partitions may have these names and ends.
pub(crate) fn are_ends_legal(ends: &[End]) -> bool
    ensures { result ≡ list_all is_legal_end ends.now }
{
    ends.iter().all(|end| end.is_legal())
}

/// Puts the ends in order by topic bytes, then number, and says whether no partition stands twice.
pub(crate) fn put_in_order(ends: &mut Vec<End>) -> bool
    ensures { MatchBool result (IsInOrder ends.old.items ends.new.items) (are_apart ends.old.items ≡ false) }
{
    ends.sort_unstable();
    are_neighbours_apart(ends.as_slice())
}

/// Whether no two neighbours are ends of one partition.
fn are_neighbours_apart(ends: &[End]) -> bool
    ensures { MatchBool result (AreNeighboursApart ends.now) (AreNeighboursTied ends.now) }
{
    for i in 0..ends.len().saturating_sub(1) {
        if ends[i].is_of_same_partition(&ends[i + 1]) {
            return false;
        }
    }
    true
}
