//! What is wrong with a visible record.

ghost use Rattle.std.specs.Prelude.{◌≡◌};
ghost use Rattle.eos_verdict.specs.VisibleNames.{number_of, name_of};

use eos_base::{PartitionName, RecordFault};

/// A visible record that can't be read for what it has to be. Of those that stand, the least counts: by partition,
/// offset and kind, as the fields stand here.
#[derive(PartialEq, Eq, PartialOrd, Ord, Drop)]
pub struct VisibleFault {
    /// The record's partition.
    pub partition: PartitionName,
    /// The record's offset.
    pub offset: u64,
    pub kind: VisibleFaultKind,
}

/// The kind of a fault of a visible record, with what its text prints; in the order of their numbers, and those of one kind by
/// what they print.
#[derive(Clone, Copy, PartialEq, Eq, PartialOrd, Ord)]
pub enum VisibleFaultKind {
    /// A record of an output topic whose headers are no claim.
    BadLineage,
    /// A record of `__consumer_offsets` without a key, or whose key doesn't read, or whose value doesn't read under a key
    /// that names an application's group and one of its source topics.
    BadOffset { record: RecordFault },
    /// A record of a group that has one in a lesser partition of `__consumer_offsets` too.
    SplitGroup,
    /// A null value under a key that names an application's group and one of its source topics.
    OffsetDeleted,
}

impl VisibleFaultKind {
    /// The kind's number, from 1 to 4, by which kinds are ordered.
    pub fn number(self) -> u8
        ensures { result ≡ number_of self }
    {
        match self {
            VisibleFaultKind::BadLineage => 1,
            VisibleFaultKind::BadOffset { .. } => 2,
            VisibleFaultKind::SplitGroup => 3,
            VisibleFaultKind::OffsetDeleted => 4,
        }
    }

    /// The kind's name, as a verdict prints it.
    pub fn name(self) -> &'static str
        ensures { result.now ≡ name_of self }
    {
        match self {
            VisibleFaultKind::BadLineage => "BadLineage",
            VisibleFaultKind::BadOffset { .. } => "BadOffset",
            VisibleFaultKind::SplitGroup => "SplitGroup",
            VisibleFaultKind::OffsetDeleted => "OffsetDeleted",
        }
    }
}
