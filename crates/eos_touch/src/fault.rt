//! What is wrong with one partition's log, and where.

ghost use Rattle.std.specs.Prelude.{◌≡◌};
ghost use Rattle.eos_touch.specs.FaultNames.{name_of, number_of};

use crate::pair::PairFault;
use bytes::Bytes;
use eos_batch::BatchFault;

/// A fault of one partition's log. Of those that stand, the one with the least offset counts, then the least kind.
#[derive(PartialEq, Eq, Drop)]
pub struct PartitionFault {
    pub topic: Bytes,
    pub partition: i32,
    /// The offset of the first record at the fault's place.
    pub offset: u64,
    pub kind: PartitionFaultKind,
}

/// The kind of a partition's fault, with what its text prints. The front of a partition is the longest list of its
/// batches from the start in which each base offset is the number of records before.
#[derive(Clone, Copy, PartialEq, Eq)]
pub enum PartitionFaultKind {
    /// The front ends before bytes that are no batch: in the segment that begins at this offset, at this place of its
    /// bytes, for this reason.
    BadBatch {
        segment: u64,
        byte: u64,
        batch: BatchFault,
    },
    /// The front ends before a segment with this name or a batch with this base offset, which is another than the next.
    Gap {
        found: u64,
    },
    /// A batch may not follow the one of its producer id before it.
    Pair {
        fault: PairFault,
        producer: i64,
    },
    /// The front is the whole log and ends elsewhere than at this offset, which was declared.
    End {
        end: u64,
    },
    /// The front is the whole log, and the last batch of this producer id is transactional data.
    OpenAtEnd {
        producer: i64,
    },
}

impl PartitionFaultKind {
    /// The kind's number, from 1 to 11.
    pub fn number(self) -> u8
        ensures { result ≡ number_of self }
    {
        match self {
            PartitionFaultKind::BadBatch { .. } => 1,
            PartitionFaultKind::Gap { .. } => 2,
            PartitionFaultKind::Pair { fault, .. } => fault.number(),
            PartitionFaultKind::End { .. } => 10,
            PartitionFaultKind::OpenAtEnd { .. } => 11,
        }
    }

    /// The kind's name, as a verdict prints it.
    pub fn name(self) -> &'static str
        ensures { result.now ≡ name_of self }
    {
        match self {
            PartitionFaultKind::BadBatch { .. } => "BadBatch",
            PartitionFaultKind::Gap { .. } => "Gap",
            PartitionFaultKind::Pair { fault, .. } => fault.name(),
            PartitionFaultKind::End { .. } => "End",
            PartitionFaultKind::OpenAtEnd { .. } => "OpenAtEnd",
        }
    }
}
