//! What the tables of a report say.

ghost use Rattle.std.specs.Prelude.{List};
ghost use Rattle.eos_evidence.specs.declared.segment.Segment.{Segment};
ghost use Rattle.eos_kept.specs.Sizes.{AreSized};
ghost use Rattle.eos_kept.specs.Parts.{HasBatches};
ghost use Rattle.eos_notes.specs.Counts.{IsCounted};

use bytes::Bytes;
use eos_base::Listed;
use eos_evidence::GroupId;
use eos_kept::Sizes;

/// What a topic is for the applications and for Kafka.
#[derive(Clone, Copy)]
pub struct TopicRoles {
    /// An application reads it.
    pub source: bool,
    /// An application writes it.
    pub output: bool,
    /// It is `__consumer_offsets`.
    pub offsets_log: bool,
    /// It is `__transaction_state`.
    pub transaction_log: bool,
}

/// What is counted of a partition's segments, which a log that is kept has no more.
#[derive(Clone, Copy)]
pub struct Counted {
    /// The batches of the front: data batches and control batches.
    pub batches: u64,
    pub segments: u64,
    /// The bytes of all segments, whether or not they are batches.
    pub bytes: u64,
}

impl Counted {
    /// Of segments that were read before, of which this was told.
    pub fn told(batches: u64, sizes: Sizes) -> Counted
        ensures { (segments : List Segment) → HasBatches segments batches → AreSized segments sizes → IsCounted segments result }
    {
        Counted {
            batches,
            segments: sizes.segments,
            bytes: sizes.bytes,
        }
    }
}

/// How much a partition holds. Where its log has a fault, its batches and records are those of its front: those that stand before
/// the first bytes that are no batch, or no batch of the next offset.
#[derive(Drop)]
pub struct PartitionTally {
    pub topic: Bytes,
    /// The partition's number in its topic.
    pub partition: i32,
    pub roles: TopicRoles,
    /// The offset where the partition is declared to end.
    pub end: i64,
    /// Data batches and control batches.
    pub batches: u64,
    /// The records of data batches.
    pub data_records: u64,
    /// The data records that a reader of committed records is given. None where the partition's log has a fault of its own, since
    /// it isn't known then how each transaction ended.
    pub visible_records: Option<u64>,
    pub segments: u64,
    /// The bytes of all segments, whether or not they are batches.
    pub bytes: u64,
}

/// How far a group has got in a partition of a topic that it reads.
#[derive(Drop)]
pub struct SourceTally {
    pub topic: Bytes,
    /// The partition's number in its topic.
    pub partition: i32,
    /// The offset of the group's last visible commit of the partition, and 0 where there is none.
    pub committed: i64,
    /// The offset where the partition is declared to end.
    pub end: i64,
    /// The visible records below the committed offset.
    pub visible_inputs_below: u64,
}

/// How far an application's group has got.
#[derive(Drop)]
pub struct GroupTally {
    pub group: GroupId,
    /// The partitions of the evidence whose topics the application reads, in the order of the evidence.
    pub sources: Listed<SourceTally>,
}

/// The tables of an evidence.
#[derive(Drop)]
pub struct Tallies {
    /// One for each partition of the evidence, in its order.
    pub partitions: Listed<PartitionTally>,
    /// One for each application, in the order of the manifest. None where the log of a partition, whichever it is, has a fault of
    /// its own, since it isn't known then which records are visible.
    pub groups: Option<Listed<GroupTally>>,
}
