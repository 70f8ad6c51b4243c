//! What a note says.

ghost use Rattle.std.specs.Prelude.{◌≡◌, ◌++◌, ◌∷◌, [], OnOk};
ghost use Rattle.eos_notes.specs.ManifestNotes.{internal_name};

use bytes::Bytes;
use eos_base::PartitionName;
use eos_evidence::GroupId;
use std::alloc::AllocError;

/// A sign that an evidence isn't the one that was meant. The variants stand in the order in which notes are listed.
#[derive(Drop)]
pub enum Note {
    /// The manifest names no application: of the evidence only the logs, the transaction log and the matching are judged.
    NoApplication,
    /// The group committed an offset of a partition of one of its source topics, which has no declared end.
    Unlisted {
        partition: PartitionName,
        group: GroupId,
    },
    /// The committed offset of a source partition is above its declared end.
    PastEnd {
        group: GroupId,
        offset: i64,
        partition: PartitionName,
        end: i64,
    },
    /// No partition of a source or output topic of the group has a declared end.
    NoPartition {
        topic: Bytes,
        group: GroupId,
    },
    /// The partition of this number of a source or output topic has no declared end, but one of a greater number has. It is the
    /// least such number.
    Gap {
        topic: Bytes,
        number: u64,
    },
    /// No visible record commits an offset of the group for a source topic of it.
    NothingCommitted {
        group: GroupId,
    },
    /// No partition of an internal topic has a declared end.
    NoInternal(InternalTopic),
    /// So many of the visible records of the group's source topics, fewer than all, are below its committed offsets.
    Behind {
        group: GroupId,
        below: u64,
        inputs: u64,
    },
    /// The batch at this offset of the partition has a lesser leader epoch than the batch before it. It is the first such batch.
    EpochFalls {
        partition: PartitionName,
        offset: u64,
    },
    /// The last commit of the group for the partition names another leader epoch than that of the record before its offset.
    OtherEpoch(OtherRecord),
}

/// Puts a note at the end. A note has many variants, and the proof goes through all of them where one may come back for want of memory:
/// so that is here alone.
pub(crate) fn add_note(all: &mut Vec<Note>, note: Note) -> Result<(), AllocError>
    ensures { OnOk result (all.new.items ≡ all.old.items ++ note ∷ []) }
{
    all.push(note)?;
    Ok(())
}

/// A committed offset of a partition, and the leader epochs of the record that the group had read before it and of the one that
/// stands there.
#[derive(Drop)]
pub struct OtherRecord {
    pub group: GroupId,
    pub offset: i64,
    pub partition: PartitionName,
    /// The leader epoch that the commit names.
    pub named: i64,
    /// The leader epoch of the record that stands there.
    pub found: i32,
}

/// A topic in which Kafka keeps its own records.
#[derive(Clone, Copy)]
pub enum InternalTopic {
    /// The offsets that consumer groups have committed.
    ConsumerOffsets,
    /// The states of transactions.
    TransactionState,
}

impl InternalTopic {
    /// The topic's name.
    pub fn name(self) -> &'static str
        ensures { result.now ≡ internal_name self }
    {
        match self {
            InternalTopic::ConsumerOffsets => "__consumer_offsets",
            InternalTopic::TransactionState => "__transaction_state",
        }
    }
}
