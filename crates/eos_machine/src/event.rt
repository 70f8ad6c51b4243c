//! What may happen to a cluster, what it answers, and what happens beside it.

use crate::item::Claim;
use bytes::Bytes;
use eos_batch::Kind;

/// What may happen to a cluster. Numbers count from 0: applications, sessions in the order of their start, messages in the
/// order in which they were queued, the partitions of a topic.
#[derive(Clone, PartialEq, Eq, Drop)]
pub enum Event {
    /// An input comes in.
    Feed {
        source: usize,
    },
    /// A new session of an application begins (KIP-98, InitPidRequest).
    Start {
        application: usize,
    },
    /// A session sends a record to a partition of the topic that its group writes, without headers where it has no claim.
    Produce {
        session: usize,
        partition: usize,
        claim: Option<Claim>,
    },
    /// A session sends an offset of a source of its group, to be committed with its transaction; without one the offset
    /// that the group has there is to be deleted. The sources are the partitions of `in`, which the first group reads, and
    /// after them those of `out`, which the second reads.
    Commit {
        session: usize,
        source: usize,
        offset: Option<i64>,
    },
    /// A session asks its transaction to end.
    End {
        session: usize,
        kind: Kind,
    },
    /// A session whose transaction has ended begins the next one.
    Resume {
        session: usize,
    },
    /// A session asks for the committed offset of a source of its group.
    Fetch {
        session: usize,
        source: usize,
    },
    /// The members of a group change (KIP-447): 0 is the group that reads `in`, 1 the second one.
    Members {
        group: usize,
    },
    /// The broker of a partition restarts.
    BrokerRestart {
        topic: Bytes,
        partition: usize,
    },
    /// The transaction coordinator restarts.
    CoordinatorRestart,
    /// A message arrives. It may arrive again.
    Deliver {
        message: u64,
    },
    /// The transaction of an application has been open longer than its time-out: the coordinator aborts it
    /// (`TransactionStateManager.timedOutTransactions` of Kafka's sources; KIP-98; KIP-890).
    TimeOut {
        application: usize,
    },
    /// A session adds a partition to its transaction, before a batch of it comes there: one of the topic that its group writes, or
    /// without a number that of the offsets (KIP-98, AddPartitionsToTxnRequest and AddOffsetsToTxnRequest).
    AddPartition {
        session: usize,
        partition: Option<usize>,
    },
    /// An end marker arrives, and even after the last one its transaction isn't complete by that (KIP-98, WriteTxnMarkersRequest).
    WriteMarker {
        message: u64,
    },
    /// The coordinator writes that an application's transaction is complete, of which it awaits no end marker
    /// (`TransactionMarkerChannelManager.maybeWriteTxnCompletion` of Kafka's sources).
    Complete {
        application: usize,
    },
    /// A partition gets a new leader, whose log has so many records of the old one's, from the first on: where these aren't all, the
    /// election is an unclean one, and what was acknowledged behind them is lost (KIP-101, KIP-279; `unclean.leader.election.enable`).
    Elect {
        topic: Bytes,
        partition: usize,
        kept: u64,
    },
}

/// What a cluster answers.
#[derive(Clone, Copy, PartialEq, Eq)]
pub enum Reply {
    /// It was done: a number or an offset, as the event says.
    Done(u64),
    /// The producer epoch is an old one.
    Fenced,
    /// The sequence isn't the next one.
    OutOfOrder,
    /// The message had been accepted before.
    DuplicateKept,
    /// The session or the transaction isn't in a state for it.
    WrongState,
    /// A transaction is still ending.
    Busy,
    /// The session began under another generation of its group.
    StaleGeneration,
    /// There is no higher producer epoch, or no higher leader epoch.
    EpochsSpent,
    /// A number names nothing.
    Unknown,
    /// A growth was refused. Nothing has changed.
    OutOfMemory,
    /// 2^31 events were taken. Nothing has changed.
    Full,
}

/// What happens beside a cluster.
#[derive(Clone, Drop)]
pub enum Note {
    /// The network lost the message of this number. It may arrive all the same, when it is sent again.
    Lost(u64),
    /// The network delivers the message of this number again, or late: that is the next event. What a client sends again isn't noted.
    Repeated(u64),
    /// A transaction makes this mishap, `NAME@TOPIC-N:O`, as the command line names it: what it asks next for the outputs of this input
    /// of its group, or for its offset, is wrong.
    Erred(Bytes),
}
