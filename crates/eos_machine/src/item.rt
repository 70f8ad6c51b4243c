//! What stands in the logs of a cluster: one batch of one record each.

use bytes::Bytes;
use eos_base::Listed;
use eos_batch::Kind;

/// Partitions, as indexes in a cluster's list of logs.
pub type LogIndexes = Listed<usize>;

/// Where an output record comes from: the five lineage headers of its record.
#[derive(Clone, PartialEq, Eq, Drop)]
pub struct Claim {
    /// The topic of the input.
    pub topic: Bytes,
    pub partition: i32,
    pub offset: i64,
    /// Which of the input's outputs this is.
    pub output: i32,
    /// How many outputs the input has.
    pub of: i32,
}

/// Where the transaction of an application stands, as its coordinator writes it (Kafka's `TransactionState`).
#[derive(Clone, Copy)]
pub enum Status {
    Empty,
    Ongoing,
    Prepare(Kind),
    Complete(Kind),
}

/// A record of the transaction log: an application's state. Its epoch is a producer epoch, at most 32767.
#[derive(Drop)]
pub struct Entry {
    pub status: Status,
    pub epoch: u16,
    pub partitions: LogIndexes,
}

/// A batch of one record. `event` is the number of the event that appended it, which is its timestamp.
#[derive(Drop)]
pub enum Item {
    /// A record of `in`, of no producer. Its value is the number of its event.
    Fed {
        event: u64,
    },
    /// A record of the transaction log.
    State {
        application: usize,
        entry: Entry,
        event: u64,
    },
    /// A transactional record of `out` or `fin`. Its value is the number of the event that produced it; without a claim it has no
    /// headers.
    Output {
        application: usize,
        epoch: u16,
        sequence: u32,
        claim: Option<Claim>,
        value: u64,
        event: u64,
    },
    /// A transactional commit of a group's offset in its source; without an offset it has no value, and deletes
    /// the group's.
    Offset {
        application: usize,
        epoch: u16,
        source: usize,
        offset: Option<u64>,
        event: u64,
    },
    /// The end marker of a transaction.
    Marker {
        application: usize,
        epoch: u16,
        kind: Kind,
        event: u64,
    },
}
