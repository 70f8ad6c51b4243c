//! What the members of a cluster hold in memory, and what is on its way between them.

ghost use Rattle.std.specs.Prelude.{◌≡◌, pos};
ghost use Rattle.eos_machine.specs.Elections.{leader_epoch};

use crate::item::{Claim, LogIndexes, Status};
use eos_base::Listed;
use eos_batch::Kind;

/// What the transaction coordinator holds of an application: the last record that it wrote, and the partitions whose end
/// marker it waits for.
#[derive(Drop)]
pub struct Coordinator {
    /// Whether it wrote any record.
    pub started: bool,
    pub status: Status,
    pub epoch: u16,
    pub partitions: LogIndexes,
    pub awaited: LogIndexes,
}

/// What a broker holds of a producer id in one partition.
#[derive(Clone, Copy)]
pub struct Producer {
    /// The highest epoch, 0 at first.
    pub high: u16,
    /// The epoch of the last data.
    pub last: Option<u16>,
    /// How many data records that epoch has, which is its next sequence.
    pub count: u64,
}

/// A client that works for an application.
#[derive(Drop)]
pub struct Session {
    pub application: usize,
    pub epoch: u16,
    /// The generation of its group when the session began.
    pub generation: u64,
    /// How the session asked its transaction to end, where it did: it isn't active then.
    pub ending: Option<Kind>,
    /// The next sequence of each partition of the topic that the group writes.
    pub sequences: Listed<u32>,
    /// The data and offset messages of the transaction.
    pub messages: Listed<u64>,
}

/// An election of a leader, as a partition keeps it (Kafka's `leader-epoch-checkpoint`), and what it lost.
#[derive(Clone, Copy)]
pub struct Election {
    /// The partition, by its place among all logs.
    pub place: usize,
    /// The leader epoch that began; before the first election it is 0.
    pub leader_epoch: u16,
    /// The offset that it began at: how many records the new leader had.
    pub start: u64,
    /// How many records it didn't have.
    pub lost: u64,
}

/// A request on its way.
#[derive(Drop)]
pub enum Message {
    /// A record for a partition of the topic that the application's group writes; without a claim it has no headers.
    Output {
        application: usize,
        epoch: u16,
        partition: usize,
        sequence: u32,
        claim: Option<Claim>,
        value: u64,
    },
    /// An offset of a source of the group, to be committed, or none, which is to delete it.
    Offset {
        application: usize,
        epoch: u16,
        generation: u64,
        source: usize,
        offset: Option<u64>,
    },
    /// The end of a transaction, asked of the coordinator.
    End {
        application: usize,
        epoch: u16,
        kind: Kind,
    },
    /// An end marker for the partition at a place.
    Marker {
        application: usize,
        epoch: u16,
        kind: Kind,
        place: usize,
    },
}

/// The leader epoch of an offset in the log at a place, after these elections.
pub fn leader_epoch(elections: &[Election], place: usize, offset: u64) -> u16
    ensures { result ≡ leader_epoch place (pos offset) elections.now }
{
    let mut epoch = 0;
    for election in elections {
        if election.place == place && election.start <= offset {
            epoch = election.leader_epoch;
        }
    }
    epoch
}
