//! What a picture holds.

use bytes::Bytes;
use eos_base::PartitionName;
use eos_batch::Kind;
use eos_fold::Fate;

/// A transaction.
#[derive(Drop)]
pub struct Column {
    /// The producer id of its data.
    pub producer: i64,
    /// The producer epoch of its data.
    pub epoch: i16,
    /// The Prepare record that decided it; none where there is none.
    pub decided: Option<Decided>,
}

/// A Prepare record of the transaction log.
#[derive(Drop)]
pub struct Decided {
    /// The transactional id.
    pub id: Bytes,
    /// The number of its partition of `__transaction_state`.
    pub partition: i32,
    pub offset: u64,
    pub kind: Kind,
    /// The epoch that the transaction's end markers have.
    pub marker_epoch: i16,
}

/// What stands in a cell.
#[derive(Drop)]
pub enum Sign {
    /// The Prepare record.
    Decision {
        offset: u64,
        kind: Kind,
    },
    /// A data record.
    Record {
        offset: u64,
        fate: Fate,
    },
    /// A data record of the offsets log, by which a group's committed offset of this partition is set.
    Commit {
        offset: u64,
        fate: Fate,
        source: PartitionName,
        committed: i64,
    },
    /// A commit set a group's committed offset of the row's partition from one offset to another.
    Passed {
        fate: Fate,
        from: i64,
        to: i64,
    },
    /// The end markers of one kind, which are so many.
    Marker {
        kind: Kind,
        count: u64,
    },
    /// An end marker of the kind that was decided, which isn't there.
    Missing(Kind),
    /// A place of the fault at which no such thing stands.
    Spot(Option<u64>),
}

/// A sign, and where it stands.
#[derive(Drop)]
pub struct Mark {
    /// The place of its column among those of the picture; their number where it is of none of these.
    pub column: usize,
    pub sign: Sign,
    /// Whether it is a place of the fault.
    pub is_of_fault: bool,
    /// Where an end marker stands: the fault's offset, or else that of the first of them.
    pub offset: Option<u64>,
}

/// A partition.
#[derive(Drop)]
pub struct Row {
    pub name: PartitionName,
    /// What the transactions did there: data records in the order of their offsets, and then the others.
    pub marks: Vec<Mark>,
}

/// A picture.
#[derive(Drop)]
pub struct Picture {
    /// The transactions that are shown: in the order of the partition that they share, or else of all.
    pub columns: Vec<Column>,
    /// Their places among all, which are in the order of their Prepare records, and behind them those without one.
    pub places: Vec<usize>,
    /// How many transactions there are.
    pub all: usize,
    /// The partitions in which one of them did something.
    pub rows: Vec<Row>,
}
