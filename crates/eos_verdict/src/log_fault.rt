//! Where the transaction log breaks its own rule.

ghost use Rattle.std.specs.Prelude.{◌≡◌, option_map};
ghost use Rattle.eos_verdict.specs.LogNames.{number_of, name_of, id_of};

use bytes::Bytes;
use eos_base::RecordFault;
use eos_txnlog::TxnFault;

/// A fault of the log `__transaction_state`. Of those that stand, the least counts: by partition, offset and kind, as the
/// fields stand here.
#[derive(PartialEq, Eq, PartialOrd, Ord, Drop)]
pub struct LogFault {
    /// The number of the partition of `__transaction_state`.
    pub partition: i32,
    pub offset: u64,
    pub kind: LogFaultKind,
}

/// The kind of a fault of the transaction log, with what its text prints; in the order of their numbers, and those of one kind
/// by what they print.
#[derive(PartialEq, Eq, PartialOrd, Ord, Drop)]
pub enum LogFaultKind {
    /// A record without key, or one whose key or value doesn't read.
    BadRecord { record: RecordFault },
    /// A record of this transactional id that may not follow the one before it.
    Step { id: Bytes, why: TxnFault },
    /// A record of a transactional id that has records in a lesser partition.
    SplitId { id: Bytes },
    /// A record of this transactional id, with a producer id that a record of another id had before.
    SharedProducer { id: Bytes },
    /// The partition ends while a transaction of this id goes on, or before its end is written.
    Unfinished { id: Bytes },
}

impl LogFaultKind {
    /// The kind's number, from 1 to 5, by which kinds are ordered.
    pub fn number(&self) -> u8
        ensures { result ≡ number_of self.now }
    {
        self.row().0
    }

    /// The kind's name, as a verdict prints it.
    pub fn name(&self) -> &'static str
        ensures { result.now ≡ name_of self.now }
    {
        self.row().1
    }

    /// The transactional id that it names; none where a record doesn't read.
    pub fn id(&self) -> Option<&Bytes>
        ensures { option_map (λ id. id.now) result ≡ id_of self.now }
    {
        self.row().2
    }

    /// The number, the name and the transactional id, a line for each kind.
    fn row(&self) -> (u8, &'static str, Option<&Bytes>)
        ensures number { result.0 ≡ number_of self.now }
        ensures name { result.1.now ≡ name_of self.now }
        ensures id { option_map (λ id. id.now) result.2 ≡ id_of self.now }
    {
        match self {
            LogFaultKind::BadRecord { .. } => (1, "BadRecord", None),
            LogFaultKind::Step { id, .. } => (2, "Step", Some(id)),
            LogFaultKind::SplitId { id } => (3, "SplitId", Some(id)),
            LogFaultKind::SharedProducer { id } => (4, "SharedProducer", Some(id)),
            LogFaultKind::Unfinished { id } => (5, "Unfinished", Some(id)),
        }
    }
}
