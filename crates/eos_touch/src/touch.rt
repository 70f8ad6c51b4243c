//! What a batch says of its producer id. The rules of exactly-once delivery speak of these alone.

use eos_batch::Kind;

/// A batch of an idempotent producer as its partition sees it: data, or the end of a transaction.
#[derive(Clone, Copy)]
pub enum Touch {
    /// A data batch: its producer epoch, whether it is transactional, the sequence of its first record, and the number
    /// of its records.
    Data {
        epoch: i16,
        transactional: bool,
        sequence: i32,
        count: u32,
    },
    /// An end marker: the epoch that it carries, and how the transaction ended.
    End {
        epoch: i16,
        kind: Kind,
    },
}
