//! A data record of a partition's log, and what became of it.

use bytes::Bytes;
use eos_batch::Headers;

/// What became of a data record, as a reader of committed records sees it (KIP-98, `read_committed`).
#[derive(Clone, Copy, PartialEq, Eq)]
pub enum Fate {
    /// Its batch is of no transaction.
    Plain,
    /// The next end marker of its producer id is COMMIT.
    Committed,
    /// The next end marker of its producer id is ABORT.
    Aborted,
    /// No end marker of this producer id follows.
    Waiting(i64),
}

/// A data record.
#[derive(Clone, Drop)]
pub struct Item {
    pub offset: u64,
    pub fate: Fate,
    /// The producer id and epoch of its batch, where that is transactional.
    pub writer: Option<(i64, i16)>,
    pub key: Option<Bytes>,
    pub value: Option<Bytes>,
    pub headers: Headers,
}
