//! A record batch, which Kafka writes, checks and stores as one.

use crate::record::Records;
use eos_base::Listed;

/// A record batch of magic 2.
#[derive(Clone, Drop)]
pub struct Batch {
    /// The first record's offset in its partition.
    pub base_offset: i64,
    /// The partition leader's epoch, which a broker sets.
    pub leader_epoch: i32,
    /// Bits 0 to 2 are the compression, bit 4 says transactional, bit 5 control.
    pub attributes: i16,
    /// In milliseconds, as `max_timestamp`.
    pub base_timestamp: i64,
    pub max_timestamp: i64,
    /// The producer id; below 0 where the producer is not idempotent.
    pub producer: i64,
    /// The producer epoch.
    pub epoch: i16,
    /// The base sequence: that of the first record.
    pub sequence: i32,
    pub records: Records,
}

/// Record batches, in order.
pub type Batches = Listed<Batch>;
