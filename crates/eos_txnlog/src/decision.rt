//! What a transaction came to.

use crate::partitions::Partitions;
use bytes::Bytes;
use eos_batch::Kind;

/// How a transaction ends, decided by a Prepare record.
#[derive(Clone, Drop)]
pub struct Decision {
    /// The transactional id.
    pub id: Bytes,
    pub producer: i64,
    /// The epoch of the transaction's data, which is that of the record before.
    pub epoch: i16,
    /// The epoch of its end markers, which is that of the Prepare record.
    pub marker_epoch: i16,
    pub kind: Kind,
    /// The partitions that the transaction wrote to, which count as a set.
    pub partitions: Partitions,
}
