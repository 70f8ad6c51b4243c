//! What the coordinator wrote of a transactional id.

use crate::partitions::Partitions;
use crate::status::Status;

/// The value of a record of the log: the state of one transactional id. Times are milliseconds.
#[derive(Clone, Drop)]
pub struct TxnValue {
    pub producer: i64,
    pub epoch: i16,
    pub timeout: i32,
    pub status: Status,
    /// An absent list is read as an empty one.
    pub partitions: Partitions,
    pub last_update: i64,
    pub start: i64,
}
