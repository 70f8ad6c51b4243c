//! What a walk over a log learns of a batch beside its records.

use crate::marker::Marker;

/// A batch's fields but for its records, as `decode_batch` would read them.
#[derive(Clone, Copy)]
pub struct BatchHead {
    /// The base offset.
    pub offset: u64,
    /// The number of records.
    pub count: u32,
    /// The number of bytes.
    pub size: usize,
    /// The producer id; below 0 where the producer is not idempotent.
    pub producer: i64,
    /// The producer epoch.
    pub epoch: i16,
    /// The base sequence.
    pub sequence: i32,
    pub is_control: bool,
    pub is_transactional: bool,
    /// The end marker that a control batch is, if it is one.
    pub marker: Option<Marker>,
}
