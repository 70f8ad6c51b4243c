//! As what a record is read.

/// As what the data records of a partition are read.
#[derive(Clone, Copy)]
pub enum Reading {
    /// Records of an output topic, which claim an input in their headers.
    Outputs,
    /// Records of `__transaction_state`.
    Transactions,
    /// Records of `__consumer_offsets`.
    Offsets,
}
