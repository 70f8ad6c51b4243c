//! A record of a batch and its headers.

use bytes::Bytes;
use eos_base::Listed;

/// A header of a record: a key and perhaps a value.
#[derive(Clone, Drop)]
pub struct Header {
    pub key: Bytes,
    pub value: Option<Bytes>,
}

/// The headers of a record, in order.
pub type Headers = Listed<Header>;

/// A record of a batch. Its offset is the batch's base offset plus its place.
#[derive(Clone, Drop)]
pub struct Record {
    /// No bit means anything.
    pub attributes: i8,
    /// In milliseconds, from the batch's base timestamp.
    pub timestamp_delta: i64,
    pub key: Option<Bytes>,
    pub value: Option<Bytes>,
    pub headers: Headers,
}

/// The records of a batch, in order.
pub type Records = Listed<Record>;
