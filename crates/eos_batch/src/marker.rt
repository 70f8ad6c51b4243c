//! What a control batch says of a transaction.
//!
//! | Field | Width | Meaning |
//! |---|---|---|
//! | key: version | i16 | 0 or more |
//! | key: type | i16 | 0 ABORT, 1 COMMIT, other types mean nothing here |
//! | value of the two: version | i16 | 0 or more |
//! | value of the two: coordinatorEpoch | i32 | of the coordinator that wrote it |
//!
//! The source is "Control Batches" of the Message Format in Kafka's documentation. Further bytes are ignored.

ghost use Rattle.std.specs.Prelude.{◌≡◌};
ghost use Rattle.std.specs.Option.{option_map};
ghost use Rattle.eos_batch.specs.Marker.{control_type, coordinator_epoch_of, end_kind, marker_of};

use crate::batch::Batch;
use crate::rules::is_control;
use bytes::Bytes;
use eos_wire::Fields;

/// How a transaction ended.
#[derive(Clone, Copy, PartialEq, Eq, PartialOrd, Ord)]
pub enum Kind {
    Commit,
    Abort,
}

/// An end marker: the control record with which a transaction ends in a partition.
#[derive(Clone, Copy)]
pub struct Marker {
    /// The producer id whose transaction ends.
    pub producer: i64,
    /// The producer epoch that the marker carries.
    pub epoch: i16,
    pub kind: Kind,
    /// The epoch of the transaction coordinator that wrote it.
    pub coordinator_epoch: i32,
}

/// The bytes of a key or value, lent.
pub(crate) fn lent(bytes: &Option<Bytes>) -> Option<&[u8]>
    ensures { option_map (λ s. s.now) result ≡ bytes.now }
{
    match bytes {
        Some(bytes) => Some(bytes.as_slice()),
        None => None,
    }
}

/// The type of a control record, by its key.
pub(crate) fn control_type(key: Option<&[u8]>) -> Option<i16>
    ensures { result ≡ control_type (option_map (λ s. s.now) key.entry) }
{
    let Some(bytes) = key else {
        return None;
    };
    let mut fields = Fields::new(bytes);
    match fields.i16() {
        Some(version) if version >= 0 => fields.i16(),
        _ => None,
    }
}

/// The coordinator's epoch, by the value of an end marker.
pub fn coordinator_epoch(value: Option<&[u8]>) -> Option<i32>
    ensures { result ≡ coordinator_epoch_of (option_map (λ s. s.now) value.entry) }
{
    let Some(bytes) = value else {
        return None;
    };
    let mut fields = Fields::new(bytes);
    match fields.i16() {
        Some(version) if version >= 0 => fields.i32(),
        _ => None,
    }
}

/// The kind of an end marker, by its key.
pub fn end_kind(key: Option<&[u8]>) -> Option<Kind>
    ensures { result ≡ end_kind (option_map (λ s. s.now) key.entry) }
{
    match control_type(key) {
        Some(0) => Some(Kind::Abort),
        Some(1) => Some(Kind::Commit),
        _ => None,
    }
}

impl Batch {
    /// What this batch says where it is an end marker.
    pub fn marker(&self) -> Option<Marker>
        ensures { result ≡ marker_of self.now }
    {
        if !is_control(self.attributes) {
            return None;
        }
        let [only] = self.records.as_slice() else {
            return None;
        };
        let kind = end_kind(lent(&only.key));
        let coordinator_epoch = coordinator_epoch(lent(&only.value));
        match (kind, coordinator_epoch) {
            (Some(kind), Some(coordinator_epoch)) => Some(Marker {
                producer: self.producer,
                epoch: self.epoch,
                kind,
                coordinator_epoch,
            }),
            _ => None,
        }
    }
}
