//! What a batch keeps beside its layout, as tests: reading asks them of what was read, and writing before it writes.

ghost use Rattle.std.specs.Prelude.{◌≡◌, ◌&&◌, IsTrue, is_some};
ghost use Rattle.std.specs.Option.{option_map};
ghost use Rattle.eos_batch.specs.Attributes.{is_compressed, is_transactional, is_control};
ghost use Rattle.eos_batch.specs.Marker.{end_kind, coordinator_epoch_of, is_control_content, is_control_record, has_right_control};
ghost use Rattle.eos_batch.specs.Rules.{has_right_producer};

use crate::batch::Batch;
use crate::marker::{control_type, coordinator_epoch, end_kind, lent};
use crate::record::Record;

const COMPRESSION: i16 = 0x07;

const TRANSACTIONAL: i16 = 0x10;

const CONTROL: i16 = 0x20;

pub(crate) fn is_compressed(attributes: i16) -> bool
    ensures { result ≡ is_compressed attributes }
{
    attributes & COMPRESSION != 0
}

pub(crate) fn is_transactional(attributes: i16) -> bool
    ensures { result ≡ is_transactional attributes }
{
    attributes & TRANSACTIONAL != 0
}

pub(crate) fn is_control(attributes: i16) -> bool
    ensures { result ≡ is_control attributes }
{
    attributes & CONTROL != 0
}

impl Batch {
    /// Whether its records belong to a transaction (attributes bit 4). The bit means nothing on a control batch.
    pub fn is_transactional(&self) -> bool
        ensures { result ≡ is_transactional self.now.attributes }
    {
        is_transactional(self.attributes)
    }

    /// Whether it is a control batch (attributes bit 5), whose record is never delivered.
    pub fn is_control(&self) -> bool
        ensures { result ≡ is_control self.now.attributes }
    {
        is_control(self.attributes)
    }
}

/// The key of a control record has a type, and the value of an end marker has an epoch.
pub(crate) fn is_control_content(key: Option<&[u8]>, value: Option<&[u8]>) -> bool
    ensures { result ≡ is_control_content (option_map (λ s. s.now) key.entry) (option_map (λ s. s.now) value.entry) }
{
    if end_kind(key).is_some() {
        coordinator_epoch(value).is_some()
    } else {
        control_type(key).is_some()
    }
}

/// The key and the value of a control record are those of an end marker.
pub(crate) fn is_end(key: Option<&[u8]>, value: Option<&[u8]>) -> bool
    ensures { result ≡ (is_some (end_kind (option_map (λ s. s.now) key.entry))
        && is_some (coordinator_epoch_of (option_map (λ s. s.now) value.entry))) }
{
    end_kind(key).is_some() && coordinator_epoch(value).is_some()
}

fn is_control_record(only: &Record) -> bool
    ensures { result ≡ is_control_record only.now }
{
    is_control_content(lent(&only.key), lent(&only.value))
}

/// A control batch is one control record that reads.
pub(crate) fn has_right_control(batch: &Batch) -> bool
    ensures { result ≡ has_right_control batch.now }
{
    if !is_control(batch.attributes) {
        return true;
    }
    match batch.records.as_slice() {
        [only] => is_control_record(only),
        _ => false,
    }
}

/// Transactional data and end markers name a producer, and a producer has an epoch.
pub(crate) fn has_right_producer(batch: &Batch) -> bool
    ensures { result ≡ has_right_producer batch.now }
{
    if batch.producer >= 0 {
        return batch.epoch >= 0;
    }
    if is_control(batch.attributes) {
        batch.marker().is_none()
    } else {
        !is_transactional(batch.attributes)
    }
}
