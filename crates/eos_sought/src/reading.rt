//! What the key and the value of a record of the transaction log say, where they read; and names of partitions.

ghost use Rattle.std.specs.Prelude.{◌≡◌, IfOk};
ghost use Rattle.std.specs.Option.{option_map};
ghost use Rattle.eos_commits.specs.Commits.{is_same as is_same_text};
ghost use Rattle.eos_sought.specs.Sought.{is_named, is_of};
ghost use Rattle.eos_sought.specs.States.{id_in, state_in};

use bytes::Bytes;
use eos_base::{PartitionName, RecordFault};
use eos_kept::Part;
use eos_txnlog::{TxnValue, decode_key, decode_value};
use std::alloc::{AllocError, Global};

/// The transactional id of a key, if it is one.
///
/// # Errors
/// Only want of memory.
pub fn id_of(alloc: Global, key: Option<&[u8]>) -> Result<Option<Bytes>, AllocError>
    ensures { IfOk result (λ id. id ≡ id_in (option_map (λ s. s.now) key.entry)) }
{
    let Some(key) = key else {
        return Ok(None);
    };
    let bytes = Bytes::copy_from_slice(alloc, key)?;
    match decode_key(alloc, &bytes) {
        Ok(id) => Ok(id),
        Err(RecordFault::OutOfMemory) => Err(AllocError),
        Err(_) => Ok(None),
    }
}

/// The state in a value, if it is one.
///
/// # Errors
/// Only want of memory.
pub fn state_of(alloc: Global, value: Option<&[u8]>) -> Result<Option<TxnValue>, AllocError>
    ensures { IfOk result (λ state. state ≡ state_in (option_map (λ s. s.now) value.entry)) }
{
    let Some(value) = value else {
        return Ok(None);
    };
    let bytes = Bytes::copy_from_slice(alloc, value)?;
    match decode_value(alloc, &bytes) {
        Ok(state) => Ok(Some(state)),
        Err(RecordFault::OutOfMemory) => Err(AllocError),
        Err(_) => Ok(None),
    }
}

/// Whether two texts are the same.
pub fn is_same(a: &[u8], b: &[u8]) -> bool
    ensures { result ≡ is_same_text a.now b.now }
{
    a.cmp(b).is_eq()
}

pub(crate) fn is_named(part: &Part, name: &PartitionName) -> bool
    ensures { result ≡ is_named name.now part.now }
{
    is_same(part.topic().as_slice(), name.topic.as_slice()) && part.partition() == name.partition
}

pub(crate) fn is_of(part: &Part, topic: &[u8]) -> bool
    ensures { result ≡ is_of topic.now part.now }
{
    is_same(part.topic().as_slice(), topic)
}
