//! What keys and values say, with the faults of their bytes apart from want of memory.

ghost use Rattle.std.specs.Prelude.{◌≡◌, IfOk};
ghost use Rattle.eos_txnlog.specs.Reading.{read_key, read_value};

use crate::key::decode_key;
use crate::reading::decode_value;
use crate::value::TxnValue;
use bytes::Bytes;
use eos_base::RecordFault;
use std::alloc::{AllocError, Global};

/// The transactional id of a key, or `None` for a key of another version; or the fault of its bytes.
///
/// # Errors
/// Want of memory alone.
pub fn read_id(alloc: Global, key: &Bytes) -> Result<Result<Option<Bytes>, RecordFault>, AllocError>
    ensures { IfOk result (λ read. read ≡ read_key key.now) }
{
    match decode_key(alloc, key) {
        Ok(id) => Ok(Ok(id)),
        Err(RecordFault::OutOfMemory) => Err(AllocError),
        Err(fault) => Ok(Err(fault)),
    }
}

/// What a value says, or the fault of its bytes.
///
/// # Errors
/// Want of memory alone.
pub fn read_state(alloc: Global, value: &Bytes) -> Result<Result<TxnValue, RecordFault>, AllocError>
    ensures { IfOk result (λ read. read ≡ read_value value.now) }
{
    match decode_value(alloc, value) {
        Ok(state) => Ok(Ok(state)),
        Err(RecordFault::OutOfMemory) => Err(AllocError),
        Err(fault) => Ok(Err(fault)),
    }
}
