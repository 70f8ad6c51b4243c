//! What a data record of the transaction log says.

ghost use Rattle.std.specs.Prelude.{◌≡◌, IfOk};
ghost use Rattle.std.specs.Option.{option_map};
ghost use Rattle.eos_txnlog.specs.Reading.{read_key, read_value};
ghost use Rattle.eos_table.specs.TransactionLog.{content_of, content_of_value};

use bytes::Bytes;
use eos_base::RecordFault;
use eos_kept::ItemRef;
use eos_txnlog::TxnValue;
use std::alloc::{AllocError, Global};

/// What a data record of the transaction log says.
#[derive(Drop)]
pub enum Content {
    /// It has no key, or its key or its value doesn't read.
    Unreadable(RecordFault),
    /// Its key is of another version.
    Other,
    /// A value of a transactional id, or a tombstone.
    Of(Bytes, Option<TxnValue>),
}

/// Reads a key, of which it takes a copy.
pub(crate) fn read_id(
    alloc: Global,
    key: &[u8],
) -> Result<Result<Option<Bytes>, RecordFault>, AllocError>
    ensures { IfOk result (λ read. read ≡ read_key key.now) }
{
    let bytes = Bytes::copy_from_slice(alloc, key)?;
    eos_txnlog::read_id(alloc, &bytes)
}

/// Reads a value, of which it takes a copy.
pub(crate) fn read_state(
    alloc: Global,
    value: &[u8],
) -> Result<Result<TxnValue, RecordFault>, AllocError>
    ensures { IfOk result (λ read. read ≡ read_value value.now) }
{
    let bytes = Bytes::copy_from_slice(alloc, value)?;
    eos_txnlog::read_state(alloc, &bytes)
}

fn content_of_id(alloc: Global, id: Bytes, value: Option<&[u8]>) -> Result<Content, AllocError>
    ensures { IfOk result (λ content. content ≡ content_of_value id (option_map (λ s. s.now) value.entry)) }
{
    let Some(bytes) = value else {
        return Ok(Content::Of(id, None));
    };
    match read_state(alloc, bytes)? {
        Ok(value) => Ok(Content::Of(id, Some(value))),
        Err(fault) => Ok(Content::Unreadable(fault)),
    }
}

/// Reads a data record of the transaction log.
///
/// # Errors
/// Only want of memory; what doesn't read is an answer.
pub fn read_content(alloc: Global, item: &ItemRef<'_>) -> Result<Content, AllocError>
    ensures { IfOk result (λ content. content ≡ content_of item.now) }
{
    let Some(key) = item.key() else {
        return Ok(Content::Unreadable(RecordFault::Short));
    };
    match read_id(alloc, key)? {
        Ok(Some(id)) => content_of_id(alloc, id, item.value()),
        Ok(None) => Ok(Content::Other),
        Err(fault) => Ok(Content::Unreadable(fault)),
    }
}
