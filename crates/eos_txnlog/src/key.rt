//! A key of the log: the transactional id.
//!
//! | Field | Width | Kafka's name |
//! |---|---|---|
//! | version | INT16 | 0; keys of other versions mean something else |
//! | id | INT16 length, bytes | `TransactionalId` |
//!
//! The source is Kafka's schema `TransactionLogKey`.

ghost use Rattle.std.specs.Prelude.{◌≡◌, ℕ, List, true, length, Some, Ok, IfSome, IfOk};
ghost use Rattle.eos_base.specs.Records.{Settles};
ghost use Rattle.eos_wire.specs.declared.form.Form.TheVariants.{Plain};
ghost use Rattle.eos_txnlog.specs.Text.{IsKeyText};
ghost use Rattle.eos_txnlog.specs.Reading.{read_key};
ghost use Rattle.eos_wire.specs.FieldWriting.{fits_length};
ghost use Rattle.eos_txnlog.specs.Writing.{key_text, write_key};

use bytes::Bytes;
use eos_base::RecordFault;
use eos_wire::{Cursor, Form, are_bytes, fits_length, read_text, write_i16, write_text};
use std::alloc::{AllocError, Global};

#[tactic(auto, unfolding(crate::specs::Reading::read_key))]
fn read_key(mut rest: Cursor<'_>) -> Result<Option<Bytes>, RecordFault>
    ensures { Settles result (read_key rest.entry) }
{
    let Some(version) = rest.i16() else {
        return Err(RecordFault::Short);
    };
    if version != 0 {
        return Ok(None);
    }
    let id = read_text(&mut rest, Form::Plain)?;
    if !rest.is_empty() {
        return Err(RecordFault::Trailing);
    }
    Ok(Some(id.share()?))
}

/// Reads a key of the log: the transactional id, or `None` for a key of another version, which isn't looked into.
///
/// # Errors
/// The first fault in field order: Short where the bytes run out, Length where the id's length is below 0, Trailing where
/// bytes are left. OutOfMemory comes only after all of these.
pub fn decode_key(_alloc: Global, bytes: &Bytes) -> Result<Option<Bytes>, RecordFault>
    ensures answer { Settles result (read_key bytes.now) }
    ensures text { IfOk result (λ key. IfSome key (IsKeyText bytes.now)) }
    ensures each_text { (id : List ℕ) → IsKeyText bytes.now id → Settles result (Ok (Some id)) }
{
    are_bytes(bytes.as_slice());
    read_key(Cursor::new(bytes))
}

fn write_key(alloc: Global, id: &Bytes) -> Result<Bytes, AllocError>
    requires { fits_length Plain (length id.now) ≡ true }
    ensures { IfOk result (λ bytes. bytes ≡ key_text id.now) }
{
    let mut out = Vec::new(alloc);
    write_i16(&mut out, 0)?;
    write_text(&mut out, Form::Plain, id)?;
    Ok(Bytes::from_vec(out)?)
}

/// Writes the key of a transactional id, in version 0.
///
/// # Errors
/// Length where the id has more bytes than its length field can say. OutOfMemory comes only after it.
#[tactic(auto, unfolding(crate::specs::Writing::write_key))]
pub fn encode_key(alloc: Global, id: &Bytes) -> Result<Bytes, RecordFault>
    ensures answer { Settles result (write_key id.now) }
    ensures text { IfOk result (λ bytes. IsKeyText bytes id.now) }
    ensures reads_back { IfOk result (λ bytes. read_key bytes ≡ Ok (Some id.now)) }
{
    if !fits_length(Form::Plain, id.len()) {
        return Err(RecordFault::Length);
    }
    Ok(write_key(alloc, id)?)
}
