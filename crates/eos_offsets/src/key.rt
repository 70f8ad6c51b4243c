//! The key of an offset commit: which group, and which partition it reads.
//!
//! | Field | Type | Meaning |
//! |---|---|---|
//! | version | INT16 | 0 or 1, which have the same fields; a key of another version is of no commit |
//! | group | STRING | the consumer group |
//! | topic | STRING | the topic that the group reads |
//! | partition | INT32 | its partition |
//!
//! Numbers are big-endian. A STRING is an INT16, the number of its bytes, and the bytes. Source: Kafka's schema
//! `OffsetCommitKey`.

ghost use Rattle.std.specs.Prelude.{◌≡◌, true, length, Ok, None, Some, IfOk, IfErr};
ghost use Rattle.eos_base.specs.Records.{Settles};
ghost use Rattle.eos_wire.specs.declared.form.Form.TheVariants.{Plain};
ghost use Rattle.eos_wire.specs.FieldWriting.{fits_length};
ghost use Rattle.eos_offsets.specs.Text.{IsKeyText, IsOtherKeyText};
ghost use Rattle.eos_offsets.specs.Reading.{IsNotStatus, key_fields_of, read_key};
ghost use Rattle.eos_offsets.specs.Writing.{key_bytes, write_key};

use bytes::Bytes;
use eos_base::RecordFault;
use eos_wire::{Cursor, Form, are_bytes, fits_length, read_text, write_i16, write_i32, write_text};
use std::alloc::{AllocError, Global};

/// The version that is written.
const KEY_VERSION: i16 = 1;

/// A group and a partition that it reads.
#[derive(Clone, Drop)]
pub struct OffsetKey {
    pub group: Bytes,
    pub topic: Bytes,
    pub partition: i32,
}

/// Reads the fields after the version, which are all that is left.
#[tactic(auto, unfolding(crate::specs::Reading::key_fields_of))]
fn read_fields(mut rest: Cursor<'_>) -> Result<OffsetKey, RecordFault>
    ensures answer { Settles result (key_fields_of rest.entry) }
    ensures faults { IfErr result IsNotStatus }
{
    let group = read_text(&mut rest, Form::Plain)?;
    let topic = read_text(&mut rest, Form::Plain)?;
    let Some(partition) = rest.i32() else {
        return Err(RecordFault::Short);
    };
    if !rest.is_empty() {
        return Err(RecordFault::Trailing);
    }
    Ok(OffsetKey {
        group: group.share()?,
        topic: topic.share()?,
        partition,
    })
}

#[tactic(auto, unfolding(crate::specs::Reading::read_key))]
fn read_key(mut rest: Cursor<'_>) -> Result<Option<OffsetKey>, RecordFault>
    ensures answer { Settles result (read_key rest.entry) }
    ensures faults { IfErr result IsNotStatus }
{
    let Some(version) = rest.i16() else {
        return Err(RecordFault::Short);
    };
    if version != 0 && version != 1 {
        return Ok(None);
    }
    Ok(Some(read_fields(rest)?))
}

/// The group and the partition that a key names, or `None` for a key of another version than 0 and 1, which is of no
/// commit. The texts are shared with the key's bytes, not copied.
///
/// # Errors
/// The first fault in field order: Short where the bytes run out, Length where a text's length is below 0, Trailing where
/// bytes are left. OutOfMemory comes only after all of these.
pub fn decode_key(_alloc: Global, bytes: &Bytes) -> Result<Option<OffsetKey>, RecordFault>
    ensures answer { Settles result (read_key bytes.now) }
    ensures text { (key : OffsetKey) → result ≡ Ok (Some key) → IsKeyText bytes.now key }
    ensures each_text { (key : OffsetKey) → IsKeyText bytes.now key → Settles result (Ok (Some key)) }
    ensures other_text { result ≡ Ok None → IsOtherKeyText bytes.now }
    ensures each_other_text { IsOtherKeyText bytes.now → Settles result (Ok None) }
    ensures faults { IfErr result IsNotStatus }
{
    are_bytes(bytes.as_slice());
    read_key(Cursor::new(bytes))
}

/// Writes a key, field after field.
fn write_key(alloc: Global, key: &OffsetKey) -> Result<Bytes, AllocError>
    requires group { fits_length Plain (length key.now.group) ≡ true }
    requires topic { fits_length Plain (length key.now.topic) ≡ true }
    ensures bytes { IfOk result (λ bytes. bytes ≡ key_bytes key.now) }
    ensures text { IfOk result (λ bytes. IsKeyText bytes key.now) }
{
    let mut out = Vec::new(alloc);
    write_i16(&mut out, KEY_VERSION)?;
    write_text(&mut out, Form::Plain, &key.group)?;
    write_text(&mut out, Form::Plain, &key.topic)?;
    write_i32(&mut out, key.partition)?;
    Ok(Bytes::from_vec(out)?)
}

/// The bytes of a key, in version 1.
///
/// # Errors
/// Length where the group or the topic has more than 32767 bytes. OutOfMemory comes only after it.
pub fn encode_key(alloc: Global, key: &OffsetKey) -> Result<Bytes, RecordFault>
    ensures answer { Settles result (write_key key.now) }
    ensures text { IfOk result (λ bytes. IsKeyText bytes key.now) }
    ensures reads_back { IfOk result (λ bytes. read_key bytes ≡ Ok (Some key.now)) }
    ensures faults { IfErr result IsNotStatus }
{
    if !fits_length(Form::Plain, key.group.len()) || !fits_length(Form::Plain, key.topic.len()) {
        return Err(RecordFault::Length);
    }
    Ok(write_key(alloc, key)?)
}
