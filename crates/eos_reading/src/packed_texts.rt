//! Keys and values of records, in one block.

ghost use Rattle.std.specs.Prelude.{◌≡◌, ◌+◌, ◌≤◌, ◌<◌, ◌^◌, ◌++◌, ◌∷◌, [], All, IsTrue, IfOk, IfSome, OnOk, OnErr, Some, None, if◌then◌else◌, is_ok, length, take, map, option_map, slice_get, slice_range};
ghost use Rattle.std.specs.Vec.{vec_len, vec_capacity};
ghost use Rattle.eos_reading.specs.Records.{record_of};
ghost use Rattle.eos_reading.specs.steps.TextEnds.{behind, end_of, moved, text_of};

use crate::record::KeptRecord;
use crate::text::bytes_of;
use crate::text_end::{LIMIT, TextEnd};
use std::alloc::{AllocError, Global};
use std::marker::Model;

/// Copies of the keys and the values of records that have no claim, one behind the other, and 8 bytes a record beside. Contracts
/// see the records, how many bytes they take, and for how many of both there is room.
#[derive(Drop)]
pub(crate) struct PackedTexts {
    bytes: Vec<u8>,
    ends: Vec<TextEnd>,
}

impl Model for PackedTexts {
    ghost use Rattle.std.specs.Prelude.{length};
    ghost use Rattle.std.specs.Vec.{vec_capacity};
    ghost use Rattle.eos_reading.specs.steps.TextEnds.{PackedView, Reaches, texts_from};

    ghost Value = { PackedView };

    ghost view = { λ t. record { list = texts_from 0 t.ends.items t.bytes.items; size = length t.bytes.items; room = vec_capacity t.ends; bytes_room = vec_capacity t.bytes } };

    ghost invariant = { λ t. Reaches 0 t.ends.items (length t.bytes.items) };
}

/// Where the first so many end.
fn end_of(ends: &[TextEnd], count: usize) -> usize
    requires { count ≤ length ends.now }
    ensures { result ≡ end_of 0 ends.now count }
{
    if count == 0 {
        return 0;
    }
    ends[count - 1].end()
}

/// The record whose bytes begin here and end there, lent.
fn lent<'a>(text: &TextEnd, begin: usize, bytes: &'a [u8]) -> KeptRecord<'a>
    requires key { begin + text.now.key ≤ text.now.end }
    requires end { text.now.end ≤ length bytes.now }
    ensures { result ≡ text_of text.now (slice_range bytes.now begin text.now.end) }
{
    let (front, back) = bytes[begin..text.end()].split_at(text.key());
    let key = if text.has_key() { Some(front) } else { None };
    let value = if text.has_value() { Some(back) } else { None };
    KeptRecord::of_text(key, value, None)
}

/// Where a key and a value end behind so many bytes, where its numbers aren't too great.
fn end_behind(before: usize, key: Option<&[u8]>, value: Option<&[u8]>) -> Option<TextEnd>
    ensures { IfSome result (λ text. text ≡ behind before (option_map (λ s. s.now) key.entry) (option_map (λ s. s.now) value.entry)) }
{
    let front = bytes_of(key).len();
    let size = front.checked_add(bytes_of(value).len())?;
    TextEnd::new(
        before.checked_add(size)?,
        front,
        key.is_some(),
        value.is_some(),
    )
}

/// Puts the bytes of both at the end, or neither.
fn push_both(bytes: &mut Vec<u8>, key: &[u8], value: &[u8]) -> Result<(), AllocError>
    ensures ok { OnOk result (bytes.new.items ≡ bytes.old.items ++ (key.now ++ value.now)) }
    ensures err { OnErr result (bytes.new.items ≡ bytes.old.items) }
{
    let Some(size) = key.len().checked_add(value.len()) else {
        return Err(AllocError);
    };
    bytes.reserve(size)?;
    let (Ok(()), Ok(())) = (bytes.extend_from_slice(key), bytes.extend_from_slice(value)) else {
        unreachable!()
    };
    Ok(())
}

/// Puts these behind the others, each further back by so many bytes, where there is room.
fn append_moved(ends: &mut Vec<TextEnd>, more: &[TextEnd], by: usize)
    requires room { vec_len ends.old + length more.now ≤ vec_capacity ends.old }
    requires bound { All (λ text. by + text.end < 2 ^ 40) more.now }
    ensures { ends.new.items ≡ ends.old.items ++ map (moved by) more.now }
{
    for text in more {
        ends.push_reserved(text.moved(by));
    }
}

impl PackedTexts {
    pub(crate) fn new(alloc: Global) -> PackedTexts
        ensures { result.list ≡ [] }
    {
        PackedTexts {
            bytes: Vec::new(alloc),
            ends: Vec::new(alloc),
        }
    }

    pub(crate) fn alloc(&self) -> Global {
        *self.bytes.allocator()
    }

    pub(crate) fn len(&self) -> usize
        ensures { result ≡ length self.now.list }
    {
        self.ends.len()
    }

    /// What is kept of the record at this place, lent.
    pub(crate) fn view(&self, i: usize) -> KeptRecord<'_>
        requires { i < length self.now.list }
        ensures lent { slice_get self.now.list i ≡ Some result }
        ensures plain { result ≡ record_of result.key result.value None }
    {
        let text = &self.ends[i];
        let begin = end_of(self.ends.as_slice(), i);
        lent(text, begin, self.bytes.as_slice())
    }

    /// Puts copies of a record's key and value at the end, where there are numbers for it, and returns whether there are.
    ///
    /// # Errors
    /// Only want of memory; then nothing more is kept.
    pub(crate) fn push(
        &mut self,
        key: Option<&[u8]>,
        value: Option<&[u8]>,
    ) -> Result<bool, AllocError>
        ensures ok { IfOk result (λ fits. self.new.list ≡ (if fits then self.old.list ++ record_of (option_map (λ s. s.now) key.entry) (option_map (λ s. s.now) value.entry) None ∷ [] else self.old.list)) }
        ensures err { OnErr result (self.new.list ≡ self.old.list) }
    {
        let Some(text) = end_behind(self.bytes.len(), key, value) else {
            return Ok(false);
        };
        self.ends.reserve(1)?;
        push_both(&mut self.bytes, bytes_of(key), bytes_of(value))?;
        self.ends.push_reserved(text);
        Ok(true)
    }

    /// Forgets all but the first of them, so many.
    pub(crate) fn truncate(&mut self, count: usize)
        ensures { self.new.list ≡ take count self.old.list }
    {
        if self.ends.len() <= count {
            return;
        }
        let end = end_of(self.ends.as_slice(), count);
        self.bytes.truncate(end);
        self.ends.truncate(count);
    }

    /// Makes room for others behind these, where there are numbers for them, and returns whether there are.
    ///
    /// # Errors
    /// Only want of memory.
    pub(crate) fn reserve(&mut self, more: &PackedTexts) -> Result<bool, AllocError>
        ensures list { self.new.list ≡ self.old.list }
        ensures count { IfOk result (λ fits. IsTrue fits → length self.new.list + length more.now.list ≤ self.new.room) }
        ensures bytes { IfOk result (λ fits. IsTrue fits → self.new.size + more.now.size ≤ self.new.bytes_room) }
        ensures bound { IfOk result (λ fits. IsTrue fits → self.new.size + more.now.size < 2 ^ 40) }
    {
        if self.bytes.len() >= LIMIT || more.bytes.len() >= LIMIT - self.bytes.len() {
            return Ok(false);
        }
        self.ends.reserve(more.ends.len())?;
        self.bytes.reserve(more.bytes.len())?;
        Ok(true)
    }

    /// Puts others behind these, where there is room.
    pub(crate) fn append(&mut self, more: &PackedTexts)
        requires count { length self.old.list + length more.now.list ≤ self.old.room }
        requires bytes { self.old.size + more.now.size ≤ self.old.bytes_room }
        requires bound { self.old.size + more.now.size < 2 ^ 40 }
        ensures { self.new.list ≡ self.old.list ++ more.now.list }
    {
        let by = self.bytes.len();
        append_moved(&mut self.ends, more.ends.as_slice(), by);
        let Ok(()) = self.bytes.extend_from_slice(more.bytes.as_slice()) else {
            unreachable!()
        };
    }
}
