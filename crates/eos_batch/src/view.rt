//! A record of a batch, lent where it stands.

ghost use Rattle.std.specs.Prelude.{◌≡◌, ◌≤◌, [], ◌∷◌, length, slice_range, Ok, IfOk, IfErr, IfNone, IfSome};
ghost use Rattle.std.specs.Option.{option_map};
ghost use Rattle.eos_batch.specs.declared.record.Header.{Header};
ghost use Rattle.eos_batch.specs.declared.record.Record.{Record};
ghost use Rattle.eos_batch.specs.Real.{IsReal};
ghost use Rattle.eos_batch.specs.Answers.{Answers, Fails};
ghost use Rattle.eos_batch.specs.steps.Answers.{Gives};
ghost use Rattle.eos_batch.specs.Reading.{header_at, headers_at, record_at};
ghost use Rattle.eos_batch.specs.Places.{IsAt, whole_at, found_at};
ghost use Rattle.eos_batch.specs.steps.Places.{parts_at, placed_from};

use crate::fault::BatchFault;
use crate::field::{read_bytes, read_count, read_int, read_long, read_optional};
use crate::passing::pass_headers;
use bytes::Bytes;
use eos_wire::{Cursor, are_bytes};
use std::marker::Model;

/// A record's fields before its headers, and what is left for these.
#[derive(Drop)]
pub(crate) struct Parts<'a> {
    pub(crate) attributes: i8,
    pub(crate) timestamp_delta: i64,
    pub(crate) delta: i32,
    pub(crate) key: Option<Cursor<'a>>,
    pub(crate) value: Option<Cursor<'a>>,
    pub(crate) count: u32,
    pub(crate) rest: Cursor<'a>,
}

#[inline(always)]
#[tactic(auto, unfolding(crate::specs::steps::Places::parts_at))]
pub(crate) fn parts_of<'a>(mut rest: Cursor<'a>) -> Result<Parts<'a>, BatchFault>
    ensures gives { Answers result (parts_at rest.entry) }
    ensures real { IfErr result IsReal }
{
    let Some(attributes) = rest.i8() else {
        return Err(BatchFault::Record);
    };
    let timestamp_delta = read_long(&mut rest)?;
    let delta = read_int(&mut rest)?;
    let key = read_optional(&mut rest)?;
    let value = read_optional(&mut rest)?;
    let count = read_count(&mut rest)?;
    Ok(Parts {
        attributes,
        timestamp_delta,
        delta,
        key,
        value,
        count,
        rest,
    })
}

/// A header that is lent, which contracts see as the `Header`.
#[derive(Drop)]
pub struct HeaderRef<'a> {
    key: Cursor<'a>,
    value: Option<Cursor<'a>>,
}

impl<'a> Model for HeaderRef<'a> {
    ghost use Rattle.eos_batch.specs.declared.record.Header.{Header};

    ghost Value = { Header };

    ghost view = { λ h. record { key = h.key; value = h.value } };
}

/// The bytes of a text; None for null.
#[inline(always)]
fn rest_of<'a>(text: &Option<Cursor<'a>>) -> Option<&'a [u8]>
    ensures { option_map (λ s. s.now) result ≡ text.now }
{
    match text {
        Some(text) => Some(text.rest()),
        None => None,
    }
}

impl<'a> HeaderRef<'a> {
    /// The bytes of its key.
    pub fn key(&self) -> &'a [u8]
        ensures { result.now ≡ self.now.key }
    {
        self.key.rest()
    }

    /// The bytes of its value; None for null.
    pub fn value(&self) -> Option<&'a [u8]>
        ensures { option_map (λ s. s.now) result ≡ self.now.value }
    {
        rest_of(&self.value)
    }
}

#[inline(always)]
#[tactic(auto, unfolding(crate::specs::Reading::header_at))]
pub(crate) fn header_of<'a>(rest: &mut Cursor<'a>) -> Result<HeaderRef<'a>, BatchFault>
    ensures gives { Gives result rest.new (header_at rest.old) }
    ensures real { IfErr result IsReal }
{
    let key = read_bytes(rest)?;
    let value = read_optional(rest)?;
    Ok(HeaderRef { key, value })
}

/// The headers of a record that are left to read, which contracts see as the list of them.
#[derive(Drop)]
pub struct HeaderRefs<'a> {
    rest: Cursor<'a>,
    count: u32,
}

impl<'a> Model for HeaderRefs<'a> {
    ghost use Rattle.std.specs.Prelude.{◌≡◌, ℕ, List, Ok};
    ghost use Rattle.eos_batch.specs.declared.record.Header.{Header};
    ghost use Rattle.eos_batch.specs.Reading.{headers_at};
    ghost use Rattle.eos_batch.specs.Places.{read_headers};

    ghost Value = { List Header };

    ghost view = { λ h. read_headers (headers_at h.count h.rest) };

    ghost invariant = { λ h. ((x : List Header × List ℕ) × (headers_at h.count h.rest ≡ Ok x)) };
}

impl<'a> HeaderRefs<'a> {
    /// So many headers from the front, read over once.
    #[inline(always)]
    fn tested(rest: &mut Cursor<'a>, count: u32) -> Result<HeaderRefs<'a>, BatchFault>
        ensures gives { Gives result rest.new (headers_at count rest.old) }
        ensures real { IfErr result IsReal }
    {
        let first = rest.fork();
        pass_headers(rest, count)?;
        Ok(HeaderRefs { rest: first, count })
    }

    /// The same headers once more.
    #[inline(always)]
    pub fn fork(&self) -> HeaderRefs<'a>
        ensures { result ≡ self.now }
    {
        HeaderRefs {
            rest: self.rest.fork(),
            count: self.count,
        }
    }

    /// The next header, and None after the last one.
    pub fn next(&mut self) -> Option<HeaderRef<'a>>
        ensures none { IfNone result ((self.old ≡ []) × (self.new ≡ [])) }
        ensures some { IfSome result (λ h. self.old ≡ h ∷ self.new) }
    {
        if self.count == 0 {
            return None;
        }
        match header_of(&mut self.rest) {
            Ok(header) => {
                self.count -= 1;
                Some(header)
            }
            Err(_) => unreachable!(),
        }
    }
}

/// Another cursor over the same bytes, where there are some.
#[inline(always)]
fn forked<'a>(bytes: &Option<Cursor<'a>>) -> Option<Cursor<'a>>
    ensures { result ≡ bytes.now }
{
    match bytes {
        Some(bytes) => Some(bytes.fork()),
        None => None,
    }
}

/// A record that is lent, which contracts see as the `Record`.
#[derive(Drop)]
pub struct RecordRef<'a> {
    attributes: i8,
    timestamp_delta: i64,
    key: Option<Cursor<'a>>,
    value: Option<Cursor<'a>>,
    headers: HeaderRefs<'a>,
}

impl<'a> Model for RecordRef<'a> {
    ghost use Rattle.eos_batch.specs.declared.record.Record.{Record};

    ghost Value = { Record };

    ghost view = { λ r. record { attributes = r.attributes; timestamp_delta = r.timestamp_delta; key = r.key; value = r.value; headers = r.headers } };
}

impl<'a> RecordRef<'a> {
    /// The bytes of its key; None for null.
    pub fn key(&self) -> Option<&'a [u8]>
        ensures { option_map (λ s. s.now) result ≡ self.now.key }
    {
        rest_of(&self.key)
    }

    /// The bytes of its value; None for null.
    pub fn value(&self) -> Option<&'a [u8]>
        ensures { option_map (λ s. s.now) result ≡ self.now.value }
    {
        rest_of(&self.value)
    }

    /// The same record once more.
    #[inline(always)]
    pub fn fork(&self) -> RecordRef<'a>
        ensures { result ≡ self.now }
    {
        RecordRef {
            attributes: self.attributes,
            timestamp_delta: self.timestamp_delta,
            key: forked(&self.key),
            value: forked(&self.value),
            headers: self.headers.fork(),
        }
    }

    /// Its headers, in order.
    pub fn into_headers(self) -> HeaderRefs<'a>
        ensures { result ≡ self.entry.headers }
    {
        self.headers
    }
}

/// The record whose text is these bytes.
fn record_of<'a>(text: Cursor<'a>) -> RecordRef<'a>
    requires { (r : Record) × (whole_at text ≡ Ok r) }
    ensures { whole_at text.entry ≡ Ok result }
{
    match parts_of(text) {
        Ok(parts) => RecordRef {
            attributes: parts.attributes,
            timestamp_delta: parts.timestamp_delta,
            key: parts.key,
            value: parts.value,
            headers: HeaderRefs {
                rest: parts.rest,
                count: parts.count,
            },
        },
        Err(_) => unreachable!(),
    }
}

/// The record whose length stands at `at`, lent. It takes no memory, and reads the headers as they are asked for.
pub fn view_record<'a>(bytes: &'a Bytes, at: usize) -> RecordRef<'a>
    requires inside { at ≤ length bytes.now }
    requires found { (r : Record) × (found_at at bytes.now ≡ Ok r) }
    ensures { found_at at bytes.now ≡ Ok result }
{
    let mut rest = Cursor::starting_at(bytes, at);
    match read_bytes(&mut rest) {
        Ok(text) => record_of(text),
        Err(_) => unreachable!(),
    }
}

/// The record of these fields, at this place of its batch, whose headers take all bytes that are left.
#[inline(always)]
fn placed<'a>(parts: Parts<'a>, place: u32) -> Result<RecordRef<'a>, BatchFault>
    ensures gives { Answers result (placed_from place parts.entry) }
    ensures real { IfErr result IsReal }
{
    let Parts {
        attributes,
        timestamp_delta,
        delta,
        key,
        value,
        count,
        mut rest,
    } = parts;
    let headers = HeaderRefs::tested(&mut rest, count)?;
    if !rest.is_empty() {
        return Err(BatchFault::Record);
    }
    if i64::from(delta) != i64::from(place) {
        return Err(BatchFault::Delta);
    }
    Ok(RecordRef {
        attributes,
        timestamp_delta,
        key,
        value,
        headers,
    })
}

/// Reads the record at this place of its batch, whose length stands at `from`: lends it, and gives the byte after it. The
/// batch's bytes end at `end`.
///
/// # Errors
/// The first test of the record that fails. It takes no memory.
#[inline(always)]
#[tactic(auto, unfolding(crate::specs::Reading::record_at))]
pub fn lend_record<'a>(
    bytes: &'a Bytes,
    from: usize,
    end: usize,
    place: u32,
) -> Result<(RecordRef<'a>, usize), BatchFault>
    requires inside { from ≤ end }
    requires end { end ≤ length bytes.now }
    ensures found { IfOk result (λ lent. IsAt bytes.now place from end lent.1) }
    ensures lent { IfOk result (λ lent. found_at from bytes.now ≡ Ok lent.0) }
    ensures fault { IfErr result (λ e. Fails e (record_at place (slice_range bytes.now from end))) }
    ensures real { IfErr result IsReal }
{
    are_bytes(bytes.as_slice());
    let _size = bytes.len();
    let mut rest = Cursor::between(bytes, from, end);
    let text = read_bytes(&mut rest)?;
    let parts = parts_of(text)?;
    let record = placed(parts, place)?;
    Ok((record, end - rest.left()))
}
