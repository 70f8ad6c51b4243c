//! A claim in a record's headers.
//!
//! An output record says in five headers, each exactly once, which input it is an output of:
//!
//! | key | value |
//! |---|---|
//! | `eo.topic` | the input's topic, its bytes |
//! | `eo.partition` | INT32, not below 0 |
//! | `eo.offset` | INT64, not below 0 |
//! | `eo.output` | INT32, not below 0: the number of this output among the input's outputs, from 1 |
//! | `eo.of` | INT32, not below 0: the number of the input's outputs; 0 of 0 notes that it has none |
//!
//! Numbers are big-endian, as everywhere in Kafka's protocol. Other headers may stand beside them.

ghost use Rattle.std.specs.Prelude.{◌≡◌, ◌≢◌, ◌<◌, ◌^◌, Option, Some, None, List, ℕ, option_map, IfOk, IfSome, OnErr, codes, fold};
ghost use Rattle.eos_claims.specs.Headers.{claim_of, int32 as int32_of, int64 as int64_of};
ghost use Rattle.std.specs.Bool.{nat_eq};
ghost use Rattle.std.specs.Cmp.Lexicographic.{pointwise};
ghost use Rattle.eos_claims.specs.Slots.{plain_claim};
ghost use Rattle.eos_claims.specs.steps.Slots.{Kept, the as the_value, int32_in as int32_within, int64_in as int64_within, kept as kept_in, keep as keep_in, blank as nothing, claim_in, plain_value, plain_slot, plain_slots};

use bytes::Bytes;
use eos_batch::{Header, HeaderRefs};
use eos_wire::Fields;
use std::alloc::{AllocError, Global};

/// What a record claims to be: output `output` of the `of` outputs of the record at `offset` of a partition.
#[derive(Clone, PartialEq, Eq, Drop)]
pub struct Claim {
    pub topic: Bytes,
    pub partition: i32,
    pub offset: u64,
    pub output: u32,
    pub of: u32,
}

/// A claim whose topic is lent.
#[derive(Clone, Copy)]
pub struct ClaimRef<'a> {
    pub topic: &'a [u8],
    pub partition: i32,
    pub offset: u64,
    pub output: u32,
    pub of: u32,
}

/// What was seen of the five headers: nothing, null or more than one, or a value.
#[derive(Clone, Copy)]
struct Slots<'a> {
    topic: Option<Option<&'a [u8]>>,
    partition: Option<Option<&'a [u8]>>,
    offset: Option<Option<&'a [u8]>>,
    output: Option<Option<&'a [u8]>>,
    of: Option<Option<&'a [u8]>>,
}

fn blank<'a>() -> Slots<'a>
    ensures { plain_slots result ≡ nothing }
{
    Slots {
        topic: None,
        partition: None,
        offset: None,
        output: None,
        of: None,
    }
}

/// Whether a key is this name. The name's length is known to the compiler, so the comparison is a few instructions.
#[inline(always)]
fn is_name<const N: usize>(key: &[u8], name: &[u8; N]) -> bool
    ensures { result ≡ pointwise nat_eq key.now name.now }
{
    match key.split_first_chunk::<N>() {
        Some((front, rest)) => rest.is_empty() && front == name,
        None => false,
    }
}

/// A slot after one more header: where its key is the slot's name, its value is put there.
#[inline(always)]
fn keep_one<'a, const N: usize>(
    name: &[u8; N],
    key: &[u8],
    value: Option<&'a [u8]>,
    slot: &mut Option<Option<&'a [u8]>>,
)
    ensures { plain_slot slot.new ≡ kept_in name.now key.now (plain_value value.entry) (plain_slot slot.old) }
{
    if is_name(key, name) {
        *slot = match *slot {
            None => Some(value),
            Some(_) => Some(None),
        };
    }
}

fn keep<'a>(slots: &mut Slots<'a>, key: &[u8], value: Option<&'a [u8]>)
    ensures { plain_slots slots.new ≡ keep_in (plain_slots slots.old) (record { key = key.now; value = plain_value value.entry }) }
{
    keep_one(b"eo.topic", key, value, &mut slots.topic);
    keep_one(b"eo.partition", key, value, &mut slots.partition);
    keep_one(b"eo.offset", key, value, &mut slots.offset);
    keep_one(b"eo.output", key, value, &mut slots.output);
    keep_one(b"eo.of", key, value, &mut slots.of);
}

/// An INT32 that takes the whole value and isn't below 0.
fn int32(value: &[u8]) -> Option<u32>
    ensures number { result ≡ int32_of value.now }
    ensures below { IfSome result (λ n. n < 2 ^ 31) }
{
    let mut fields = Fields::new(value);
    match fields.i32() {
        Some(number) if fields.left() == 0 && number >= 0 => Some(number as u32),
        _ => None,
    }
}

/// An INT64 that takes the whole value and isn't below 0.
fn int64(value: &[u8]) -> Option<u64>
    ensures number { result ≡ int64_of value.now }
{
    let mut fields = Fields::new(value);
    match fields.i64() {
        Some(number) if fields.left() == 0 && number >= 0 => Some(number as u64),
        _ => None,
    }
}

/// The value in a slot, where it was seen once and isn't null.
fn the<'a>(slot: Option<Option<&'a [u8]>>) -> Option<&'a [u8]>
    ensures { plain_value result ≡ the_value (plain_slot slot.entry) }
{
    slot?
}

fn int32_in(slot: Option<Option<&[u8]>>) -> Option<u32>
    ensures number { result ≡ int32_within (plain_slot slot.entry) }
    ensures below { IfSome result (λ n. n < 2 ^ 31) }
{
    match the(slot) {
        Some(value) => int32(value),
        None => None,
    }
}

fn int64_in(slot: Option<Option<&[u8]>>) -> Option<u64>
    ensures number { result ≡ int64_within (plain_slot slot.entry) }
{
    match the(slot) {
        Some(value) => int64(value),
        None => None,
    }
}

#[tactic(auto, unfolding(crate::specs::steps::Slots::claim_in))]
fn claim_from<'a>(slots: &Slots<'a>) -> Option<ClaimRef<'a>>
    ensures { option_map plain_claim result ≡ claim_in (plain_slots slots.entry.now) }
{
    match (
        the(slots.topic),
        int32_in(slots.partition),
        int64_in(slots.offset),
        int32_in(slots.output),
        int32_in(slots.of),
    ) {
        (Some(topic), Some(partition), Some(offset), Some(output), Some(of)) => Some(ClaimRef {
            topic,
            partition: partition as i32,
            offset,
            output,
            of,
        }),
        _ => None,
    }
}

/// The value of a header, lent.
fn lent(value: &Option<Bytes>) -> Option<&[u8]>
    ensures { plain_value result ≡ value.now }
{
    match value {
        None => None,
        Some(value) => Some(value.as_slice()),
    }
}

/// The claim in a record's headers, which are read where they stand: none where one of the five headers is absent,
/// repeated, null, of another length, or below 0. It takes no memory.
#[tactic(auto, using(crate::proofs::OnePass::one_pass))]
pub fn view_claim<'a>(headers: HeaderRefs<'a>) -> Option<ClaimRef<'a>>
    ensures { option_map plain_claim result ≡ claim_of headers.entry }
{
    let mut headers = headers;
    let mut slots = blank();
    while let Some(header) = headers.next() {
        keep(&mut slots, header.key(), header.value());
    }
    claim_from(&slots)
}

/// The slots of these headers.
fn slots_of(headers: &[Header]) -> Slots<'_>
    ensures { plain_slots result ≡ fold keep_in nothing headers.now }
{
    let mut slots = blank();
    for header in headers {
        keep(&mut slots, header.key.as_slice(), lent(&header.value));
    }
    slots
}

/// The claim in these headers: none where one of the five headers is absent, repeated, null, of another length, or
/// below 0. The topic is copied.
///
/// # Errors
/// Only want of memory, and only where there is a claim.
#[tactic(auto, using(crate::proofs::OnePass::one_pass))]
pub fn read_claim(alloc: Global, headers: &[Header]) -> Result<Option<Claim>, AllocError>
    ensures read { IfOk result (λ claim. claim ≡ claim_of headers.now) }
    ensures refused { OnErr result (claim_of headers.now ≢ None) }
{
    match claim_from(&slots_of(headers)) {
        None => Ok(None),
        Some(claim) => Ok(Some(Claim {
            topic: Bytes::copy_from_slice(alloc, claim.topic)?,
            partition: claim.partition,
            offset: claim.offset,
            output: claim.output,
            of: claim.of,
        })),
    }
}
