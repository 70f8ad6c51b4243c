//! The headers that say a claim, as values of their own.

ghost use Rattle.std.specs.Prelude.{◌≡◌, pos, IfOk, option_map};
ghost use Rattle.eos_claims.specs.Slots.{plain_claim};
ghost use Rattle.eos_reading.specs.Wanted.{header, claim_headers, wanted_headers};
ghost use Rattle.eos_wire.specs.Numbers.{i32_text, i64_text};

use bytes::Bytes;
use eos_batch::{Header, Headers};
use eos_claims::ClaimRef;
use eos_wire::{write_i32, write_u32};
use std::alloc::{AllocError, Global};

/// A header with a static key and this value.
fn header(key: &'static [u8], value: Bytes) -> Header
    ensures { result ≡ header key.now value }
{
    Header {
        key: Bytes::from_static(key),
        value: Some(value),
    }
}

/// The text of a partition's number.
fn partition_bytes(alloc: Global, number: i32) -> Result<Bytes, AllocError>
    ensures { IfOk result (λ b. b ≡ i32_text number) }
{
    let mut out = Vec::new(alloc);
    write_i32(&mut out, number)?;
    Ok(Bytes::from_vec(out)?)
}

/// The text of an offset.
#[tactic(auto, unfolding(eos_wire::specs::Numbers::i64_text))]
fn offset_bytes(alloc: Global, offset: u64) -> Result<Bytes, AllocError>
    ensures { IfOk result (λ b. b ≡ i64_text (pos offset)) }
{
    let mut out = Vec::new(alloc);
    out.extend_from_slice(&offset.to_be_bytes())?;
    Ok(Bytes::from_vec(out)?)
}

/// The text of a number of outputs.
#[tactic(auto, unfolding(eos_wire::specs::Numbers::i32_text, eos_wire::specs::Numbers::u32_text))]
fn count_bytes(alloc: Global, count: u32) -> Result<Bytes, AllocError>
    ensures { IfOk result (λ b. b ≡ i32_text (pos count)) }
{
    let mut out = Vec::new(alloc);
    write_u32(&mut out, count)?;
    Ok(Bytes::from_vec(out)?)
}

/// The five headers of a claim.
fn claim_headers(alloc: Global, claim: &ClaimRef<'_>) -> Result<Vec<Header>, AllocError>
    ensures { IfOk result (λ h. h.items ≡ claim_headers (plain_claim claim.entry.now)) }
{
    let mut headers = Vec::with_capacity(alloc, 5)?;
    let topic = Bytes::copy_from_slice(alloc, claim.topic)?;
    headers.push_reserved(header(b"eo.topic".as_slice(), topic));
    let partition = partition_bytes(alloc, claim.partition)?;
    headers.push_reserved(header(b"eo.partition".as_slice(), partition));
    let offset = offset_bytes(alloc, claim.offset)?;
    headers.push_reserved(header(b"eo.offset".as_slice(), offset));
    let output = count_bytes(alloc, claim.output)?;
    headers.push_reserved(header(b"eo.output".as_slice(), output));
    let of = count_bytes(alloc, claim.of)?;
    headers.push_reserved(header(b"eo.of".as_slice(), of));
    Ok(headers)
}

/// The headers that say this claim, and none where there is none.
pub(crate) fn headers_of(alloc: Global, claim: Option<ClaimRef<'_>>) -> Result<Headers, AllocError>
    ensures { IfOk result (λ h. h ≡ wanted_headers (option_map plain_claim claim.entry)) }
{
    match claim {
        None => Ok(Headers::new(Vec::new(alloc))),
        Some(claim) => Ok(Headers::new(claim_headers(alloc, &claim)?)),
    }
}
