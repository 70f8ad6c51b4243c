//! What is kept of a record of Kafka's own logs.

ghost use Rattle.std.specs.Prelude.{◌≡◌, ◌++◌, option_map, IfOk};
ghost use Rattle.eos_claims.specs.Slots.{plain_claim};
ghost use Rattle.eos_reading.specs.Records.{record_of, ReadsBack};
ghost use Rattle.eos_reading.specs.steps.Bytes.{bytes_in};

use crate::boxed::BoxedClaim;
use crate::record::KeptRecord;
use eos_claims::ClaimRef;
use std::alloc::{AllocError, Global};
use std::marker::Model;

/// What is kept of a record of Kafka's own logs: a copy of its key and its value, in one block, and the claim in its headers, where
/// there is one. Contracts see it as a `Record` that has no more than that.
#[derive(Drop)]
pub(crate) struct KeptText {
    /// The key, and behind it the value.
    bytes: Vec<u8>,
    /// How many of the bytes are the key's.
    split: usize,
    has_key: bool,
    has_value: bool,
    claim: Option<BoxedClaim>,
}

impl Model for KeptText {
    ghost use Rattle.std.specs.Prelude.{◌≤◌, length, take, drop, Some, None, if◌then◌else◌};
    ghost use Rattle.eos_batch.specs.declared.record.Record.{Record};
    ghost use Rattle.eos_reading.specs.Records.{record_of, ReadsBack};

    ghost Value = { Record };

    ghost view = { λ t. record_of (if t.has_key then Some (take t.split t.bytes.items) else None) (if t.has_value then Some (drop t.split t.bytes.items) else None) t.claim };

    ghost invariant = { λ t. (t.split ≤ length t.bytes.items) × ReadsBack t.claim };
}

/// A text's bytes; none of a null one.
pub(crate) fn bytes_of<'a>(text: Option<&'a [u8]>) -> &'a [u8]
    ensures { result.now ≡ bytes_in (option_map (λ s. s.now) text.entry) }
{
    match text {
        None => &[],
        Some(text) => text,
    }
}

/// The bytes of both, one behind the other.
fn joined(alloc: Global, key: &[u8], value: &[u8]) -> Result<Vec<u8>, AllocError>
    ensures { IfOk result (λ both. both.items ≡ key.now ++ value.now) }
{
    let Some(size) = key.len().checked_add(value.len()) else {
        return Err(AllocError);
    };
    let mut bytes = Vec::with_capacity(alloc, size)?;
    bytes.extend_from_slice(key)?;
    bytes.extend_from_slice(value)?;
    Ok(bytes)
}

/// A copy of a claim, where there is one.
fn boxed(alloc: Global, claim: Option<ClaimRef<'_>>) -> Result<Option<BoxedClaim>, AllocError>
    ensures { IfOk result (λ boxed. boxed ≡ option_map plain_claim claim.entry) }
{
    let Some(claim) = claim else {
        return Ok(None);
    };
    Ok(Some(BoxedClaim::new(alloc, &claim)?))
}

/// The claim, lent, where there is one.
pub fn lent_claim(claim: &Option<BoxedClaim>) -> Option<ClaimRef<'_>>
    ensures { option_map plain_claim result ≡ claim.now }
{
    match claim {
        None => None,
        Some(claim) => Some(claim.view()),
    }
}

impl KeptText {
    /// A copy of a record's key and value, and of its claim.
    ///
    /// # Errors
    /// Only want of memory.
    pub(crate) fn new(
        alloc: Global,
        key: Option<&[u8]>,
        value: Option<&[u8]>,
        claim: Option<ClaimRef<'_>>,
    ) -> Result<KeptText, AllocError>
        requires { ReadsBack (option_map plain_claim claim) }
        ensures { IfOk result (λ text. text ≡ record_of (option_map (λ s. s.now) key.entry) (option_map (λ s. s.now) value.entry) (option_map plain_claim claim.entry)) }
    {
        let claim = boxed(alloc, claim)?;
        let front = bytes_of(key);
        Ok(KeptText {
            bytes: joined(alloc, front, bytes_of(value))?,
            split: front.len(),
            has_key: key.is_some(),
            has_value: value.is_some(),
            claim,
        })
    }

    /// What is kept, lent.
    pub(crate) fn view(&self) -> KeptRecord<'_>
        ensures { result ≡ self.now }
    {
        let (front, back) = self.bytes.as_slice().split_at(self.split);
        let key = if self.has_key { Some(front) } else { None };
        let value = if self.has_value { Some(back) } else { None };
        KeptRecord::of_text(key, value, lent_claim(&self.claim))
    }
}
