//! A data record of a partition's log, with what is kept of it.

ghost use Rattle.std.specs.Prelude.{◌≡◌, ◌<◌, option_map, IfOk};
ghost use Rattle.eos_claims.specs.Headers.{claim_of};
ghost use Rattle.eos_claims.specs.Slots.{plain_claim};
ghost use Rattle.eos_kept.specs.Items.{item_at, Fits};
ghost use Rattle.eos_kept.specs.Looks.{IsLook};
ghost use Rattle.eos_kept.specs.Records.{SaysClaim};

use crate::Look;
use crate::headers::headers_of;
use bytes::Bytes;
use eos_claims::ClaimRef;
use eos_fold::{DataHead, Fate, Item};
use eos_reading::KeptRecord;
use std::alloc::{AllocError, Global};
use std::marker::Model;

/// A data record with what is kept of it, lent, which contracts see as an `Item` that has no more than that (Message Format,
/// "Record").
#[derive(Drop)]
pub struct ItemRef<'a> {
    offset: u64,
    fate: Fate,
    writer: Option<(i64, i16)>,
    kept: KeptRecord<'a>,
}

impl<'a> Model for ItemRef<'a> {
    ghost use Rattle.eos_fold.specs.declared.item.Item.{Item};
    ghost use Rattle.eos_kept.specs.Records.{SaysClaim};

    ghost Value = { Item };

    ghost view = { λ i. record { offset = i.offset; fate = i.fate; writer = i.writer; key = i.kept.key; value = i.kept.value; headers = i.kept.headers } };

    ghost invariant = { λ i. SaysClaim i.kept };
}

/// A copy of a text's bytes.
fn copy_of(alloc: Global, text: Option<&[u8]>) -> Result<Option<Bytes>, AllocError>
    ensures { IfOk result (λ copy. copy ≡ option_map (λ s. s.now) text.entry) }
{
    match text {
        None => Ok(None),
        Some(text) => Ok(Some(Bytes::copy_from_slice(alloc, text)?)),
    }
}

impl<'a> ItemRef<'a> {
    /// The record at this place of a batch with this head.
    pub(crate) fn new(head: &DataHead, place: usize, kept: KeptRecord<'a>) -> ItemRef<'a>
        requires fits { Fits head.now }
        requires inside { place < head.now.count }
        requires said { SaysClaim kept }
        ensures { result ≡ item_at head.now place kept.entry }
    {
        ItemRef {
            offset: head.offset() + place as u64,
            fate: head.fate(),
            writer: head.writer(),
            kept,
        }
    }

    /// Its offset in the partition's log.
    pub fn offset(&self) -> u64
        ensures { result ≡ self.now.offset }
    {
        self.offset
    }

    /// What became of it, as a reader of committed records sees it (KIP-98, `read_committed`).
    pub fn fate(&self) -> Fate
        ensures { result ≡ self.now.fate }
    {
        self.fate
    }

    /// The producer id and epoch of transactional data (Message Format, "Record Batch").
    pub fn writer(&self) -> Option<(i64, i16)>
        ensures { result ≡ self.now.writer }
    {
        self.writer
    }

    /// The bytes of its key, where they are kept.
    pub fn key(&self) -> Option<&'a [u8]>
        ensures { option_map (λ s. s.now) result ≡ self.now.key }
    {
        self.kept.key()
    }

    /// The bytes of its value, where they are kept.
    pub fn value(&self) -> Option<&'a [u8]>
        ensures { option_map (λ s. s.now) result ≡ self.now.value }
    {
        self.kept.value()
    }

    /// The claim in its headers, where it is kept.
    pub fn into_claim(self) -> Option<ClaimRef<'a>>
        ensures { option_map plain_claim result ≡ claim_of self.entry.headers }
    {
        self.kept.claim()
    }

    /// The same without its key and value.
    pub fn into_look(self) -> Look<'a>
        ensures { IsLook self.entry result }
    {
        Look {
            offset: self.offset,
            fate: self.fate,
            writer: self.writer,
            claim: self.kept.claim(),
        }
    }

    /// The same as a value of its own, whose headers are those that say its claim.
    ///
    /// # Errors
    /// Only want of memory.
    pub fn to_item(&self, alloc: Global) -> Result<Item, AllocError>
        ensures { IfOk result (λ item. item ≡ self.now) }
    {
        Ok(Item {
            offset: self.offset,
            fate: self.fate,
            writer: self.writer,
            key: copy_of(alloc, self.kept.key())?,
            value: copy_of(alloc, self.kept.value())?,
            headers: headers_of(alloc, self.kept.claim())?,
        })
    }
}
