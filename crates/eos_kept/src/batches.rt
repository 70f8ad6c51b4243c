//! The data records of a partition's log, batch by batch.

ghost use Rattle.std.specs.Prelude.{◌≡◌, ◌<◌, ◌≤◌, ◌++◌, [], List, All, length, take, drop, slice_get, Some, IfNone, IfSome};
ghost use Rattle.eos_batch.specs.declared.record.Record.{Record};
ghost use Rattle.eos_fold.specs.Heads.{DataHead};
ghost use Rattle.eos_fold.specs.declared.item.Item.{Item};
ghost use Rattle.eos_kept.specs.Items.{items_under, Fits};
ghost use Rattle.eos_kept.specs.Looks.{IsLook};
ghost use Rattle.eos_kept.specs.Records.{records_in, ReadBack};

use crate::records::Records;
use eos_claims::ClaimRef;
use eos_fold::{DataHead, Fate};
use std::marker::Model;

/// A data record as who asks for neither key nor value sees it.
#[derive(Clone, Copy)]
pub struct Look<'a> {
    pub offset: u64,
    pub fate: Fate,
    /// The producer id and epoch of transactional data.
    pub writer: Option<(i64, i16)>,
    /// The claim in its headers, where it is kept.
    pub claim: Option<ClaimRef<'a>>,
}

/// The data records of a batch with what is kept of them, lent, which contracts see as a list.
#[derive(Drop)]
pub struct KeptBatch<'a> {
    head: &'a DataHead,
    records: &'a Records,
    /// How many records stand before them.
    passed: usize,
    len: usize,
}

impl<'a> Model for KeptBatch<'a> {
    ghost use Rattle.std.specs.Prelude.{◌+◌, ◌≤◌, ◌<◌, ◌^◌, List, length, take, drop};
    ghost use Rattle.eos_fold.specs.declared.item.Item.{Item};
    ghost use Rattle.eos_kept.specs.Items.{items_at, Fits};
    ghost use Rattle.eos_kept.specs.Records.{records_in, ReadBack};

    ghost Value = { List Item };

    ghost view = { λ b. items_at b.head.now 0 (take b.len (drop b.passed (records_in b.records.now))) };

    ghost invariant = { λ b. Fits b.head.now × ReadBack b.records.now × (b.len ≤ b.head.now.count)
        × (b.passed + b.len ≤ length (records_in b.records.now)) × (b.passed + b.len < 2 ^ 64) };
}

/// The batches that are left, in order, which contracts see as the list of their records.
#[derive(Drop)]
pub struct KeptBatches<'a> {
    heads: &'a [DataHead],
    records: &'a Records,
    /// How many records are passed.
    passed: usize,
}

impl<'a> Model for KeptBatches<'a> {
    ghost use Rattle.std.specs.Prelude.{◌≤◌, List, All, length, drop};
    ghost use Rattle.eos_fold.specs.declared.item.Item.{Item};
    ghost use Rattle.eos_kept.specs.Items.{items_under, Fits};
    ghost use Rattle.eos_kept.specs.Records.{records_in, ReadBack};

    ghost Value = { List Item };

    ghost view = { λ b. items_under b.heads.now 0 (drop b.passed (records_in b.records.now)) };

    ghost invariant = { λ b. All Fits b.heads.now × ReadBack b.records.now × (b.passed ≤ length (records_in b.records.now)) };
}

/// How many batches have no record before the first that has some.
#[tactic(auto, using(crate::proofs::ItemsUnder::skipped))]
fn empty_before(heads: &[DataHead]) -> usize
    ensures within { result ≤ length heads.now }
    ensures same { (rs : List Record) → items_under heads.now 0 rs ≡ items_under (drop result heads.now) 0 rs }
    ensures inside { (h : DataHead) → slice_get heads.now result ≡ Some h → 0 < h.count }
{
    for i in 0..heads.len() {
        if heads[i].count() > 0 {
            return i;
        }
    }
    heads.len()
}

impl<'a> KeptBatch<'a> {
    /// The number of its records.
    pub fn len(&self) -> usize
        ensures { result ≡ length self.now }
    {
        self.len
    }

    /// The record at this place.
    pub fn look(&self, i: usize) -> Look<'a>
        requires { i < length self.now }
        ensures { (item : Item) × (slice_get self.now i ≡ Some item) × IsLook item result }
    {
        let head = self.head;
        let kept = self.records.view(self.passed + i);
        Look {
            offset: head.offset() + i as u64,
            fate: head.fate(),
            writer: head.writer(),
            claim: kept.claim(),
        }
    }
}

impl<'a> KeptBatches<'a> {
    /// From the first batch on.
    pub(crate) fn new(heads: &'a [DataHead], records: &'a Records) -> KeptBatches<'a>
        requires fits { All Fits heads.now }
        requires claims { ReadBack records.now }
        ensures { result ≡ items_under heads.now 0 (records_in records.now) }
    {
        KeptBatches {
            heads,
            records,
            passed: 0,
        }
    }

    /// The records of the next batch that has some, lent, and None after the last one.
    pub fn next(&mut self) -> Option<KeptBatch<'a>>
        ensures none { IfNone result ((self.old ≡ []) × (self.new ≡ [])) }
        ensures some { IfSome result (λ batch. (self.old ≡ batch ++ self.new) × (0 < length batch)) }
    {
        let records = self.records;
        let passed = self.passed;
        let left = records.len().saturating_sub(passed);
        if left == 0 {
            return None;
        }
        let first = empty_before(self.heads);
        let (_, heads) = self.heads.split_at(first);
        let (head, rest) = heads.split_first()?;
        let len = head.count().min(left);
        self.heads = rest;
        self.passed = passed + len;
        Some(KeptBatch {
            head,
            records,
            passed,
            len,
        })
    }
}
