//! The data records of a partition's log with what is kept of them, as a list.

ghost use Rattle.std.specs.Prelude.{◌≡◌, ◌<◌, ◌+◌, All, length, take, slice_get, Some, IfOk, ◌==◌};
ghost use Rattle.eos_fold.specs.Heads.{DataHead};
ghost use Rattle.eos_kept.specs.Items.{items_under, Fits};
ghost use Rattle.eos_kept.specs.Records.{records_in, ReadBack, SayClaims};
ghost use Rattle.eos_kept.specs.steps.Counts.{count_in};

use crate::batches::KeptBatches;
use crate::cursor::Cursor;
use crate::item::ItemRef;
use crate::records::Records;
use eos_fold::{DataHead, Item};
use std::alloc::{AllocError, Global};
use std::marker::Model;

/// Data records in the order of their offsets, with what is kept of them, which contracts see as a list.
#[derive(Drop)]
pub struct Items {
    heads: Vec<DataHead>,
    records: Records,
}

impl Model for Items {
    ghost use Rattle.std.specs.Prelude.{◌≡◌, List, All, length};
    ghost use Rattle.eos_fold.specs.declared.item.Item.{Item};
    ghost use Rattle.eos_kept.specs.Items.{items_under, Fits};
    ghost use Rattle.eos_kept.specs.Records.{records_in, ReadBack, SayClaims};

    ghost Value = { List Item };

    ghost view = { λ i. items_under i.heads.items 0 (records_in i.records) };

    ghost invariant = { λ i. All Fits i.heads.items × ReadBack i.records × SayClaims (records_in i.records)
        × (length (items_under i.heads.items 0 (records_in i.records)) ≡ length (records_in i.records)) };
}

/// The batch of the data record at this place, by its number, and the record's place there.
fn find_head(heads: &[DataHead], place: usize) -> (usize, usize)
    requires { place < count_in heads.now }
    ensures { (h : DataHead) × (slice_get heads.now result.0 ≡ Some h) × (result.1 < h.count)
        × (place ≡ count_in (take result.0 heads.now) + result.1) }
{
    let mut left = place;
    for i in 0..heads.len() {
        let count = heads[i].count();
        if left < count {
            return (i, left);
        }
        left -= count;
    }
    unreachable!()
}

impl Items {
    /// These records under these heads.
    pub(crate) fn new(heads: Vec<DataHead>, records: Records) -> Items
        requires fits { All Fits heads.items }
        requires claims { ReadBack records }
        requires said { SayClaims (records_in records) }
        requires whole { length (items_under heads.items 0 (records_in records)) ≡ length (records_in records) }
        ensures { result ≡ items_under heads.items 0 (records_in records) }
    {
        Items { heads, records }
    }

    /// The number of records.
    pub fn len(&self) -> usize
        ensures { result ≡ length self.now }
    {
        self.records.len()
    }

    /// Whether there is no record.
    pub fn is_empty(&self) -> bool
        ensures { result ≡ (length self.now == 0) }
    {
        self.len() == 0
    }

    /// Over the records in order, each lent, without searching.
    pub fn cursor(&self) -> Cursor<'_>
        ensures { result ≡ self.now }
    {
        Cursor::new(self.heads.as_slice(), &self.records)
    }

    /// Over the records batch by batch.
    pub fn batches(&self) -> KeptBatches<'_>
        ensures { result ≡ self.now }
    {
        KeptBatches::new(self.heads.as_slice(), &self.records)
    }

    /// The record at this place, lent. It takes no memory, and looks through the heads of the batches before it.
    pub fn view(&self, i: usize) -> ItemRef<'_>
        requires { i < length self.now }
        ensures { slice_get self.now i ≡ Some result }
    {
        let (head, place) = find_head(self.heads.as_slice(), i);
        ItemRef::new(&self.heads[head], place, self.records.view(i))
    }

    /// The record at this place, as a value of its own.
    ///
    /// # Errors
    /// Only want of memory.
    pub fn get(&self, alloc: Global, i: usize) -> Result<Item, AllocError>
        requires { i < length self.now }
        ensures { IfOk result (λ item. slice_get self.now i ≡ Some item) }
    {
        self.view(i).to_item(alloc)
    }
}
