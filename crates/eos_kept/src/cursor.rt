//! The data records of a partition's log, one after the other.

ghost use Rattle.std.specs.Prelude.{◌≡◌, ◌<◌, [], ◌∷◌, List, All, drop, slice_get, Some, IfNone, IfSome};
ghost use Rattle.eos_batch.specs.declared.record.Record.{Record};
ghost use Rattle.eos_fold.specs.Heads.{DataHead};
ghost use Rattle.eos_kept.specs.Items.{items_under, Fits};
ghost use Rattle.eos_kept.specs.Records.{records_in, ReadBack, SayClaims};

use crate::item::ItemRef;
use crate::records::Records;
use eos_fold::DataHead;
use std::marker::Model;

/// The data records that are left, in order, which contracts see as a list.
#[derive(Drop)]
pub struct Cursor<'a> {
    heads: &'a [DataHead],
    records: &'a Records,
    /// The number of the next record's batch, or of one before it that has ended.
    head: usize,
    /// How many records of that batch are passed.
    place: usize,
    /// How many records are passed.
    passed: usize,
}

impl<'a> Model for Cursor<'a> {
    ghost use Rattle.std.specs.Prelude.{List, All, drop};
    ghost use Rattle.eos_fold.specs.declared.item.Item.{Item};
    ghost use Rattle.eos_kept.specs.Items.{items_under, Fits};
    ghost use Rattle.eos_kept.specs.Records.{records_in, ReadBack, SayClaims};

    ghost Value = { List Item };

    ghost view = { λ c. items_under (drop c.head c.heads.now) c.place (drop c.passed (records_in c.records.now)) };

    ghost invariant = { λ c. All Fits c.heads.now × ReadBack c.records.now × SayClaims (records_in c.records.now) };
}

/// The same place, named by the batch of its record, or the end.
fn skip_ended(heads: &[DataHead], head: usize, place: usize) -> (usize, usize)
    ensures same { (rs : List Record) → items_under (drop head heads.now) place rs ≡ items_under (drop result.0 heads.now) result.1 rs }
    ensures inside { (h : DataHead) → slice_get heads.now result.0 ≡ Some h → result.1 < h.count }
{
    let len = heads.len();
    let mut place = place;
    for i in head..len {
        if place < heads[i].count() {
            return (i, place);
        }
        place = 0;
    }
    (len, 0)
}

impl<'a> Cursor<'a> {
    /// From the first record on.
    pub(crate) fn new(heads: &'a [DataHead], records: &'a Records) -> Cursor<'a>
        requires fits { All Fits heads.now }
        requires claims { ReadBack records.now }
        requires said { SayClaims (records_in records.now) }
        ensures { result ≡ items_under heads.now 0 (records_in records.now) }
    {
        Cursor {
            heads,
            records,
            head: 0,
            place: 0,
            passed: 0,
        }
    }

    /// The next record, lent, and None after the last one.
    pub fn next(&mut self) -> Option<ItemRef<'a>>
        ensures none { IfNone result ((self.old ≡ []) × (self.new ≡ [])) }
        ensures some { IfSome result (λ item. self.old ≡ item ∷ self.new) }
    {
        let heads = self.heads;
        let records = self.records;
        let (head, place) = skip_ended(heads, self.head, self.place);
        self.head = head;
        self.place = place;
        let passed = self.passed;
        if head >= heads.len() || passed >= records.len() {
            return None;
        }
        self.place += 1;
        self.passed += 1;
        Some(ItemRef::new(&heads[head], place, records.view(passed)))
    }
}
