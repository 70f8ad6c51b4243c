//! A walk along the front of a partition's log: what each batch shows after those before it.

ghost use Rattle.std.specs.Prelude.{◌≡◌, ◌++◌, ◌∷◌, [], ℕ, ℤ, Bool, List, Some, cond, map, OnOk, if◌then◌else◌};
ghost use Rattle.std.specs.List.{filter};
ghost use Rattle.std.specs.Ordering.{int_cmp, is_eq};
ghost use Rattle.std.specs.BTreeMap.{get};
ghost use Rattle.eos_base.specs.Members.{Has};
ghost use Rattle.eos_batch.specs.declared.batch.Batch.{Batch};
ghost use Rattle.eos_batch.specs.Heads.{head_of};
ghost use Rattle.eos_batch.specs.Offsets.{offset_of};
ghost use Rattle.eos_touch.specs.Front.{records_in};
ghost use Rattle.eos_touch.specs.Pair.{stands};
ghost use Rattle.eos_faults.specs.PartitionPlaces.{pair_kinds, placed_at};
ghost use Rattle.eos_faults.specs.steps.Walks.{AreIdsOf, HasPassed};

use crate::shown_by_log::{Shown, push_shown};
use eos_batch::BatchHead;
use eos_touch::{PairFault, PartitionFaultKind, Touch, stands, touch_of};
use std::alloc::{AllocError, Global};
use std::collections::BTreeMap;

/// What is kept of the batches that were passed.
#[derive(Drop)]
pub(crate) struct Walk {
    /// Whether sequences are checked.
    pub(crate) is_sequenced: bool,
    /// The offset after the last record.
    pub(crate) next: u64,
    /// The last touch of each producer id.
    pub(crate) last: BTreeMap<i64, Touch>,
    /// The producer ids of the table.
    pub(crate) ids: Vec<i64>,
    /// What was shown.
    pub(crate) shown: Vec<Shown>,
}

/// Puts a fault at the end of the list where it stands.
fn push_if(
    shown: &mut Vec<Shown>,
    is_there: bool,
    offset: u64,
    kind: PartitionFaultKind,
) -> Result<(), AllocError>
    ensures { OnOk result (shown.new.items ≡ shown.old.items ++ (if is_there then (offset, kind) ∷ [] else [])) }
{
    if is_there {
        return push_shown(shown, offset, kind);
    }
    Ok(())
}

/// What a touch shows after the one of its producer id before it.
fn push_pairs(
    shown: &mut Vec<Shown>,
    is_sequenced: bool,
    offset: u64,
    before: Option<Touch>,
    says: (i64, Touch),
) -> Result<(), AllocError>
    ensures { OnOk result (shown.new.items ≡ shown.old.items ++ map (placed_at offset says.0) (filter (stands is_sequenced before says.1) pair_kinds)) }
{
    let (producer, next) = says;
    for fault in [
        PairFault::FirstSequence,
        PairFault::Sequence,
        PairFault::ZombieEpoch,
        PairFault::EpochWhileOpen,
        PairFault::NoBump,
        PairFault::MixedProducer,
        PairFault::MarkerKind,
    ] {
        let is_there = stands(is_sequenced, before, next, fault);
        push_if(
            shown,
            is_there,
            offset,
            PartitionFaultKind::Pair { fault, producer },
        )?;
    }
    Ok(())
}

/// Puts a producer id into the list where it is new.
fn put_id(last: &BTreeMap<i64, Touch>, ids: &mut Vec<i64>, producer: i64) -> Result<(), AllocError>
    ensures there { AreIdsOf last.now ids.old.items → OnOk result (Has ids.new.items producer) }
    ensures kept { AreIdsOf last.now ids.old.items → OnOk result (AreIdsOf last.now ids.new.items) }
{
    if last.contains_key(&producer) {
        return Ok(());
    }
    ids.push(producer)?;
    Ok(())
}

/// Puts the touch of a producer id into the table.
fn put_touch(last: &mut BTreeMap<i64, Touch>, producer: i64, touch: Touch) -> Result<(), AllocError>
    ensures { OnOk result ((id : ℤ) → get int_cmp last.new id ≡ cond (is_eq (int_cmp producer id)) (Some touch) (get int_cmp last.old id)) }
{
    last.insert(producer, touch)?;
    Ok(())
}

impl Walk {
    /// A walk that has passed no batch.
    pub(crate) fn new(alloc: Global, is_sequenced: bool) -> Walk
        ensures { HasPassed is_sequenced [] result }
    {
        Walk {
            is_sequenced,
            next: 0,
            last: BTreeMap::new(alloc),
            ids: Vec::new(alloc),
            shown: Vec::new(alloc),
        }
    }

    /// Passes a batch that goes on where those before it end. An offset past 64 bits, which no log has, counts as want of memory.
    pub(crate) fn pass(&mut self, head: &BatchHead) -> Result<(), AllocError>
        ensures { (sequenced : Bool) (front : List Batch) (b : Batch) (size : ℕ) → head.now ≡ head_of b size → offset_of b ≡ records_in front → HasPassed sequenced front self.old → OnOk result (HasPassed sequenced (front ++ b ∷ []) self.new) }
    {
        let Some(next) = head.offset.checked_add(u64::from(head.count)) else {
            return Err(AllocError);
        };
        self.next = next;
        let Some((producer, touch)) = touch_of(head) else {
            return Ok(());
        };
        let before = self.last.get(&producer).copied();
        push_pairs(
            &mut self.shown,
            self.is_sequenced,
            head.offset,
            before,
            (producer, touch),
        )?;
        put_id(&self.last, &mut self.ids, producer)?;
        put_touch(&mut self.last, producer, touch)?;
        Ok(())
    }
}
