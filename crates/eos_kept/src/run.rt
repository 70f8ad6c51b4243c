//! A run of a partition's batches, worked out batch by batch or joined from its parts.

ghost use Rattle.std.specs.Prelude.{◌≡◌, ◌+◌, ◌≤◌, ◌<◌, ◌^◌, ◌∷◌, [], ◌++◌, ℤ, List, length, Some, None, IfOk, IfErr, OnOk, OnErr};
ghost use Rattle.std.specs.Ordering.{int_cmp};
ghost use Rattle.std.specs.BTreeMap.{get};
ghost use Rattle.eos_batch.specs.declared.batch.Batch.{Batch};
ghost use Rattle.eos_fold.specs.declared.ends.Ends.{Ends};
ghost use Rattle.eos_fold.specs.Tables.{ends_at};
ghost use Rattle.eos_fold.specs.Taken.{IsReadyFor};
ghost use Rattle.eos_fold.specs.Summaries.{SameEnds};
ghost use Rattle.eos_kept.specs.Runs.{IsRunOf, IsRun, IsHeadOf, SameRun};
ghost use Rattle.eos_kept.specs.steps.Taking.{HaveIndexes, BeginsWith, HasTaken};

use crate::heads::{Heads, data_head};
use eos_batch::BatchHead;
use eos_fold::{DataHead, Ends, Fault, earlier, make_room, make_room_for};
use eos_touch::touch_of;
use std::alloc::{AllocError, Global};
use std::collections::BTreeMap;

/// What is known of a run of batches.
#[derive(Drop)]
pub struct Run {
    /// Whether sequences are checked.
    pub(crate) sequenced: bool,
    /// Of each data batch its head, with its ending as far as the run says.
    pub(crate) heads: Heads,
    pub(crate) producers: BTreeMap<i64, Ends>,
    /// The least fault that the run settles by itself.
    pub(crate) fault: Option<Fault>,
}

/// Makes room for all of a second run. What is known stays.
fn reserve_for(
    alloc: Global,
    heads: &mut Heads,
    producers: &mut BTreeMap<i64, Ends>,
    after: &Run,
) -> Result<(), AllocError>
    ensures list { heads.new.list ≡ heads.old.list }
    ensures same { (id : ℤ) → SameEnds (ends_at producers.old id) (ends_at producers.new id) }
    ensures ready { OnOk result ((id : ℤ) (ends : Ends) → get int_cmp after.now.producers id ≡ Some ends → IsReadyFor producers.new id ends) }
    ensures small { OnOk result (length heads.old.list + length after.now.heads.list < 2 ^ 64) }
    ensures room { OnOk result (length heads.old.list + length after.now.heads.list ≤ heads.new.room) }
{
    let more = after.heads.len();
    let Some(_) = heads.len().checked_add(more) else {
        return Err(AllocError);
    };
    heads.reserve(more)?;
    make_room(alloc, producers, &after.producers)
}

impl Run {
    /// Of no batch.
    pub fn new(alloc: Global, sequenced: bool) -> Run
        ensures sequenced { result.sequenced ≡ sequenced }
        ensures known { IsRunOf [] result }
    {
        Run {
            sequenced,
            heads: Heads::new(alloc),
            producers: BTreeMap::new(alloc),
            fault: None,
        }
    }

    /// Takes over what a batch says of its producer id.
    fn take_touch(&mut self, alloc: Global, head: &BatchHead) -> Result<(), AllocError>
        requires { HaveIndexes self.old.producers self.old.heads.list }
        ensures taken { (xs : List Batch) (b : Batch) → IsHeadOf b head.now → BeginsWith xs self.old.sequenced self.old.producers self.old.heads.list self.old.fault
            → OnOk result (HasTaken xs (b ∷ []) self.old.sequenced self.new.producers self.new.heads.list self.new.fault (λ _. None)) }
        ensures capacity { self.new.heads.room ≡ self.old.heads.room }
        ensures all { length self.new.heads.list ≡ length self.old.heads.list }
        ensures sequenced { self.new.sequenced ≡ self.old.sequenced }
        ensures err { OnErr result (SameRun self.old self.new) }
    {
        let Some((producer, touch)) = touch_of(head) else {
            return Ok(());
        };
        let ends = Ends::of(alloc, head.offset, !head.is_control, producer, touch)?;
        make_room_for(alloc, &mut self.producers, producer, ends.waiting().len())?;
        let by = self.heads.len();
        self.take_over(producer, ends, by);
        Ok(())
    }

    /// Takes the next batch. Where memory is refused the run stays as it was.
    pub fn take(&mut self, alloc: Global, head: &BatchHead) -> Result<(), AllocError>
        requires known { IsRun self.old }
        requires head { (b : Batch) × IsHeadOf b head.now }
        ensures ok { (batches : List Batch) (b : Batch) → IsHeadOf b head.now → IsRunOf batches self.old → OnOk result (IsRunOf (batches ++ b ∷ []) self.new) }
        ensures sequenced { self.new.sequenced ≡ self.old.sequenced }
        ensures err { OnErr result (SameRun self.old self.new) }
    {
        self.heads.reserve(1)?;
        self.take_touch(alloc, head)?;
        if !head.is_control {
            self.heads.push(data_head(head));
        }
        Ok(())
    }

    /// The run of two, of which the second follows the first. Where memory is refused both are handed back.
    pub fn join(alloc: Global, mut before: Run, after: Run) -> Result<Run, (Run, Run)>
        requires before { IsRun before }
        requires after { IsRun after }
        requires same { after.sequenced ≡ before.sequenced }
        ensures ok { (xs ys : List Batch) → IsRunOf xs before → IsRunOf ys after → IfOk result (IsRunOf (xs ++ ys)) }
        ensures sequenced { IfOk result (λ run. run.sequenced ≡ before.sequenced) }
        ensures err { IfErr result (λ back. SameRun before back.0 × (back.1 ≡ after)) }
    {
        if reserve_for(alloc, &mut before.heads, &mut before.producers, &after).is_err() {
            return Err((before, after));
        }
        let by = before.heads.len();
        before.fault = earlier(before.fault, after.fault);
        before.take_all(after.producers, by);
        before.heads.append(after.heads);
        Ok(before)
    }

    /// The heads of the data batches, each with its ending as far as the run says.
    pub fn heads(&self) -> &[DataHead]
        ensures { result.now ≡ self.now.heads.list }
    {
        self.heads.as_slice()
    }

    /// The heads of the data batches, by themselves.
    pub fn into_heads(self) -> Vec<DataHead>
        ensures { result.items ≡ self.heads.list }
    {
        self.heads.into_vec()
    }
}
