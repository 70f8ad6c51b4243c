//! What comes after is taken over, producer id by producer id. Here nothing can fail.

ghost use Rattle.std.specs.Prelude.{◌≡◌, ◌+◌, ◌<◌, ◌^◌, ℤ, List, map, length, None, IsSome, All, false};
ghost use Rattle.std.specs.Ordering.{int_cmp, int_eq};
ghost use Rattle.std.specs.BTreeMap.{get};
ghost use Rattle.eos_batch.specs.declared.batch.Batch.{Batch};
ghost use Rattle.eos_fold.specs.Batches.{DataBatch};
ghost use Rattle.eos_fold.specs.Settling.{waiting_in, settled};
ghost use Rattle.eos_fold.specs.Tables.{ends_at};
ghost use Rattle.eos_fold.specs.Taken.{IsJoined, HasRoom};
ghost use Rattle.eos_fold.specs.steps.Joins.{rest_of};
ghost use Rattle.eos_fold.specs.steps.Summaries.{TakesFault, only};
ghost use Rattle.eos_kept.specs.Runs.{heads_of};
ghost use Rattle.eos_kept.specs.steps.Taking.{CanTake, Begins, HasTaken};

use crate::run::Run;
use eos_fold::{Ends, at_seam, earlier};
use std::collections::BTreeMap;

impl Run {
    /// Takes over what a producer id does in what comes after, whose data batches begin after so many.
    pub(crate) fn take_over(&mut self, producer: i64, after: Ends, by: usize)
        requires present { IsSome (get int_cmp self.old.producers producer) }
        requires room { HasRoom (ends_at self.old.producers producer) after }
        requires inside { All (λ place. place < length self.old.heads.list) (ends_at self.old.producers producer).waiting.list }
        requires fits { All (λ p. p + by < 2 ^ 64) after.waiting.list }
        ensures joined { IsJoined by (ends_at self.old.producers producer) after (ends_at self.new.producers producer) }
        ensures others { (id : ℤ) → int_eq producer id ≡ false → get int_cmp self.new.producers id ≡ get int_cmp self.old.producers id }
        ensures heads { (ds : List DataBatch) → self.old.heads.list ≡ heads_of ds → (ends_at self.old.producers producer).waiting.list ≡ waiting_in producer ds
            → self.new.heads.list ≡ heads_of (map (settled (only producer after.marker)) ds) }
        ensures all { length self.new.heads.list ≡ length self.old.heads.list }
        ensures capacity { self.new.heads.room ≡ self.old.heads.room }
        ensures sequenced { self.new.sequenced ≡ self.old.sequenced }
        ensures fault { TakesFault self.old.sequenced producer (ends_at self.old.producers producer).last after.first self.old.fault self.new.fault }
    {
        let Some(ends) = self.producers.get_mut(&producer) else {
            unreachable!()
        };
        let seam = at_seam(ends.last(), after.first(), producer, self.sequenced);
        self.fault = earlier(self.fault, seam);
        self.heads.settle(ends.waiting(), after.marker());
        ends.take_over(after, by);
    }

    /// Takes over all producer ids of what comes after.
    pub(crate) fn take_all(&mut self, mut after: BTreeMap<i64, Ends>, by: usize)
        requires { CanTake by self.old.producers self.old.heads.list (rest_of after) }
        ensures all { length self.new.heads.list ≡ length self.old.heads.list }
        ensures capacity { self.new.heads.room ≡ self.old.heads.room }
        ensures sequenced { self.new.sequenced ≡ self.old.sequenced }
        ensures taken { (xs ys : List Batch) → Begins xs ys self.old.sequenced self.old.producers self.old.heads.list self.old.fault (rest_of after)
            → HasTaken xs ys self.old.sequenced self.new.producers self.new.heads.list self.new.fault (λ _. None) }
    {
        while let Some((producer, ends)) = after.pop_first() {
            self.take_over(producer, ends, by);
        }
    }
}
