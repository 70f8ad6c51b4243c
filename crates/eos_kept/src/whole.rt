//! What a run says where it is a whole log, before which there is nothing.

ghost use Rattle.std.specs.Prelude.{List};
ghost use Rattle.eos_batch.specs.declared.batch.Batch.{Batch};
ghost use Rattle.eos_fold.specs.Faults.{IsLeastOf};
ghost use Rattle.eos_fold.specs.BatchesWhole.{StandsInWhole, IsLeastOpen};
ghost use Rattle.eos_kept.specs.Runs.{IsRunOf};

use crate::run::Run;
use eos_fold::{Fault, at_first, earlier, lesser_open};

impl Run {
    /// The least fault of the pairs of touches, by offset, then by kind.
    pub fn whole_fault(&self) -> Option<Fault>
        ensures { (batches : List Batch) → IsRunOf batches self.now → IsLeastOf (StandsInWhole self.now.sequenced batches) result }
    {
        let mut fault = self.fault;
        let mut rest = self.producers.iter();
        while let Some((producer, ends)) = rest.next() {
            fault = earlier(fault, at_first(ends.first(), *producer, self.sequenced));
        }
        fault
    }

    /// The least producer id whose last touch is data of a transaction.
    pub fn least_open(&self) -> Option<i64>
        ensures { (batches : List Batch) → IsRunOf batches self.now → IsLeastOpen batches result }
    {
        let mut least = None;
        let mut rest = self.producers.iter();
        while let Some((producer, ends)) = rest.next() {
            least = lesser_open(least, *producer, ends.last());
        }
        least
    }
}
