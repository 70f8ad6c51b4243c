//! What the places show together. This function does nothing; its contract is a theorem.

ghost use Rattle.std.specs.Prelude.{◌↔◌, ℕ, ℤ, List};
ghost use Rattle.eos_base.specs.Members.{Has};
ghost use Rattle.eos_batch.specs.declared.batch.Batch.{Batch};
ghost use Rattle.eos_touch.specs.declared.fault.PartitionFault.{PartitionFault};
ghost use Rattle.eos_fold.specs.declared.stop.Stop.{Stop};
ghost use Rattle.eos_fold.specs.Standing.{IsStanding};
ghost use Rattle.eos_faults.specs.PartitionPlaces.{gathered};

/// What is gathered at the batches and the end of a front is exactly what stands in the partition by itself.
pub fn gathered_is_standing()
    ensures { (topic : List ℕ) (number end : ℤ) (batches : List Batch) (stop : Stop) (f : PartitionFault) →
        Has (gathered topic number end batches stop) f ↔ IsStanding topic number end batches stop f }
{}
