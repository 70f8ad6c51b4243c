//! A law on the definitions alone.

ghost use Rattle.std.specs.Prelude.{◌≡◌, List};
ghost use Rattle.eos_batch.specs.declared.batch.Batch.{Batch};
ghost use Rattle.eos_fold.specs.Settling.{data_in};
ghost use Rattle.eos_fold.specs.Closes.{closes_of, closes_in, opens_of, opens_in};

/// The closes, and what is open, are read off the data batches.
pub fn closes()
    ensures closes { (bs : List Batch) → closes_in (data_in bs) ≡ closes_of bs }
    ensures opens { (bs : List Batch) → opens_in (data_in bs) ≡ opens_of bs }
{}
