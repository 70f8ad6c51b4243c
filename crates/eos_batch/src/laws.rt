//! Laws of the definitions, as functions that do nothing.

ghost use Rattle.std.specs.Prelude.{◌≡◌, ◌++◌, [], ℕ, List};
ghost use Rattle.eos_batch.specs.declared.batch.Batch.{Batch};
ghost use Rattle.eos_batch.specs.Text.{IsBatchText};

/// No text of a batch is a proper prefix of another, and one text has one batch.
pub fn prefix_free(_a: &[u8], _b: &[u8])
    ensures prefix { (r s : Batch) (more : List ℕ) → IsBatchText _a.now r → IsBatchText _b.now s
        → _b.now ≡ _a.now ++ more → more ≡ [] }
    ensures one_batch { (r s : Batch) → IsBatchText _a.now r → IsBatchText _b.now s
        → _a.now ≡ _b.now → r ≡ s }
{}
