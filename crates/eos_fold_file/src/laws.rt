//! What the definitions say of fold files. These functions do nothing; their contracts are theorems.

ghost use Rattle.std.specs.Prelude.{◌≡◌, ◌++◌, [], ℕ, List, length, IsTrue, unsigned_abs};
ghost use Rattle.eos_batch.specs.declared.batch.Batch.{Batch};
ghost use Rattle.eos_batch.specs.Heads.{head_of};
ghost use Rattle.eos_batch.specs.Offsets.{offset_of};
ghost use Rattle.eos_batch.specs.Text.{IsBatchText};
ghost use Rattle.eos_fold_file.specs.declared.file.FoldFile.{FoldFile};
ghost use Rattle.eos_fold_file.specs.Batches.{HaveHeads};
ghost use Rattle.eos_fold_file.specs.Files.{fold_text};
ghost use Rattle.eos_fold_file.specs.Heads.{is_possible, batch_head, fold_head};
ghost use Rattle.eos_fold_file.specs.Legal.{IsLegal};

/// No fold file is a proper prefix of another, and one file is of one fold.
pub fn prefix_free()
    ensures prefix { (f g : FoldFile) (more : List ℕ) → IsLegal f → IsLegal g → fold_text g ≡ fold_text f ++ more → more ≡ [] }
    ensures one_fold { (f g : FoldFile) → IsLegal f → IsLegal g → fold_text f ≡ fold_text g → f ≡ g }
{}

/// The head of a batch is possible by the bytes of any text of it, and it is the batch's head again where it stands.
pub fn heads()
    ensures possible { (text : List ℕ) (b : Batch) → IsBatchText text b → IsTrue (is_possible (fold_head (head_of b (length text)))) }
    ensures same { (b : Batch) (size : ℕ) → batch_head (offset_of b) (fold_head (head_of b size)) ≡ head_of b size }
{}

/// There are batches with the heads of a fold file, one after the other from the segment's name on.
pub fn batches()
    ensures { (f : FoldFile) → IsLegal f → (bs : List Batch) × HaveHeads (unsigned_abs f.base) f.heads bs }
{}
