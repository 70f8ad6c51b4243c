//! What stands in a folder. These functions do nothing; their contracts are theorems.

ghost use Rattle.std.specs.Prelude.{◌≡◌, ℕ, List};
ghost use Rattle.eos_disk.specs.Entries.{Entry};
ghost use Rattle.eos_evidence.specs.Evidence.{EvidenceParts};
ghost use Rattle.eos_disk.specs.Shapes.{IsShapeAt, AreKnown};
ghost use Rattle.eos_disk.specs.declared.names.Form.{Form};

/// Where it is known what stands below a folder, one shape stands there.
pub fn one_shape()
    ensures { (holds : List ℕ → Entry) (folder : List ℕ) (a b : EvidenceParts) (forms others : List Form)
        → AreKnown holds folder → IsShapeAt holds folder a forms → IsShapeAt holds folder b others → (a ≡ b) × (forms ≡ others) }
{}
