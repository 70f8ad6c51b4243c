//! What is read back of a folder in which evidence was left. Its function does nothing; its contract is the law.

ghost use Rattle.std.specs.Prelude.{◌≡◌, ℕ, List};
ghost use Rattle.eos_disk.specs.Entries.{Entry};
ghost use Rattle.eos_disk.specs.Reading.{IsReadWhole};
ghost use Rattle.eos_disk.specs.Shapes.{AreKnown};
ghost use Rattle.eos_evidence.specs.Evidence.{EvidenceParts};

/// Where it is known what stands below a folder, one evidence stands there whole in logs: where `simulate_to` has left one, whoever reads the
/// folder's manifest, its listings and all of its logs reads that evidence.
pub fn one_evidence()
    ensures { (holds : List ℕ → Entry) (folder : List ℕ) (a b : EvidenceParts) → AreKnown holds folder → IsReadWhole holds folder a → IsReadWhole holds folder b → a ≡ b }
{}
