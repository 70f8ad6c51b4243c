//! What stands in a folder into which evidence was written. These functions do nothing; their contracts are theorems.

ghost use Rattle.std.specs.Prelude.{ℕ, List};
ghost use Rattle.eos_disk.specs.Entries.{Entry};
ghost use Rattle.eos_disk.specs.Memory.{held_in};
ghost use Rattle.eos_disk.specs.declared.memory.Change.{Change};
ghost use Rattle.eos_evidence.specs.Evidence.{EvidenceParts, IsEvidence};
ghost use Rattle.eos_disk.specs.Reading.{IsReadWhole};
ghost use Rattle.eos_disk.specs.Shapes.{AreKnown};
ghost use Rattle.eos_disk.specs.Writing.{IsEvidenceWritten};
ghost use Rattle.eos_disk.specs.Written.{IsEmptyAt, HoldsJust, HasListings};

/// Evidence that was written into an empty folder stands there, and nothing else.
pub fn just_written()
    ensures { (old new : List ℕ → Entry) (folder : List ℕ) (e : EvidenceParts) → IsEmptyAt old folder → IsEvidenceWritten old folder e new → HoldsJust new folder e }
{}

/// It is read back from there, where it is known what stands in the folder, and the disk lists what stands on it.
pub fn reads_back()
    ensures { (holds : List ℕ → Entry) (folder : List ℕ) (e : EvidenceParts) → IsEvidence e → HoldsJust holds folder e → AreKnown holds folder → HasListings holds → IsReadWhole holds folder e }
{}

/// A disk in memory lists what stands on it.
pub fn memory_lists()
    ensures { (changes : List Change) → HasListings (held_in changes) }
{}
