//! What the list over kept logs is to an evidence. These functions do nothing; their contracts are theorems.

ghost use Rattle.std.specs.Prelude.{◌≡◌, ◌<◌, ℕ, List, Option, Some, length};
ghost use Rattle.eos_evidence.specs.Evidence.{EvidenceParts, segments_of};
ghost use Rattle.eos_evidence.specs.declared.partition.Partition.{Partition};
ghost use Rattle.eos_source.specs.Said.{Said, Known};
ghost use Rattle.eos_source.specs.Shapes.{IsOfShape};
ghost use Rattle.eos_source_check.specs.Again.{AreAgain, AreThere};

/// Where it is known what each piece says, as of an evidence in memory, each evidence whose segments are such has the partitions as they
/// are read again.
pub fn known()
    ensures { (known : ℕ → Known) (said : ℕ → Said) (shape evidence : EvidenceParts) (again : List (Option Partition))
        → ((piece : ℕ) → piece < length (segments_of shape.partitions) → (known piece).said ≡ Some (said piece)) → IsOfShape said shape evidence
        → AreAgain known 0 shape.partitions again → AreThere again evidence.partitions }
{}
