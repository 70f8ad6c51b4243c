//! What is said of verdicts that are worked out over sources. These functions do nothing; their contracts are theorems.

ghost use Rattle.std.specs.Prelude.{◌≡◌, ◌<◌, ℕ, Some, length};
ghost use Rattle.eos_evidence.specs.Evidence.{EvidenceParts, segments_of};
ghost use Rattle.eos_source.specs.Said.{Said, AreLogs, Known};
ghost use Rattle.eos_source.specs.Shapes.{IsOfShape};
ghost use Rattle.eos_source_check.specs.Judged.{IsJudgedOf};
ghost use Rattle.eos_source_check.specs.declared.judged.Judged.{Judged};

use eos_check::laws::one_verdict;
use eos_source::laws::evidences;

/// Where it is known what each piece says, two verdicts of a source are equal, by however many threads and in whatever order its pieces
/// are read: so it is where each says a log, and where folds stand among them that are of segments, so that there is an evidence of which
/// they were said.
pub fn one_answer()
    ensures logs { (known : ℕ → Known) (said : ℕ → Said) (shape : EvidenceParts) (a b : Judged)
        → ((piece : ℕ) → piece < length (segments_of shape.partitions) → (known piece).said ≡ Some (said piece)) → AreLogs (length (segments_of shape.partitions)) said
        → IsJudgedOf known shape a → IsJudgedOf known shape b → a.verdict ≡ b.verdict }
    ensures folds { (known : ℕ → Known) (said : ℕ → Said) (shape evidence : EvidenceParts) (a b : Judged)
        → ((piece : ℕ) → piece < length (segments_of shape.partitions) → (known piece).said ≡ Some (said piece)) → IsOfShape said shape evidence
        → IsJudgedOf known shape a → IsJudgedOf known shape b → a.verdict ≡ b.verdict }
{
    evidences();
    one_verdict();
}
