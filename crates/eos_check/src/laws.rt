//! What the definitions of this crate say together. These functions do nothing; their contracts are theorems.

ghost use Rattle.std.specs.Prelude.{◌≡◌, ◌↔◌, ℕ, ℤ, List};
ghost use Rattle.eos_base.specs.Least.{NoneStands};
ghost use Rattle.eos_batch.specs.declared.batch.Batch.{Batch};
ghost use Rattle.eos_commits.specs.EvidenceLogs.{AreLogsOf, IsLogOf};
ghost use Rattle.eos_check.specs.Good.{Good};
ghost use Rattle.eos_check.specs.PartitionRules.{AreTexts, KeepsRules};
ghost use Rattle.eos_check.specs.Verdicts.{Stands, IsVerdict};
ghost use Rattle.eos_check.specs.VisibleRecords.{VisibleByMarkers};
ghost use Rattle.eos_verdict.specs.declared.verdict.Verdict.{Verdict};
ghost use Rattle.eos_evidence.specs.Evidence.{EvidenceParts, IsEvidence};
ghost use Rattle.eos_evidence.specs.declared.partition.Partition.{Partition};
ghost use Rattle.eos_evidence.specs.declared.segment.Segment.{Segment};
ghost use Rattle.eos_fold.specs.declared.stop.Stop.{Stop};
ghost use Rattle.eos_fold.specs.declared.stop.Stop.TheVariants.{AtEnd};
ghost use Rattle.eos_fold.specs.Fronts.{IsFront};
ghost use Rattle.eos_fold.specs.Parts.{PartLog};
ghost use Rattle.eos_fold.specs.Standing.{IsStanding};
ghost use Rattle.eos_fold.specs.Whole.{IsPartOf};

/// Segments are texts of batches exactly where a fold comes to their end, and then the batches that it finds are these.
pub fn whole_texts()
    ensures fronts { (segments : List Segment) (batches : List Batch) → AreTexts 0 segments batches ↔ IsFront 0 segments batches AtEnd }
    ensures parts { (topic : List ℕ) (number end : ℤ) (segments : List Segment) (part : PartLog) (of : IsPartOf topic number end segments part) (batches : List Batch)
        → AreTexts 0 segments batches ↔ ((of.stop ≡ AtEnd) × (of.batches ≡ batches)) }
{}

/// A partition's log is whole, sequenced and fenced exactly where no fault stands in it.
pub fn partition_rules()
    ensures { (topic : List ℕ) (number end : ℤ) (segments : List Segment) (batches : List Batch) (stop : Stop) → IsFront 0 segments batches stop
        → NoneStands (IsStanding topic number end batches stop) ↔ KeepsRules topic end segments batches }
{}

/// A record of a partition's log is visible exactly where its batch is of no transaction or its producer's next end marker in
/// that partition is a commit.
pub fn visible_records()
    ensures { (p : Partition) (log : PartLog) (of : IsLogOf p log) → VisibleByMarkers of.batches log }
{}

/// An evidence is good exactly where no fault of any phase stands.
pub fn good_evidence()
    ensures { (e : EvidenceParts) (logs : List PartLog) (of : AreLogsOf e.partitions logs) → IsEvidence e
        → Good e logs ↔ NoneStands (Stands e logs of) }
{}

/// Two verdicts of one evidence are equal.
pub fn one_verdict()
    ensures { (e : EvidenceParts) → IsEvidence e → (v w : Verdict) → IsVerdict e v → IsVerdict e w → v ≡ w }
{}
