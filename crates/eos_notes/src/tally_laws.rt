//! What tables by logs are to an evidence. These functions do nothing; their contracts are theorems.

ghost use Rattle.std.specs.Prelude.{List, Option};
ghost use Rattle.eos_commits.specs.Faults.{AreInOrder};
ghost use Rattle.eos_evidence.specs.Evidence.{EvidenceParts, IsEvidence};
ghost use Rattle.eos_fold.specs.Parts.{PartLog};
ghost use Rattle.eos_commits.specs.EvidenceLogs.{AreLogsOf};
ghost use Rattle.eos_kept.specs.Faults.{AreFaultsIn};
ghost use Rattle.eos_notes.specs.Counts.{AreCounted};
ghost use Rattle.eos_notes.specs.Tallies.{AreTallies};
ghost use Rattle.eos_notes.specs.TalliesByLogs.{tallies_by};
ghost use Rattle.eos_notes.specs.declared.tally.Counted.{Counted as CountedOf};
ghost use Rattle.eos_touch.specs.declared.fault.PartitionFault.{PartitionFault};

/// The logs of an evidence stand in order, and the tables by these logs, with its partitions' faults and what is counted of their
/// segments, are the evidence's.
pub fn whole()
    ensures order { (e : EvidenceParts) (logs : List PartLog) → IsEvidence e → AreLogsOf e.partitions logs → AreInOrder logs }
    ensures tallies { (e : EvidenceParts) (logs : List PartLog) (faults : List (Option PartitionFault)) (counted : List CountedOf)
        → AreLogsOf e.partitions logs → AreFaultsIn e.partitions faults → AreCounted e.partitions counted → AreTallies e (tallies_by e.spec.apps logs faults counted) }
{}
