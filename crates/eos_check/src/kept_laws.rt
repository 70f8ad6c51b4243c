//! What the phases of the check say of kept logs, they say of the logs. These functions do nothing; their contracts are theorems.
//!
//! In each of them `apps` are any applications and `parts` any logs; what is kept of these is `wanted_logs apps parts`.

ghost use Rattle.std.specs.Prelude.{◌≡◌, ◌↔◌, List, Option};
ghost use Rattle.eos_base.specs.Least.{NoneStands, IsLeast, IsLeastOrNone};
ghost use Rattle.eos_base.specs.Members.{Has};
ghost use Rattle.eos_check.specs.Judged.{IsJudged};
ghost use Rattle.eos_check.specs.Verdicts.{StandsInPartitions, StandsInLog, StandsInMatching, Stands, partition_cmp, AreCounts, IsVerdictOf};
ghost use Rattle.eos_verdict.specs.declared.verdict.Counts.{Counts};
ghost use Rattle.eos_verdict.specs.declared.verdict.Fault.TheVariants.{Partition as InPartition, Log, Match, Lineage};
ghost use Rattle.eos_verdict.specs.declared.verdict.Verdict.{Verdict};
ghost use Rattle.eos_verdict.specs.declared.verdict.Verdict.TheVariants.{Yes, No};
ghost use Rattle.eos_commits.specs.Faults as commits;
ghost use Rattle.eos_evidence.specs.Evidence.{EvidenceParts, IsEvidence};
ghost use Rattle.eos_evidence.specs.declared.application.App.{App};
ghost use Rattle.eos_evidence.specs.declared.partition.Partition.{Partition};
ghost use Rattle.eos_fold.specs.LeastFaults.{IsFaultIn, IsFaultOf, IsFirstFault};
ghost use Rattle.eos_fold.specs.Parts.{PartLog};
ghost use Rattle.eos_commits.specs.EvidenceLogs.{IsLogOf, AreLogsOf};
ghost use Rattle.eos_lineage.specs.Faults as lineage;
ghost use Rattle.eos_commits.specs.Applications.{application_of};
ghost use Rattle.eos_lineage.specs.Lineage.{count_inputs, count_outputs, LineageKept};
ghost use Rattle.eos_verdict.specs.declared.lineage_fault.LineageFault.{LineageFault};
ghost use Rattle.eos_kept.specs.Faults.{AreFaultsIn, first_of};
ghost use Rattle.eos_table.specs.Atomic.{Atomic};
ghost use Rattle.eos_table.specs.LogFaults as logs;
ghost use Rattle.eos_table.specs.MatchFaults as matches;
ghost use Rattle.eos_table.specs.TransactionLog as table;
ghost use Rattle.eos_table.specs.TransactionLog.{IsTransactionLog, transaction_parts, decisions_of};
ghost use Rattle.eos_verdict.specs.declared.log_fault.LogFault.{LogFault};
ghost use Rattle.eos_verdict.specs.declared.match_fault.MatchFault.{MatchFault};
ghost use Rattle.eos_touch.specs.declared.fault.PartitionFault.{PartitionFault};
ghost use Rattle.eos_txnlog.specs.declared.decision.Decision.{Decision};
ghost use Rattle.eos_reading.specs.Wanted.{wanted_logs};
ghost use Rattle.eos_check.specs.KeptVerdicts.{StandAlike, kept_of, StandsKept, IsKeptVerdict};

/// Of the partitions' least faults, each of which was named when its segments were read, the first is the least that stands in the
/// logs; and none stands where none was named.
pub fn partitions()
    ensures { (e : EvidenceParts) (parts : List PartLog) (of : AreLogsOf e.partitions parts) (faults : List (Option PartitionFault)) → IsEvidence e
        → AreFaultsIn e.partitions faults → IsLeastOrNone partition_cmp (StandsInPartitions e.partitions parts of) (first_of faults) }
{}

/// A fault that was named of a partition's segments is that of its log, and the first of those that were named is that of the logs.
pub fn named()
    ensures log { (p : Partition) (part : PartLog) → IsLogOf p part → (fault : Option PartitionFault) → IsFaultIn p.end.topic p.end.partition p.end.end p.segments fault
        → IsFaultOf part fault }
    ensures first { (partitions : List Partition) (parts : List PartLog) → AreLogsOf partitions parts → (faults : List (Option PartitionFault))
        → AreFaultsIn partitions faults → IsFirstFault parts (first_of faults) }
{}

/// The partitions stand in order, and so do those of the transaction log, as they did.
pub fn order()
    ensures all { (apps : List App) (parts : List PartLog) → commits.AreInOrder (wanted_logs apps parts) ↔ commits.AreInOrder parts }
    ensures log { (apps : List App) (parts : List PartLog)
        → table.AreInOrder (transaction_parts (wanted_logs apps parts)) ↔ table.AreInOrder (transaction_parts parts) }
{}

/// The transaction log keeps its rule as it did, with the same faults and the same decisions.
pub fn transaction_log()
    ensures decisions { (apps : List App) (parts : List PartLog) → decisions_of (transaction_parts (wanted_logs apps parts)) ≡ decisions_of (transaction_parts parts) }
    ensures faults { (apps : List App) (parts : List PartLog) → StandAlike (logs.Stands (transaction_parts (wanted_logs apps parts))) (logs.Stands (transaction_parts parts)) }
    ensures rule { (apps : List App) (parts : List PartLog)
        → IsTransactionLog (transaction_parts (wanted_logs apps parts)) ↔ IsTransactionLog (transaction_parts parts) }
{}

/// Decisions match the logs as they did, with the same faults.
pub fn matching()
    ensures faults { (apps : List App) (decisions : List Decision) (parts : List PartLog)
        → StandAlike (matches.Stands decisions (wanted_logs apps parts)) (matches.Stands decisions parts) }
    ensures rule { (apps : List App) (decisions : List Decision) (parts : List PartLog) → Atomic decisions (wanted_logs apps parts) ↔ Atomic decisions parts }
{}

/// The visible records and the outputs keep their rules as they did, with the same faults and the same counts.
pub fn lineage()
    ensures applications { (apps : List App) (parts : List PartLog) (app : App) → Has apps app
        → application_of app (wanted_logs apps parts) ≡ application_of app parts }
    ensures faults { (apps : List App) (parts : List PartLog) → StandAlike (lineage.Stands apps (wanted_logs apps parts)) (lineage.Stands apps parts) }
    ensures rule { (apps : List App) (parts : List PartLog) → LineageKept apps (wanted_logs apps parts) ↔ LineageKept apps parts }
    ensures inputs { (apps : List App) (parts : List PartLog) → count_inputs apps (wanted_logs apps parts) ≡ count_inputs apps parts }
    ensures outputs { (apps : List App) (parts : List PartLog) → count_outputs apps (wanted_logs apps parts) ≡ count_outputs apps parts }
{}

/// What stands of an evidence's logs, by the first phase over the logs and the others over what was kept, is what stands; and so
/// with the verdict.
pub fn verdict()
    ensures faults { (e : EvidenceParts) (parts : List PartLog) (of : AreLogsOf e.partitions parts) → StandAlike (StandsKept e parts of) (Stands e parts of) }
    ensures verdict { (e : EvidenceParts) (parts : List PartLog) (of : AreLogsOf e.partitions parts) → IsEvidence e → (v : Verdict)
        → IsKeptVerdict e parts of v ↔ IsVerdictOf e parts of v }
{}

/// The verdict of an evidence, made of what the phases answer one after the other: the first of its logs, the others of what was
/// kept.
pub fn answers()
    ensures partition { (e : EvidenceParts) (parts : List PartLog) (of : AreLogsOf e.partitions parts) (f : PartitionFault)
        → IsLeast partition_cmp (StandsInPartitions e.partitions parts of) f → IsVerdictOf e parts of (No (InPartition f)) }
    ensures log { (e : EvidenceParts) (parts : List PartLog) (of : AreLogsOf e.partitions parts) (f : LogFault)
        → NoneStands (StandsInPartitions e.partitions parts of) → IsLeast logs.log_cmp (StandsInLog (kept_of e parts)) f → IsVerdictOf e parts of (No (Log f)) }
    ensures matching { (e : EvidenceParts) (parts : List PartLog) (of : AreLogsOf e.partitions parts) (f : MatchFault)
        → NoneStands (StandsInPartitions e.partitions parts of) → NoneStands (StandsInLog (kept_of e parts))
        → IsLeast matches.fault_cmp (StandsInMatching (kept_of e parts)) f → IsVerdictOf e parts of (No (Match f)) }
    ensures lineage { (e : EvidenceParts) (parts : List PartLog) (of : AreLogsOf e.partitions parts) (f : LineageFault)
        → NoneStands (StandsInPartitions e.partitions parts of) → NoneStands (StandsInLog (kept_of e parts)) → NoneStands (StandsInMatching (kept_of e parts))
        → IsLeast (lineage.lineage_cmp e.spec.apps) (lineage.Stands e.spec.apps (kept_of e parts)) f → IsVerdictOf e parts of (No (Lineage f)) }
    ensures yes { (e : EvidenceParts) (parts : List PartLog) (of : AreLogsOf e.partitions parts) (counts : Counts) → IsEvidence e
        → NoneStands (StandsInPartitions e.partitions parts of) → NoneStands (StandsInLog (kept_of e parts)) → NoneStands (StandsInMatching (kept_of e parts))
        → NoneStands (lineage.Stands e.spec.apps (kept_of e parts)) → AreCounts e.spec.apps (kept_of e parts) counts → IsVerdictOf e parts of (Yes counts) }
{}

/// What is judged of the kept logs, beside the faults that were named of the partitions when their segments were read, is the
/// verdict of the evidence.
pub fn judged()
    ensures { (e : EvidenceParts) (parts : List PartLog) (of : AreLogsOf e.partitions parts) (faults : List (Option PartitionFault)) (v : Verdict) → IsEvidence e
        → AreFaultsIn e.partitions faults → IsJudged e.spec.apps (kept_of e parts) (first_of faults) v → IsVerdictOf e parts of v }
{}
