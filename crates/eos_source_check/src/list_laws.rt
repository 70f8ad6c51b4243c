//! What the list of all faults says beside the verdict, and which lists it is. These functions do nothing; their contracts are
//! theorems.

ghost use Rattle.std.specs.Prelude.{◌≡◌, ◌↔◌, List, [], ◌∷◌, map};
ghost use Rattle.eos_base.specs.Least.{NoneStands};
ghost use Rattle.eos_evidence.specs.Evidence.{EvidenceParts};
ghost use Rattle.eos_touch.specs.declared.fault.PartitionFault.{PartitionFault};
ghost use Rattle.eos_fold.specs.Parts.{PartLog};
ghost use Rattle.eos_verdict.specs.declared.log_fault.LogFault.{LogFault};
ghost use Rattle.eos_verdict.specs.declared.match_fault.MatchFault.{MatchFault};
ghost use Rattle.eos_table.specs.LogFaults.{log_cmp};
ghost use Rattle.eos_table.specs.MatchFaults.{fault_cmp};
ghost use Rattle.eos_verdict.specs.declared.lineage_fault.LineageFault.{LineageFault};
ghost use Rattle.eos_commits.specs.EvidenceLogs.{AreLogsOf};
ghost use Rattle.eos_verdict.specs.declared.verdict.Fault.{Fault};
ghost use Rattle.eos_verdict.specs.declared.verdict.Fault.TheVariants.{Partition as InPartition, Log, Match, Lineage};
ghost use Rattle.eos_verdict.specs.declared.verdict.Verdict.TheVariants.{No};
ghost use Rattle.eos_check.specs.Verdicts.{StandsInPartitions, StandsInLog, StandsInMatching, Stands, partition_cmp, IsVerdictOf};
ghost use Rattle.eos_base.specs.AllOf.{IsAllOf};
ghost use Rattle.eos_faults.specs.LineageFaults.{AreLineageFaults};
ghost use Rattle.eos_check.specs.KeptVerdicts.{kept_of};
ghost use Rattle.eos_source_check.specs.AllFaults.{AreAllFaults};
ghost use Rattle.eos_source_check.specs.LaterFaults.{AreLaterFaults};

/// The first of all faults is the verdict's.
pub fn first_fault()
    ensures { (e : EvidenceParts) (ls : List PartLog) (of : AreLogsOf e.partitions ls) (first : Fault) (others : List Fault) →
        AreAllFaults e ls of (first ∷ others) → IsVerdictOf e ls of (No first) }
{}

/// Where the list is empty, no fault of any phase stands.
pub fn no_fault()
    ensures { (e : EvidenceParts) (ls : List PartLog) (of : AreLogsOf e.partitions ls) →
        AreAllFaults e ls of [] → NoneStands (Stands e ls of) }
{}

/// Two lists of all faults are one.
pub fn one_list()
    ensures { (e : EvidenceParts) (ls : List PartLog) (of : AreLogsOf e.partitions ls) (faults others : List Fault) →
        AreAllFaults e ls of faults → AreAllFaults e ls of others → faults ≡ others }
{}

/// Where a fault of a partition by itself stands, these are all.
pub fn faults_of_partitions()
    ensures { (e : EvidenceParts) (ls : List PartLog) (of : AreLogsOf e.partitions ls) (first : PartitionFault) (others : List PartitionFault) →
        IsAllOf partition_cmp (StandsInPartitions e.partitions ls of) (first ∷ others) → AreAllFaults e ls of (map InPartition (first ∷ others)) }
{}

/// Where none of a partition by itself stands but one of the transaction log, those of the transaction log are all.
pub fn faults_of_log()
    ensures { (e : EvidenceParts) (ls : List PartLog) (of : AreLogsOf e.partitions ls) (first : LogFault) (others : List LogFault) →
        NoneStands (StandsInPartitions e.partitions ls of) → IsAllOf log_cmp (StandsInLog ls) (first ∷ others) → AreAllFaults e ls of (map Log (first ∷ others)) }
{}

/// Where none of these stands but one between decisions and logs, those between decisions and logs are all.
pub fn faults_of_matching()
    ensures { (e : EvidenceParts) (ls : List PartLog) (of : AreLogsOf e.partitions ls) (first : MatchFault) (others : List MatchFault) →
        NoneStands (StandsInPartitions e.partitions ls of) → NoneStands (StandsInLog ls) → IsAllOf fault_cmp (StandsInMatching ls) (first ∷ others)
        → AreAllFaults e ls of (map Match (first ∷ others)) }
{}

/// Where none of these stands but one of the lineage, those of the lineage are all.
pub fn faults_of_lineage()
    ensures { (e : EvidenceParts) (ls : List PartLog) (of : AreLogsOf e.partitions ls) (first : LineageFault) (others : List LineageFault) →
        NoneStands (StandsInPartitions e.partitions ls of) → NoneStands (StandsInLog ls) → NoneStands (StandsInMatching ls)
        → AreLineageFaults e.spec.apps ls (first ∷ others) → AreAllFaults e ls of (map Lineage (first ∷ others)) }
{}

/// Where no partition has a fault by itself, all faults of the phases behind the first are all faults of the evidence: those over its
/// logs, and also those over what is kept of its logs for its applications.
pub fn later()
    ensures whole { (e : EvidenceParts) (ls : List PartLog) (of : AreLogsOf e.partitions ls) → NoneStands (StandsInPartitions e.partitions ls of) → (faults : List Fault)
        → AreLaterFaults e.spec.apps ls faults ↔ AreAllFaults e ls of faults }
    ensures kept { (e : EvidenceParts) (ls : List PartLog) (of : AreLogsOf e.partitions ls) → NoneStands (StandsInPartitions e.partitions ls of) → (faults : List Fault)
        → AreLaterFaults e.spec.apps (kept_of e ls) faults ↔ AreAllFaults e ls of faults }
{}
