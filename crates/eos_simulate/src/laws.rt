//! The theorem on every schedule, over the definitions that the verdict uses. Its functions do nothing; their contracts are
//! the laws.

ghost use Rattle.eos_evidence.specs.Evidence.{EvidenceParts, IsEvidence};
ghost use Rattle.eos_verdict.specs.declared.verdict.Verdict.{Verdict};
ghost use Rattle.eos_check.specs.Verdicts.{IsVerdict};
ghost use Rattle.eos_machine.specs.Schedules.{IsOfSchedule};
ghost use Rattle.eos_simulate.specs.Schedules.{HasRightLogs, HasNoFaultInLogs, AccusesNoLog};

/// For every list of events, in any order, with any message lost or repeated and any member restarted: where the cluster
/// is at rest, each log of its evidence is whole, sequenced and fenced, the transaction log keeps its rule, and every
/// transaction is committed in all its partitions or aborted in all.
pub fn right_logs()
    ensures { (e : EvidenceParts) → IsOfSchedule e → HasRightLogs e }
{}

/// So no fault of a partition, of the transaction log or between decisions and logs stands in it.
pub fn no_fault_in_logs()
    ensures { (e : EvidenceParts) → IsEvidence e → IsOfSchedule e → HasNoFaultInLogs e }
{}

/// And no verdict on it names such a fault.
pub fn never_accused()
    ensures { (e : EvidenceParts) → IsEvidence e → IsOfSchedule e → (v : Verdict) → IsVerdict e v → AccusesNoLog v }
{}
