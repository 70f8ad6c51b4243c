//! The evidence of a simulated cluster, and the theorem on every schedule.

ghost use Rattle.std.specs.Prelude.{◌≡◌, ◌↔◌, true, Err, IfOk};
ghost use Rattle.eos_cluster.specs.declared.evidence.EvidenceRefusal.{EvidenceRefusal};
ghost use Rattle.eos_machine.specs.Elections.{LosesNothing};
ghost use Rattle.eos_machine.specs.Evidences.{IsEvidenceOf, HasRoomForAll};
ghost use Rattle.eos_machine.specs.Schedules.{IsOfSchedule};
ghost use Rattle.eos_machine.specs.Rest.{IsAtRest};
ghost use Rattle.eos_simulate.specs.Schedules.{HasRightLogs, HasNoFaultInLogs};

use eos_cluster::{Cluster, EvidenceRefusal};
use eos_evidence::Evidence;

/// The logs of a cluster at rest as evidence, honest or not: that of `Cluster::evidence`. Of an honest cluster, whatever
/// events it has taken, if no election has lost a record: each log is whole, sequenced and fenced, the transaction log keeps its rule, every transaction is
/// committed in all its partitions or aborted in all, and so no fault of the logs stands.
///
/// # Errors
/// `NotAtRest` where a transaction is open or still ending; `OutOfMemory` where a growth was refused.
pub fn evidence_of(cluster: &Cluster) -> Result<Evidence, EvidenceRefusal>
    requires { HasRoomForAll cluster.now.config cluster.now.world }
    ensures ok { IfOk result (IsEvidenceOf cluster.now.config cluster.now.world) }
    ensures schedule { cluster.now.honest ≡ true → LosesNothing cluster.now.world → IfOk result IsOfSchedule }
    ensures right { cluster.now.honest ≡ true → LosesNothing cluster.now.world → IfOk result HasRightLogs }
    ensures faultless { cluster.now.honest ≡ true → LosesNothing cluster.now.world → IfOk result HasNoFaultInLogs }
    ensures rest { result ≡ Err EvidenceRefusal.NotAtRest ↔ (IsAtRest cluster.now.world → ⊥) }
{
    cluster.evidence()
}
