//! That a cluster leaves evidence, over the definitions of the machine alone: what is said of the evidence of every schedule
//! is said of something. Its functions change nothing; their contracts are the laws.

ghost use Rattle.std.specs.Prelude.{List};
ghost use Rattle.std.specs.List.{All};
ghost use Rattle.eos_machine.specs.Elections.{LosesNothing};
ghost use Rattle.eos_machine.specs.Evidences.{HasRoomForAll};
ghost use Rattle.eos_machine.specs.Machine.{world_after, world_under};
ghost use Rattle.eos_machine.specs.LogIndexes.{IsConfig};
ghost use Rattle.eos_machine.specs.Rest.{IsAtRest};
ghost use Rattle.eos_machine.specs.World.{opening};
ghost use Rattle.eos_machine.specs.declared.config.Config.{Config};
ghost use Rattle.eos_machine.specs.declared.event.Event.{Event};
ghost use Rattle.eos_machine.specs.declared.switches.Switches.{Switches};
ghost use Rattle.eos_simulate.specs.Leaving.{SendsBytes, LeavesEvidence, LeavesRightEvidence};

use eos_cluster::Event;
use eos_wire::are_bytes;

/// Every event that a cluster can be asked for is one of which these laws speak.
pub fn sends_bytes(event: &Event)
    ensures { SendsBytes event.now }
{
    match event {
        Event::Produce {
            claim: Some(claim),
            ..
        } => are_bytes(claim.topic.as_slice()),
        Event::Produce { claim: None, .. } => {}
        Event::Feed { .. } => {}
        Event::Start { .. } => {}
        Event::Commit { .. } => {}
        Event::End { .. } => {}
        Event::Resume { .. } => {}
        Event::Fetch { .. } => {}
        Event::Members { .. } => {}
        Event::BrokerRestart { .. } => {}
        Event::CoordinatorRestart => {}
        Event::Deliver { .. } => {}
        Event::TimeOut { .. } => {}
        Event::AddPartition { .. } => {}
        Event::WriteMarker { .. } => {}
        Event::Complete { .. } => {}
        Event::Elect { .. } => {}
    }
}

/// Whatever events a cluster has taken, under whatever switches and at rest or not: within the room there is evidence of its
/// logs. No record that a cluster appends is one that can't be written, and no segment one that evidence can't have.
pub fn leaves_evidence()
    ensures { (c : Config) (xs : List (Switches × Event)) → IsConfig c → All (λ x. SendsBytes x.1) xs
        → HasRoomForAll c (world_under c (opening c) xs) → LeavesEvidence c (world_under c (opening c) xs) }
{}

/// Where no switch was on, no election lost a record and the cluster is at rest, that evidence is of a schedule, its logs are right, and no fault of the
/// logs stands in it.
pub fn leaves_right_evidence()
    ensures { (c : Config) (es : List Event) → IsConfig c → All SendsBytes es → LosesNothing (world_after c (opening c) es) → IsAtRest (world_after c (opening c) es)
        → HasRoomForAll c (world_after c (opening c) es) → LeavesRightEvidence c (world_after c (opening c) es) }
{}
