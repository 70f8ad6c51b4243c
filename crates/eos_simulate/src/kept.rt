//! Making the evidence, with a history of what is done for it.

ghost use Rattle.std.specs.Prelude.{◌≡◌, [], true, false, IfOk, OnOk};
ghost use Rattle.eos_machine.specs.Elections.{LosesNothing};
ghost use Rattle.eos_machine.specs.Schedules.{IsOfSchedule};
ghost use Rattle.eos_machine.specs.Switching.{any_on};
ghost use Rattle.eos_simulate.specs.Schedules.{HasRightLogs, HasNoFaultInLogs};
ghost use Rattle.eos_drive.specs.Driven.{IsKept};
ghost use Rattle.eos_simulate.specs.Histories.{new_course, IsLeftBy, HasBroken, LoseNothing};

use crate::course::{Course, SWITCHES, UNCLEAN, is_on};
use crate::making::{SimulationFault, evidence_of, new_cluster, none_unmet};
use eos_cluster::Cluster;
use eos_drive::{History, Script, run_kept, run_tail_kept};
use eos_evidence::Evidence;
use std::alloc::{AllocError, Global};

/// What a cluster leaves that is driven by the words of a seed's script. With switches it breaks these rules, if not inside the
/// script then afterwards, in a few further events each, if they are to be shown; without one its logs have no fault, unless the run stops
/// after the script, at rest or not, or an election lost records: none does, unless leaders are to be lost whose followers lack some.
/// A history that began with nothing in it has what was done.
pub fn simulate(
    alloc: Global,
    course: &Course,
    history: &mut History,
) -> Result<Evidence, SimulationFault>
    ensures kept { history.old ≡ [] → IfOk result (IsLeftBy course.now.config history.new) }
    ensures switched { OnOk result (HasBroken course.now.switches history.new) }
    ensures schedule { history.old ≡ [] → course.now.stops ≡ false → any_on course.now.switches ≡ false → LoseNothing course.now.config history.new → IfOk result IsOfSchedule }
    ensures right { history.old ≡ [] → course.now.stops ≡ false → any_on course.now.switches ≡ false → LoseNothing course.now.config history.new → IfOk result HasRightLogs }
    ensures faultless { history.old ≡ [] → course.now.stops ≡ false → any_on course.now.switches ≡ false → LoseNothing course.now.config history.new → IfOk result HasNoFaultInLogs }
    ensures lossless { history.old ≡ [] → course.now.unclean ≡ 0 → OnOk result (LoseNothing course.now.config history.new) }
{
    let script = Script::from_seed(alloc, course.seed, course.words)?;
    let cluster = cluster_of_script(alloc, course, &script, history)?;
    let evidence = evidence_of(&cluster, course.stops);
    drop(cluster);
    Ok(evidence?)
}

/// A cluster that has done what the script says, and then has broken the rules whose switches are on.
#[tactic(auto, using(crate::proofs::Deeds::kept_on, crate::proofs::Deeds::lossless_new))]
pub(crate) fn cluster_of_script(
    alloc: Global,
    course: &Course,
    script: &Script,
    history: &mut History,
) -> Result<Cluster, SimulationFault>
    ensures kept { IfOk result (λ cluster. IsKept (new_course course.now.config) history.old cluster history.new) }
    ensures honest { any_on course.now.switches ≡ false → IfOk result (λ cluster. cluster.honest ≡ true) }
    ensures rules { OnOk result (HasBroken course.now.switches history.new) }
    ensures lossless { course.now.unclean ≡ 0 → IfOk result (λ cluster. LosesNothing cluster.world) }
{
    let mut cluster = new_cluster(alloc, course.config)?;
    if let Err(fault) = drive(alloc, &mut cluster, history, course, script) {
        drop(cluster);
        return Err(fault);
    }
    match break_rules(alloc, &mut cluster, history, course) {
        Ok(()) => Ok(cluster),
        Err(_) => {
            drop(cluster);
            Err(SimulationFault::OutOfMemory)
        }
    }
}

/// Drives a cluster by what the script says.
fn drive(
    alloc: Global,
    cluster: &mut Cluster,
    history: &mut History,
    course: &Course,
    script: &Script,
) -> Result<(), SimulationFault>
    ensures kept { IsKept cluster.old history.old cluster.new history.new }
    ensures honest { any_on course.now.switches ≡ false → cluster.new.honest ≡ cluster.old.honest }
    ensures lossless { course.now.unclean ≡ 0 → LosesNothing cluster.old.world → LosesNothing cluster.new.world }
{
    let settings = course.settings();
    let unmet = run_kept(alloc, cluster, history, script, &settings)?;
    none_unmet(unmet)?;
    if losses_of(cluster) < course.unclean {
        return Err(SimulationFault::Unfit(UNCLEAN, "no partition has a record to lose"));
    }
    Ok(())
}

/// How many elections have lost records.
fn losses_of(cluster: &Cluster) -> u64 {
    let mut count = 0u64;
    for election in cluster.elections() {
        if election.lost > 0 {
            count = count.saturating_add(1);
        }
    }
    count
}

/// Sets the switches, if any is on, and drives the cluster by the events that show those which are, unless these are left out.
#[tactic(auto, using(crate::proofs::Deeds::kept_on, crate::proofs::Deeds::kept_still, crate::proofs::Deeds::set_stays))]
fn break_rules(
    alloc: Global,
    cluster: &mut Cluster,
    history: &mut History,
    course: &Course,
) -> Result<(), AllocError>
    ensures kept { IsKept cluster.old history.old cluster.new history.new }
    ensures honest { any_on course.now.switches ≡ false → cluster.new.honest ≡ cluster.old.honest }
    ensures rules { OnOk result (HasBroken course.now.switches history.new) }
    ensures lossless { LosesNothing cluster.old.world → LosesNothing cluster.new.world }
{
    if !course.switches.any_on() {
        return Ok(());
    }
    history.set(cluster, course.switches)?;
    show(alloc, cluster, history, course)
}

/// Drives the cluster by the events that show the switches, unless these are left out.
#[tactic(auto, using(crate::proofs::Deeds::kept_on, crate::proofs::Deeds::kept_still))]
fn show(
    alloc: Global,
    cluster: &mut Cluster,
    history: &mut History,
    course: &Course,
) -> Result<(), AllocError>
    ensures kept { IsKept cluster.old history.old cluster.new history.new }
    ensures lossless { LosesNothing cluster.old.world → LosesNothing cluster.new.world }
{
    if !course.is_shown {
        return Ok(());
    }
    for switch in SWITCHES {
        if is_on(course.switches, switch) {
            run_tail_kept(alloc, cluster, history, switch)?;
        }
    }
    Ok(())
}
