//! The end of a script: what is left is processed without loss.

ghost use Rattle.std.specs.Prelude.{◌≡◌};
ghost use Rattle.eos_drive.specs.steps.Drives.{HasAsked};

use crate::actors::Actors;
use crate::driver::Driver;
use crate::instance::Choice;
use eos_cluster::{Cluster, MAX_EVENTS};
use std::alloc::AllocError;

/// How an instance takes its turns at the end.
const STEADY: Choice = Choice {
    inputs: 3,
    aborts: false,
};

/// Processes all inputs that are left without loss, those of the first group before those of the second, and brings the cluster
/// to rest. Where the cluster breaks its rules, so that an application can't go on, its transaction is aborted in the end.
pub(crate) fn settle(
    actors: &mut Actors,
    cluster: &mut Cluster,
    driver: &mut Driver,
) -> Result<(), AllocError>
    requires { driver.old.course ≡ cluster.old }
    ensures { HasAsked cluster.old driver.old cluster.new driver.new }
{
    let applications = actors.applications;
    actors.instances.truncate(applications);
    actors.restart_coordinator(cluster, driver)?;
    carry_all(actors, cluster, driver)?;
    for _ in 0..applications.saturating_add(2) {
        if finish_each(actors, cluster, driver)? {
            return Ok(());
        }
    }
    begin_each(actors, cluster, driver)
}

/// All messages arrive that are on their way.
fn carry_all(
    actors: &mut Actors,
    cluster: &mut Cluster,
    driver: &mut Driver,
) -> Result<(), AllocError>
    requires { driver.old.course ≡ cluster.old }
    ensures { HasAsked cluster.old driver.old cluster.new driver.new }
{
    for _ in 0..MAX_EVENTS {
        if actors.network.is_empty() {
            break;
        }
        actors.carry(cluster, driver, 0)?;
    }
    Ok(())
}

/// Each application processes what is left to it. Whether nothing was kept from any of them.
fn finish_each(
    actors: &mut Actors,
    cluster: &mut Cluster,
    driver: &mut Driver,
) -> Result<bool, AllocError>
    requires { driver.old.course ≡ cluster.old }
    ensures { HasAsked cluster.old driver.old cluster.new driver.new }
{
    let mut is_finished = true;
    for number in 0..actors.instances.len() {
        is_finished = finish(actors, cluster, driver, number)? && is_finished;
    }
    Ok(is_finished)
}

/// An application takes its turns until nothing is left to it, or it is kept out. Whether nothing is left.
fn finish(
    actors: &mut Actors,
    cluster: &mut Cluster,
    driver: &mut Driver,
    number: usize,
) -> Result<bool, AllocError>
    requires { driver.old.course ≡ cluster.old }
    ensures { HasAsked cluster.old driver.old cluster.new driver.new }
{
    let most = actors.plan.inputs().saturating_mul(64).saturating_add(1000);
    for _ in 0..most {
        actors.take_turn(cluster, driver, number, STEADY)?;
        carry_all(actors, cluster, driver)?;
        match actors.instances.get(number) {
            Some(instance) if instance.rests() => return Ok(instance.has_finished()),
            Some(_) => {}
            None => return Ok(true),
        }
    }
    Ok(false)
}

/// Each application begins a new session, which aborts what an earlier one left open.
fn begin_each(
    actors: &mut Actors,
    cluster: &mut Cluster,
    driver: &mut Driver,
) -> Result<(), AllocError>
    requires { driver.old.course ≡ cluster.old }
    ensures { HasAsked cluster.old driver.old cluster.new driver.new }
{
    for number in 0..actors.instances.len() {
        actors.forget(number);
        begin(actors, cluster, driver, number)?;
        begin(actors, cluster, driver, number)?;
    }
    Ok(())
}

/// A new session begins, or what keeps it from that comes to its end.
fn begin(
    actors: &mut Actors,
    cluster: &mut Cluster,
    driver: &mut Driver,
    number: usize,
) -> Result<(), AllocError>
    requires { driver.old.course ≡ cluster.old }
    ensures { HasAsked cluster.old driver.old cluster.new driver.new }
{
    actors.take_turn(cluster, driver, number, STEADY)?;
    carry_all(actors, cluster, driver)
}
