//! A cluster that a script drives, from its first word to its end.

ghost use Rattle.std.specs.Prelude.{◌≡◌, None, IfOk};
ghost use Rattle.eos_machine.specs.Elections.{LosesNothing};
ghost use Rattle.eos_drive.specs.Driven.{IsDriven, IsKept};
ghost use Rattle.eos_drive.specs.steps.Drives.{lost_in, HasDone};

use crate::actors::Actors;
use crate::driver::Driver;
use crate::history::History;
use crate::mishap::Mishap;
use crate::plan::remainder;
use crate::script::Script;
use crate::settings::Settings;
use crate::settle::settle;
use eos_cluster::Cluster;
use std::alloc::{AllocError, Global};
use std::mem;

/// Drives a cluster by a script. Each word becomes at most one event, by what is known of the cluster. The applications read
/// from their committed offsets, in transactions, and write for the input at offset o of a partition of `in` its o modulo 3
/// outputs, or one note where that is 0; each transaction commits the offsets after all inputs whose outputs it writes.
/// The partition p of `in` belongs to the application of number p plus the group's generation, modulo their number.
/// Where there is a second group, its one application reads the committed records of `out` in the same way, and writes `fin`.
/// Meanwhile messages are lost and repeated, sessions are abandoned and go on as zombies, transactions are aborted, the members
/// of the group change, brokers and the coordinator restart. After the last word all inputs that are left are processed
/// without loss, and the cluster comes to rest, unless it takes no more events or an application's producer epochs are
/// spent. The same script does the same on every machine.
///
/// The cluster is a new one: of inputs and sessions that it had before, nothing is known.
///
/// # Errors
/// Where a growth was refused. The cluster has taken some of the events.
pub fn run_script(alloc: Global, cluster: &mut Cluster, script: &Script) -> Result<(), AllocError>
    ensures driven { IsDriven cluster.old cluster.new }
    ensures config { cluster.new.config ≡ cluster.old.config }
    ensures honest { cluster.new.honest ≡ cluster.old.honest }
    ensures lossless { LosesNothing cluster.old.world → LosesNothing cluster.new.world }
{
    run_with(alloc, cluster, script, &Settings::today())?;
    Ok(())
}

/// The same with other settings. Rates that come to more than 1,000 leave the later ones less. A run that stops ends after its last word, at
/// rest or not. The answer is the first of the
/// mishaps that didn't happen, since no input suited it, or none came in where it was to. Where no leader is to be lost whose followers
/// lack records, no election loses one.
///
/// # Errors
/// Where a growth was refused. The cluster has taken some of the events.
pub fn run_with(
    alloc: Global,
    cluster: &mut Cluster,
    script: &Script,
    settings: &Settings<'_>,
) -> Result<Option<Mishap>, AllocError>
    ensures driven { IsDriven cluster.old cluster.new }
    ensures config { cluster.new.config ≡ cluster.old.config }
    ensures honest { settings.now.turning ≡ None → cluster.new.honest ≡ cluster.old.honest }
    ensures lossless { settings.now.unclean ≡ 0 → LosesNothing cluster.old.world → LosesNothing cluster.new.world }
{
    let mut driver = Driver::new(cluster, None);
    let answer = drive_words(alloc, cluster, &mut driver, script, settings);
    driver.end();
    answer
}

/// The same, and appends to a history what is done to the cluster: each event that it takes, with its reply, and each time that
/// its switches are set.
///
/// # Errors
/// Where a growth was refused, that of the history among them. The cluster has taken some of the events, which are kept.
pub fn run_kept(
    alloc: Global,
    cluster: &mut Cluster,
    history: &mut History,
    script: &Script,
    settings: &Settings<'_>,
) -> Result<Option<Mishap>, AllocError>
    ensures kept { IsKept cluster.old history.old cluster.new history.new }
    ensures config { cluster.new.config ≡ cluster.old.config }
    ensures honest { settings.now.turning ≡ None → cluster.new.honest ≡ cluster.old.honest }
    ensures lossless { settings.now.unclean ≡ 0 → LosesNothing cluster.old.world → LosesNothing cluster.new.world }
{
    let before = mem::replace(history, History::new(alloc));
    let mut driver = Driver::new(cluster, Some(before));
    let answer = drive_words(alloc, cluster, &mut driver, script, settings);
    driver.give_back(history);
    answer
}

fn drive_words(
    alloc: Global,
    cluster: &mut Cluster,
    driver: &mut Driver,
    script: &Script,
    settings: &Settings<'_>,
) -> Result<Option<Mishap>, AllocError>
    requires { driver.old.course ≡ cluster.old }
    ensures done { HasDone cluster.old driver.old cluster.new driver.new }
    ensures honest { settings.now.turning ≡ None → cluster.new.honest ≡ cluster.old.honest }
    ensures lossless { settings.now.unclean ≡ 0 → lost_in cluster.new.world ≡ lost_in cluster.old.world }
{
    let mut actors = Actors::new(alloc, cluster, settings)?;
    let taken = take_words(&mut actors, cluster, driver, script, settings);
    let unmet = actors.plan.unmet();
    drop(actors);
    taken?;
    Ok(unmet)
}

/// Takes each word, and settles what is left then, unless the run stops after its last word.
fn take_words(
    actors: &mut Actors,
    cluster: &mut Cluster,
    driver: &mut Driver,
    script: &Script,
    settings: &Settings<'_>,
) -> Result<(), AllocError>
    requires { driver.old.course ≡ cluster.old }
    ensures done { HasDone cluster.old driver.old cluster.new driver.new }
    ensures honest { settings.now.turning ≡ None → cluster.new.honest ≡ cluster.old.honest }
    ensures lossless { settings.now.unclean ≡ 0 → lost_in cluster.new.world ≡ lost_in cluster.old.world }
{
    let unclean_from = unclean_from(script);
    let mut unclean = settings.unclean;
    let mut number = 0u64;
    for word in script.words() {
        turn_on(cluster, driver, settings, number)?;
        actors.take_word(cluster, driver, *word)?;
        if number >= unclean_from {
            unclean = lose_if(actors, cluster, driver, unclean, u64::from(*word))?;
        }
        number = number.saturating_add(1);
    }
    turn_on(cluster, driver, settings, number)?;
    if settings.stops {
        return Ok(());
    }
    settle(actors, cluster, driver)
}

/// Loses a leader by this choice, if one is still to be. How many still are.
fn lose_if(
    actors: &mut Actors,
    cluster: &mut Cluster,
    driver: &mut Driver,
    unclean: u64,
    choice: u64,
) -> Result<u64, AllocError>
    requires { driver.old.course ≡ cluster.old }
    ensures done { HasDone cluster.old driver.old cluster.new driver.new }
    ensures honest { cluster.new.honest ≡ cluster.old.honest }
    ensures lossless { unclean ≡ 0 → lost_in cluster.new.world ≡ lost_in cluster.old.world }
    ensures none { unclean ≡ 0 → IfOk result (λ left. left ≡ 0) }
{
    if unclean > 0 && actors.lose_leader(cluster, driver, choice)? {
        return Ok(unclean - 1);
    }
    Ok(unclean)
}

/// The word from which on leaders are lost whose followers lack records: one of the later half, by the first word.
fn unclean_from(script: &Script) -> u64 {
    let words = script.words();
    let half = words.len() / 2;
    let choice = match words.first() {
        Some(word) => u64::from(*word),
        None => 0,
    };
    (half as u64).saturating_add(remainder(choice / 32, words.len().saturating_sub(half)) as u64)
}

/// Turns the switches on that are to be on after so many words.
fn turn_on(
    cluster: &mut Cluster,
    driver: &mut Driver,
    settings: &Settings<'_>,
    number: u64,
) -> Result<(), AllocError>
    requires { driver.old.course ≡ cluster.old }
    ensures done { HasDone cluster.old driver.old cluster.new driver.new }
    ensures honest { settings.now.turning ≡ None → cluster.new.honest ≡ cluster.old.honest }
    ensures lossless { lost_in cluster.new.world ≡ lost_in cluster.old.world }
{
    if let Some(turning) = settings.turning
        && turning.after == number
    {
        driver.set(cluster, turning.switches)?;
    }
    Ok(())
}
