//! What shows that a rule is broken: a few events for each switch, after which the checker names its fault.

ghost use Rattle.std.specs.Prelude.{◌≡◌, false};
ghost use Rattle.eos_machine.specs.Elections.{LosesNothing};
ghost use Rattle.eos_drive.specs.Driven.{IsDriven, IsKept};
ghost use Rattle.eos_drive.specs.steps.Drives.{is_election, HasAsked};

use crate::driver::Driver;
use crate::history::History;
use crate::request::as_i64;
use bytes::Bytes;
use eos_batch::Kind;
use eos_cluster::{Cluster, Switch};
use eos_machine::{Claim, Event, Reply};
use std::alloc::{AllocError, Global};
use std::mem;

/// The most end markers that a transaction can have: one for each partition.
const MOST_MARKERS: u64 = 64;

/// Asks a cluster for the events that show one of its switches, in a new session of application 0. Where the switch is on, the
/// checker then finds its fault in the evidence of a cluster of two applications with two partitions of `out`. Where a
/// number names nothing, or a session can't begin, the event is left out, so that it returns on every cluster.
///
/// # Errors
/// Where a growth was refused. The cluster has taken some of the events.
pub fn run_tail(cluster: &mut Cluster, switch: Switch) -> Result<(), AllocError>
    ensures driven { IsDriven cluster.old cluster.new }
    ensures config { cluster.new.config ≡ cluster.old.config }
    ensures honest { cluster.new.honest ≡ cluster.old.honest }
    ensures lossless { LosesNothing cluster.old.world → LosesNothing cluster.new.world }
{
    let mut driver = Driver::new(cluster, None);
    let answer = show(cluster, &mut driver, switch);
    driver.end();
    answer
}

/// The same, and appends to a history what is done to the cluster: each event that it takes, with its reply.
///
/// # Errors
/// Where a growth was refused, that of the history among them. The cluster has taken some of the events, which are kept.
pub fn run_tail_kept(
    alloc: Global,
    cluster: &mut Cluster,
    history: &mut History,
    switch: Switch,
) -> Result<(), AllocError>
    ensures kept { IsKept cluster.old history.old cluster.new history.new }
    ensures config { cluster.new.config ≡ cluster.old.config }
    ensures honest { cluster.new.honest ≡ cluster.old.honest }
    ensures lossless { LosesNothing cluster.old.world → LosesNothing cluster.new.world }
{
    let before = mem::replace(history, History::new(alloc));
    let mut driver = Driver::new(cluster, Some(before));
    let answer = show(cluster, &mut driver, switch);
    driver.give_back(history);
    answer
}

/// The events that show a switch.
fn show(cluster: &mut Cluster, driver: &mut Driver, switch: Switch) -> Result<(), AllocError>
    requires { driver.old.course ≡ cluster.old }
    ensures { HasAsked cluster.old driver.old cluster.new driver.new }
{
    let Some(session) = done(cluster, driver, Event::Start { application: 0 })? else {
        return Ok(());
    };
    let session = session as usize;
    match switch {
        Switch::KeepDuplicates => send_twice(cluster, driver, session),
        Switch::NoFence => send_late(cluster, driver, session),
        Switch::NoBump | Switch::LoseMarker => send_to(cluster, driver, session, 1),
        Switch::SwapMarker | Switch::HideListing => send_to(cluster, driver, session, 2),
        Switch::IgnoreGeneration => commit_twice(cluster, driver, session),
    }
}

/// A message is delivered twice within its transaction.
fn send_twice(cluster: &mut Cluster, driver: &mut Driver, session: usize) -> Result<(), AllocError>
    requires { driver.old.course ≡ cluster.old }
    ensures { HasAsked cluster.old driver.old cluster.new driver.new }
{
    let message = produce(cluster, driver, session, 0, 0)?;
    deliver(cluster, driver, message)?;
    deliver(cluster, driver, message)?;
    end(cluster, driver, session, Kind::Commit)
}

/// Of two messages the second arrives after the transaction was aborted.
fn send_late(cluster: &mut Cluster, driver: &mut Driver, session: usize) -> Result<(), AllocError>
    requires { driver.old.course ≡ cluster.old }
    ensures { HasAsked cluster.old driver.old cluster.new driver.new }
{
    let first = produce(cluster, driver, session, 0, 0)?;
    let second = produce(cluster, driver, session, 0, 0)?;
    deliver(cluster, driver, first)?;
    end(cluster, driver, session, Kind::Abort)?;
    deliver(cluster, driver, second)
}

/// A message to each of the first partitions of `out`, one or two.
fn send_to(
    cluster: &mut Cluster,
    driver: &mut Driver,
    session: usize,
    partitions: usize,
) -> Result<(), AllocError>
    requires { driver.old.course ≡ cluster.old }
    ensures { HasAsked cluster.old driver.old cluster.new driver.new }
{
    let first = produce(cluster, driver, session, 0, 0)?;
    let second = if partitions > 1 {
        produce(cluster, driver, session, 1, 0)?
    } else {
        None
    };
    deliver(cluster, driver, first)?;
    deliver(cluster, driver, second)?;
    end(cluster, driver, session, Kind::Commit)
}

/// Two sessions of a past generation process the same input.
fn commit_twice(
    cluster: &mut Cluster,
    driver: &mut Driver,
    session: usize,
) -> Result<(), AllocError>
    requires { driver.old.course ≡ cluster.old }
    ensures { HasAsked cluster.old driver.old cluster.new driver.new }
{
    let Some(offset) = done(cluster, driver, Event::Feed { source: 0 })? else {
        return Ok(());
    };
    let Some(other) = done(cluster, driver, Event::Start { application: 1 })? else {
        return Ok(());
    };
    driver.ask(cluster, Event::Members { group: 0 })?;
    process(cluster, driver, session, offset)?;
    process(cluster, driver, other as usize, offset)
}

/// A session writes the one output of an input at `in-0`, and commits past it.
fn process(
    cluster: &mut Cluster,
    driver: &mut Driver,
    session: usize,
    offset: u64,
) -> Result<(), AllocError>
    requires { driver.old.course ≡ cluster.old }
    ensures { HasAsked cluster.old driver.old cluster.new driver.new }
{
    let output = produce(cluster, driver, session, 0, offset)?;
    let commit = done(
        cluster,
        driver,
        Event::Commit {
            session,
            source: 0,
            offset: Some(as_i64(offset.saturating_add(1))),
        },
    )?;
    deliver(cluster, driver, output)?;
    deliver(cluster, driver, commit)?;
    end(cluster, driver, session, Kind::Commit)
}

// ---- events

/// What an event was answered by `Done`, where it was.
fn done(cluster: &mut Cluster, driver: &mut Driver, event: Event) -> Result<Option<u64>, AllocError>
    requires course { driver.old.course ≡ cluster.old }
    requires other { is_election event ≡ false }
    ensures { HasAsked cluster.old driver.old cluster.new driver.new }
{
    match driver.ask(cluster, event)? {
        Reply::Done(number) => Ok(Some(number)),
        _ => Ok(None),
    }
}

/// The one output of an input at `in-0`, as a message.
fn produce(
    cluster: &mut Cluster,
    driver: &mut Driver,
    session: usize,
    partition: usize,
    offset: u64,
) -> Result<Option<u64>, AllocError>
    requires { driver.old.course ≡ cluster.old }
    ensures { HasAsked cluster.old driver.old cluster.new driver.new }
{
    let claim = Claim {
        topic: Bytes::from_static(b"in".as_slice()),
        partition: 0,
        offset: as_i64(offset),
        output: 1,
        of: 1,
    };
    done(
        cluster,
        driver,
        Event::Produce {
            session,
            partition,
            claim: Some(claim),
        },
    )
}

/// A message arrives, where there is one.
fn deliver(
    cluster: &mut Cluster,
    driver: &mut Driver,
    message: Option<u64>,
) -> Result<(), AllocError>
    requires { driver.old.course ≡ cluster.old }
    ensures { HasAsked cluster.old driver.old cluster.new driver.new }
{
    if let Some(message) = message {
        driver.ask(cluster, Event::Deliver { message })?;
    }
    Ok(())
}

/// The transaction of a session ends: its end and its end markers arrive.
fn end(
    cluster: &mut Cluster,
    driver: &mut Driver,
    session: usize,
    kind: Kind,
) -> Result<(), AllocError>
    requires { driver.old.course ≡ cluster.old }
    ensures { HasAsked cluster.old driver.old cluster.new driver.new }
{
    let Some(message) = done(cluster, driver, Event::End { session, kind })? else {
        return Ok(());
    };
    let Some(first) = done(cluster, driver, Event::Deliver { message })? else {
        return Ok(());
    };
    for place in 0..MOST_MARKERS {
        let message = first.saturating_add(place);
        if driver.ask(cluster, Event::Deliver { message })? == Reply::Unknown {
            break;
        }
    }
    Ok(())
}
