//! A schedule that is run again: what its lines say is done to a new cluster.

ghost use Rattle.std.specs.Prelude.{◌≡◌, ◌≢◌, ◌++◌, ◌∷◌, [], true, false, Some, IfOk, IfErr, IfSome, IsSome, OnOk, OnErr};
ghost use Rattle.std.specs.List.{AllZip};
ghost use Rattle.eos_history_lines.specs.declared.line.Deed.TheVariants.{Asked};
ghost use Rattle.eos_drive.specs.declared.deed.Deed.TheVariants as deeds;
ghost use Rattle.eos_drive.specs.Driven.{is_taken, IsKept};
ghost use Rattle.eos_simulate.specs.declared.replaying.ReplayFault.TheVariants.{OutOfMemory};
ghost use Rattle.eos_simulate.specs.Histories.{new_course, acts_of, acts_said, IsLeftBy, Agrees, IsAsSaid, FitsTotals};
ghost use Rattle.eos_simulate.specs.Replays.{IfOtherwise, DiffersFirst};
ghost use Rattle.eos_simulate.specs.steps.Passing.{HavePassed, DiffersAfter, HasPassed, HasDiffered, IsOther};

use crate::history_file::totals;
use crate::making::{SimulationFault, evidence_of, new_cluster};
use eos_cluster::Cluster;
use eos_drive::History;
use eos_evidence::Evidence;
use eos_history_lines::{Deed, Line, Schedule, Tail};
use eos_machine::{Event, Note, Reply};
use std::alloc::{AllocError, AllocFailed, Global};

/// Why a schedule leaves no evidence.
#[derive(Drop)]
pub enum ReplayFault {
    /// A transaction is open or still ending.
    NotAtRest,
    /// Its sizes aren't those that a cluster may have, it has more events than one takes, or its logs may have more segments than
    /// evidence may have.
    Limit,
    /// Its line is answered otherwise than it says: as this one does.
    Otherwise(Line),
    /// Its last line says this total otherwise than its other lines come to: what it says, and what they do.
    Totals(&'static str, u64, u64),
    /// A growth of memory was refused.
    OutOfMemory,
}

impl From<AllocError> for ReplayFault {
    ghost from_gives = { λ _ e. e ≡ OutOfMemory };

    fn from(_e: AllocError) -> ReplayFault {
        ReplayFault::OutOfMemory
    }
}

impl<T: Drop> From<AllocFailed<T>> for ReplayFault {
    ghost from_gives = { λ _ e. e ≡ OutOfMemory };

    fn from(_e: AllocFailed<T>) -> ReplayFault {
        ReplayFault::OutOfMemory
    }
}

/// Why there is no evidence, of a fault that a schedule can have too.
fn refused(fault: SimulationFault) -> ReplayFault
    ensures { IsOther result }
{
    match fault {
        SimulationFault::NotAtRest => ReplayFault::NotAtRest,
        SimulationFault::Limit | SimulationFault::Unfit(_, _) => ReplayFault::Limit,
        SimulationFault::OutOfMemory => ReplayFault::OutOfMemory,
    }
}

/// Does to a new cluster what the lines of a schedule say, one after the other, keeps that in a history, and gives the evidence
/// that is left: at rest, or, where the run stops, at any time.
///
/// # Errors
/// The first line that is answered otherwise than it says, where it says it; totals that aren't those of the lines; `NotAtRest`; `Limit`;
/// want of memory.
#[tactic(auto, using(crate::proofs::Deeds::passed_each, crate::proofs::Deeds::passed_acts, crate::proofs::Deeds::first_of_all, crate::proofs::Deeds::other_fault))]
pub fn replay(
    alloc: Global,
    schedule: &Schedule,
    history: &mut History,
    stops: bool,
) -> Result<Evidence, ReplayFault>
    ensures kept { history.old ≡ [] → IfOk result (IsLeftBy schedule.now.head.config history.new) }
    ensures done { history.old ≡ [] → OnOk result (acts_of history.new ≡ acts_said schedule.now.lines) }
    ensures answered { history.old ≡ [] → OnOk result (AllZip IsAsSaid history.new schedule.now.lines) }
    ensures totals { history.old ≡ [] → OnOk result (IfSome schedule.now.tail (FitsTotals history.new)) }
    ensures otherwise { history.old ≡ [] → IfErr result (λ fault. IfOtherwise fault (DiffersFirst schedule.now.lines history.new)) }
{
    let cluster = match replayed(alloc, schedule, history) {
        Ok(cluster) => cluster,
        Err(fault) => return Err(fault),
    };
    if let Err(fault) = compare_totals(alloc, schedule.tail, history) {
        drop(cluster);
        return Err(fault);
    }
    let evidence = evidence_of(&cluster, stops);
    drop(cluster);
    match evidence {
        Ok(evidence) => Ok(evidence),
        Err(fault) => Err(refused(fault)),
    }
}

#[tactic(auto, using(crate::proofs::Deeds::other_fault))]
fn replayed(
    alloc: Global,
    schedule: &Schedule,
    history: &mut History,
) -> Result<Cluster, ReplayFault>
    ensures kept { IfOk result (λ cluster. IsKept (new_course schedule.now.head.config) history.old cluster history.new) }
    ensures passed { OnOk result (HavePassed history.old history.new schedule.now.lines) }
    ensures otherwise { IfErr result (λ fault. IfOtherwise fault (DiffersAfter history.old schedule.now.lines history.new)) }
{
    let mut cluster = match new_cluster(alloc, schedule.head.config) {
        Ok(cluster) => cluster,
        Err(fault) => return Err(refused(fault)),
    };
    match take_lines(&mut cluster, history, schedule.lines.as_slice()) {
        Ok(()) => Ok(cluster),
        Err(fault) => {
            drop(cluster);
            Err(fault)
        }
    }
}

#[tactic(auto, using(crate::proofs::Deeds::kept_on, crate::proofs::Deeds::kept_still, crate::proofs::Deeds::none_passed))]
fn take_lines(
    cluster: &mut Cluster,
    history: &mut History,
    lines: &[Line],
) -> Result<(), ReplayFault>
    ensures kept { IsKept cluster.old history.old cluster.new history.new }
    ensures passed { OnOk result (HavePassed history.old history.new lines.now) }
    ensures otherwise { IfErr result (λ fault. IfOtherwise fault (DiffersAfter history.old lines.now history.new)) }
{
    for line in lines {
        if let Err(fault) = take_line(cluster, history, line) {
            return Err(fault);
        }
    }
    Ok(())
}

#[tactic(auto, using(crate::proofs::Deeds::passed_set, crate::proofs::Deeds::passed_note, crate::proofs::Deeds::kept_note, crate::proofs::Deeds::kept_same, crate::proofs::Deeds::passed_asked, crate::proofs::Deeds::differed, crate::proofs::Deeds::other_fault))]
fn take_line(cluster: &mut Cluster, history: &mut History, line: &Line) -> Result<(), ReplayFault>
    ensures kept { IsKept cluster.old history.old cluster.new history.new }
    ensures passed { OnOk result (HasPassed history.old history.new line.now) }
    ensures otherwise { IfErr result (λ fault. IfOtherwise fault (HasDiffered history.old history.new line.now)) }
{
    match &line.deed {
        Deed::Set(switches) => match history.set(cluster, *switches) {
            Ok(()) => Ok(()),
            Err(_) => Err(ReplayFault::OutOfMemory),
        },
        Deed::Noted(note) => match keep_note(history, note) {
            Ok(()) => Ok(()),
            Err(_) => Err(ReplayFault::OutOfMemory),
        },
        Deed::Asked { event, reply } => {
            let met = match ask(cluster, history, event) {
                Ok(met) => met,
                Err(fault) => return Err(fault),
            };
            if agrees(met, *reply) {
                return Ok(());
            }
            match answered(line.number, event, met) {
                Ok(told) => Err(ReplayFault::Otherwise(told)),
                Err(_) => Err(ReplayFault::OutOfMemory),
            }
        }
    }
}

/// Keeps what a line says of what happened beside the cluster.
fn keep_note(history: &mut History, note: &Note) -> Result<(), AllocError>
    ensures ok { OnOk result (history.new ≡ history.old ++ deeds.Noted note.now ∷ []) }
    ensures err { OnErr result (history.new ≡ history.old) }
{
    history.note(note.clone()?)
}

/// Compares the totals that a schedule says, if it does, with those of what was done.
fn compare_totals(alloc: Global, tail: Option<Tail>, history: &History) -> Result<(), ReplayFault>
    ensures ok { OnOk result (IfSome tail (FitsTotals history.now)) }
    ensures other { IfErr result IsOther }
{
    let Some(said) = tail else {
        return Ok(());
    };
    let Ok(counted) = totals(alloc, history) else {
        return Err(ReplayFault::OutOfMemory);
    };
    if said.events != counted.events {
        return Err(ReplayFault::Totals("events", said.events, counted.events));
    }
    if said.lost != counted.lost {
        return Err(ReplayFault::Totals("lost", said.lost, counted.lost));
    }
    if said.repeated != counted.repeated {
        return Err(ReplayFault::Totals("repeated", said.repeated, counted.repeated));
    }
    if said.transactions != counted.transactions {
        return Err(ReplayFault::Totals("transactions", said.transactions, counted.transactions));
    }
    Ok(())
}

/// Whether an event was answered as is said, where that is said.
fn agrees(met: Reply, said: Option<Reply>) -> bool
    ensures yes { result ≡ true → Agrees (Some met) said }
    ensures no { result ≡ false → IfSome said (λ reply. met ≢ reply) × IsSome said }
{
    match said {
        None => true,
        Some(reply) => met == reply,
    }
}

/// The line of this number, of an event that was answered so.
fn answered(number: u64, event: &Event, met: Reply) -> Result<Line, AllocError>
    ensures { IfOk result (λ line. line ≡ record { number = number; deed = Asked event.now (Some met) }) }
{
    Ok(Line {
        number,
        deed: Deed::Asked {
            event: event.clone()?,
            reply: Some(met),
        },
    })
}

/// Whether an event was taken, by its reply.
fn is_taken(reply: Reply) -> bool
    ensures { result ≡ is_taken reply }
{
    !matches!(reply, Reply::OutOfMemory | Reply::Full)
}

/// What the cluster answers to an event that it takes.
#[tactic(auto, using(crate::proofs::Deeds::taken_deed))]
fn ask(cluster: &mut Cluster, history: &mut History, event: &Event) -> Result<Reply, ReplayFault>
    ensures kept { IsKept cluster.old history.old cluster.new history.new }
    ensures done { IfOk result (λ met. history.new ≡ history.old ++ deeds.Asked event.now met ∷ []) }
    ensures other { IfErr result IsOther }
{
    let Ok(event) = event.clone() else {
        return Err(ReplayFault::OutOfMemory);
    };
    let reply = history.ask(cluster, event);
    if is_taken(reply) {
        return Ok(reply);
    }
    match reply {
        Reply::Full => Err(ReplayFault::Limit),
        _ => Err(ReplayFault::OutOfMemory),
    }
}
