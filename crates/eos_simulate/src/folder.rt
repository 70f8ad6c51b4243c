//! The command `simulate`, and what it says on standard error.

use crate::folders::simulate_folders;
use crate::leaving::{Unleft, Unsimulated, simulate_to};
use crate::making::SimulationFault;
use crate::replaying::ReplayFault;
use eos_disk::{Cause, ChangeFault, HostDisk, WritingFault};
use eos_ending::{Ending, STANDARD, Subject, end, end_about, end_unchanged, end_unread};
use eos_history_lines::{Line, LineFault, ScheduleFault, line_text};
use eos_words::Simulation;
use std::alloc::AllocError;
use std::io;

/// Writes what a simulated cluster leaves as a new folder, and its history and its labels to new files, if that is asked for; and then on
/// standard output that it did; or so many of these folders. Gives the exit status.
#[inline(never)]
pub fn simulate_folder(rt: &HostRuntime, words: &Simulation<'_>) -> u8 {
    match words.count {
        Some(count) => simulate_folders(rt, words, count),
        None => simulate_one(rt, words),
    }
}

#[inline(never)]
fn simulate_one(rt: &HostRuntime, words: &Simulation<'_>) -> u8 {
    let mut disk = HostDisk { rt };
    match simulate_to(
        rt.alloc(),
        &mut disk,
        words,
        &mut rt.reader(),
        &mut io::writer(rt),
    ) {
        Ok(status) => status,
        Err(Unsimulated::CannotPrint) => end(rt, Ending::CannotWrite(STANDARD)),
        Err(Unsimulated::Unleft(why)) => {
            let status = end_unleft(rt, words, &why);
            drop(why);
            status
        }
    }
}

/// Says why nothing is left, and gives the exit status.
pub(crate) fn end_unleft(rt: &HostRuntime, words: &Simulation<'_>, why: &Unleft) -> u8 {
    let schedule = words.schedule.unwrap_or(STANDARD);
    match why {
        Unleft::History(fault) => end_unchanged(rt, words.history.unwrap_or(STANDARD), *fault),
        Unleft::Labels(fault) => end_unchanged(rt, words.labels.unwrap_or(STANDARD), *fault),
        Unleft::Unread(fault) => end_unread(rt, Subject::Only, fault),
        Unleft::Refused(fault) => end_refused(rt, schedule, *fault),
        Unleft::Unreplayed(fault, lines) => end_unreplayed(rt, schedule, *lines, fault),
        Unleft::Unmade(fault) => end_unmade(rt, Subject::Only, *fault),
        Unleft::ThereAlready => end_unchanged(rt, words.folder, ChangeFault::ThereAlready),
        Unleft::Unwritten(fault) => end_unwritten(rt, fault),
    }
}

/// Says which line of a schedule is refused, and why.
pub(crate) fn end_refused(rt: &HostRuntime, path: &str, fault: ScheduleFault) -> u8 {
    if matches!(fault.fault, LineFault::OutOfMemory) {
        return end(rt, Ending::OutOfMemory);
    }
    let _ = eprint!(rt; "eoscheck: {path}: {fault}\n");
    2
}

/// Says why a schedule, which has so many lines of what is done, leaves no evidence.
pub(crate) fn end_unreplayed(rt: &HostRuntime, path: &str, lines: u64, fault: &ReplayFault) -> u8 {
    match fault {
        ReplayFault::NotAtRest => end(rt, Ending::NotAtRest),
        ReplayFault::Limit => end(rt, Ending::Limit(&Cause::Unknown)),
        ReplayFault::OutOfMemory => end(rt, Ending::OutOfMemory),
        ReplayFault::Totals(name, said, counted) => {
            let line = lines.saturating_add(2);
            let _ = eprint!(rt;
                "eoscheck: {path}: line {line}: {name} is {said}, and the lines come to {counted}\n"
            );
            2
        }
        ReplayFault::Otherwise(line) => match tell_otherwise(rt, path, line) {
            Ok(()) => 1,
            Err(_) => end(rt, Ending::OutOfMemory),
        },
    }
}

/// Says that a line is answered otherwise than it says, and how.
fn tell_otherwise(rt: &HostRuntime, path: &str, line: &Line) -> Result<(), AllocError> {
    let number = line.number;
    let text = line_text(rt.alloc(), line)?;
    let _ = eprint!(rt; "eoscheck: {path}: number {number} is answered otherwise: {text}");
    Ok(())
}

/// Says why there is no evidence of a simulated cluster.
pub(crate) fn end_unmade(rt: &HostRuntime, subject: Subject<'_>, fault: SimulationFault) -> u8 {
    match fault {
        SimulationFault::NotAtRest => end_about(rt, subject, Ending::NotAtRest),
        SimulationFault::Limit => end_about(rt, subject, Ending::Limit(&Cause::Unknown)),
        SimulationFault::Unfit(what, why) => end_about(rt, subject, Ending::Unfit(what, why)),
        SimulationFault::OutOfMemory => end_about(rt, subject, Ending::OutOfMemory),
    }
}

/// Says why a folder wasn't written.
fn end_unwritten(rt: &HostRuntime, fault: &WritingFault) -> u8 {
    match fault {
        WritingFault::CannotWrite(path) => end(rt, Ending::CannotWrite(path.as_str())),
        WritingFault::OutOfMemory => end(rt, Ending::OutOfMemory),
    }
}
