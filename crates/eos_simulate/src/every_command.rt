//! The command `simulate --every`, and what it says.

use crate::exploring::{Accused, Explored, Unexplored, explore};
use crate::folder::end_unmade;
use crate::history_file::history_text;
use eos_check::{Fault, Verdict};
use eos_ending::{Ending, STANDARD, Subject, end};
use eos_text::{push_text, push_value};
use eos_verdict::verdict_line;
use eos_words::Every;
use std::alloc::{AllocError, Global};
use std::thread::Threads;

/// Runs a tiny cluster by each schedule of at most so many words; and then says on standard output how many these were, or gives the history
/// of the first run of which the check says no. Gives the exit status.
#[inline(never)]
pub fn simulate_every(rt: &HostRuntime, threads: &(impl Threads + Sync), words: &Every<'_>) -> u8 {
    let told = match explore(rt.alloc(), threads, words) {
        Ok(explored) => tell_explored(rt, explored),
        Err(Unexplored::Accused(accused)) => tell_accused(rt, accused),
        Err(Unexplored::Unmade(fault)) => Ok(end_unmade(rt, Subject::Only, fault)),
    };
    match told {
        Ok(status) => status,
        Err(_) => end(rt, Ending::OutOfMemory),
    }
}

fn tell_explored(rt: &HostRuntime, explored: Explored) -> Result<u8, AllocError> {
    let line = line_of(rt.alloc(), explored)?;
    match print!(rt; "{line}") {
        Ok(()) => Ok(0),
        Err(_) => Ok(end(rt, Ending::CannotWrite(STANDARD))),
    }
}

fn tell_accused(rt: &HostRuntime, accused: Accused) -> Result<u8, AllocError> {
    let Accused {
        head,
        history,
        fault,
    } = accused;
    let words = head.words;
    let line = fault_line(rt.alloc(), fault)?;
    let text = history_text(rt.alloc(), &head, &history)?;
    let _ = eprint!(rt; "eoscheck: by a schedule of length {words}: {line}");
    match print!(rt; "{text}") {
        Ok(()) => Ok(1),
        Err(_) => Ok(end(rt, Ending::CannotWrite(STANDARD))),
    }
}

fn fault_line(alloc: Global, fault: Fault) -> Result<String, AllocError> {
    let verdict = Verdict::No(fault);
    let line = verdict_line(alloc, &verdict);
    drop(verdict);
    line
}

/// The line that tells that none is accused.
fn line_of(alloc: Global, explored: Explored) -> Result<String, AllocError> {
    let mut line = String::new(alloc);
    push_value(&mut line, "every schedules=", &explored.schedules)?;
    push_value(&mut line, " states=", &explored.states)?;
    push_text(&mut line, " accused=0\n")?;
    Ok(line)
}
