//! The command `shrink`, and what it says on standard error.

use crate::folder::{end_refused, end_unreplayed};
use crate::shrinking::ShrinkFault;
use crate::shrunk_file::{Unshrunk, shrink_file};
use eos_check::Verdict;
use eos_disk::HostDisk;
use eos_ending::{Ending, STANDARD, Subject, end, end_unchanged, end_unread};
use eos_text::page_of;
use eos_verdict::verdict_line;
use eos_words::Shrink;
use std::alloc::AllocError;
use std::thread::Threads;

/// Writes the smallest part of a history that is found whose first fault has the code that the words name; and then on standard output how
/// small it is. Gives the exit status.
#[inline(never)]
pub fn shrink_history(rt: &HostRuntime, threads: &(impl Threads + Sync), words: &Shrink<'_>) -> u8 {
    if page_of(words.code).is_none() {
        return end(rt, Ending::NoSuchCode(words.code));
    }
    let mut disk = HostDisk { rt };
    match shrink_file(rt.alloc(), threads, &mut disk, words, &mut rt.reader()) {
        Ok(line) => match print!(rt; "{line}") {
            Ok(()) => 0,
            Err(_) => end(rt, Ending::CannotWrite(STANDARD)),
        },
        Err(why) => {
            let status = end_unshrunk(rt, words, &why);
            drop(why);
            status
        }
    }
}

/// Says why nothing is left, and gives the exit status.
fn end_unshrunk(rt: &HostRuntime, words: &Shrink<'_>, why: &Unshrunk) -> u8 {
    match why {
        Unshrunk::File(fault) => end_unchanged(rt, words.file, *fault),
        Unshrunk::Unread(fault) => end_unread(rt, Subject::Only, fault),
        Unshrunk::Refused(fault) => end_refused(rt, words.history, *fault),
        Unshrunk::Unfit(fault, lines) => end_unfit(rt, words, fault, *lines),
    }
}

/// Says why a schedule, which has so many lines of what is done, isn't made small.
fn end_unfit(rt: &HostRuntime, words: &Shrink<'_>, fault: &ShrinkFault, lines: u64) -> u8 {
    match fault {
        ShrinkFault::Unreplayed(fault) => end_unreplayed(rt, words.history, lines, fault),
        ShrinkFault::Otherwise(verdict) => match tell_verdict(rt, words, verdict) {
            Ok(()) => 2,
            Err(_) => end(rt, Ending::OutOfMemory),
        },
        ShrinkFault::OutOfMemory => end(rt, Ending::OutOfMemory),
    }
}

/// Says what the verdict of a history is that should have been another.
fn tell_verdict(rt: &HostRuntime, words: &Shrink<'_>, verdict: &Verdict) -> Result<(), AllocError> {
    let (history, code) = (words.history, words.code);
    let line = verdict_line(rt.alloc(), verdict)?;
    let _ = eprint!(rt; "eoscheck: {history}: it gives no {code} first, but: {line}");
    Ok(())
}
