//! What is done: the words, the files and streams that they name, and what the outside is told.

use crate::tellings::check;
use eos_commands::{
    answer_segment, explain_code, fold_partitions, init_folder, print_coordinators,
    verify_partitions,
};
use eos_drawing::draw_folder;
use eos_ending::{Ending, STANDARD, end};
use eos_explaining::explain_folder;
use eos_simulate::{shrink_history, simulate_every, simulate_folder};
use eos_words::{NoRequest, Request, read_words};
use std::alloc::Global;
use std::io::{ErrorKind, IsTerminal};
use std::sync::Wait;
use std::thread::Threads;
use std::{env, io};

/// The exit status of a run whose standard output is a pipe that nobody reads any more, as a shell tells it of programs that end by
/// the signal of that: 128 and the number of SIGPIPE.
const CLOSED_PIPE: u8 = 141;

/// Does what the words of the command line say, and gives the exit status.
pub(crate) fn obey_words(rt: &HostRuntime, threads: &(impl Threads + Wait + Sync)) -> u8 {
    let alloc = rt.alloc();
    match take_words(rt, alloc) {
        Ok(words) => obey(rt, threads, words.as_slice()),
        Err(e) if e.kind() == ErrorKind::OutOfMemory => end(rt, Ending::OutOfMemory),
        Err(_) => end(rt, Ending::NotText),
    }
}

fn take_words(rt: &HostRuntime, alloc: Global) -> io::Result<Vec<String>> {
    let words: Vec<String> = env::args(rt)?.collect(alloc)?;
    Ok(words)
}

fn obey(rt: &HostRuntime, threads: &(impl Threads + Wait + Sync), words: &[String]) -> u8 {
    if words.len() <= 1 && rt.stdin().is_terminal() {
        return tell_how_to_begin(rt);
    }
    match read_words(rt, rt.alloc(), words) {
        Ok(request) => act(rt, threads, request),
        Err(NoRequest::Helped) => end(rt, Ending::Helped),
        Err(NoRequest::NobodyReads) => end(rt, Ending::Answered(CLOSED_PIPE)),
        Err(NoRequest::CannotPrint) => end(rt, Ending::CannotWrite(STANDARD)),
        Err(NoRequest::BadWords) => end(rt, Ending::BadWords),
        Err(NoRequest::OutOfMemory) => end(rt, Ending::OutOfMemory),
    }
}

/// Somebody sits there and has given no words: says with which to begin.
fn tell_how_to_begin(rt: &HostRuntime) -> u8 {
    let _ = eprint!(rt;
        "eoscheck: no words; 'eoscheck check FOLDER' checks a folder of logs, 'eoscheck --help' says what else there is\n"
    );
    end(rt, Ending::BadWords)
}

fn act(rt: &HostRuntime, threads: &(impl Threads + Wait + Sync), request: Request<'_>) -> u8 {
    match request {
        Request::Segment { answer, file } => answer_segment(rt, answer, file),
        Request::Check(words) => check(rt, threads, &words),
        Request::Draw(words) => draw_folder(rt, threads, &words),
        Request::Explain { code } => explain_code(rt, code),
        Request::Story(words) => explain_folder(rt, threads, &words),
        Request::Simulate(words) => simulate_folder(rt, &words),
        Request::Every(words) => simulate_every(rt, threads, &words),
        Request::Shrink(words) => shrink_history(rt, threads, &words),
        Request::Fold(words) => fold_partitions(rt, &words),
        Request::Verify(words) => verify_partitions(rt, words.folder, words.logs.as_slice()),
        Request::Init(words) => init_folder(rt, &words),
        Request::Coordinator(words) => print_coordinators(rt, &words),
    }
}
