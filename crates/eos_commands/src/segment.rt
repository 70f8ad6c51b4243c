//! The listing of a segment, and the check of its producers.

use crate::decoding::options_of;
use eos_disk::{Cause, HostDisk};
use eos_ending::{Ending, STANDARD, end};
use eos_segment::{RunFault, chain_file, chain_to, dump_file, dump_to};
use eos_words::Answer;
use std::io;

/// How the name of a fold ends.
const FOLD: &str = ".fold";

/// Answers about the segment in this file, or on standard input where the name is `-`: on standard output, or on standard error
/// why it can't. Gives the exit status.
#[inline(never)]
pub fn answer_segment(rt: &HostRuntime, answer: Answer<'_>, file: &str) -> u8 {
    let answered = if file == STANDARD {
        answer_input(rt, answer)
    } else {
        answer_file(rt, answer, file)
    };
    let cause = cause_of_none(rt, answered, file);
    if matches!(answered, Ok(1)) && file.ends_with(FOLD) {
        let _ = eprint!(rt;
            "eoscheck: {file} has the name of a fold, which check reads; dump and chain read segments\n"
        );
    }
    end(rt, Ending::of_answer(answered, file, STANDARD, &cause))
}

/// Why there is no answer about this file, where it is the file's.
fn cause_of_none(rt: &HostRuntime, answered: Result<u8, RunFault>, file: &str) -> Cause {
    match answered {
        Err(RunFault::Read) if file == STANDARD => Cause::of_reader(rt.alloc(), &mut rt.reader()),
        Err(RunFault::Read) => Cause::of_file(rt.alloc(), &HostDisk { rt }, file),
        Err(RunFault::Limit) => Cause::long_file(rt.alloc(), file),
        _ => Cause::Unknown,
    }
}

/// Answers about the segment in the file of this path, on standard output.
fn answer_file(rt: &HostRuntime, answer: Answer<'_>, path: &str) -> Result<u8, RunFault> {
    let mut writer = io::writer(rt);
    match answer {
        Answer::Listing(words) => {
            let options = options_of(&words, path);
            dump_file(rt.alloc(), &HostDisk { rt }, path, &options, &mut writer)
        }
        Answer::Chain => chain_file(rt.alloc(), &HostDisk { rt }, path, &mut writer),
    }
}

/// Answers about the segment on standard input, on standard output.
fn answer_input(rt: &HostRuntime, answer: Answer<'_>) -> Result<u8, RunFault> {
    let mut writer = io::writer(rt);
    match answer {
        Answer::Listing(words) => {
            let options = options_of(&words, STANDARD);
            dump_to(rt.alloc(), &options, &mut rt.reader(), &mut writer)
        }
        Answer::Chain => chain_to(rt.alloc(), &mut rt.reader(), &mut writer),
    }
}
