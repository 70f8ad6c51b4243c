//! `init`: the manifest of a folder of copied logs.

use crate::{Given, InitFault, Made, init, name_text};
use eos_disk::{Cause, HostDisk};
use eos_ending::{Ending, STANDARD, Subject, end, end_unread};
use eos_evidence::SpecFault;
use eos_words::Init;
use std::alloc::AllocError;
use std::io;

const DOUBLED_APPS: &str =
    "--app: a topic stands twice or is Kafka's own, or two have one group or one output topic";

const DOUBLED_ENDS: &str = "a partition has two ends";

/// Writes the manifest of a folder, what is to be told of the logs on standard error, and how many partitions it has on
/// standard output. Gives the exit status.
#[inline(never)]
pub fn init_folder(rt: &HostRuntime, words: &Init<'_>) -> u8 {
    if words.ends.is_some() == words.ends_from_logs {
        return refuse(rt, "init takes one of --ends FILE and --ends-from-logs");
    }
    if words.version1 && words.apps.len() != 1 {
        return refuse(rt, "init --version1 takes one --app");
    }
    let given = Given {
        apps: words.apps.as_slice(),
        ends: words.ends,
        folder: words.folder,
    };
    match init(rt.alloc(), &mut HostDisk { rt }, given, &mut rt.reader()) {
        Ok(made) => tell(rt, &made),
        Err(fault) => {
            let told = explain(rt, words, &fault);
            drop(fault);
            match told {
                Ok(status) => status,
                Err(_) => end(rt, Ending::OutOfMemory),
            }
        }
    }
}

/// Says on standard error why the words are refused, and gives the exit status.
pub(crate) fn refuse(rt: &HostRuntime, why: &str) -> u8 {
    let _ = eprint!(rt; "eoscheck: {why}\n");
    2
}

fn tell(rt: &HostRuntime, made: &Made) -> u8 {
    for note in made.notes.as_slice() {
        let _ = eprint!(rt; "eoscheck: note: {note}\n");
    }
    match made.told_to(&mut io::writer(rt)) {
        Ok(()) => 0,
        Err(_) => end(rt, Ending::CannotWrite(STANDARD)),
    }
}

/// Says why no manifest was made.
fn explain(rt: &HostRuntime, words: &Init<'_>, fault: &InitFault) -> Result<u8, AllocError> {
    let alloc = rt.alloc();
    let why = match fault {
        InitFault::ThereAlready(path) => {
            format!(in alloc; "cannot write {path}: it is there already")?
        }
        InitFault::App(at) => {
            let word = if *at < words.apps.len() {
                words.apps[*at]
            } else {
                ""
            };
            format!(in alloc; "--app {word}: not GROUP:SOURCE,..:OUTPUT,..")?
        }
        InitFault::Line(number) => {
            let file = words.ends.unwrap_or(STANDARD);
            format!(in alloc; "line {number} of {file}: not TOPIC:PARTITION:OFFSET")?
        }
        InitFault::NoEnd(name) => {
            let name = name_text(alloc, name)?;
            format!(in alloc; "{name} has no end")?
        }
        InitFault::Unread(fault) => return Ok(end_unread(rt, Subject::Only, fault)),
        InitFault::CannotWrite(path) => return Ok(end(rt, Ending::CannotWrite(path.as_str()))),
        InitFault::Apps(SpecFault::Field) => String::from_str(alloc, DOUBLED_APPS)?,
        InitFault::Ends(SpecFault::Field) => String::from_str(alloc, DOUBLED_ENDS)?,
        InitFault::Apps(_) | InitFault::Ends(_) | InitFault::Limit => {
            return Ok(end(rt, Ending::Limit(&Cause::Unknown)));
        }
        InitFault::OutOfMemory => return Ok(end(rt, Ending::OutOfMemory)),
    };
    Ok(refuse(rt, why.as_str()))
}
