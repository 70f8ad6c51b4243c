//! The command line, and how its words are read.

use crate::argument::{Argument, Form, Presence};
use crate::codes::code_meant;
use crate::demands::read_demands;
use crate::help::{ABOUT, CHECK_ANSWERS, STATUSES};
use crate::request::{
    Answer, Check, Coordinator, Draw, Explain, Fold, Init, Listing, NoRequest, Request, Verify,
};
use crate::scripted::read_simulate;
use crate::shrinking::read_shrink;
use crate::subcommands::Subcommand;
use clap::error::{Error, ErrorKind};
use clap::{Arg, ArgMatches, Command};
use eos_base::Workers;
use eos_text::push_kinds;
use std::alloc::{AllocError, Global};
use std::io;

/// The version of the program.
pub const VERSION: &str = "0.1.0";

/// How many partitions each of Kafka's own two topics has where its settings are as they come.
const PARTITIONS: u64 = 50;

/// The folder that gets folds where the words don't say.
const FOLDS: &str = "folds";

/// Every record, and nothing more of it.
const EVERY_RECORD: Listing<'static> = Listing {
    headers: false,
    decode: false,
    reading: None,
    from: 0,
    to: u64::MAX,
};

/// What the words of the command line ask for, of which the first is the program's name. Help that is asked for is printed, and
/// so is what is wrong with the words.
pub fn read_words<'a, R: Print + Eprint>(
    rt: &R,
    alloc: Global,
    words: &'a [String],
) -> Result<Request<'a>, NoRequest> {
    match requested(alloc, words, CHECK_ANSWERS) {
        Ok(Some(request)) => Ok(request),
        Ok(None) => Err(NoRequest::BadWords),
        Err(e) => {
            let why = print_refusal(rt, alloc, words, &e);
            drop(e);
            Err(why)
        }
    }
}

/// Prints the help that was asked for, or what is wrong with the words.
fn print_refusal<R: Print + Eprint>(
    rt: &R,
    alloc: Global,
    words: &[String],
    e: &Error,
) -> NoRequest {
    if e.kind() == ErrorKind::DisplayHelp {
        print_help(rt, alloc, words)
    } else {
        explain(rt, e)
    }
}

/// The last are the details of the help of `check`.
fn requested<'a>(
    alloc: Global,
    words: &'a [String],
    details: &'a str,
) -> Result<Option<Request<'a>>, Error> {
    let matches = make_command(alloc, details)?.try_get_matches_from(words)?;
    let read = read_request(alloc, &matches);
    drop(matches);
    Ok(read?)
}

/// Prints the help that was asked for. The details of `check` list the kinds of faults, in a text that has to live as long as
/// what is read: so it is made for the help alone, and the words are read again.
fn print_help<R: Print + Eprint>(rt: &R, alloc: Global, words: &[String]) -> NoRequest {
    let Ok(details) = check_details(alloc) else {
        return NoRequest::OutOfMemory;
    };
    let read = requested(alloc, words, details.as_str());
    let why = match &read {
        Ok(_) => NoRequest::BadWords,
        Err(e) => explain(rt, e),
    };
    drop(read);
    why
}

fn check_details(alloc: Global) -> Result<String, AllocError> {
    let mut details = String::from_str(alloc, CHECK_ANSWERS)?;
    push_kinds(&mut details)?;
    Ok(details)
}

/// Prints why there are no words to act on: help that was asked for, or a mistake.
fn explain<R: Print + Eprint>(rt: &R, e: &Error) -> NoRequest {
    if e.kind() == ErrorKind::OutOfMemory {
        return NoRequest::OutOfMemory;
    }
    let printed = e.print(rt);
    if e.use_stderr() {
        return NoRequest::BadWords;
    }
    match printed {
        Ok(()) => NoRequest::Helped,
        Err(e) if e.kind() == io::ErrorKind::BrokenPipe => NoRequest::NobodyReads,
        Err(_) => NoRequest::CannotPrint,
    }
}

/// The command line of the program.
fn make_command<'a>(alloc: Global, details: &'a str) -> Result<Command<'a>, AllocError> {
    let made = make_subcommands(alloc, details)?;
    Command::new(alloc, "eoscheck")
        .version(VERSION)
        .about(ABOUT)
        .after_help(STATUSES)
        .subcommands(made)
}

fn make_subcommands<'a>(alloc: Global, details: &'a str) -> Result<Vec<Command<'a>>, AllocError> {
    let mut made = Vec::new(alloc);
    for it in [
        Subcommand::Check,
        Subcommand::Dump,
        Subcommand::Chain,
        Subcommand::Explain,
        Subcommand::Draw,
        Subcommand::Init,
        Subcommand::Coordinator,
        Subcommand::Fold,
        Subcommand::Simulate,
        Subcommand::Shrink,
    ] {
        made.push(make_subcommand(alloc, it, details)?)?;
    }
    Ok(made)
}

fn make_subcommand<'a>(
    alloc: Global,
    it: Subcommand,
    details: &'a str,
) -> Result<Command<'a>, AllocError> {
    let mut arguments = Vec::new(alloc);
    for argument in it.arguments() {
        arguments.push(make_argument(alloc, argument)?)?;
    }
    let command = Command::new(alloc, it.name())
        .about(it.about())
        .after_help(it.details(details))
        .args(arguments)?;
    match it.usage() {
        Some(usage) => Ok(command.override_usage(usage)),
        None => Ok(command),
    }
}

fn make_argument<'a>(alloc: Global, it: &Argument) -> Result<Arg<'a>, AllocError> {
    let mut argument = make_form(alloc, it).required(matches!(it.presence, Presence::Required));
    if let Presence::Without(first, second, third) = it.presence {
        for others in [first, second, third] {
            argument = argument.conflicts_with_all(others)?;
        }
    }
    Ok(argument)
}

fn make_form<'a>(alloc: Global, it: &Argument) -> Arg<'a> {
    let argument = Arg::new(alloc, it.name)
        .help(it.help)
        .action(it.form.action());
    let argument = match it.form.value() {
        Some((name, values)) => argument.value_name(name).value_parser(values),
        None => argument,
    };
    match it.form {
        Form::Alone(_) => argument,
        Form::Several(_) => argument.num_args(1..),
        _ => argument.long(it.name),
    }
}

/// What the words ask for. Without words it is the listing of the standard input.
fn read_request<'a>(
    alloc: Global,
    matches: &ArgMatches<'a>,
) -> Result<Option<Request<'a>>, AllocError> {
    let Some((name, inner)) = matches.subcommand() else {
        return Ok(Some(Request::Segment {
            answer: Answer::Listing(EVERY_RECORD),
            file: "-",
        }));
    };
    match name {
        "check" => read_check(alloc, inner),
        "dump" => Ok(read_dump(inner)),
        "chain" => Ok(read_segment_words(inner, Answer::Chain)),
        "explain" => read_explain(alloc, inner),
        "draw" => Ok(read_draw(inner)),
        "init" => read_init(alloc, inner),
        "coordinator" => read_coordinator(alloc, inner),
        "fold" => read_fold(alloc, inner),
        "simulate" => read_simulate(alloc, inner),
        "shrink" => read_shrink(alloc, inner),
        _ => Ok(None),
    }
}

fn read_segment_words<'a>(inner: &ArgMatches<'a>, answer: Answer<'a>) -> Option<Request<'a>> {
    let file = inner.get_str("file")?;
    Some(Request::Segment { answer, file })
}

fn read_dump<'a>(inner: &ArgMatches<'a>) -> Option<Request<'a>> {
    let listing = Listing {
        headers: inner.get_flag("headers"),
        decode: inner.get_flag("decode"),
        reading: inner.get_str("as"),
        from: inner.get_one::<u64>("from").unwrap_or(EVERY_RECORD.from),
        to: inner.get_one::<u64>("to").unwrap_or(EVERY_RECORD.to),
    };
    read_segment_words(inner, Answer::Listing(listing))
}

fn read_check<'a>(
    alloc: Global,
    inner: &ArgMatches<'a>,
) -> Result<Option<Request<'a>>, AllocError> {
    let Some(folders) = inner.get_strs("folder") else {
        return Ok(None);
    };
    let Some(workers) = read_workers(inner) else {
        return Ok(None);
    };
    let expected = read_all(alloc, inner, "expect")?;
    let demands = read_demands(inner.get_flag("strict"), expected.as_slice());
    drop(expected);
    Ok(Some(Request::Check(Check {
        workers,
        json: inner.get_flag("json"),
        all: inner.get_flag("all"),
        quiet: inner.get_flag("quiet"),
        progress: inner.get_flag("progress"),
        report: inner.get_str("report"),
        page: inner.get_str("page"),
        force: inner.get_flag("force"),
        demands,
        folders: folders.to_vec(alloc)?,
    })))
}

/// How many workers are asked for; none where it is no such number.
fn read_workers(inner: &ArgMatches<'_>) -> Option<Workers> {
    match inner.get_one::<u64>("workers") {
        None => Some(Workers::standard()),
        Some(count) => Workers::new(count),
    }
}

fn read_explain<'a>(
    alloc: Global,
    inner: &ArgMatches<'a>,
) -> Result<Option<Request<'a>>, AllocError> {
    match inner.get_str("code") {
        Some(word) => {
            let code = code_meant(alloc, word)?;
            Ok(Some(Request::Explain { code }))
        }
        None => Ok(read_story(inner)),
    }
}

fn read_story<'a>(inner: &ArgMatches<'a>) -> Option<Request<'a>> {
    let folder = inner.get_str("folder")?;
    Some(Request::Story(Explain {
        workers: read_workers(inner)?,
        fault: inner.get_one::<u64>("fault"),
        folder,
    }))
}

fn read_draw<'a>(inner: &ArgMatches<'a>) -> Option<Request<'a>> {
    let folder = inner.get_str("folder")?;
    let file = inner.get_str("file")?;
    Some(Request::Draw(Draw {
        fault: inner.get_one::<u64>("fault"),
        around: inner.get_one::<u64>("around"),
        folder,
        file,
    }))
}

fn read_init<'a>(alloc: Global, inner: &ArgMatches<'a>) -> Result<Option<Request<'a>>, AllocError> {
    let Some(folder) = inner.get_str("folder") else {
        return Ok(None);
    };
    Ok(Some(Request::Init(Init {
        version1: inner.get_flag("version1"),
        apps: read_all(alloc, inner, "app")?,
        ends: inner.get_str("ends"),
        ends_from_logs: inner.get_flag("ends-from-logs"),
        folder,
    })))
}

fn read_coordinator<'a>(
    alloc: Global,
    inner: &ArgMatches<'a>,
) -> Result<Option<Request<'a>>, AllocError> {
    Ok(Some(Request::Coordinator(Coordinator {
        partitions: inner.get_one::<u64>("partitions").unwrap_or(PARTITIONS),
        names: read_all(alloc, inner, "name")?,
    })))
}

fn read_fold<'a>(alloc: Global, inner: &ArgMatches<'a>) -> Result<Option<Request<'a>>, AllocError> {
    if let Some(folder) = inner.get_str("verify") {
        return Ok(Some(Request::Verify(Verify {
            folder,
            logs: read_all(alloc, inner, "folder")?,
        })));
    }
    let Some(manifest) = inner.get_str("manifest") else {
        return Ok(None);
    };
    Ok(Some(Request::Fold(Fold {
        manifest,
        out: inner.get_str("out").unwrap_or(FOLDS),
        folders: read_all(alloc, inner, "folder")?,
    })))
}

/// All values of an argument that may be repeated.
pub(crate) fn read_all<'a>(
    alloc: Global,
    inner: &ArgMatches<'a>,
    name: &str,
) -> Result<Vec<&'a str>, AllocError> {
    match inner.get_strs(name) {
        Some(values) => values.to_vec(alloc),
        None => Ok(Vec::new(alloc)),
    }
}
