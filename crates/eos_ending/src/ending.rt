//! How a run ends: a table of exit statuses and of what is said on standard error.

ghost use Rattle.std.specs.Prelude.{◌≡◌, Some, option_map};
ghost use Rattle.eos_ending.specs.Endings.{status_of, message_of, is_silent, cause_of, cause_line, told_text, status_after, message_after, cause_after};
ghost use Rattle.eos_ending.specs.Subjects.{subject_text};

use crate::subject::Subject;
use eos_disk::Cause;
use eos_evidence::SpecFault;
use eos_segment::RunFault;
use std::fmt::{Display, Formatter, Write};

/// How a run ended, or its part that is about one folder. Printed, it is the first line that standard error is told, or nothing.
#[derive(Clone, Copy)]
pub enum Ending<'a> {
    /// The answer was written; it has this exit status.
    Answered(u8),
    /// The help or the version was printed.
    Helped,
    /// The words were wrong, and what is wrong with them was said.
    BadWords,
    /// A word isn't text.
    NotText,
    /// This file or folder can't be read.
    CannotRead(&'a str, &'a Cause),
    /// This file or stream can't be written.
    CannotWrite(&'a str),
    /// The manifest of a folder is refused.
    Manifest(SpecFault, &'a Cause),
    /// The file of this path is refused by this name.
    Refused(&'a str, &'static str, &'a Cause),
    /// No kind of fault has this code.
    NoSuchCode(&'a str),
    /// What the words say of this doesn't fit the rest, and why.
    Unfit(&'a str, &'a str),
    /// The simulated cluster has a transaction that is open or still ending.
    NotAtRest,
    /// An input is larger than it may be.
    Limit(&'a Cause),
    /// Memory ran out.
    OutOfMemory,
}

impl<'a> Ending<'a> {
    /// How a run ended that read this input and wrote its answer to this output. Where it didn't read it, this is why.
    pub fn of_answer(
        answer: Result<u8, RunFault>,
        input: &'a str,
        output: &'a str,
        cause: &'a Cause,
    ) -> Ending<'a>
        ensures status { status_of result ≡ status_after answer }
        ensures message { message_of result ≡ message_after answer input.now output.now }
        ensures cause { cause_of result ≡ cause_after answer cause.now }
    {
        match answer {
            Ok(status) => Ending::Answered(status),
            Err(RunFault::Read) => Ending::CannotRead(input, cause),
            Err(RunFault::Write) => Ending::CannotWrite(output),
            Err(RunFault::Limit) => Ending::Limit(cause),
            Err(RunFault::OutOfMemory) => Ending::OutOfMemory,
        }
    }

    /// The exit status.
    pub fn status(&self) -> u8
        ensures { result ≡ status_of self.now }
    {
        match self {
            Ending::Answered(status) => *status,
            Ending::Helped => 0,
            Ending::BadWords
            | Ending::NotText
            | Ending::CannotRead(_, _)
            | Ending::CannotWrite(_)
            | Ending::Manifest(_, _)
            | Ending::Refused(_, _, _)
            | Ending::NoSuchCode(_)
            | Ending::Unfit(_, _)
            | Ending::NotAtRest
            | Ending::Limit(_) => 2,
            Ending::OutOfMemory => 3,
        }
    }

    /// Whether standard error is told nothing.
    fn is_silent(&self) -> bool
        ensures { result ≡ is_silent self.now }
    {
        matches!(
            self,
            Ending::Answered(_) | Ending::Helped | Ending::BadWords
        )
    }

    /// Why it ended so, where there is more to say.
    fn cause(&self) -> Option<&'a Cause>
        ensures { option_map (λ c. c.now) result ≡ cause_of self.now }
    {
        match *self {
            Ending::CannotRead(_, cause)
            | Ending::Manifest(_, cause)
            | Ending::Refused(_, _, cause)
            | Ending::Limit(cause) => Some(cause),
            _ => None,
        }
    }
}

impl Display for Ending<'_> {
    ghost output = { λ ending. Some (message_of ending) };

    fn fmt<W: Write>(&self, f: &mut Formatter<W>) -> std::fmt::Result {
        match self {
            Ending::Answered(_) | Ending::Helped | Ending::BadWords => Ok(()),
            Ending::NotText => write!(f, "error: a word of the command line is not UTF-8 text\n"),
            Ending::CannotRead(path, _) => write!(f, "eoscheck: cannot read {path}\n"),
            Ending::CannotWrite(path) => write!(f, "eoscheck: cannot write {path}\n"),
            Ending::Manifest(fault, _) => write!(f, "eoscheck: evidence.json: {}\n", fault.name()),
            Ending::Refused(path, name, _) => write!(f, "eoscheck: {path}: {name}\n"),
            Ending::NoSuchCode(code) => write!(f, "eoscheck: no fault has the code {code}\n"),
            Ending::Unfit(what, why) => write!(f, "eoscheck: {what}: {why}\n"),
            Ending::NotAtRest => write!(f, "eoscheck: the cluster is not at rest\n"),
            Ending::Limit(_) => write!(f, "eoscheck: limit\n"),
            Ending::OutOfMemory => write!(f, "eoscheck: out of memory\n"),
        }
    }
}

/// The line of a cause, which begins with two spaces. Printed, it is nothing where nothing is known.
#[derive(Clone, Copy)]
struct CauseLine<'a> {
    subject: Subject<'a>,
    cause: Option<&'a Cause>,
}

impl Display for CauseLine<'_> {
    ghost output = { λ line. Some (cause_line (subject_text line.subject) (option_map (λ c. c.now) line.cause)) };

    fn fmt<W: Write>(&self, f: &mut Formatter<W>) -> std::fmt::Result {
        let subject = self.subject;
        match self.cause {
            Some(cause) if !cause.is_unknown() => write!(f, "{subject}  {cause}\n"),
            _ => Ok(()),
        }
    }
}

/// What standard error is told of how a run ended, or its part that is about one of several folders. Printed, it is one line or
/// two, or nothing.
#[derive(Clone, Copy)]
pub struct Told<'a> {
    pub subject: Subject<'a>,
    pub ending: Ending<'a>,
}

impl Display for Told<'_> {
    ghost output = { λ told. Some (told_text (subject_text told.subject) told.ending) };

    fn fmt<W: Write>(&self, f: &mut Formatter<W>) -> std::fmt::Result {
        let Told { subject, ending } = *self;
        if ending.is_silent() {
            return Ok(());
        }
        let cause = ending.cause();
        let line = CauseLine { subject, cause };
        write!(f, "{subject}{ending}{line}")
    }
}
