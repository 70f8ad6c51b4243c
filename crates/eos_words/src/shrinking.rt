//! The arguments of `shrink`, how they are read, and what its help says.

use crate::argument::{Argument, Form, Presence};
use crate::codes::code_meant;
use crate::request::{Request, Shrink};
use clap::ArgMatches;
use clap::builder::ValueParser;
use std::alloc::{AllocError, Global};

static SHRINK_ARGUMENTS: [Argument; 3] = [
    Argument {
        name: "fault",
        help: "The code of the first fault that is kept, such as 5.10",
        presence: Presence::Required,
        form: Form::Valued("CODE", ValueParser::NonEmptyString),
    },
    Argument {
        name: "history",
        help: "The history or the schedule; - is the standard input",
        presence: Presence::Required,
        form: Form::Alone("HISTORY"),
    },
    Argument {
        name: "out",
        help: "The file of the schedule that is made",
        presence: Presence::Required,
        form: Form::Alone("OUT"),
    },
];

pub(crate) fn shrink_arguments() -> &'static [Argument] {
    SHRINK_ARGUMENTS.as_slice()
}

/// What the words of `shrink` ask for.
pub(crate) fn read_shrink<'a>(
    alloc: Global,
    inner: &ArgMatches<'a>,
) -> Result<Option<Request<'a>>, AllocError> {
    let (Some(history), Some(word), Some(file)) = (
        inner.get_str("history"),
        inner.get_str("fault"),
        inner.get_str("out"),
    ) else {
        return Ok(None);
    };
    let code = code_meant(alloc, word)?;
    Ok(Some(Request::Shrink(Shrink {
        history,
        code,
        file,
    })))
}

pub(crate) const SHRINK: &str =
    "Makes the history of a simulated cluster as small as its first fault lets it be";

pub(crate) const SHRINK_WRITES: &str =
    "HISTORY is a file that `eoscheck simulate --history` wrote, or a schedule
(docs/SIMULATOR.md). `check` says of its folder no by the fault CODE, or by the
fault of this name. Lines are left out of it and the rest is run and judged
again, as `simulate --schedule` and `check` would: first half of them, then
smaller and smaller chunks, then one by one, for as long as the first fault that
is left has this code. Sessions, messages and inputs keep their names, whatever
goes before them: the lines that are left call them by the numbers that they
have now, and go with the line that made them.

OUT must not be there; it is written whole or not at all. It is a history: what
`simulate --schedule OUT --history FILE` writes is the same, byte for byte. No
single line of it can be left out. `shrunk lines=N of=M runs=R` (status 0) says
how many lines it has, and HISTORY had, without the first and the last one, and
how many schedules were run. The fault may be another of this code than that of
HISTORY, and a smaller schedule may be there.

Where the first fault of HISTORY has another code, or none stands, a line says
what `check` says of it, and the status is 2.

Examples:
  eoscheck shrink --fault 1.5 history.jsonl small.jsonl
  eoscheck shrink --fault Repeated history.jsonl small.jsonl
  eoscheck simulate --schedule small.jsonl FOLDER";
