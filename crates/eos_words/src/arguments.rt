//! The arguments of the subcommands. Each table is lent by a function: a proof that saw all of them at once would compute too long.

use crate::argument::{Argument, Form, NONE, Presence};
use clap::builder::ValueParser;

const READINGS: &[&str] = &["outputs", "transactions", "offsets"];

/// What goes with a folder, and not with a code.
const EXPLAINED: &[&str] = &["fault", "workers", "folder"];

/// What goes with segments that are folded, and not with folds that are compared.
const FOLDED: &[&str] = &["manifest", "out"];

const WORKERS: Argument = Argument {
    name: "workers",
    help: "How many threads work at most, 1 to 64, or 4; same answer",
    presence: Presence::Optional,
    form: Form::Valued("N", ValueParser::Unsigned(1, 64)),
};

const FILE: Argument = Argument {
    name: "file",
    help: "The segment; - is the standard input",
    presence: Presence::Required,
    form: Form::Alone("FILE"),
};

const FAULT: Argument = Argument {
    name: "fault",
    help: "Which fault of those that check --all prints, from 1, or 1",
    presence: Presence::Optional,
    form: Form::Valued("K", ValueParser::Unsigned(1, u64::MAX)),
};

const ONE_FOLDER: Argument = Argument {
    name: "folder",
    help: "The folder of the evidence",
    presence: Presence::Required,
    form: Form::Alone("FOLDER"),
};

static CHECK_ARGUMENTS: [Argument; 11] = [
    WORKERS,
    Argument {
        name: "json",
        help: "Prints the verdict as a line of JSON",
        presence: Presence::Optional,
        form: Form::Flag,
    },
    Argument {
        name: "all",
        help: "Prints all faults, a line each, and how many there are",
        presence: Presence::Optional,
        form: Form::Flag,
    },
    Argument {
        name: "quiet",
        help: "Leaves the notes on standard error out",
        presence: Presence::Optional,
        form: Form::Flag,
    },
    Argument {
        name: "progress",
        help: "Tells on standard error how far it is",
        presence: Presence::Optional,
        form: Form::Flag,
    },
    Argument {
        name: "report",
        help: "Writes what was found to this new file, as JSON; one FOLDER",
        presence: Presence::Optional,
        form: Form::Valued("FILE", ValueParser::NonEmptyString),
    },
    Argument {
        name: "page",
        help: "Writes what was found to this new file, for people; one FOLDER",
        presence: Presence::Optional,
        form: Form::Valued("FILE", ValueParser::NonEmptyString),
    },
    Argument {
        name: "force",
        help: "Writes the report or the page over a file that is there",
        presence: Presence::Optional,
        form: Form::Flag,
    },
    Argument {
        name: "strict",
        help: "Gives a yes beside which a note stands the exit status 4",
        presence: Presence::Optional,
        form: Form::Flag,
    },
    Argument {
        name: "expect",
        help: "Gives a yes that counts otherwise the status 4; of each count",
        presence: Presence::Optional,
        form: Form::Repeated("COUNT=N", ValueParser::String),
    },
    Argument {
        name: "folder",
        help: "The folder of the evidence, or several",
        presence: Presence::Required,
        form: Form::Several("FOLDER"),
    },
];

pub(crate) fn check_arguments() -> &'static [Argument] {
    CHECK_ARGUMENTS.as_slice()
}

static DUMP_ARGUMENTS: [Argument; 6] = [
    Argument {
        name: "headers",
        help: "Prints below each record its timestamp and headers",
        presence: Presence::Optional,
        form: Form::Flag,
    },
    Argument {
        name: "decode",
        help: "Prints below each data record what it says",
        presence: Presence::Optional,
        form: Form::Flag,
    },
    Argument {
        name: "as",
        help: "Decodes, and as these records, wherever FILE lies",
        presence: Presence::Optional,
        form: Form::Valued("RECORDS", ValueParser::Names(READINGS)),
    },
    Argument {
        name: "from",
        help: "Lists only records from this offset on",
        presence: Presence::Optional,
        form: Form::Valued("OFFSET", ValueParser::Unsigned(0, u64::MAX)),
    },
    Argument {
        name: "to",
        help: "Lists only records below this offset",
        presence: Presence::Optional,
        form: Form::Valued("OFFSET", ValueParser::Unsigned(0, u64::MAX)),
    },
    FILE,
];

pub(crate) fn dump_arguments() -> &'static [Argument] {
    DUMP_ARGUMENTS.as_slice()
}

static CHAIN_ARGUMENTS: [Argument; 1] = [FILE];

pub(crate) fn chain_arguments() -> &'static [Argument] {
    CHAIN_ARGUMENTS.as_slice()
}

static EXPLAIN_ARGUMENTS: [Argument; 4] = [
    Argument {
        name: "code",
        help: "The code of a kind of fault, such as 5.10, or its name",
        presence: Presence::Without(EXPLAINED, NONE, NONE),
        form: Form::Valued("CODE", ValueParser::String),
    },
    FAULT,
    WORKERS,
    ONE_FOLDER,
];

pub(crate) fn explain_arguments() -> &'static [Argument] {
    EXPLAIN_ARGUMENTS.as_slice()
}

static DRAW_ARGUMENTS: [Argument; 4] = [
    FAULT,
    Argument {
        name: "around",
        help: "The transactions on each side of it, 1 to 100, or 6",
        presence: Presence::Optional,
        form: Form::Valued("N", ValueParser::Unsigned(1, 100)),
    },
    ONE_FOLDER,
    Argument {
        name: "file",
        help: "The file that is made",
        presence: Presence::Required,
        form: Form::Alone("FILE.svg"),
    },
];

pub(crate) fn draw_arguments() -> &'static [Argument] {
    DRAW_ARGUMENTS.as_slice()
}

static INIT_ARGUMENTS: [Argument; 5] = [
    Argument {
        name: "version1",
        help: "Wants a manifest of version 1, which takes one --app",
        presence: Presence::Optional,
        form: Form::Flag,
    },
    Argument {
        name: "app",
        help: "An application, its sources and its outputs; may be repeated",
        presence: Presence::Optional,
        form: Form::Repeated("GROUP:SOURCE,..:OUTPUT,..", ValueParser::NonEmptyString),
    },
    Argument {
        name: "ends",
        help: "Lines TOPIC:PARTITION:OFFSET; - is the standard input",
        presence: Presence::Optional,
        form: Form::Valued("FILE", ValueParser::NonEmptyString),
    },
    Argument {
        name: "ends-from-logs",
        help: "Takes the ends of the copied logs",
        presence: Presence::Optional,
        form: Form::Flag,
    },
    Argument {
        name: "folder",
        help: "The folder of the copied partition folders",
        presence: Presence::Required,
        form: Form::Alone("FOLDER"),
    },
];

pub(crate) fn init_arguments() -> &'static [Argument] {
    INIT_ARGUMENTS.as_slice()
}

static FOLD_ARGUMENTS: [Argument; 4] = [
    Argument {
        name: "verify",
        help: "Compares the folds in FOLDER with logs, and writes none",
        presence: Presence::Without(FOLDED, NONE, NONE),
        form: Form::Valued("FOLDER", ValueParser::NonEmptyString),
    },
    Argument {
        name: "manifest",
        help: "The manifest by which `check` will read the folds",
        presence: Presence::Required,
        form: Form::Valued("FILE", ValueParser::NonEmptyString),
    },
    Argument {
        name: "out",
        help: "The folder that gets the folds, or `folds`",
        presence: Presence::Optional,
        form: Form::Valued("OUT", ValueParser::NonEmptyString),
    },
    Argument {
        name: "folder",
        help: "The folder of a partition, or of logs; or several",
        presence: Presence::Required,
        form: Form::Several("TOPIC-N"),
    },
];

pub(crate) fn fold_arguments() -> &'static [Argument] {
    FOLD_ARGUMENTS.as_slice()
}
