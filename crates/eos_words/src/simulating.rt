//! The arguments of `simulate`, and what its help says.

use crate::argument::{Argument, Form, NONE, Presence};
use clap::builder::ValueParser;

const SWITCHES: &[&str] = &[
    "keep-duplicates",
    "no-fence",
    "no-bump",
    "lose-marker",
    "swap-marker",
    "hide-listing",
    "ignore-generation",
];

/// What a script is drawn from and how, but for the switches: a schedule says it already, and where all schedules are run it
/// is chosen, or isn't made.
const SCRIPTED: &[&str] = &[
    "seed",
    "events",
    "applications",
    "inputs",
    "outputs",
    "transaction-logs",
    "segment-records",
    "batch-records",
    "chain",
    "lose",
    "repeat",
    "abandon",
    "members",
    "restart-broker",
    "restart-coordinator",
    "abort",
    "time-out",
    "add-partition",
    "late-complete",
    "elect",
    "links",
    "switch-at",
    "no-tail",
    "mishap",
    "swarm",
];

/// Which rules are broken: a schedule says it, and where all are run they may be.
const BROKEN: &[&str] = &["switch"];

/// What each of several folders has of its own, or can't have.
const SINGLE: &[&str] = &["history", "labels", "schedule"];

/// What else is made of a script, and how it is told.
const MADE: &[&str] = &["stop-anywhere", "collect", "count", "progress", "folder"];

static SIMULATE_ARGUMENTS: [Argument; 35] = [
    Argument {
        name: "seed",
        help: "What the script is drawn from, 0 to 2^64 - 1",
        presence: Presence::Required,
        form: Form::Valued("S", ValueParser::Unsigned(0, u64::MAX)),
    },
    Argument {
        name: "events",
        help: "How many words the script has, 0 to 1000000",
        presence: Presence::Required,
        form: Form::Valued("N", ValueParser::Unsigned(0, 1_000_000)),
    },
    Argument {
        name: "applications",
        help: "How many applications the first group has, 1 to 8, or 2",
        presence: Presence::Optional,
        form: Form::Valued("N", ValueParser::Unsigned(1, 8)),
    },
    Argument {
        name: "inputs",
        help: "The partitions of `in`, 1 to 16, or 2",
        presence: Presence::Optional,
        form: Form::Valued("N", ValueParser::Unsigned(1, 16)),
    },
    Argument {
        name: "outputs",
        help: "The partitions of `out`, 1 to 16, or 2",
        presence: Presence::Optional,
        form: Form::Valued("N", ValueParser::Unsigned(1, 16)),
    },
    Argument {
        name: "transaction-logs",
        help: "The partitions of `__transaction_state`, 1 to 4, or 1",
        presence: Presence::Optional,
        form: Form::Valued("N", ValueParser::Unsigned(1, 4)),
    },
    Argument {
        name: "segment-records",
        help: "The records of a segment, 1 to 1000, or 16",
        presence: Presence::Optional,
        form: Form::Valued("N", ValueParser::Unsigned(1, 1000)),
    },
    Argument {
        name: "batch-records",
        help: "The records of a batch at the most, 1 to 1000, or 1",
        presence: Presence::Optional,
        form: Form::Valued("N", ValueParser::Unsigned(1, 1000)),
    },
    Argument {
        name: "chain",
        help: "A second group reads `out` and writes `fin`",
        presence: Presence::Optional,
        form: Form::Flag,
    },
    Argument {
        name: "lose",
        help: "Words, of 1000, by which a message is lost",
        presence: Presence::Optional,
        form: Form::Valued("RATE", ValueParser::Unsigned(0, 1000)),
    },
    Argument {
        name: "repeat",
        help: "Words, of 1000, by which a message comes again",
        presence: Presence::Optional,
        form: Form::Valued("RATE", ValueParser::Unsigned(0, 1000)),
    },
    Argument {
        name: "abandon",
        help: "Words, of 1000, by which a session is abandoned",
        presence: Presence::Optional,
        form: Form::Valued("RATE", ValueParser::Unsigned(0, 1000)),
    },
    Argument {
        name: "members",
        help: "Words, of 1000, by which the members change",
        presence: Presence::Optional,
        form: Form::Valued("RATE", ValueParser::Unsigned(0, 1000)),
    },
    Argument {
        name: "restart-broker",
        help: "Words, of 1000, by which a broker restarts",
        presence: Presence::Optional,
        form: Form::Valued("RATE", ValueParser::Unsigned(0, 1000)),
    },
    Argument {
        name: "restart-coordinator",
        help: "Words, of 1000, by which the coordinator does",
        presence: Presence::Optional,
        form: Form::Valued("RATE", ValueParser::Unsigned(0, 1000)),
    },
    Argument {
        name: "abort",
        help: "Words, of 1000, by which a transaction is given up",
        presence: Presence::Optional,
        form: Form::Valued("RATE", ValueParser::Unsigned(0, 1000)),
    },
    Argument {
        name: "time-out",
        help: "Words, of 1000, by which a transaction times out",
        presence: Presence::Optional,
        form: Form::Valued("RATE", ValueParser::Unsigned(0, 1000)),
    },
    Argument {
        name: "add-partition",
        help: "Words, of 1000, by which one is added to a transaction",
        presence: Presence::Optional,
        form: Form::Valued("RATE", ValueParser::Unsigned(0, 1000)),
    },
    Argument {
        name: "late-complete",
        help: "Words, of 1000, by which a transaction completes late",
        presence: Presence::Optional,
        form: Form::Valued("RATE", ValueParser::Unsigned(0, 1000)),
    },
    Argument {
        name: "elect",
        help: "Words, of 1000, by which a partition gets a new leader",
        presence: Presence::Optional,
        form: Form::Valued("RATE", ValueParser::Unsigned(0, 1000)),
    },
    Argument {
        name: "links",
        help: "Each sender and receiver have a queue of their own",
        presence: Presence::Optional,
        form: Form::Flag,
    },
    Argument {
        name: "switch",
        help: "A rule that the cluster breaks; may be repeated",
        presence: Presence::Optional,
        form: Form::Repeated("X", ValueParser::Names(SWITCHES)),
    },
    Argument {
        name: "switch-at",
        help: "Breaks them after so many words, not after the script",
        presence: Presence::Optional,
        form: Form::Valued("WORD", ValueParser::Unsigned(0, 1_000_000)),
    },
    Argument {
        name: "no-tail",
        help: "With --switch-at, nothing after the script shows them",
        presence: Presence::Optional,
        form: Form::Flag,
    },
    Argument {
        name: "mishap",
        help: "A mistake of an application, once; may be repeated",
        presence: Presence::Optional,
        form: Form::Repeated("NAME[@TOPIC-N:O]", ValueParser::NonEmptyString),
    },
    Argument {
        name: "stop-anywhere",
        help: "The run ends after its last word, at rest or not",
        presence: Presence::Optional,
        form: Form::Flag,
    },
    Argument {
        name: "collect",
        help: "A mistake of who copies the logs; may be repeated",
        presence: Presence::Optional,
        form: Form::Repeated("NAME@TOPIC-N[:..]", ValueParser::NonEmptyString),
    },
    Argument {
        name: "history",
        help: "Writes all that happens to this new file, as JSON lines",
        presence: Presence::Optional,
        form: Form::Valued("FILE", ValueParser::NonEmptyString),
    },
    Argument {
        name: "labels",
        help: "Writes what was done wrong to this new file, as JSON lines",
        presence: Presence::Optional,
        form: Form::Valued("FILE", ValueParser::NonEmptyString),
    },
    Argument {
        name: "schedule",
        help: "Runs the lines of such a file, in place of a script",
        presence: Presence::Without(SCRIPTED, BROKEN, NONE),
        form: Form::Valued("FILE", ValueParser::NonEmptyString),
    },
    Argument {
        name: "count",
        help: "So many folders in FOLDER, of the seeds from S on",
        presence: Presence::Without(SINGLE, NONE, NONE),
        form: Form::Valued("N", ValueParser::Unsigned(1, 999_999)),
    },
    Argument {
        name: "swarm",
        help: "With --count, draws for each seed what isn't said",
        presence: Presence::Optional,
        form: Form::Flag,
    },
    Argument {
        name: "every",
        help: "Runs each schedule of at most N words, 0 to 8, and checks it",
        presence: Presence::Without(SCRIPTED, SINGLE, MADE),
        form: Form::Valued("N", ValueParser::Unsigned(0, 8)),
    },
    Argument {
        name: "progress",
        help: "With --count, tells on standard error how many are made",
        presence: Presence::Optional,
        form: Form::Flag,
    },
    Argument {
        name: "folder",
        help: "The folder that is made",
        presence: Presence::Required,
        form: Form::Alone("FOLDER"),
    },
];

pub(crate) fn simulate_arguments() -> &'static [Argument] {
    SIMULATE_ARGUMENTS.as_slice()
}
