//! The arguments of `coordinator`, which is about names.

use crate::argument::{Argument, Form, Presence};
use clap::builder::ValueParser;

static COORDINATOR_ARGUMENTS: [Argument; 2] = [
    Argument {
        name: "partitions",
        help: "How many partitions the topic has, 1 to 2^31 - 1, or 50",
        presence: Presence::Optional,
        form: Form::Valued("N", ValueParser::Unsigned(0, u64::MAX)),
    },
    Argument {
        name: "name",
        help: "A group or a transactional id, or several",
        presence: Presence::Optional,
        form: Form::Several("NAME"),
    },
];

pub(crate) fn coordinator_arguments() -> &'static [Argument] {
    COORDINATOR_ARGUMENTS.as_slice()
}
