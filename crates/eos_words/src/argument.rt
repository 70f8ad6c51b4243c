//! What is said of an argument.

use clap::ArgAction;
use clap::builder::ValueParser;

/// An argument of a subcommand.
#[derive(Clone, Copy)]
pub(crate) struct Argument {
    /// The name by which it is asked for, and written where it isn't written alone.
    pub(crate) name: &'static str,
    pub(crate) help: &'static str,
    pub(crate) presence: Presence,
    pub(crate) form: Form,
}

/// No arguments.
pub(crate) const NONE: &[&str] = &[];

/// Whether an argument has to be there.
#[derive(Clone, Copy)]
pub(crate) enum Presence {
    Required,
    Optional,
    /// Not this one; and beside it none of these may stand, list by list, of which one that has to be there may then be left out.
    Without(&'static [&'static str], &'static [&'static str], &'static [&'static str]),
}

/// How an argument is written, with what help shows for its value.
#[derive(Clone, Copy)]
pub(crate) enum Form {
    /// Alone.
    Alone(&'static str),
    /// Alone, once or more often, and none of them empty.
    Several(&'static str),
    /// After two hyphens.
    Flag,
    /// After two hyphens, and then such a value.
    Valued(&'static str, ValueParser<'static>),
    /// The same, as often as wanted.
    Repeated(&'static str, ValueParser<'static>),
}

impl Form {
    /// What is done with what the words have of it.
    pub(crate) fn action(self) -> ArgAction {
        match self {
            Form::Flag => ArgAction::SetTrue,
            Form::Several(_) | Form::Repeated(..) => ArgAction::Append,
            Form::Alone(_) | Form::Valued(..) => ArgAction::Set,
        }
    }

    /// What help shows for its value, and what values it takes, if it takes one.
    pub(crate) fn value(self) -> Option<(&'static str, ValueParser<'static>)> {
        match self {
            Form::Flag => None,
            Form::Alone(name) => Some((name, ValueParser::String)),
            Form::Several(name) => Some((name, ValueParser::NonEmptyString)),
            Form::Valued(name, values) | Form::Repeated(name, values) => Some((name, values)),
        }
    }
}
