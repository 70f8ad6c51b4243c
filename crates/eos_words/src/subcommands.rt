//! The subcommands.

use crate::argument::Argument;
use crate::arguments::{
    chain_arguments, check_arguments, draw_arguments, dump_arguments, explain_arguments,
    fold_arguments, init_arguments,
};
use crate::help::{
    CHAIN, CHAIN_ANSWERS, CHECK, COORDINATOR, COORDINATOR_PRINTS, DRAW, DRAW_SHOWS, DUMP,
    DUMP_COLUMNS, EXPLAIN, EXPLAIN_SAYS, EXPLAIN_USAGE, FOLD, FOLD_USAGE, FOLD_WRITES, INIT,
    INIT_WRITES,
};
use crate::naming::coordinator_arguments;
use crate::shrinking::{SHRINK, SHRINK_WRITES, shrink_arguments};
use crate::simulate_help::{SIMULATE, SIMULATE_WRITES};
use crate::simulating::simulate_arguments;

/// A subcommand.
#[derive(Clone, Copy)]
pub(crate) enum Subcommand {
    Check,
    Dump,
    Chain,
    Explain,
    Draw,
    Init,
    Coordinator,
    Fold,
    Simulate,
    Shrink,
}

impl Subcommand {
    pub(crate) fn name<'a>(self) -> &'a str {
        match self {
            Subcommand::Check => "check",
            Subcommand::Dump => "dump",
            Subcommand::Chain => "chain",
            Subcommand::Explain => "explain",
            Subcommand::Draw => "draw",
            Subcommand::Init => "init",
            Subcommand::Coordinator => "coordinator",
            Subcommand::Fold => "fold",
            Subcommand::Simulate => "simulate",
            Subcommand::Shrink => "shrink",
        }
    }

    /// What it does, in one sentence.
    pub(crate) fn about<'a>(self) -> &'a str {
        match self {
            Subcommand::Check => CHECK,
            Subcommand::Dump => DUMP,
            Subcommand::Chain => CHAIN,
            Subcommand::Explain => EXPLAIN,
            Subcommand::Draw => DRAW,
            Subcommand::Init => INIT,
            Subcommand::Coordinator => COORDINATOR,
            Subcommand::Fold => FOLD,
            Subcommand::Simulate => SIMULATE,
            Subcommand::Shrink => SHRINK,
        }
    }

    /// How it is called, where that isn't made of its arguments.
    pub(crate) fn usage<'a>(self) -> Option<&'a str> {
        match self {
            Subcommand::Explain => Some(EXPLAIN_USAGE),
            Subcommand::Fold => Some(FOLD_USAGE),
            _ => None,
        }
    }

    /// What its help says below the arguments; that of `check` is made of the catalogue of faults.
    pub(crate) fn details<'a>(self, of_check: &'a str) -> &'a str {
        match self {
            Subcommand::Check => of_check,
            Subcommand::Dump => DUMP_COLUMNS,
            Subcommand::Chain => CHAIN_ANSWERS,
            Subcommand::Explain => EXPLAIN_SAYS,
            Subcommand::Draw => DRAW_SHOWS,
            Subcommand::Init => INIT_WRITES,
            Subcommand::Coordinator => COORDINATOR_PRINTS,
            Subcommand::Fold => FOLD_WRITES,
            Subcommand::Simulate => SIMULATE_WRITES,
            Subcommand::Shrink => SHRINK_WRITES,
        }
    }

    /// Its arguments, in the order of its help.
    pub(crate) fn arguments(self) -> &'static [Argument] {
        match self {
            Subcommand::Check => check_arguments(),
            Subcommand::Dump => dump_arguments(),
            Subcommand::Chain => chain_arguments(),
            Subcommand::Explain => explain_arguments(),
            Subcommand::Draw => draw_arguments(),
            Subcommand::Init => init_arguments(),
            Subcommand::Coordinator => coordinator_arguments(),
            Subcommand::Fold => fold_arguments(),
            Subcommand::Simulate => simulate_arguments(),
            Subcommand::Shrink => shrink_arguments(),
        }
    }
}
