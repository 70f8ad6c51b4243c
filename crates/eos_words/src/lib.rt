//! The words of the command line: what they ask for, and what help says.
#![tactic(auto)]

mod argument;
mod arguments;
mod codes;
mod command;
mod demands;
mod help;
mod naming;
mod request;
mod scripted;
mod shrinking;
mod simulate_help;
mod simulating;
mod subcommands;

pub use command::{VERSION, read_words};
pub use demands::Demands;
pub use request::{
    Answer, Check, Coordinator, Draw, Every, Explain, Fold, Init, Listing, NoRequest, Request,
    Shrink, Simulation, Sizes, Thousandths,
};
