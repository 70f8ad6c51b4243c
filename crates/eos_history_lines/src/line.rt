//! What the lines of a history say.

use eos_machine::{Config, Event, Note, Reply, Switches};

/// What a simulated cluster was, and what it was asked for: the first line.
#[derive(Clone, Copy)]
pub struct Head {
    pub config: Config,
    /// The rules that the run was asked to break.
    pub switches: Switches,
    /// The seed of its script.
    pub seed: u64,
    /// The number of the script's words.
    pub words: u64,
}

/// What was done.
#[derive(Drop)]
pub enum Deed {
    /// This happened, and the cluster answered so, if that is said.
    Asked { event: Event, reply: Option<Reply> },
    /// From there on the cluster breaks these rules, and no others.
    Set(Switches),
    /// This happened beside the cluster.
    Noted(Note),
}

/// A line between the first and the last.
#[derive(Drop)]
pub struct Line {
    /// Which of these lines it was when it was written, from 1 on.
    pub number: u64,
    pub deed: Deed,
}

/// What came of it: the last line.
#[derive(Clone, Copy)]
pub struct Tail {
    pub events: u64,
    pub transactions: u64,
    /// The messages that were lost.
    pub lost: u64,
    /// The messages that came again.
    pub repeated: u64,
}

/// A line after the first.
#[derive(Drop)]
pub enum Row {
    Line(Line),
    Tail(Tail),
}
