//! A history of what a cluster was asked and answered, and what each of its callers was told.

use eos_base::Listed;
use eos_cluster::Cluster;
use eos_machine::{Event, Reply};

/// An event that a cluster took, what it was answered, and the number of the pass by which it came.
#[derive(Drop)]
pub struct Entry {
    pub pass: u64,
    pub event: Event,
    pub reply: Reply,
}

/// A call as its caller knows it: its place in the history, counted from 0, the event, and what was answered.
#[derive(Drop)]
pub struct Call {
    pub place: u64,
    pub event: Event,
    pub reply: Reply,
}

/// What a caller is told: the reply, and the place of its entry, or of the next one where nothing is stored.
#[derive(Clone, Copy)]
pub struct Called {
    pub place: u64,
    pub reply: Reply,
}

/// The entries of a history, in the order in which the cluster took them.
pub type Entries = Listed<Entry>;

/// What many callers have left: the cluster, its history, and whether each caller was told just what stands there.
#[derive(Drop)]
pub struct Finished {
    pub cluster: Cluster,
    pub entries: Entries,
    /// Whether the calls of each pass are the entries of its number, in order, at the places that it was told.
    pub agree: bool,
}
