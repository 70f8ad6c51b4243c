//! What is done to a cluster, and what happens beside it.

use eos_machine::{Event, Note, Reply, Switches};

/// What is done to a cluster, and what happens beside it meanwhile, in order.
#[derive(Drop)]
pub enum Deed {
    /// It was asked for an event, which it took, and answered so.
    Asked { event: Event, reply: Reply },
    /// Its switches were set.
    Set(Switches),
    /// Nothing was done to it: this happened on its network, or in an application.
    Noted(Note),
}
