//! A simulated cluster as a machine: what its members hold, what may happen to it, and what it answers, by definitions that
//! the cluster's code is proved against; its logs as they are written down, with the bytes of each batch, the segments, the
//! true ends and the evidence of a schedule; and the theorem on every schedule, over these definitions alone. Of code only
//! what sizes, switches and elections say stands here.
#![tactic(auto)]

mod config;
mod event;
mod item;
pub mod laws;
mod state;
mod switches;
mod writer;

pub use config::Config;
pub use event::{Event, Note, Reply};
pub use item::{Claim, Entry, Item, LogIndexes, Status};
pub use state::{Coordinator, Election, Message, Producer, Session, leader_epoch};
pub use switches::{Switch, Switches};
pub use writer::Writer;
