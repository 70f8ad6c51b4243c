//! The logs of a simulated cluster, written down: the bytes of each batch, cut into segments and added to evidence.
#![tactic(auto)]

mod batches;
mod fitting;
mod joining;
mod leaders;
mod log_names;
mod segments;
mod values;
mod writer;

pub use leaders::Leaders;
pub use log_names::{log_count, number_of, topic_of};
pub use segments::{LogFault, add_log, end_of, groups_of};
