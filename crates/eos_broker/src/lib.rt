//! What a simulated cluster holds in memory: a partition with its log and what its broker holds of each application's
//! producer id, which is a function of the log; the machine's state with room for more of each list, and the questions and
//! changes of which its events are made.
//!
//! The law of a broker: whatever is asked of it, no fault of a sequence or an epoch stands at a batch that it appends.
#![tactic(auto)]

pub mod answers;
pub mod copies;
pub mod laws;
pub mod log_indexes;
mod partition_log;
mod producer;
mod store;

pub use partition_log::PartitionLog;
pub use producer::{is_epoch, is_not_above, next_sequence};
pub use store::clients::sequence_of;
pub use store::coordinators::{Step, state_of};
pub use store::{Store, fresh};
