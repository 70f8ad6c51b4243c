//! What the batches of one producer id say in a partition, one after the other, and the rule for two neighbours; and what may
//! be wrong with a partition's log.
#![tactic(auto)]

mod fault;
pub mod laws;
mod pair;
mod touch;
mod touches;

pub use fault::{PartitionFault, PartitionFaultKind};
pub use pair::{PairFault, is_open, pair_ok, stands};
pub use touch::Touch;
pub use touches::touch_of;
