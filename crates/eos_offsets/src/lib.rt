//! The records of Kafka's internal topic `__consumer_offsets`, in which a consumer group keeps how far it has read: keys
//! and values as bytes and as values.
#![tactic(auto)]

mod key;
mod leader_epoch;
mod value;
mod view;

pub use eos_base::RecordFault;
pub use key::{OffsetKey, decode_key, encode_key};
pub use leader_epoch::view_leader_epoch;
pub use value::{Commit, decode_value, encode_value};
pub use view::{KeyRef, view_key, view_value};
