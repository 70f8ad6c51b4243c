//! The records of `__transaction_state`, the log in which Kafka's transaction coordinator keeps what it decided: their
//! keys and values as bytes and as values, and which record of a transactional id may follow which.
#![tactic(auto)]

mod apart;
mod decision;
mod field;
mod form;
mod key;
mod partition_sets;
mod partitions;
mod reading;
mod skip;
mod status;
mod step;
mod value;
mod writing;

pub use apart::{read_id, read_state};
pub use decision::Decision;
pub use eos_base::RecordFault;
pub use key::{decode_key, encode_key};
pub use partition_sets::{is_same_set, lists, push_names};
pub use partitions::{Numbers, Partitions, TopicPartitions};
pub use reading::decode_value;
pub use skip::is_skipped;
pub use status::Status;
pub use step::{TxnFault, step_ok};
pub use value::TxnValue;
pub use writing::encode_value;
