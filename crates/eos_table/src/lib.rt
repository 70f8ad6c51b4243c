//! The transactions: what the log of Kafka's transaction coordinator decided, and whether the partitions' logs agree; the
//! first fault of either, and all of them in the order that makes the first of them least.
#![tactic(auto)]

mod agree;
mod apart;
mod around;
mod content;
mod decided;
mod doubled;
mod held;
mod kept_faults;
mod key;
mod known;
mod last_values;
pub mod laws;
mod log_faults;
pub mod log_laws;
mod log_reading;
mod look;
mod mark;
pub mod match_laws;
mod match_list;
mod one_shard;
mod owners;
mod places;
mod quick;
mod section;
mod settled;
mod shared;
mod table;
mod transaction_log;
mod value;
mod wanted;

pub use content::{Content, read_content};
pub use eos_verdict::{LogFault, LogFaultKind, MatchFault, MatchFaultKind};
pub use last_values::{LastValues, is_of_transaction_log, kind_of_status, last_value};
pub use match_list::{all_match_faults, match_shard};
pub use quick::are_matched;
pub use shared::SharedDecision;
pub use table::TxnTable;
pub use transaction_log::{all_log_faults, txn_log};
pub use wanted::WantedTable;
