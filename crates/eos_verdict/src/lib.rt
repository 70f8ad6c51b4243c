//! What the check answers: the faults of all phases with their numbers and names, the verdict, and its text as a line.
//!
//! What a fault says of logs, and which is the first, the crates of the phases say.
#![tactic(auto)]

mod counts;
mod details;
mod fault_text;
mod line;
mod lineage_fault;
mod log_fault;
mod match_fault;
mod verdict;
mod visible_fault;

pub use counts::push_counts;
pub use details::push_details;
pub use fault_text::push_name;
pub use line::{push_no, text_of_fault, verdict_line};
pub use lineage_fault::LineageFault;
pub use log_fault::{LogFault, LogFaultKind};
pub use match_fault::{MatchFault, MatchFaultKind};
pub use verdict::{Counts, Fault, Verdict};
pub use visible_fault::{VisibleFault, VisibleFaultKind};
