//! The lineage of every application's outputs in a cluster's logs: each input below its committed offset has its outputs,
//! each once, from a transaction that committed past it, and nothing else stands in the output topics.
#![tactic(auto)]

mod application;
mod books;
mod check;
mod claims;
mod counts;
mod exact;
mod inputs;
mod keys;
pub mod laws;
mod logs;
mod passes;
mod pipeline;
mod shares;
mod sorting;
mod tables;

pub use check::{check_lineage, check_lineage_by};
pub use counts::LineageCounts;
pub use eos_claims::{Claim, read_claim};
pub use eos_commits::{committed, committed_offsets};
pub use eos_verdict::LineageFault;
