//! All faults of a partition's log by itself, and of the applications' outputs, each in the order that makes the first of them
//! least.
//!
//! Of a partition each place of its front shows its faults. Those of outputs are handed to a sink, source by source, as they are
//! found; of an application's claims and inputs no more is held than those of a range of sources for each thread.
#![tactic(auto)]

mod by_range;
mod by_source;
mod claims;
mod commits;
mod crew;
mod cuts;
mod every;
pub mod gathered_laws;
mod lent;
mod log_faults;
mod outputs;
mod ranges;
mod reading;
mod sample;
mod segments;
mod shown_by_claims;
mod shown_by_log;
mod sink;
mod stops;
mod tables;
mod walk;

pub use crew::Crew;
pub use every::output_faults;
pub use log_faults::faults_of_partition;
pub use outputs::LentOutput;
pub use sink::FaultSink;
