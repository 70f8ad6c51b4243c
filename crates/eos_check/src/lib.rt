//! The verdict over evidence: was the promise of exactly once kept, and if not, which is the first fault?
//!
//! The verdict over what is wanted of an evidence's logs is the verdict over the logs: so who has looked at each log when it
//! was read may forget its bytes.
#![tactic(auto)]

mod judging;
pub mod kept_laws;
pub mod laws;
mod one_thread;
mod phases;
mod shards;

pub use eos_verdict::{Counts, Fault, Verdict};
pub use judging::{Judging, judge, judge_with};
pub use one_thread::check_one;
