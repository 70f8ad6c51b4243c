//! One segment of a log: its listing, with what a record of an output topic or of an internal log says as a line, and whether
//! its producers kept their promises.
#![tactic(auto)]

mod answer;
mod chain_walk;
mod chosen;
mod claim;
mod commit;
mod dump;
mod fault;
mod fed;
mod file;
mod headers;
mod line;
mod lines;
mod name;
mod one_segment;
mod options;
mod reading;
mod text;
mod transaction;

pub use answer::chain_to;
pub use dump::dump_to;
pub use eos_verdict::push_details;
pub use fault::RunFault;
pub use file::{chain_file, dump_file};
pub use line::push_decoded;
pub use one_segment::{Chain, chain, chain_from};
pub use options::ListingOptions;
pub use reading::Reading;
