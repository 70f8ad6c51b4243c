//! What the visible records of a cluster's logs say: the offsets that consumer groups have committed, and whether each
//! record can be read for what it has to be.
//!
//! A record of `__consumer_offsets` is a commit, a record of an output topic a claim. Whether the outputs are exact, a
//! crate above says. Over the records there is one walk, in the order of their partitions, for the first fault and for all:
//! each shows its faults of all kinds by itself, but for a split group, which it shows against the records before it.
#![tactic(auto)]

mod commits;
mod faults;
mod gathering;
mod homes;
pub mod laws;
mod name;
mod offsets;
mod roles;
mod settled;
mod shown;
mod table;
mod topics;
mod visible;

pub use commits::{CommitRef, last_committed};
pub use eos_verdict::{VisibleFault, VisibleFaultKind};
pub use faults::{all_record_faults, least_visible_fault, least_visible_fault_by};
pub use name::{IndexedName, NameMarks, Names, names_of};
pub use offsets::{committed_offsets, offsets_of};
pub use roles::TopicSet;
pub use table::{CommitTable, commits_of, committed};
pub use topics::source_topics;
pub use visible::is_visible;
