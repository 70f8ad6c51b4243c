//! What stands beside a verdict: the notes of an evidence, signs that it isn't the one that was meant, and the tables of a
//! report, which say what each partition holds and how far each application's group has got.
//!
//! A yes about evidence that was named wrongly is the worst answer: a partition that the manifest forgets isn't judged, and
//! of a group that it misspells no offset is found. A note changes no verdict.
//!
//! The tables are counted over the logs that the verdict is of; a partition's batches and bytes by what was told of its segments
//! when they were read, since a log that is kept has no more of them than that.
#![tactic(auto)]

mod evidence_notes;
mod evidence_tallies;
mod group_rows;
mod groups;
pub mod laws;
mod lines;
mod manifest;
mod note;
mod partitions;
mod replaced;
mod replicas;
mod tally;
pub mod tally_laws;
mod text;
mod unlisted;

pub use evidence_tallies::tallies_of;
pub use lines::all_lines;
pub use note::{InternalTopic, Note, OtherRecord};
pub use replicas::all_notes;
pub use tally::{Counted, GroupTally, PartitionTally, SourceTally, Tallies, TopicRoles};
pub use text::note_lines;
