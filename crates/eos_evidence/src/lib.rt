//! What the checker is given: the manifest, the segments in their order, and how a segment is read.
#![tactic(auto)]

mod application;
mod builder;
mod ends;
mod evidence;
mod fault;
mod legal_applications;
mod manifest_reader;
mod manifest_writer;
mod partition;
mod partition_name;
mod pieces;
mod segment;
mod segment_reader;
mod spec;
mod topics;

pub use application::{App, Apps, GroupId, outputs_of};
pub use builder::EvidenceBuilder;
pub use ends::{End, Ends};
pub use evidence::{Evidence, MAX_SEGMENTS};
pub use fault::{AddFault, ReadFault, SpecFault};
pub use manifest_reader::parse_spec;
pub use manifest_writer::spec_text;
pub use partition::Partition;
pub use segment::Segment;
pub use segment_reader::{MAX_SEGMENT_BYTES, read_segment, read_some};
pub use spec::{MAX_APPS, MAX_PARTITIONS, Spec};
pub use topics::{Topics, is_internal_topic, is_topic_name, push_topics};
