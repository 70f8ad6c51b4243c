//! Kafka's record batches (magic 2), as bytes and as values.
#![tactic(auto)]

mod batch;
mod decode;
mod encode;
mod encode_record;
mod encode_size;
mod fault;
mod field;
mod head;
pub mod laws;
mod marker;
mod passing;
mod read_record;
mod record;
mod rules;
mod segment;
mod view;
mod walk;

pub use batch::{Batch, Batches};
pub use decode::decode_batch;
pub use encode::encode_batch;
pub use fault::BatchFault;
pub use head::BatchHead;
pub use marker::{Kind, Marker, coordinator_epoch, end_kind};
pub use passing::{pass_record, pass_records};
pub use record::{Header, Headers, Record, Records};
pub use segment::{SegmentText, decode_segment, next_batch};
pub use view::{HeaderRef, HeaderRefs, RecordRef, lend_record, view_record};
pub use walk::{Opened, open_batch, test_data};
