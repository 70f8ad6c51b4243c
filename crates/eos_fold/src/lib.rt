//! What a partition's log says of exactly-once delivery, by definitions over its bytes, and the parts of which it is worked
//! out in one pass over its record batches.
//!
//! Of a data batch a head is kept, of a producer id the ends of its touches, which are joined with those of what comes
//! behind. Bytes come chunk by chunk: what was taken is forgotten, and the bytes of a batch that isn't whole yet stay in one
//! buffer.
#![tactic(auto)]

pub mod batch_laws;
mod batches;
mod close;
mod ends;
mod entry;
mod fault;
mod feed;
mod fold;
mod front;
mod head;
mod indexes;
mod item;
pub mod laws;
mod mark;
mod reader;
mod stop;
mod table;
mod whole;

pub use batches::{at_first, lesser_open};
pub use close::{Close, once, push_close};
pub use ends::Ends;
pub use entry::Ending;
pub use eos_touch::{PartitionFault, PartitionFaultKind};
pub use fault::{Fault, at_seam, earlier};
pub use feed::Feed;
pub use fold::ByteFold;
pub use front::{begin_of, is_checked, push_marker};
pub use head::DataHead;
pub use indexes::Indexes;
pub use item::{Fate, Item};
pub use mark::EndMark;
pub use reader::read_folded;
pub use stop::{Stop, is_at_end};
pub use table::{make_room, make_room_for};
pub use whole::{fault_of, is_declared, kind_at_stop, pair_kind};
