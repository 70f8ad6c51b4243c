//! What a partition's segments say of exactly-once delivery, without their bytes: the front of their batches, and of each
//! data record what a reading keeps. Of a run of batches it is worked out batch by batch or joined from its parts; of a
//! partition it is made of its segments'. Batches, segments and bytes are counted.
//!
//! A segment is read chunk by chunk; what was taken of a chunk is forgotten. In memory a data record costs what is kept of
//! it, a data batch 32 bytes (its head), and 8 more as long as it is transactional and waits for its end marker, a producer
//! id some 150, and an end marker 24. While a segment is read, a chunk's heads and the bytes of a batch that isn't whole yet
//! are held too.
#![tactic(auto)]

mod apart;
mod batches;
mod close;
mod cursor;
mod fold;
mod front;
mod headers;
mod heads;
mod held;
mod item;
mod items;
mod kept_run;
mod kept_whole;
mod logs;
mod part;
mod pass;
mod records;
mod run;
mod segment;
mod sizes;
mod summary;
mod taking;
mod told;
mod whole;

pub use batches::{KeptBatch, KeptBatches, Look};
pub use cursor::Cursor;
pub use eos_fold::{DataHead, EndMark, Fault};
pub use front::Front;
pub use held::{longer, told_in};
pub use item::ItemRef;
pub use items::Items;
pub use kept_run::{Asked, KeptRun};
pub use logs::Logs;
pub use part::{Part, Told};
pub use pass::data_records;
pub use run::Run;
pub use segment::keep_segment;
pub use sizes::Sizes;
pub use summary::Kept;
pub use told::told_of;
