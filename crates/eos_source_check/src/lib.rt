//! The verdict of an evidence that is read from a source, all its faults, its notes and its tables: worked out of what is
//! kept of its logs, each is that of the logs.
//!
//! Of a source whose bytes are known, as a disk in memory, it is the verdict of these bytes. What a file gives no
//! contract can say: of a folder of logs it is the verdict of some evidence of this shape, which is the one that was read.
//! Where a piece is a fold it is the verdict of each evidence whose segment has this fold: that there is one is for who made
//! the fold to know.
//!
//! For the list of all faults only a partition that has a fault by itself is read again, since of its log no bytes were kept:
//! one such partition after the other, never two at once.
#![tactic(auto)]

mod again;
mod fault;
mod judged;
mod kept;
pub mod kept_list_laws;
pub mod kept_note_laws;
mod later;
pub mod laws;
pub mod list_laws;
mod listed;
mod noting;
mod picked;
mod picks;
mod pieces;
mod refused;
mod rising;
mod texts;
mod times;
mod timing;

pub use again::folds_again;
pub use eos_faults::Crew;
pub use fault::Unlisted;
pub use judged::{Judged, Noted, judge_noted, judge_source};
pub use later::later_faults;
pub use listed::{all_faults, all_source_faults};
pub use noting::By;
pub use picks::{Picked, batches_again};
pub use pieces::Pieces;
pub use refused::refusal_of;
pub use texts::texts_again;
pub use times::times_each;
