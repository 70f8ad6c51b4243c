//! What is kept of a segment, as a file: its heads, where its leader epoch changes, of each data record what was wanted, and
//! why its front ends. `docs/FOLD.md` has the layout. A fold has one file, which is written and read exactly.
//!
//! A fold is made where the segment lies, which is read once, chunk by chunk. It is taken as if its segment had been read,
//! whoever made it: its heads are passed one after the other, as those of a log are, and its claims are tested, so that what
//! stands above rests on nothing that a file only says.
#![tactic(auto)]

mod claim;
mod claims;
mod entry;
mod epoch;
mod fault;
mod file;
mod fold;
mod fold_texts;
mod front;
mod head;
mod kept;
pub mod laws;
mod number;
mod pass;
mod read;
mod refusal;
mod run;
mod run_front;
mod seals;
mod segment;
mod stop;
mod texts;
mod unfit;
mod write;

pub use fault::FoldFault;
pub use file::{FoldFile, FoldKept};
pub use fold::fold_of;
pub use fold_texts::FoldTexts;
pub use head::{BatchKind, FoldHead};
pub use read::decode_fold;
pub use refusal::{FoldField, RefusedField, refused_field};
pub use run::run_of;
pub use unfit::Unfit;
pub use write::encode_fold;
