//! What a log's data records say, read once and without keeping their bytes.
//!
//! A reading says what is wanted of a record: of an output's its claim, of a record of Kafka's own logs its key and its value
//! too. Along a log's batches the head of each is kept, and of each data record what is wanted; the
//! bytes are forgotten.
//!
//! In memory the record of an output costs 16 bytes where its claim names one of the topics that are asked for, by small numbers,
//! some 50 more where one is great, and some 200 more where it names another topic. That of a record of Kafka's own logs costs 8
//! bytes beside those of its key and its value.
#![tactic(auto)]

mod batch;
mod boxed;
mod epoch;
mod head;
mod kept_list;
mod kept_outputs;
mod kept_texts;
pub mod laws;
mod nothing;
mod output;
mod outputs;
mod packed_texts;
mod placed;
mod reading;
pub mod reading_laws;
mod record;
mod seals;
mod text;
mod text_end;
mod texts;
mod wanted;
mod wants;

pub use batch::keep_batches;
pub use boxed::BoxedClaim;
pub use epoch::{EpochEntry, append_entries, is_change};
pub use kept_list::KeptList;
pub use kept_outputs::KeptOutputs;
pub use kept_texts::KeptTexts;
pub use nothing::Nothing;
pub use output::{AskedClaim, KeptOutput, OutputRef};
pub use outputs::Outputs;
pub use placed::Placed;
pub use reading::Reading;
pub use record::KeptRecord;
pub use seals::{Seal, push_entries, read_seals};
pub use text::lent_claim;
pub use texts::Texts;
pub use wanted::Wanted;
pub use wants::Wants;
