//! The lines of a history: what a simulated cluster was, what happened to it and what it answered, as JSON, one object a line. So a
//! run can be written down, cut, edited and run again.
//!
//! | Line | Members |
//! |---|---|
//! | the first | `schema` (1), `applications`, `inputs`, `outputs`, `transaction_logs`, `segment_records`, `batch_records`, `chain` (whether there is a second group), `switches` (names), `seed`, `words` |
//! | an event | `number`, `event` (its name), its arguments, and, where it is known, `reply`, with `value` where that is `done` |
//! | a change of the rules | `number`, `set` (the names of the switches that are on from there) |
//! | what happened beside it | `number`, `note` (`lost`, `repeated` or `mishap`), and `message`, or `mishap`: `NAME@TOPIC-N:O` |
//! | the last, which may be absent | `events`, `transactions`, `lost`, `repeated` |
//!
//! Members stand in the order of their names where they are written; they are read in any order, each once.
#![tactic(auto)]

mod divided;
mod events;
mod fault;
pub mod laws;
mod line;
mod members;
mod mistake;
mod names;
mod notes;
mod of_partition;
mod reader;
mod replies;
mod rows;
mod same;
mod schedule;
mod search;
mod switch_names;
mod values;
mod words;
mod writer;

pub use eos_machine::Note;
pub use fault::LineFault;
pub use line::{Deed, Head, Line, Row, Tail};
pub use mistake::Mistake;
pub use rows::{head_of, row_of};
pub use schedule::{Schedule, ScheduleFault, schedule_of};
pub use writer::{head_text, line_text, tail_text};
