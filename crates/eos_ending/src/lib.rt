//! How a run of the program ends: the exit status, what is said on standard error, of one folder or of one of several, and the
//! file that it may leave; and what standard error is told of a folder's evidence: how far its reading and checking is, why it can't be
//! read, and the notes on it.
#![tactic(auto)]

mod ending;
mod new_file;
mod progress;
mod said;
mod saying;
mod subject;

pub use ending::{Ending, Told};
pub use new_file::{end_unchanged, fill_file, leave_file, make_file};
pub use progress::{Meter, Progress, Stages};
pub use said::{end_fewer, end_unread, say_notes, unread_text};
pub use saying::{STANDARD, end, end_about};
pub use subject::Subject;
