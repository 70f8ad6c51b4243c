//! `explain` of a folder: the story of a fault of an evidence, and its text, which has a line for each row of the story, what
//! the fault means, what to do next, how many faults of each kind there are, and the notes.
#![tactic(auto)]

mod again;
mod answer;
mod batches;
mod command;
mod folder;
mod headers;
mod kinds;
mod lines;
mod named;
mod paths;
mod records;
mod rows;
mod seen;
mod sentences;
mod stories;
mod story;
mod times;
mod told;
mod whole_story;

pub use eos_source::Folder;
pub use folder::{Explained, Unexplained, Which, explain_folder, explain_folder_to};
pub use stories::{First, first_stories};
pub use whole_story::{Story, story_text};
