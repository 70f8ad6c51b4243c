//! `check` as a command: reads folders of evidence, and tells of each the verdict, and all faults, notes, a report and a page where these are
//! wanted.
#![tactic(auto)]

mod check;
mod dates;
mod folder;
mod folders;
mod folds;
mod report;
mod report_file;
mod source;
mod tables;
mod terms;

pub use check::{Asked, Made, Said, Wanted};
pub use folder::{Folder, Unchecked, check_folder_to};
pub use folders::{Checked, check_words, end_check};
pub use folds::Folded;
pub use report::Timed;
pub use source::{SourceAnswer, answer_all, answer_source};
pub use terms::Terms;
