//! Texts that grow at their end, and are then written whole or in part; and the catalogue of faults: for each kind a page
//! that says what it is, what it means, what makes it happen and what to look at.
//!
//! The catalogue is one table, from which `explain --code`, `docs/FAULTS.md` and the list of kinds in the help of `check`
//! come.
#![tactic(auto)]

mod case;
mod cases;
mod growing;
mod kinds;
mod outputs;
mod page;
mod partitions;
mod phases;
mod records;
mod transactions;
mod writing;

pub use case::{Case, Sign};
pub use growing::{push_escaped, push_text, push_value};
pub use kinds::push_kinds;
pub use page::{Page, page_of, page_text};
pub use writing::{WriteFault, finish, write_whole};
