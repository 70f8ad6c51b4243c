//! The story of a fault: the places in the logs that it is about, each with its role, as a value.
//!
//! A row of it is a record, a batch, or the absence of one; its contract says which. Which signs of a cause the rows bear out is said here too; the text of a
//! story is made elsewhere.
#![tactic(auto)]

mod batches;
mod beside;
mod claims;
mod copies;
mod decisions;
mod ends;
mod headers;
mod kinds;
mod moves;
mod names;
mod outputs;
mod pairs;
mod place;
mod records;
mod row;
mod scene;
mod signs;
mod slices;
mod states;
mod twins;

pub use beside::{is_of_offsets, lists};
pub use decisions::epoch_after;
pub use headers::HeaderName;
pub use kinds::rows_of;
pub use names::{is_there, mark, push_at, push_name, push_spot};
pub use place::place_of;
pub use row::{Row, name_in};
pub use scene::Scene;
pub use signs::{Told, bearer};
