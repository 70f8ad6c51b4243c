//! The data records that a fault speaks of, found in the logs: those that claim an input, the states of a transactional id or
//! of a producer id, and the commits of a source partition; and where the batches of a partition stand, which segment and
//! which bytes, and when records were written.
//!
//! The checker keeps no byte of a batch: places that a reader can look up are found in the folds of segments that are read anew.
#![tactic(auto)]

mod alike;
mod commits;
mod finding;
mod folded;
mod holding;
mod moment;
mod partition;
mod reading;
mod sought;
mod times;
mod walk;
mod wanted;

pub use commits::{group_of, is_of_offsets_log, passes};
pub use finding::{Find, Finds, find_records};
pub use folded::Folded;
pub use moment::push_time;
pub use partition::{Placed, batches_of, folded_named, is_named};
pub use reading::{id_of, is_same, state_of};
pub use sought::{Epochs, Sought};
pub use times::{time_of, time_of_number};
pub use walk::batches_in;
pub use wanted::{Standing, Wanted};
