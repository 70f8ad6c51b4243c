//! What every crate of the checker stands on: the list type that contracts see as a list, lists in order as sets, the least
//! of what is found and all of it as one list in order, the names of partitions, numbers in decimal, the faults of the
//! internal logs' records, and how many workers there are (from 1 to 64, by its type).
#![tactic(auto)]

mod decimal;
mod distinct;
mod least;
mod listed;
mod numbers;
mod partition_name;
mod record_fault;
mod sorted;
mod workers;

pub use decimal::{are_digits, read_offset, read_partition, value_of_digits};
pub use distinct::distinct_in_order;
pub use least::{lesser, offer};
pub use listed::Listed;
pub use numbers::{are_all, is_below, sum};
pub use partition_name::PartitionName;
pub use record_fault::RecordFault;
pub use sorted::{Sorted, holds, in_order};
pub use workers::Workers;
