//! A simulated Kafka cluster for exactly-once applications: brokers, coordinators, producers and what is on its way between
//! them, in one process and with no clock. Each event does what the machine's definitions say under the switches that are
//! set: what clients do (inputs, sessions, what they ask and fetch), and what brokers and the transaction coordinator do
//! (messages as they arrive, restarts). A module of either answers the machine's definition whose name it has.
#![tactic(auto)]

mod accept;
mod add_partition;
mod breaches;
mod cluster;
mod completing;
mod deliver_end;
mod deliver_marker;
mod deliver_offset;
mod deliver_output;
mod deliveries;
mod evidence;
mod fetches;
mod happens;
mod restarted;
mod sessions;
mod starts;

pub use cluster::{Cluster, MAX_EVENTS, NewFault};
pub use deliveries::deliver;
pub use eos_machine::{Claim, Config, Event, Reply, Switch, Switches};
pub use evidence::EvidenceRefusal;
pub use fetches::fetch;
pub use restarted::restart;
pub use sessions::{commit, end, produce, resume};
pub use starts::{feed, start};
