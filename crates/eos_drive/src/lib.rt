//! What drives a simulated cluster: scripts of words from a seed, and the applications of one or two groups that read,
//! process and write in transactions, whose requests are lost and repeated, whose sessions are abandoned and whose brokers
//! and coordinators restart, as the words say. One script may drive it alone, or many at once by threads: then it lies under
//! a lock, beside the history of all that it was asked and answered.
//!
//! Proved: the words of a script are those of its seed; each call returns, and does nothing to the cluster but ask it for
//! events and set its switches, so that whatever holds of every cluster holds of it afterwards. A history has each event that
//! the cluster took with the machine's reply, and each time that the switches were set, in order; that of a shared cluster is
//! its replay. What the applications make of their inputs, and what is counted, is tested.
#![tactic(auto)]

mod actors;
mod deed;
mod driver;
mod elections;
mod finer_steps;
mod finished;
mod history;
mod instance;
mod mishap;
mod mishaps;
mod network;
mod plan;
mod rates;
mod reader;
mod request;
mod script;
mod scripted;
mod settings;
mod settle;
mod shared;
mod tail;
mod tally;
mod threads;

pub use deed::Deed;
pub use eos_machine::Note;
pub use finished::{Call, Called, Entries, Entry, Finished};
pub use history::History;
pub use mishap::{ChosenMishap, Input, MISHAPS, Mishap};
pub use rates::Rates;
pub use script::Script;
pub use scripted::{run_kept, run_script, run_with};
pub use settings::{Settings, Turning};
pub use shared::{Pass, Shared};
pub use tail::{run_tail, run_tail_kept};
pub use tally::Tally;
pub use threads::run_threads;
