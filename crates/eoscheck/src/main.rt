//! `eoscheck`: checks whether the promise of exactly once was kept in Kafka logs, lists log segments, checks the sequences and
//! epochs of their producers, writes manifests for copied logs, and the logs of a simulated cluster.
#![tactic(auto)]

mod acts;
mod tellings;

use std::process::ExitCode;

fn main(rt: HostRuntime) -> ExitCode {
    ExitCode::from(acts::obey_words(&rt, &rt))
}
