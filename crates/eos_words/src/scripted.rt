//! How the words of `simulate` are read.

use crate::command::read_all;
use crate::request::{Every, Request, Simulation, Sizes, Thousandths};
use clap::ArgMatches;
use std::alloc::{AllocError, Global};

/// What the words of `simulate` ask for.
pub(crate) fn read_simulate<'a>(
    alloc: Global,
    inner: &ArgMatches<'a>,
) -> Result<Option<Request<'a>>, AllocError> {
    match inner.get_one::<u64>("every") {
        Some(longest) => Ok(Some(Request::Every(Every {
            longest,
            switches: read_all(alloc, inner, "switch")?,
        }))),
        None => read_simulation(alloc, inner),
    }
}

fn read_simulation<'a>(
    alloc: Global,
    inner: &ArgMatches<'a>,
) -> Result<Option<Request<'a>>, AllocError> {
    let Some(script) = read_script(inner) else {
        return Ok(None);
    };
    let Some(folder) = inner.get_str("folder") else {
        return Ok(None);
    };
    Ok(Some(Request::Simulate(Simulation {
        seed: script.seed,
        events: script.events,
        sizes: read_sizes(inner),
        rates: read_rates(inner),
        links: inner.get_flag("links"),
        switches: read_all(alloc, inner, "switch")?,
        switch_at: inner.get_one::<u64>("switch-at"),
        no_tail: inner.get_flag("no-tail"),
        mishaps: read_all(alloc, inner, "mishap")?,
        stop_anywhere: inner.get_flag("stop-anywhere"),
        mistakes: read_all(alloc, inner, "collect")?,
        history: inner.get_str("history"),
        labels: inner.get_str("labels"),
        schedule: inner.get_str("schedule"),
        count: inner.get_one::<u64>("count"),
        swarm: inner.get_flag("swarm"),
        progress: inner.get_flag("progress"),
        folder,
    })))
}

/// What a script is drawn from, and the number of its words.
#[derive(Clone, Copy)]
struct ScriptWords {
    seed: u64,
    events: u64,
}

/// Where a schedule is run, there is no script.
fn read_script(inner: &ArgMatches<'_>) -> Option<ScriptWords> {
    if inner.get_str("schedule").is_some() {
        return Some(ScriptWords { seed: 0, events: 0 });
    }
    let seed = inner.get_one::<u64>("seed")?;
    let events = inner.get_one::<u64>("events")?;
    Some(ScriptWords { seed, events })
}

fn read_sizes(inner: &ArgMatches<'_>) -> Sizes {
    Sizes {
        applications: inner.get_one::<u64>("applications"),
        inputs: inner.get_one::<u64>("inputs"),
        outputs: inner.get_one::<u64>("outputs"),
        transaction_logs: inner.get_one::<u64>("transaction-logs"),
        segment_records: inner.get_one::<u64>("segment-records"),
        batch_records: inner.get_one::<u64>("batch-records"),
        chain: inner.get_flag("chain"),
    }
}

fn read_rates(inner: &ArgMatches<'_>) -> Thousandths {
    Thousandths {
        lose: inner.get_one::<u64>("lose"),
        repeat: inner.get_one::<u64>("repeat"),
        abandon: inner.get_one::<u64>("abandon"),
        members: inner.get_one::<u64>("members"),
        restart_broker: inner.get_one::<u64>("restart-broker"),
        restart_coordinator: inner.get_one::<u64>("restart-coordinator"),
        abort: inner.get_one::<u64>("abort"),
        time_out: inner.get_one::<u64>("time-out"),
        add_partition: inner.get_one::<u64>("add-partition"),
        late_complete: inner.get_one::<u64>("late-complete"),
        elect: inner.get_one::<u64>("elect"),
    }
}
