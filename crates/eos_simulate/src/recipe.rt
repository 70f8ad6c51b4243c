//! What the index of many folders says of one: where it lies, and the words that make it again.

use crate::label_lines::value_of;
use eos_words::{Simulation, Sizes, Thousandths};
use serde_json::{Map, Value};
use std::alloc::{AllocError, Global};

/// The line of an index about this folder, with its line feed.
pub(crate) fn index_line(alloc: Global, words: &Simulation<'_>) -> Result<String, AllocError> {
    let value = index_of(alloc, words)?;
    let text = value.to_string(alloc);
    drop(value);
    let mut line = text?;
    line.push_str("\n")?;
    Ok(line)
}

fn index_of(alloc: Global, words: &Simulation<'_>) -> Result<Value, AllocError> {
    let mut members = Map::new(alloc);
    match put_all(alloc, &mut members, words) {
        Ok(()) => Ok(Value::Object(members)),
        Err(fault) => {
            drop(members);
            Err(fault)
        }
    }
}

fn put_all(
    alloc: Global,
    members: &mut Map<String, Value>,
    words: &Simulation<'_>,
) -> Result<(), AllocError> {
    put(alloc, members, "folder", value_of(alloc, words.folder))?;
    if let Some(labels) = words.labels {
        put(alloc, members, "labels", value_of(alloc, labels))?;
    }
    put(alloc, members, "words", recipe(alloc, words))
}

/// Puts a member, where its value could be made.
fn put(
    alloc: Global,
    members: &mut Map<String, Value>,
    name: &str,
    value: Result<Value, AllocError>,
) -> Result<(), AllocError> {
    let value = value?;
    match String::from_str(alloc, name) {
        Ok(name) => {
            let before = members.insert(name, value)?;
            drop(before);
            Ok(())
        }
        Err(fault) => {
            drop(value);
            Err(fault)
        }
    }
}

/// The words of the command line, without the folder.
fn recipe(alloc: Global, words: &Simulation<'_>) -> Result<Value, AllocError> {
    let mut said = Vec::new(alloc);
    push_recipe(alloc, &mut said, words)?;
    Ok(Value::Array(said))
}

fn push_recipe(
    alloc: Global,
    said: &mut Vec<Value>,
    words: &Simulation<'_>,
) -> Result<(), AllocError> {
    push_number(alloc, said, "--seed", Some(words.seed))?;
    push_number(alloc, said, "--events", Some(words.events))?;
    push_sizes(alloc, said, words.sizes)?;
    push_rates(alloc, said, words.rates)?;
    push_flag(alloc, said, "--links", words.links)?;
    push_each(alloc, said, "--switch", words.switches.as_slice())?;
    push_number(alloc, said, "--switch-at", words.switch_at)?;
    push_flag(alloc, said, "--no-tail", words.no_tail)?;
    push_each(alloc, said, "--mishap", words.mishaps.as_slice())?;
    push_flag(alloc, said, "--stop-anywhere", words.stop_anywhere)?;
    push_each(alloc, said, "--collect", words.mistakes.as_slice())
}

fn push_sizes(alloc: Global, said: &mut Vec<Value>, sizes: Sizes) -> Result<(), AllocError> {
    push_number(alloc, said, "--applications", sizes.applications)?;
    push_number(alloc, said, "--inputs", sizes.inputs)?;
    push_number(alloc, said, "--outputs", sizes.outputs)?;
    push_number(alloc, said, "--transaction-logs", sizes.transaction_logs)?;
    push_number(alloc, said, "--segment-records", sizes.segment_records)?;
    push_number(alloc, said, "--batch-records", sizes.batch_records)?;
    push_flag(alloc, said, "--chain", sizes.chain)
}

fn push_rates(alloc: Global, said: &mut Vec<Value>, rates: Thousandths) -> Result<(), AllocError> {
    push_number(alloc, said, "--lose", rates.lose)?;
    push_number(alloc, said, "--repeat", rates.repeat)?;
    push_number(alloc, said, "--abandon", rates.abandon)?;
    push_number(alloc, said, "--members", rates.members)?;
    push_number(alloc, said, "--restart-broker", rates.restart_broker)?;
    push_number(
        alloc,
        said,
        "--restart-coordinator",
        rates.restart_coordinator,
    )?;
    push_number(alloc, said, "--abort", rates.abort)?;
    push_number(alloc, said, "--time-out", rates.time_out)?;
    push_number(alloc, said, "--add-partition", rates.add_partition)?;
    push_number(alloc, said, "--late-complete", rates.late_complete)?;
    push_number(alloc, said, "--elect", rates.elect)
}

fn push_number(
    alloc: Global,
    said: &mut Vec<Value>,
    name: &str,
    number: Option<u64>,
) -> Result<(), AllocError> {
    let Some(number) = number else {
        return Ok(());
    };
    said.push(value_of(alloc, name)?)?;
    said.push(Value::String(format!(in alloc; "{number}")?))?;
    Ok(())
}

fn push_each(
    alloc: Global,
    said: &mut Vec<Value>,
    name: &str,
    each: &[&str],
) -> Result<(), AllocError> {
    for it in each {
        said.push(value_of(alloc, name)?)?;
        said.push(value_of(alloc, it)?)?;
    }
    Ok(())
}

fn push_flag(
    alloc: Global,
    said: &mut Vec<Value>,
    name: &str,
    is_said: bool,
) -> Result<(), AllocError> {
    if is_said {
        said.push(value_of(alloc, name)?)?;
    }
    Ok(())
}
