//! What the lines of ends say beside the ends, and what is told of it.

use crate::note::{Note, OfLines};
use bytes::Bytes;
use eos_base::{PartitionName, Sorted};
use eos_evidence::{App, End};
use eos_manifest::{coordinator_of, partitions_of};
use std::alloc::{AllocError, Global};
use std::collections::BTreeSet;

const OFFSETS: &str = "__consumer_offsets";

const STATES: &str = "__transaction_state";

/// The ends of partitions, and whether lines that said them end in carriage returns.
#[derive(Drop)]
pub(crate) struct Said {
    pub(crate) ends: Vec<End>,
    pub(crate) has_returns: bool,
}

/// Whether a line of this text ends in a carriage return.
pub(crate) fn has_returns(text: &[u8]) -> bool {
    for at in 0..text.len() {
        if text[at] == b'\r' && (text.len() - at == 1 || text[at + 1] == b'\n') {
            return true;
        }
    }
    false
}

/// Adds what is to be told of the lines of this file: there are none, they end in carriage returns, a topic has none.
pub(crate) fn push_of_lines(
    alloc: Global,
    notes: &mut Vec<Note>,
    file: &str,
    apps: &[App],
    said: &Said,
) -> Result<(), AllocError> {
    if said.ends.is_empty() {
        return push_of_file(alloc, notes, file, OfLines::None);
    }
    if said.has_returns {
        push_of_file(alloc, notes, file, OfLines::Returns)?;
    }
    let mut topics = BTreeSet::new(alloc);
    insert_topics(alloc, apps, &mut topics)?;
    for topic in &topics {
        if !has_topic(said.ends.as_slice(), topic) {
            push_of_file(alloc, notes, file, OfLines::Lacks(topic.clone()?))?;
        }
    }
    Ok(())
}

/// Whether one of these ends is of a partition of the topic.
fn has_topic(ends: &[End], topic: &Bytes) -> bool {
    for end in ends {
        if end.topic == *topic {
            return true;
        }
    }
    false
}

fn push_of_file(
    alloc: Global,
    notes: &mut Vec<Note>,
    file: &str,
    what: OfLines,
) -> Result<(), AllocError> {
    let file = String::from_str(alloc, file)?;
    notes.push(Note::Lines(file, what))?;
    Ok(())
}

/// Adds the topics that applications name, and Kafka's own two.
fn insert_topics(
    alloc: Global,
    apps: &[App],
    topics: &mut BTreeSet<Bytes>,
) -> Result<(), AllocError> {
    topics.insert(Bytes::copy_from_slice(alloc, OFFSETS.as_bytes())?)?;
    topics.insert(Bytes::copy_from_slice(alloc, STATES.as_bytes())?)?;
    for app in apps {
        for topic in app.sources.as_slice() {
            topics.insert(topic.clone()?)?;
        }
        for topic in app.outputs.as_slice() {
            topics.insert(topic.clone()?)?;
        }
    }
    Ok(())
}

/// Adds for each group to which partition of the offsets log it commits, where the ends are those of all of them.
pub(crate) fn push_of_groups(
    alloc: Global,
    notes: &mut Vec<Note>,
    apps: &[App],
    said: &Said,
    folders: &Sorted<PartitionName>,
) -> Result<(), AllocError> {
    let Some(partitions) = partitions_of(said.ends.as_slice(), OFFSETS.as_bytes()) else {
        return Ok(());
    };
    for app in apps {
        let partition = PartitionName {
            topic: Bytes::copy_from_slice(alloc, OFFSETS.as_bytes())?,
            partition: coordinator_of(app.group.as_str(), partitions),
        };
        notes.push(Note::Group {
            group: app.group.clone()?,
            has_folder: folders.holds(&partition),
            partition,
            partitions,
        })?;
    }
    Ok(())
}
