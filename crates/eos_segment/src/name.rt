//! Names of partitions, and what isn't read.

ghost use Rattle.std.specs.Prelude.{◌≡◌, ◌&&◌, ◌==◌, length, true, OnOk, string_bytes};
ghost use Rattle.eos_text.specs.Adding.{Adds};
ghost use Rattle.eos_txnlog.specs.PartitionSets.{names_in_topic, names_of};
ghost use Rattle.eos_segment.specs.DecodedLines.{unread_line};
ghost use Rattle.eos_segment.specs.Names.{names_text, separator as separator_of};

use eos_txnlog::TopicPartitions;
use eos_verdict::push_name;
use std::alloc::{AllocError, Global};

fn separator(is_first: bool) -> &'static str
    ensures { result.now ≡ separator_of is_first }
{
    if is_first { "" } else { "," }
}

/// Adds the names of a topic's partitions, before which others may stand.
fn push_topic(
    alloc: Global,
    out: &mut String,
    first: bool,
    topic: &TopicPartitions,
) -> Result<(), AllocError>
    ensures { OnOk result (Adds (string_bytes out.old) (string_bytes out.new) (names_text first (names_in_topic topic.now))) }
{
    let mut is_first = first;
    for number in topic.numbers.as_slice() {
        push_name(
            alloc,
            out,
            separator(is_first),
            topic.topic.as_slice(),
            number,
        )?;
        is_first = false;
    }
    Ok(())
}

/// Whether no name stands before those after this topic.
fn stays_first(is_first: bool, topic: &TopicPartitions) -> bool
    ensures { result ≡ (is_first && (length topic.now.numbers == 0)) }
{
    is_first && topic.numbers.is_empty()
}

/// Adds the names of a transaction's partitions, with commas between them.
pub(crate) fn push_names(
    alloc: Global,
    out: &mut String,
    partitions: &[TopicPartitions],
) -> Result<(), AllocError>
    ensures { OnOk result (Adds (string_bytes out.old) (string_bytes out.new) (names_text true (names_of partitions.now))) }
{
    let mut is_first = true;
    for topic in partitions {
        push_topic(alloc, out, is_first, topic)?;
        is_first = stays_first(is_first, topic);
    }
    Ok(())
}

/// Adds the line of a record that doesn't read.
#[tactic(auto, unfolding(crate::specs::DecodedLines::unread_line))]
pub(crate) fn push_unread(out: &mut String, name: &str) -> Result<(), AllocError>
    ensures { OnOk result (Adds (string_bytes out.old) (string_bytes out.new) (unread_line name.now)) }
{
    write!(out, "  unread {name}\n")
}
