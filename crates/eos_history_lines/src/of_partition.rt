//! The events of a partition: as members of a JSON object, and read from them.

ghost use Rattle.std.specs.Prelude.{◌≡◌, codes, IfOk, OnOk};
ghost use Rattle.serde_json.specs.Data.{put as with_member};
ghost use Rattle.serde_json.specs.View.{view};
ghost use Rattle.eos_manifest.specs.Objects.{held, count};
ghost use Rattle.eos_history_lines.specs.Lines.{with_partition};
ghost use Rattle.eos_history_lines.specs.steps.Reading.{restart_in, elect_in};

use crate::members::{count_in, size_in, text_in};
use bytes::Bytes;
use eos_machine::Event;
use eos_manifest::Object;
use serde_json::Value;
use std::alloc::{AllocError, Global};

/// Names a partition.
pub(crate) fn put_partition(
    out: &mut Object,
    topic: &Bytes,
    partition: usize,
) -> Result<(), AllocError>
    ensures { OnOk result (held out.new ≡ with_partition topic.now partition (held out.old)) }
{
    out.put_text("topic", topic.as_slice())?;
    out.put_size("partition", partition)
}

/// The same, and how many records its new leader has.
pub(crate) fn put_election(
    out: &mut Object,
    topic: &Bytes,
    partition: usize,
    kept: u64,
) -> Result<(), AllocError>
    ensures { OnOk result (held out.new ≡ with_member (codes "kept") (count kept) (with_partition topic.now partition (held out.old))) }
{
    put_partition(out, topic, partition)?;
    out.put_count("kept", kept)
}

pub(crate) fn read_restart(alloc: Global, value: &Value) -> Result<Option<Event>, AllocError>
    ensures { IfOk result (λ event. event ≡ restart_in (view value.now)) }
{
    let Some(topic) = text_in(value, "topic") else {
        return Ok(None);
    };
    let Some(partition) = size_in(value, "partition") else {
        return Ok(None);
    };
    let topic = Bytes::copy_from_slice(alloc, topic.as_bytes())?;
    Ok(Some(Event::BrokerRestart { topic, partition }))
}

pub(crate) fn read_election(alloc: Global, value: &Value) -> Result<Option<Event>, AllocError>
    ensures { IfOk result (λ event. event ≡ elect_in (view value.now)) }
{
    let Some(topic) = text_in(value, "topic") else {
        return Ok(None);
    };
    let Some(partition) = size_in(value, "partition") else {
        return Ok(None);
    };
    let Some(kept) = count_in(value, "kept") else {
        return Ok(None);
    };
    let topic = Bytes::copy_from_slice(alloc, topic.as_bytes())?;
    Ok(Some(Event::Elect {
        topic,
        partition,
        kept,
    }))
}
