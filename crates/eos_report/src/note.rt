//! The JSON object of a note.

ghost use Rattle.std.specs.Prelude.{◌≡◌, IfOk, OnOk, codes};
ghost use Rattle.serde_json.specs.Data.{string, put as with_member};
ghost use Rattle.serde_json.specs.View.{view, items_view};
ghost use Rattle.eos_manifest.specs.Objects.{held, count, text_value};
ghost use Rattle.eos_report.specs.Values.{with_partition};
ghost use Rattle.eos_report.specs.NoteValues.{with_note, note_value};
ghost use Rattle.eos_report.specs.Reports.{note_items};

use crate::place::put_partition;
use eos_base::PartitionName;
use eos_evidence::GroupId;
use eos_manifest::Object;
use eos_notes::{Note, OtherRecord};
use serde_json::Value;
use std::alloc::{AllocError, Global};

/// The objects of notes, in their order.
pub(crate) fn values_of_notes(alloc: Global, notes: &[Note]) -> Result<Vec<Value>, AllocError>
    ensures { IfOk result (λ values. items_view values.items ≡ note_items notes.now) }
{
    let mut values = Vec::new(alloc);
    for note in notes {
        values.push(value_of_note(alloc, note)?)?;
    }
    Ok(values)
}

#[tactic(auto, unfolding(crate::specs::NoteValues::note_value))]
fn value_of_note(alloc: Global, note: &Note) -> Result<Value, AllocError>
    ensures { IfOk result (λ value. view value ≡ note_value note.now) }
{
    let mut made = Object::new(alloc);
    put_note(&mut made, note)?;
    Ok(made.into_value())
}

#[tactic(auto, unfolding(crate::specs::NoteValues::with_note))]
fn put_note(out: &mut Object, note: &Note) -> Result<(), AllocError>
    ensures { OnOk result (held out.new ≡ with_note note.now (held out.old)) }
{
    match note {
        Note::NoApplication => out.put_str("kind", "NoApplication"),
        Note::Unlisted { partition, group } => put_of_partition(out, "Unlisted", group, partition),
        Note::PastEnd {
            group,
            offset,
            partition,
            end,
        } => {
            put_of_partition(out, "PastEnd", group, partition)?;
            out.put_integer("offset", *offset)?;
            out.put_integer("end", *end)
        }
        Note::NoPartition { topic, group } => {
            put_of_group(out, "NoPartition", group)?;
            out.put_text("topic", topic.as_slice())
        }
        Note::Gap { topic, number } => {
            out.put_str("kind", "Gap")?;
            out.put_text("topic", topic.as_slice())?;
            out.put_count("partition", *number)
        }
        Note::NothingCommitted { group } => put_of_group(out, "NothingCommitted", group),
        Note::NoInternal(topic) => {
            out.put_str("kind", "NoInternal")?;
            out.put_str("topic", topic.name())
        }
        Note::Behind {
            group,
            below,
            inputs,
        } => {
            put_of_group(out, "Behind", group)?;
            out.put_count("below", *below)?;
            out.put_count("inputs", *inputs)
        }
        Note::EpochFalls { partition, offset } => put_fall(out, partition, *offset),
        Note::OtherEpoch(other) => put_other(out, other),
    }
}

fn put_fall(out: &mut Object, partition: &PartitionName, offset: u64) -> Result<(), AllocError>
    ensures { OnOk result (held out.new ≡ with_member (codes "offset") (count offset) (with_partition partition.now.topic partition.now.partition (with_member (codes "kind") (string (codes "EpochFalls")) (held out.old)))) }
{
    out.put_str("kind", "EpochFalls")?;
    put_partition(out, partition.topic.as_slice(), partition.partition)?;
    out.put_count("offset", offset)
}

#[tactic(auto, unfolding(crate::specs::NoteValues::with_note))]
fn put_other(out: &mut Object, other: &OtherRecord) -> Result<(), AllocError>
    ensures { OnOk result (held out.new ≡ with_note (Note.OtherEpoch other.now) (held out.old)) }
{
    let partition = &other.partition;
    put_of_partition(out, "OtherEpoch", &other.group, partition)?;
    out.put_integer("offset", other.offset)?;
    out.put_integer("committed_epoch", other.named)?;
    out.put_integer("record_epoch", i64::from(other.found))
}

fn put_of_partition(
    out: &mut Object,
    kind: &str,
    group: &GroupId,
    partition: &PartitionName,
) -> Result<(), AllocError>
    ensures { OnOk result (held out.new ≡ with_partition partition.now.topic partition.now.partition (with_member (codes "group") (text_value group.now) (with_member (codes "kind") (string kind.now) (held out.old)))) }
{
    put_of_group(out, kind, group)?;
    put_partition(out, partition.topic.as_slice(), partition.partition)
}

fn put_of_group(out: &mut Object, kind: &str, group: &GroupId) -> Result<(), AllocError>
    ensures { OnOk result (held out.new ≡ with_member (codes "group") (text_value group.now) (with_member (codes "kind") (string kind.now) (held out.old))) }
{
    out.put_str("kind", kind)?;
    out.put_text("group", group.as_bytes())
}
