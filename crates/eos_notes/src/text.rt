//! The lines of notes.

ghost use Rattle.std.specs.Prelude.{◌≡◌, OnOk, IfOk, string_bytes};
ghost use Rattle.eos_text.specs.Adding.{Adds};
ghost use Rattle.eos_notes.specs.Texts.{note_text, note_line, note_lines as lines_of};

use crate::note::{InternalTopic, Note, OtherRecord};
use bytes::Bytes;
use eos_base::PartitionName;
use eos_evidence::GroupId;
use eos_text::{push_escaped, push_text, push_value};
use std::alloc::{AllocError, Global};

/// The lines of these notes, in their order, each with its line feed.
///
/// # Errors
/// Only want of memory.
pub fn note_lines(alloc: Global, notes: &[Note]) -> Result<String, AllocError>
    ensures { IfOk result (λ text. string_bytes text ≡ lines_of notes.now) }
{
    let mut text = String::new(alloc);
    for note in notes {
        push_line(alloc, &mut text, note)?;
    }
    Ok(text)
}

fn push_line(alloc: Global, out: &mut String, note: &Note) -> Result<(), AllocError>
    ensures { OnOk result (Adds (string_bytes out.old) (string_bytes out.new) (note_line note.now)) }
{
    push_text(out, "eoscheck: note: ")?;
    push_note(alloc, out, note)?;
    push_text(out, "\n")
}

fn push_note(alloc: Global, out: &mut String, note: &Note) -> Result<(), AllocError>
    ensures { OnOk result (Adds (string_bytes out.old) (string_bytes out.new) (note_text note.now)) }
{
    match note {
        Note::NoApplication => push_no_application(out),
        Note::Unlisted { partition, group } => push_unlisted(alloc, out, partition, group),
        Note::PastEnd {
            group,
            offset,
            partition,
            end,
        } => {
            let past = PastEnd {
                group,
                partition,
                offset: *offset,
                end: *end,
            };
            push_past_end(alloc, out, &past)
        }
        Note::NoPartition { topic, group } => push_no_partition(alloc, out, topic, group),
        Note::Gap { topic, number } => push_gap(alloc, out, topic, number),
        Note::NothingCommitted { group } => push_nothing_committed(alloc, out, group),
        Note::NoInternal(topic) => push_no_internal(out, *topic),
        Note::Behind {
            group,
            below,
            inputs,
        } => push_behind(alloc, out, group, below, inputs),
        Note::EpochFalls { partition, offset } => push_fall(alloc, out, partition, offset),
        Note::OtherEpoch(other) => push_other_epoch(alloc, out, other),
    }
}

fn push_no_application(out: &mut String) -> Result<(), AllocError>
    ensures { OnOk result (Adds (string_bytes out.old) (string_bytes out.new) (note_text Note.NoApplication)) }
{
    push_text(
        out,
        "no application is named: outputs and committed offsets aren't judged",
    )
}

fn push_unlisted(
    alloc: Global,
    out: &mut String,
    partition: &PartitionName,
    group: &GroupId,
) -> Result<(), AllocError>
    ensures { OnOk result (Adds (string_bytes out.old) (string_bytes out.new) (note_text (Note.Unlisted partition.now group.now))) }
{
    push_escaped(alloc, out, "", partition.topic.as_slice())?;
    push_value(out, "-", &partition.partition)?;
    push_escaped(alloc, out, " isn't in ends, but group ", group.as_bytes())?;
    push_text(out, " committed an offset of it")
}

/// What a group has committed of a partition that ends before.
#[derive(Clone, Copy)]
struct PastEnd<'a> {
    group: &'a GroupId,
    partition: &'a PartitionName,
    /// The committed offset.
    offset: i64,
    /// The partition's declared end.
    end: i64,
}

fn push_past_end(alloc: Global, out: &mut String, past: &PastEnd<'_>) -> Result<(), AllocError>
    ensures { OnOk result (Adds (string_bytes out.old) (string_bytes out.new) (note_text (Note.PastEnd past.now.group.now past.now.offset past.now.partition.now past.now.end))) }
{
    push_escaped(alloc, out, "group ", past.group.as_bytes())?;
    push_value(out, " committed offset ", &past.offset)?;
    push_escaped(alloc, out, " of ", past.partition.topic.as_slice())?;
    push_value(out, "-", &past.partition.partition)?;
    push_value(out, ", past its end ", &past.end)
}

fn push_no_partition(
    alloc: Global,
    out: &mut String,
    topic: &Bytes,
    group: &GroupId,
) -> Result<(), AllocError>
    ensures { OnOk result (Adds (string_bytes out.old) (string_bytes out.new) (note_text (Note.NoPartition topic.now group.now))) }
{
    push_escaped(alloc, out, "topic ", topic.as_slice())?;
    push_escaped(alloc, out, " of group ", group.as_bytes())?;
    push_text(out, " has no partition in ends")
}

fn push_gap(alloc: Global, out: &mut String, topic: &Bytes, number: &u64) -> Result<(), AllocError>
    ensures { OnOk result (Adds (string_bytes out.old) (string_bytes out.new) (note_text (Note.Gap topic.now number.now))) }
{
    push_escaped(alloc, out, "topic ", topic.as_slice())?;
    push_value(out, " has no partition ", number)?;
    push_text(out, " in ends, but one of a greater number")
}

fn push_nothing_committed(
    alloc: Global,
    out: &mut String,
    group: &GroupId,
) -> Result<(), AllocError>
    ensures { OnOk result (Adds (string_bytes out.old) (string_bytes out.new) (note_text (Note.NothingCommitted group.now))) }
{
    push_escaped(alloc, out, "group ", group.as_bytes())?;
    push_text(out, " committed no offset of its sources")
}

fn push_no_internal(out: &mut String, topic: InternalTopic) -> Result<(), AllocError>
    ensures { OnOk result (Adds (string_bytes out.old) (string_bytes out.new) (note_text (Note.NoInternal topic))) }
{
    push_value(out, "no partition of ", &topic.name())?;
    push_text(out, " is in ends")
}

fn push_behind(
    alloc: Global,
    out: &mut String,
    group: &GroupId,
    below: &u64,
    inputs: &u64,
) -> Result<(), AllocError>
    ensures { OnOk result (Adds (string_bytes out.old) (string_bytes out.new) (note_text (Note.Behind group.now below.now inputs.now))) }
{
    push_escaped(alloc, out, "group ", group.as_bytes())?;
    push_value(out, " is behind: ", below)?;
    push_value(out, " of ", inputs)?;
    push_text(out, " visible inputs are below its committed offsets")
}

fn push_fall(
    alloc: Global,
    out: &mut String,
    partition: &PartitionName,
    offset: &u64,
) -> Result<(), AllocError>
    ensures { OnOk result (Adds (string_bytes out.old) (string_bytes out.new) (note_text (Note.EpochFalls partition.now offset.now))) }
{
    push_escaped(
        alloc,
        out,
        "the leader epoch falls at ",
        partition.topic.as_slice(),
    )?;
    push_value(out, "-", &partition.partition)?;
    push_value(out, ":", offset)
}

fn push_other_epoch(alloc: Global, out: &mut String, other: &OtherRecord) -> Result<(), AllocError>
    ensures { OnOk result (Adds (string_bytes out.old) (string_bytes out.new) (note_text (Note.OtherEpoch other.now))) }
{
    push_escaped(alloc, out, "group ", other.group.as_bytes())?;
    push_value(out, " committed offset ", &other.offset)?;
    push_escaped(alloc, out, " of ", other.partition.topic.as_slice())?;
    push_value(out, "-", &other.partition.partition)?;
    push_value(out, " under leader epoch ", &other.named)?;
    push_value(out, ", but the record before it is of epoch ", &other.found)
}
