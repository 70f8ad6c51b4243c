//! Lines of data records.

ghost use Rattle.std.specs.Prelude.{◌≡◌, ◌++◌, OnOk, IfOk, string_bytes};
ghost use Rattle.std.specs.Option.{option_copied};
ghost use Rattle.eos_segment.specs.Decoding.{decoded_line};
ghost use Rattle.eos_sought.specs.declared.sought.Sought.TheVariants.{Alike, Before, Within, Passing, UpTo, Deciding};
ghost use Rattle.eos_text.specs.Adding.{Adds};
ghost use Rattle.eos_explaining.specs.Records.{role_of, reading_at, reading_of, writer_text, fate_text, said_text, record_of, record_line, absent_text, no_record_line};

use eos_batch::Record;
use eos_claims::Place;
use eos_fold::{Fate, Item};
use eos_segment::{Reading, push_decoded};
use eos_sought::{Epochs, Find, Placed, Sought};
use eos_story::{is_there, mark, push_at, push_spot};
use eos_text::{push_escaped, push_text, push_value};
use std::alloc::{AllocError, Global};

/// The word before a record.
pub(crate) fn role_of(sought: &Sought) -> &'static str
    ensures { result.now ≡ role_of sought.now }
{
    match sought {
        Sought::At(_) => " record   ",
        Sought::Claiming(_) => " claim    ",
        Sought::Hidden(_) => " unseen   ",
        Sought::Alike { .. } => " alike    ",
        Sought::OfId(_) | Sought::Before { .. } | Sought::OfProducer(_) | Sought::Within(_) =>
            " state    ",
        Sought::Deciding { .. } => " decided  ",
        Sought::OfGroup(_) | Sought::Passing { .. } | Sought::UpTo { .. } | Sought::Passed(_) =>
            " commit   ",
    }
}

/// As what the records of a topic are read: those of the internal logs alone.
fn reading_at(topic: &[u8]) -> Option<Reading>
    ensures { result ≡ reading_at topic.now }
{
    if topic == b"__transaction_state".as_slice() {
        return Some(Reading::Transactions);
    }
    if topic == b"__consumer_offsets".as_slice() {
        return Some(Reading::Offsets);
    }
    None
}

fn reading_of(sought: &Sought, topic: &[u8]) -> Option<Reading>
    ensures { result ≡ reading_of sought.now topic.now }
{
    match sought {
        Sought::At(_) => reading_at(topic),
        Sought::Claiming(_) | Sought::Hidden(_) | Sought::Alike { .. } => Some(Reading::Outputs),
        Sought::OfId(_)
        | Sought::Before { .. }
        | Sought::OfProducer(_)
        | Sought::Within(_)
        | Sought::Deciding { .. } => Some(Reading::Transactions),
        Sought::OfGroup(_) | Sought::Passing { .. } | Sought::UpTo { .. } | Sought::Passed(_) =>
            Some(Reading::Offsets),
    }
}

fn push_writer(out: &mut String, writer: Option<(i64, i16)>) -> Result<(), AllocError>
    ensures { OnOk result (Adds (string_bytes out.old) (string_bytes out.new) (writer_text writer)) }
{
    match writer {
        None => push_text(out, ""),
        Some((producer, epoch)) => {
            push_value(out, " producer=", &producer)?;
            push_value(out, " epoch=", &epoch)?;
            Ok(())
        }
    }
}

fn push_fate(out: &mut String, fate: Fate) -> Result<(), AllocError>
    ensures { OnOk result (Adds (string_bytes out.old) (string_bytes out.new) (fate_text fate)) }
{
    match fate {
        Fate::Plain => push_text(out, ""),
        Fate::Committed => push_text(out, " committed"),
        Fate::Aborted => push_text(out, " aborted"),
        Fate::Waiting(_) => push_text(out, " open"),
    }
}

fn record_of(item: &Item) -> Result<Record, AllocError>
    ensures { IfOk result (λ r. r ≡ record_of item.now) }
{
    Ok(Record {
        attributes: 0,
        timestamp_delta: 0,
        key: item.key.clone()?,
        value: item.value.clone()?,
        headers: item.headers.clone()?,
    })
}

fn push_said(
    alloc: Global,
    out: &mut String,
    reading: Option<Reading>,
    item: &Item,
) -> Result<(), AllocError>
    ensures { OnOk result (Adds (string_bytes out.old) (string_bytes out.new) (said_text reading item.now)) }
{
    match reading {
        None => push_text(out, "\n"),
        Some(reading) => {
            let record = record_of(item)?;
            push_decoded(alloc, out, reading, &record)
        }
    }
}

/// Adds the line of a data record.
pub(crate) fn push_record(
    alloc: Global,
    out: &mut String,
    fault: Option<&Place>,
    sought: &Sought,
    found: (&Find, Option<Placed>),
) -> Result<(), AllocError>
    ensures { OnOk result (Adds (string_bytes out.old) (string_bytes out.new) (record_line (option_copied fault.entry) sought.now found.entry.0.now found.entry.1)) }
{
    let (find, spot) = found;
    let item = &find.item;
    let is_fault = is_there(fault, &find.partition, item.offset);
    let label = mark(is_fault, role_of(sought));
    push_at(alloc, out, label, &find.partition, &item.offset)?;
    push_spot(out, spot)?;
    push_writer(out, item.writer)?;
    push_fate(out, item.fate)?;
    let reading = reading_of(sought, find.partition.topic.as_slice());
    push_said(alloc, out, reading, item)
}

fn push_group_past(
    alloc: Global,
    out: &mut String,
    group: &[u8],
    place: &Place,
) -> Result<(), AllocError>
    ensures { OnOk result (Adds (string_bytes out.old) (string_bytes out.new) (absent_text (Passing group.now place.now))) }
{
    push_escaped(alloc, out, "none of group ", group)?;
    push_at(alloc, out, " goes past ", &place.partition, &place.offset)
}

fn push_group_up_to(
    alloc: Global,
    out: &mut String,
    group: &[u8],
    place: &Place,
) -> Result<(), AllocError>
    ensures { OnOk result (Adds (string_bytes out.old) (string_bytes out.new) (absent_text (UpTo group.now place.now))) }
{
    push_escaped(alloc, out, "none of group ", group)?;
    push_at(
        alloc,
        out,
        " is at or below ",
        &place.partition,
        &place.offset,
    )
}

fn push_none_before(
    alloc: Global,
    out: &mut String,
    id: &[u8],
    place: &Place,
) -> Result<(), AllocError>
    ensures { OnOk result (Adds (string_bytes out.old) (string_bytes out.new) (absent_text (Before id.now place.now))) }
{
    push_escaped(alloc, out, "none of id ", id)?;
    push_at(alloc, out, " before ", &place.partition, &place.offset)
}

fn push_none_alike(
    alloc: Global,
    out: &mut String,
    place: &Place,
    output: &u32,
) -> Result<(), AllocError>
    ensures { OnOk result (Adds (string_bytes out.old) (string_bytes out.new) (absent_text (Alike place.now output.now))) }
{
    push_at(alloc, out, "none is like ", &place.partition, &place.offset)?;
    push_value(out, " output ", output)
}

fn push_none_within(out: &mut String, epochs: &Epochs) -> Result<(), AllocError>
    ensures { OnOk result (Adds (string_bytes out.old) (string_bytes out.new) (absent_text (Within epochs.now))) }
{
    push_value(out, "none of producer ", &epochs.producer)?;
    push_value(out, " from epoch ", &epochs.from)?;
    push_value(out, " to ", &epochs.to)
}

fn push_absent(alloc: Global, out: &mut String, sought: &Sought) -> Result<(), AllocError>
    ensures { OnOk result (Adds (string_bytes out.old) (string_bytes out.new) (absent_text sought.now)) }
{
    match sought {
        Sought::At(place) => push_at(alloc, out, "none at ", &place.partition, &place.offset),
        Sought::Claiming(place) => {
            push_at(
                alloc,
                out,
                "none that is visible names ",
                &place.partition,
                &place.offset,
            )
        }
        Sought::Hidden(place) => push_at(
            alloc,
            out,
            "none names ",
            &place.partition,
            &place.offset,
        ),
        Sought::Alike { place, output } => push_none_alike(alloc, out, place, output),
        Sought::OfId(id) => push_escaped(alloc, out, "none of id ", id.as_slice()),
        Sought::Before { id, place } => push_none_before(alloc, out, id.as_slice(), place),
        Sought::OfProducer(producer) => push_value(out, "none of producer ", producer),
        Sought::Within(epochs) => push_none_within(out, epochs),
        Sought::Deciding { producer, epoch } => push_undecided(out, producer, epoch),
        Sought::OfGroup(group) => push_escaped(alloc, out, "none of group ", group.as_slice()),
        Sought::Passing { group, place } => push_group_past(alloc, out, group.as_slice(), place),
        Sought::UpTo { group, place } => push_group_up_to(alloc, out, group.as_slice(), place),
        Sought::Passed(place) => push_at(
            alloc,
            out,
            "none goes past ",
            &place.partition,
            &place.offset,
        ),
    }
}

fn push_undecided(out: &mut String, producer: &i64, epoch: &i16) -> Result<(), AllocError>
    ensures { OnOk result (Adds (string_bytes out.old) (string_bytes out.new) (absent_text (Deciding producer.now epoch.now))) }
{
    push_value(out, "nothing of producer ", producer)?;
    push_value(out, " with marker epoch ", epoch)
}

/// Adds the line that says that no data record is sought so.
pub(crate) fn push_no_record(
    alloc: Global,
    out: &mut String,
    sought: &Sought,
) -> Result<(), AllocError>
    ensures { OnOk result (Adds (string_bytes out.old) (string_bytes out.new) (no_record_line sought.now)) }
{
    push_text(out, role_of(sought))?;
    push_absent(alloc, out, sought)?;
    push_text(out, "\n")
}
