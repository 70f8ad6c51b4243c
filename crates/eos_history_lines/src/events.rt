//! Events as members of a JSON object, and read from them.

ghost use Rattle.std.specs.Prelude.{◌≡◌, codes, IfOk, OnOk};
ghost use Rattle.serde_json.specs.Data.{put as with_member};
ghost use Rattle.serde_json.specs.View.{view};
ghost use Rattle.eos_manifest.specs.Objects.{held, count};
ghost use Rattle.eos_history_lines.specs.Lines.{with_claim, claimed, offset_or_null, count_or_null, with_group, with_target, with_arguments, with_event};
ghost use Rattle.eos_history_lines.specs.steps.Reading.{event_in, plain_event, event_of_session, feed_in, start_in, deliver_in, members_in, time_out_in, write_marker_in, complete_in, produce_in, commit_in, end_in, fetch_in, claim_within, claim_in, offset_within, add_in, partition_within};

use crate::members::{count_in, integer_in, kind_called, size_in, small_in, text_in};
use crate::of_partition::{put_election, put_partition, read_election, read_restart};
use crate::words::{event_word, kind_word};
use bytes::Bytes;
use eos_machine::{Claim, Event};
use eos_manifest::Object;
use serde_json::Value;
use std::alloc::{AllocError, Global};

// ---- written

#[tactic(auto, unfolding(crate::specs::Lines::with_event))]
pub(crate) fn put_event(alloc: Global, out: &mut Object, event: &Event) -> Result<(), AllocError>
    ensures { OnOk result (held out.new ≡ with_event event.now (held out.old)) }
{
    out.put_str("event", event_word(event))?;
    put_arguments(alloc, out, event)
}

#[tactic(auto, unfolding(crate::specs::Lines::with_arguments))]
fn put_arguments(alloc: Global, out: &mut Object, event: &Event) -> Result<(), AllocError>
    ensures { OnOk result (held out.new ≡ with_arguments event.now (held out.old)) }
{
    match event {
        Event::Feed { source } => out.put_size("source", *source),
        Event::Produce {
            session,
            partition,
            claim,
        } => {
            put_of_session(out, *session, "partition", *partition)?;
            out.put("claim", value_of_claim(alloc, claim)?)
        }
        Event::Commit {
            session,
            source,
            offset,
        } => {
            put_of_session(out, *session, "source", *source)?;
            out.put("offset", value_of_offset(*offset))
        }
        Event::End { session, kind } => {
            out.put_size("session", *session)?;
            out.put_str("kind", kind_word(*kind))
        }
        Event::Resume { session } => out.put_size("session", *session),
        Event::Fetch { session, source } => put_of_session(out, *session, "source", *source),
        Event::BrokerRestart { topic, partition } => put_partition(out, topic, *partition),
        Event::Elect {
            topic,
            partition,
            kept,
        } => put_election(out, topic, *partition, *kept),
        Event::Members { group } => put_group(out, *group),
        Event::CoordinatorRestart => Ok(()),
        Event::Deliver { message } => out.put_count("message", *message),
        Event::WriteMarker { message } => out.put_count("message", *message),
        Event::Start { application } => out.put_size("application", *application),
        Event::TimeOut { application } => out.put_size("application", *application),
        Event::Complete { application } => out.put_size("application", *application),
        Event::AddPartition { session, partition } => put_target(out, *session, *partition),
    }
}

/// Names a group, unless it is the first one.
#[tactic(auto, unfolding(crate::specs::Lines::with_group))]
fn put_group(out: &mut Object, group: usize) -> Result<(), AllocError>
    ensures { OnOk result (held out.new ≡ with_group group (held out.old)) }
{
    if group == 0 {
        Ok(())
    } else {
        out.put_size("group", group)
    }
}

fn value_of_offset(offset: Option<i64>) -> Value
    ensures { view result ≡ offset_or_null offset }
{
    match offset {
        Some(offset) => Value::from(offset),
        None => Value::Null,
    }
}

/// A session's number, and another one by its name.
fn put_of_session(
    out: &mut Object,
    session: usize,
    name: &str,
    number: usize,
) -> Result<(), AllocError>
    ensures { OnOk result (held out.new ≡ with_member name.now (count number) (with_member (codes "session") (count session) (held out.old))) }
{
    out.put_size("session", session)?;
    out.put_size(name, number)
}

fn put_target(out: &mut Object, session: usize, partition: Option<usize>) -> Result<(), AllocError>
    ensures { OnOk result (held out.new ≡ with_target session partition (held out.old)) }
{
    out.put_size("session", session)?;
    out.put("partition", value_of_partition(partition))
}

fn value_of_partition(partition: Option<usize>) -> Value
    ensures { view result ≡ count_or_null partition }
{
    let Some(partition) = partition else {
        return Value::Null;
    };
    Value::from(partition as u64)
}

#[tactic(auto, unfolding(crate::specs::Lines::claim_value))]
fn value_of_claim(alloc: Global, claim: &Option<Claim>) -> Result<Value, AllocError>
    ensures { IfOk result (λ value. view value ≡ claimed claim.now) }
{
    let Some(claim) = claim else {
        return Ok(Value::Null);
    };
    let mut made = Object::new(alloc);
    put_claim(&mut made, claim)?;
    Ok(made.into_value())
}

#[tactic(auto, unfolding(crate::specs::Lines::with_claim))]
fn put_claim(out: &mut Object, claim: &Claim) -> Result<(), AllocError>
    ensures { OnOk result (held out.new ≡ with_claim claim.now (held out.old)) }
{
    out.put_text("topic", claim.topic.as_slice())?;
    out.put_integer("partition", i64::from(claim.partition))?;
    out.put_integer("offset", claim.offset)?;
    out.put_integer("output", i64::from(claim.output))?;
    out.put_integer("of", i64::from(claim.of))
}

// ---- read

/// The event that an object says, or nothing where it says none.
pub(crate) fn read_event(alloc: Global, value: &Value) -> Result<Option<Event>, AllocError>
    ensures { IfOk result (λ event. event ≡ event_in (view value.now)) }
{
    let Some(word) = text_in(value, "event") else {
        return Ok(None);
    };
    match word {
        "produce" => read_produce(alloc, value),
        "broker-restart" => read_restart(alloc, value),
        "elect" => read_election(alloc, value),
        _ => Ok(read_plain_event(word, value)),
    }
}

/// An event that takes no memory.
fn read_plain_event(word: &str, value: &Value) -> Option<Event>
    ensures { result ≡ plain_event word.now (view value.now) }
{
    match word {
        "feed" => match size_in(value, "source") {
            Some(source) => Some(Event::Feed { source }),
            None => None,
        },
        "start" => match size_in(value, "application") {
            Some(application) => Some(Event::Start { application }),
            None => None,
        },
        "deliver" => match count_in(value, "message") {
            Some(message) => Some(Event::Deliver { message }),
            None => None,
        },
        "members" => read_members(value),
        "coordinator-restart" => Some(Event::CoordinatorRestart),
        "time-out" => match size_in(value, "application") {
            Some(application) => Some(Event::TimeOut { application }),
            None => None,
        },
        "write-marker" => match count_in(value, "message") {
            Some(message) => Some(Event::WriteMarker { message }),
            None => None,
        },
        "complete" => match size_in(value, "application") {
            Some(application) => Some(Event::Complete { application }),
            None => None,
        },
        _ => read_event_of_session(word, value),
    }
}

/// Of the first group, where none is named.
fn read_members(value: &Value) -> Option<Event>
    ensures { result ≡ members_in (view value.now) }
{
    let Some(found) = value.get("group") else {
        return Some(Event::Members { group: 0 });
    };
    let group = found.as_u64()? as usize;
    Some(Event::Members { group })
}

// ---- those of a session

fn read_event_of_session(word: &str, value: &Value) -> Option<Event>
    ensures { result ≡ event_of_session word.now (view value.now) }
{
    let Some(session) = size_in(value, "session") else {
        return None;
    };
    match word {
        "commit" => read_commit(session, value),
        "end" => {
            let kind = kind_called(text_in(value, "kind")?)?;
            Some(Event::End { session, kind })
        }
        "resume" => Some(Event::Resume { session }),
        "fetch" => match size_in(value, "source") {
            Some(source) => Some(Event::Fetch { session, source }),
            None => None,
        },
        "add-partition" => match read_partition(value) {
            Some(partition) => Some(Event::AddPartition { session, partition }),
            None => None,
        },
        _ => None,
    }
}

fn read_commit(session: usize, value: &Value) -> Option<Event>
    ensures { result ≡ commit_in session (view value.now) }
{
    let source = size_in(value, "source")?;
    let offset = read_offset(value)?;
    Some(Event::Commit {
        session,
        source,
        offset,
    })
}

fn read_produce(alloc: Global, value: &Value) -> Result<Option<Event>, AllocError>
    ensures { IfOk result (λ event. event ≡ produce_in (view value.now)) }
{
    let Some(session) = size_in(value, "session") else {
        return Ok(None);
    };
    let Some(partition) = size_in(value, "partition") else {
        return Ok(None);
    };
    match read_claimed(alloc, value)? {
        Some(claim) => Ok(Some(Event::Produce {
            session,
            partition,
            claim,
        })),
        None => Ok(None),
    }
}

fn read_claimed(alloc: Global, value: &Value) -> Result<Option<Option<Claim>>, AllocError>
    ensures { IfOk result (λ claim. claim ≡ claim_within (view value.now)) }
{
    let Some(claim) = value.get("claim") else {
        return Ok(None);
    };
    if claim.is_null() {
        return Ok(Some(None));
    }
    match read_claim(alloc, claim)? {
        Some(claim) => Ok(Some(Some(claim))),
        None => Ok(None),
    }
}

fn read_claim(alloc: Global, value: &Value) -> Result<Option<Claim>, AllocError>
    ensures { IfOk result (λ claim. claim ≡ claim_in (view value.now)) }
{
    let Some(topic) = text_in(value, "topic") else {
        return Ok(None);
    };
    let Some(partition) = small_in(value, "partition") else {
        return Ok(None);
    };
    let Some(offset) = integer_in(value, "offset") else {
        return Ok(None);
    };
    let Some(output) = small_in(value, "output") else {
        return Ok(None);
    };
    let Some(of) = small_in(value, "of") else {
        return Ok(None);
    };
    let topic = Bytes::copy_from_slice(alloc, topic.as_bytes())?;
    Ok(Some(Claim {
        topic,
        partition,
        offset,
        output,
        of,
    }))
}

fn read_offset(value: &Value) -> Option<Option<i64>>
    ensures { result ≡ offset_within (view value.now) }
{
    let offset = value.get("offset")?;
    if offset.is_null() {
        return Some(None);
    }
    Some(Some(offset.as_i64()?))
}

fn read_partition(value: &Value) -> Option<Option<usize>>
    ensures { result ≡ partition_within (view value.now) }
{
    let partition = value.get("partition")?;
    if partition.is_null() {
        return Some(None);
    }
    Some(Some(partition.as_u64()? as usize))
}
