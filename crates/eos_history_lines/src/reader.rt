//! Lines, read from the members of a JSON object. What is read may lack what stands there besides: the value of what was read is
//! compared with it afterwards.

ghost use Rattle.std.specs.Prelude.{◌≡◌, IfOk, codes};
ghost use Rattle.serde_json.specs.Find.{get};
ghost use Rattle.serde_json.specs.View.{view};
ghost use Rattle.eos_history_lines.specs.steps.Reading.{switches_at, sizes_in, head_in, asked_in, deed_from, deed_in, line_in, tail_in};

use crate::events::read_event;
use crate::line::{Deed, Head, Line, Tail};
use crate::members::{count_in, size_in};
use crate::notes::read_note;
use crate::replies::read_reply;
use crate::switch_names::switches_in;
use eos_machine::{Config, Switches};
use serde_json::Value;
use std::alloc::{AllocError, Global};

pub(crate) fn read_head(value: &Value) -> Option<Head>
    ensures { result ≡ head_in (view value.now) }
{
    match (
        read_sizes(value),
        read_switches(value, "switches"),
        count_in(value, "seed"),
        count_in(value, "words"),
    ) {
        (Some(config), Some(switches), Some(seed), Some(words)) => Some(Head {
            config,
            switches,
            seed,
            words,
        }),
        _ => None,
    }
}

fn read_sizes(value: &Value) -> Option<Config>
    ensures { result ≡ sizes_in (view value.now) }
{
    match (
        size_in(value, "applications"),
        size_in(value, "inputs"),
        size_in(value, "outputs"),
        size_in(value, "transaction_logs"),
        size_in(value, "segment_records"),
        size_in(value, "batch_records"),
        value.get("chain").and_then(Value::as_bool),
    ) {
        (
            Some(applications),
            Some(inputs),
            Some(outputs),
            Some(transaction_logs),
            Some(segment_records),
            Some(batch_records),
            Some(chain),
        ) => Some(Config {
            applications,
            inputs,
            outputs,
            transaction_logs,
            segment_records,
            batch_records,
            chain,
        }),
        _ => None,
    }
}

fn read_switches(value: &Value, name: &str) -> Option<Switches>
    ensures { result ≡ switches_at name.now (view value.now) }
{
    match value.get(name).and_then(Value::as_array) {
        Some(names) => Some(switches_in(names.as_slice())),
        None => None,
    }
}

pub(crate) fn read_line(alloc: Global, value: &Value) -> Result<Option<Line>, AllocError>
    ensures { IfOk result (λ line. line ≡ line_in (view value.now)) }
{
    let Some(number) = count_in(value, "number") else {
        return Ok(None);
    };
    match read_deed(alloc, value)? {
        Some(deed) => Ok(Some(Line { number, deed })),
        None => Ok(None),
    }
}

fn read_deed(alloc: Global, value: &Value) -> Result<Option<Deed>, AllocError>
    ensures { IfOk result (λ deed. deed ≡ deed_in (view value.now)) }
{
    match value.get("note") {
        None => read_done(alloc, value),
        Some(said) => match read_note(alloc, said, value)? {
            Some(note) => Ok(Some(Deed::Noted(note))),
            None => Ok(None),
        },
    }
}

fn read_done(alloc: Global, value: &Value) -> Result<Option<Deed>, AllocError>
    ensures { IfOk result (λ deed. deed ≡ deed_from (get (codes "set") (view value.now)) (view value.now)) }
{
    match value.get("set") {
        None => read_asked(alloc, value),
        Some(names) => match names.as_array() {
            Some(names) => Ok(Some(Deed::Set(switches_in(names.as_slice())))),
            None => Ok(None),
        },
    }
}

fn read_asked(alloc: Global, value: &Value) -> Result<Option<Deed>, AllocError>
    ensures { IfOk result (λ deed. deed ≡ asked_in (view value.now)) }
{
    let Some(reply) = read_reply(value) else {
        return Ok(None);
    };
    match read_event(alloc, value)? {
        Some(event) => Ok(Some(Deed::Asked { event, reply })),
        None => Ok(None),
    }
}

pub(crate) fn read_tail(value: &Value) -> Option<Tail>
    ensures { result ≡ tail_in (view value.now) }
{
    match (
        count_in(value, "events"),
        count_in(value, "transactions"),
        count_in(value, "lost"),
        count_in(value, "repeated"),
    ) {
        (Some(events), Some(transactions), Some(lost), Some(repeated)) => Some(Tail {
            events,
            transactions,
            lost,
            repeated,
        }),
        _ => None,
    }
}
