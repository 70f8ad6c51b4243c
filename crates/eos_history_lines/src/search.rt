//! What is wrong with a JSON value that is no line.

use crate::members::{as_small, kind_called};
use crate::mistake::Mistake;
use crate::replies::plain_reply;
use eos_machine::Switch;
use serde_json::Value;

/// What a member has to be.
#[derive(Clone, Copy)]
enum Wanted {
    One,
    Count,
    Integer,
    Small,
    Truth,
    Kind,
    Text,
    /// An integer, or null.
    Offset,
    /// A number, or null.
    Partition,
    /// An object, or null.
    Claim,
}

static SWITCHES: [Switch; 7] = [
    Switch::KeepDuplicates,
    Switch::NoFence,
    Switch::NoBump,
    Switch::LoseMarker,
    Switch::SwapMarker,
    Switch::HideListing,
    Switch::IgnoreGeneration,
];

// ---- whole lines

/// What is wrong with a first line, if it isn't a member that such a line hasn't.
pub(crate) fn look_at_head(value: &Value) -> Result<(), Mistake> {
    if !value.is_object() {
        return Err(Mistake::NoObject);
    }
    look_at(
        value,
        &[
            ("schema", Wanted::One),
            ("applications", Wanted::Count),
            ("inputs", Wanted::Count),
            ("outputs", Wanted::Count),
            ("transaction_logs", Wanted::Count),
            ("segment_records", Wanted::Count),
            ("batch_records", Wanted::Count),
            ("chain", Wanted::Truth),
        ],
    )?;
    look_at_switches(value, "switches")?;
    look_at(value, &[("seed", Wanted::Count), ("words", Wanted::Count)])
}

/// The same of a line after the first.
pub(crate) fn look_at_row(value: &Value) -> Result<(), Mistake> {
    if !value.is_object() {
        return Err(Mistake::NoObject);
    }
    if value.get("events").is_some() {
        return look_at(
            value,
            &[
                ("events", Wanted::Count),
                ("transactions", Wanted::Count),
                ("lost", Wanted::Count),
                ("repeated", Wanted::Count),
            ],
        );
    }
    look_at(value, &[("number", Wanted::Count)])?;
    if value.get("note").is_some() {
        return look_at_note(value);
    }
    if value.get("set").is_some() {
        return look_at_switches(value, "set");
    }
    look_at_event(value, text_at(value, "event")?)?;
    look_at_reply(value)
}

// ---- events

fn look_at_event(value: &Value, word: &str) -> Result<(), Mistake> {
    let Some(arguments) = arguments_of(word) else {
        return Err(Mistake::UnknownEvent);
    };
    look_at(value, arguments)?;
    if word == "members" && value.get("group").is_some() {
        return look_at(value, &[("group", Wanted::Count)]);
    }
    match value.get("claim") {
        Some(claim) if word == "produce" && claim.is_object() => look_at(
            claim,
            &[
                ("topic", Wanted::Text),
                ("partition", Wanted::Small),
                ("offset", Wanted::Integer),
                ("output", Wanted::Small),
                ("of", Wanted::Small),
            ],
        ),
        _ => Ok(()),
    }
}

/// The members that an event of this name has to have, if there is one.
fn arguments_of(word: &str) -> Option<&'static [(&'static str, Wanted)]> {
    let arguments: &'static [(&'static str, Wanted)] = match word {
        "feed" => &[("source", Wanted::Count)],
        "start" | "time-out" | "complete" => &[("application", Wanted::Count)],
        "produce" => &[
            ("session", Wanted::Count),
            ("partition", Wanted::Count),
            ("claim", Wanted::Claim),
        ],
        "commit" => &[
            ("session", Wanted::Count),
            ("source", Wanted::Count),
            ("offset", Wanted::Offset),
        ],
        "end" => &[("session", Wanted::Count), ("kind", Wanted::Kind)],
        "resume" => &[("session", Wanted::Count)],
        "fetch" => &[("session", Wanted::Count), ("source", Wanted::Count)],
        "add-partition" => &[("session", Wanted::Count), ("partition", Wanted::Partition)],
        "broker-restart" => &[("topic", Wanted::Text), ("partition", Wanted::Count)],
        "elect" => &[
            ("topic", Wanted::Text),
            ("partition", Wanted::Count),
            ("kept", Wanted::Count),
        ],
        "deliver" | "write-marker" => &[("message", Wanted::Count)],
        "members" | "coordinator-restart" => &[],
        _ => return None,
    };
    Some(arguments)
}

fn look_at_reply(value: &Value) -> Result<(), Mistake> {
    if value.get("reply").is_none() {
        return Ok(());
    }
    match text_at(value, "reply")? {
        "done" => look_at(value, &[("value", Wanted::Count)]),
        word if plain_reply(word).is_none() => Err(Mistake::UnknownReply),
        _ => Ok(()),
    }
}

fn look_at_note(value: &Value) -> Result<(), Mistake> {
    match text_at(value, "note")? {
        "lost" | "repeated" => look_at(value, &[("message", Wanted::Count)]),
        "mishap" => look_at(value, &[("mishap", Wanted::Text)]),
        _ => Err(Mistake::UnknownNote),
    }
}

// ---- members

fn value_at<'a>(value: &'a Value, name: &'static str) -> Result<&'a Value, Mistake> {
    match value.get(name) {
        Some(found) => Ok(found),
        None => Err(Mistake::Absent(name)),
    }
}

fn text_at<'a>(value: &'a Value, name: &'static str) -> Result<&'a str, Mistake> {
    match value_at(value, name)?.as_str() {
        Some(text) => Ok(text),
        None => Err(Mistake::Another(name, "a text")),
    }
}

/// Looks at members, one after the other.
fn look_at(value: &Value, members: &[(&'static str, Wanted)]) -> Result<(), Mistake> {
    for (name, wanted) in members {
        let (fits, words) = wanted.look(value_at(value, *name)?);
        if !fits {
            return Err(Mistake::Another(*name, words));
        }
    }
    Ok(())
}

impl Wanted {
    /// Whether a value is that, and what that is in words.
    fn look(self, value: &Value) -> (bool, &'static str) {
        match self {
            Wanted::One => (value.as_u64() == Some(1), "1"),
            Wanted::Count => (value.is_u64(), "a whole number from 0 to 2^64 - 1"),
            Wanted::Integer => (value.is_i64(), "a whole number of 64 bits"),
            Wanted::Small => (
                matches!(value.as_i64(), Some(number) if as_small(number).is_some()),
                "a whole number of 32 bits",
            ),
            Wanted::Truth => (value.is_boolean(), "true or false"),
            Wanted::Kind => (
                matches!(value.as_str(), Some(word) if kind_called(word).is_some()),
                "commit or abort",
            ),
            Wanted::Text => (value.is_string(), "a text"),
            Wanted::Offset => (
                value.is_null() || value.is_i64(),
                "a whole number of 64 bits",
            ),
            Wanted::Partition => (
                value.is_null() || value.is_u64(),
                "a whole number from 0 to 2^64 - 1",
            ),
            Wanted::Claim => (value.is_null() || value.is_object(), "an object"),
        }
    }
}

// ---- switches

fn look_at_switches(value: &Value, name: &'static str) -> Result<(), Mistake> {
    let Some(names) = value_at(value, name)?.as_array() else {
        return Err(Mistake::Another(name, "an array of switches"));
    };
    let mut least = 0usize;
    for item in names.as_slice() {
        let Some(place) = index_of_switch(item) else {
            return Err(Mistake::UnknownSwitch);
        };
        if place < least {
            return Err(Mistake::SwitchOrder);
        }
        least = place.saturating_add(1);
    }
    Ok(())
}

fn index_of_switch(item: &Value) -> Option<usize> {
    let name = item.as_str()?;
    for i in 0..SWITCHES.len() {
        if SWITCHES[i].name() == name {
            return Some(i);
        }
    }
    None
}
