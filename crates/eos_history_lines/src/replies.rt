//! Replies, read from the members of a JSON object.

ghost use Rattle.std.specs.Prelude.{◌≡◌};
ghost use Rattle.serde_json.specs.View.{view};
ghost use Rattle.eos_history_lines.specs.steps.Reading.{reply_in, plain_reply, refusal_called};

use crate::members::count_in;
use eos_machine::Reply;
use serde_json::Value;

/// The reply that an object says, or that it says none; nothing where what stands there is no reply.
pub(crate) fn read_reply(value: &Value) -> Option<Option<Reply>>
    ensures { result ≡ reply_in (view value.now) }
{
    let Some(word) = value.get("reply") else {
        return Some(None);
    };
    let word = word.as_str()?;
    let reply = if word == "done" {
        Reply::Done(count_in(value, "value")?)
    } else {
        plain_reply(word)?
    };
    Some(Some(reply))
}

/// A reply that has no value.
pub(crate) fn plain_reply(word: &str) -> Option<Reply>
    ensures { result ≡ plain_reply word.now }
{
    match word {
        "fenced" => Some(Reply::Fenced),
        "out-of-order" => Some(Reply::OutOfOrder),
        "duplicate-kept" => Some(Reply::DuplicateKept),
        "wrong-state" => Some(Reply::WrongState),
        "busy" => Some(Reply::Busy),
        _ => refusal_called(word),
    }
}

fn refusal_called(word: &str) -> Option<Reply>
    ensures { result ≡ refusal_called word.now }
{
    match word {
        "stale-generation" => Some(Reply::StaleGeneration),
        "epochs-spent" => Some(Reply::EpochsSpent),
        "unknown" => Some(Reply::Unknown),
        "out-of-memory" => Some(Reply::OutOfMemory),
        "full" => Some(Reply::Full),
        _ => None,
    }
}
