//! The members of a JSON object, looked up by their names.

ghost use Rattle.std.specs.Prelude.{◌≡◌, option_map};
ghost use Rattle.serde_json.specs.View.{view};
ghost use Rattle.eos_history_lines.specs.steps.Reading.{count_in, integer_in, as_small, small_in, text_in, kind_called};

use eos_batch::Kind;
use serde_json::Value;

/// A number from 0 on.
pub(crate) fn count_in(value: &Value, name: &str) -> Option<u64>
    ensures { result ≡ count_in name.now (view value.now) }
{
    match value.get(name) {
        Some(found) => found.as_u64(),
        None => None,
    }
}

pub(crate) fn size_in(value: &Value, name: &str) -> Option<usize>
    ensures { result ≡ count_in name.now (view value.now) }
{
    match count_in(value, name) {
        Some(count) => Some(count as usize),
        None => None,
    }
}

pub(crate) fn integer_in(value: &Value, name: &str) -> Option<i64>
    ensures { result ≡ integer_in name.now (view value.now) }
{
    match value.get(name) {
        Some(found) => found.as_i64(),
        None => None,
    }
}

/// An integer of 32 bits.
pub(crate) fn small_in(value: &Value, name: &str) -> Option<i32>
    ensures { result ≡ small_in name.now (view value.now) }
{
    match integer_in(value, name) {
        Some(number) => as_small(number),
        None => None,
    }
}

pub(crate) fn as_small(number: i64) -> Option<i32>
    ensures { result ≡ as_small number }
{
    if number >= -2_147_483_648 && number <= 2_147_483_647 {
        Some(number as i32)
    } else {
        None
    }
}

pub(crate) fn text_in<'a>(value: &'a Value, name: &str) -> Option<&'a str>
    ensures { option_map (λ text. text.now) result ≡ text_in name.now (view value.now) }
{
    match value.get(name) {
        Some(found) => found.as_str(),
        None => None,
    }
}

/// How a transaction is to end.
pub(crate) fn kind_called(word: &str) -> Option<Kind>
    ensures { result ≡ kind_called word.now }
{
    match word {
        "commit" => Some(Kind::Commit),
        "abort" => Some(Kind::Abort),
        _ => None,
    }
}
