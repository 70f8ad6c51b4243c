//! Short texts.

ghost use Rattle.std.specs.Prelude.{◌≡◌, OnOk, string_bytes};
ghost use Rattle.eos_text.specs.Adding.{Adds};
ghost use Rattle.eos_picture.specs.Titles.{passed_text};

use eos_base::PartitionName;
use eos_text::{push_escaped, push_text, push_value};
use std::alloc::{AllocError, Global};
use std::fmt::Display;

/// How many digits a number has.
pub(crate) fn digits(number: u64) -> u64 {
    let mut left = number;
    let mut count = 1u64;
    for _ in 0..19 {
        if left >= 10 {
            left /= 10;
            count = count.saturating_add(1);
        }
    }
    count
}

/// A label and what `{}` writes of a value.
pub(crate) fn labelled<T: Display>(
    alloc: Global,
    label: &str,
    value: &T,
) -> Result<String, AllocError> {
    let mut out = String::new(alloc);
    push_value(&mut out, label, value)?;
    Ok(out)
}

/// A text in ASCII of at most so many characters: of a longer one the first and the last ones, with two dots between.
pub(crate) fn shortened(alloc: Global, text: &str, most: usize) -> Result<String, AllocError> {
    let mut out = String::new(alloc);
    push_shortened(&mut out, text.as_bytes(), most)?;
    Ok(out)
}

fn push_shortened(out: &mut String, bytes: &[u8], most: usize) -> Result<(), AllocError> {
    if bytes.len() <= most {
        return push_bytes(out, bytes);
    }
    let kept = most.saturating_sub(2);
    let last = kept / 2;
    push_bytes(out, &bytes[..(kept - last).min(bytes.len())])?;
    push_text(out, "..")?;
    push_bytes(out, &bytes[bytes.len().saturating_sub(last)..])
}

/// Adds bytes of a text in ASCII.
pub(crate) fn push_bytes(out: &mut String, bytes: &[u8]) -> Result<(), AllocError> {
    for byte in bytes {
        out.push(char::from(*byte))?;
    }
    Ok(())
}

/// A partition's name, of at most so many characters: the topic is shortened where it is longer.
pub(crate) fn name_label(
    alloc: Global,
    name: &PartitionName,
    most: usize,
) -> Result<String, AllocError> {
    let number = labelled(alloc, "-", &name.partition)?;
    let mut out = topic_label(alloc, name, most.saturating_sub(number.len()))?;
    push_text(&mut out, number.as_str())?;
    Ok(out)
}

fn topic_label(alloc: Global, name: &PartitionName, most: usize) -> Result<String, AllocError> {
    let mut topic = String::new(alloc);
    push_escaped(alloc, &mut topic, "", name.topic.as_slice())?;
    shortened(alloc, topic.as_str(), most)
}

/// A partition and the offset that is committed of it.
pub(crate) fn commit_label(
    alloc: Global,
    source: &PartitionName,
    committed: i64,
    most: usize,
) -> Result<String, AllocError> {
    let offset = labelled(alloc, " -> ", &committed)?;
    let mut out = name_label(alloc, source, most.saturating_sub(offset.len()))?;
    push_text(&mut out, offset.as_str())?;
    Ok(out)
}

/// Adds the offsets that a commit passed.
pub(crate) fn push_passed(out: &mut String, from: &i64, to: &i64) -> Result<(), AllocError>
    ensures { OnOk result (Adds (string_bytes out.old) (string_bytes out.new) (passed_text from.now to.now)) }
{
    if *from == *to {
        return write!(out, "at {to}");
    }
    if *from < *to {
        return write!(out, "[{from},{to})");
    }
    write!(out, "{from} back to {to}")
}

/// The offsets that a commit passed.
pub(crate) fn passed_label(alloc: Global, from: &i64, to: &i64) -> Result<String, AllocError> {
    let mut out = String::new(alloc);
    push_passed(&mut out, from, to)?;
    Ok(out)
}
