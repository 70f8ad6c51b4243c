//! Which partition of Kafka's own two topics a group or a transactional id has.

ghost use Rattle.std.specs.Prelude.{◌≡◌, ◌<◌, ◌+◌, ◌*◌, ◌%◌, ◌^◌, ◌++◌, ◌||◌, not, ℕ, List, pos, int_lt, map, IfOk, IfSome, OnOk, string_bytes};
ghost use Rattle.std.specs.Char.Escape.{encode_utf16};
ghost use Rattle.eos_manifest.specs.Coordinators.{units_of, weighted, hash_code, utils_abs, coordinator_of, is_of, count_of, are_below, partitions_of, coordinator_line, coordinator_lines};
ghost use Rattle.eos_text.specs.Adding.{Adds};
ghost use Rattle.std.specs.List.{list_all};

use eos_evidence::End;
use eos_text::{push_escaped, push_text, push_value};
use std::alloc::{AllocError, Global};

/// The partition of `__consumer_offsets` that a group of this name has, where the topic has so many, and that of
/// `__transaction_state` of a transactional id.
pub fn coordinator_of(name: &str, partitions: u64) -> i32
    requires { 0 < partitions }
    ensures { result ≡ pos (coordinator_of name.now partitions) }
{
    number_of(name, partitions) as i32
}

fn number_of(name: &str, partitions: u64) -> u64
    requires { 0 < partitions }
    ensures value { result ≡ coordinator_of name.now partitions }
    ensures bound { result < 2 ^ 31 }
{
    u64::from(utils_abs(hash_code(name))) % partitions
}

/// The absolute value, with 0 for that of the least integer.
fn utils_abs(hash: i32) -> u32
    ensures value { result ≡ utils_abs hash }
    ensures bound { result < 2 ^ 31 }
{
    let value = hash.unsigned_abs();
    if value > i32::MAX as u32 {
        return 0;
    }
    value
}

/// Java's hash of a text.
fn hash_code(text: &str) -> i32
    ensures { result ≡ hash_code text.now }
{
    bits_of_hash(text).cast_signed()
}

/// The 32 bits of the hash.
fn bits_of_hash(text: &str) -> u32
    ensures { result ≡ weighted (units_of text.now) % 2 ^ 32 }
{
    let mut hash = 0u32;
    for c in text.chars() {
        hash = with_char(hash, c);
    }
    hash
}

/// The hash of a text with one character more, which is one unit or two.
fn with_char(hash: u32, c: char) -> u32
    ensures { (units : List ℕ) → hash ≡ weighted units % 2 ^ 32 → result ≡ weighted (units ++ encode_utf16 c) % 2 ^ 32 }
{
    let mut bits = hash;
    let mut room = [0u16; 2];
    let units: &[u16] = c.encode_utf16(&mut room);
    for unit in units {
        bits = with_unit(bits, *unit);
    }
    bits
}

fn with_unit(hash: u32, unit: u16) -> u32
    ensures { result ≡ ((hash * 31) % 2 ^ 32 + unit) % 2 ^ 32 }
{
    hash.wrapping_mul(31).wrapping_add(u32::from(unit))
}

/// How many partitions a topic has, where the ends are those of all of them.
pub fn partitions_of(ends: &[End], topic: &[u8]) -> Option<u64>
    ensures value { result ≡ partitions_of ends.now topic.now }
    ensures some { IfSome result (λ n. 0 < n) }
{
    let count = count_of(ends, topic);
    if count > 0 && are_below(count, topic, ends) {
        Some(count)
    } else {
        None
    }
}

fn count_of(ends: &[End], topic: &[u8]) -> u64
    ensures { result ≡ count_of ends.now topic.now }
{
    let mut count = 0u64;
    for end in ends {
        if is_of(topic, end) {
            count += 1;
        }
    }
    count
}

fn is_of(topic: &[u8], end: &End) -> bool
    ensures { result ≡ is_of topic.now end.now }
{
    end.topic.as_slice() == topic
}

/// Whether the numbers of the topic's partitions are below this one.
fn are_below(count: u64, topic: &[u8], ends: &[End]) -> bool
    ensures { result ≡ are_below count topic.now ends.now }
{
    ends.iter().all(|end| is_below(count, topic, end))
}

fn is_below(count: u64, topic: &[u8], end: &End) -> bool
    ensures { result ≡ (not (is_of topic.now end.now) || int_lt end.now.partition (pos count)) }
{
    !is_of(topic, end) || end.partition < 0 || (end.partition as u64) < count
}

/// For each name a line `NAME partition=K`, with its line feed. Each byte of a name that no topic may have is `%` and two
/// hexadecimal digits.
///
/// # Errors
/// A growth of memory was refused.
pub fn coordinator_lines(
    alloc: Global,
    partitions: u64,
    names: &[&str],
) -> Result<String, AllocError>
    requires { 0 < partitions }
    ensures { IfOk result (λ text. string_bytes text ≡ coordinator_lines partitions (map (λ n. n.now) names.now)) }
{
    let mut text = String::new(alloc);
    for name in names {
        push_coordinator(alloc, &mut text, partitions, *name)?;
    }
    Ok(text)
}

fn push_coordinator(
    alloc: Global,
    out: &mut String,
    partitions: u64,
    name: &str,
) -> Result<(), AllocError>
    requires { 0 < partitions }
    ensures { OnOk result (Adds (string_bytes out.old) (string_bytes out.new) (coordinator_line partitions name.now)) }
{
    push_escaped(alloc, out, "", name.as_bytes())?;
    push_value(out, " partition=", &number_of(name, partitions))?;
    push_text(out, "\n")?;
    Ok(())
}
