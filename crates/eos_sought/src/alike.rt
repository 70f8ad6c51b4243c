//! Claims that name an output of an input in another layout: a number with its bytes in the other order, or a topic with a NUL
//! behind it or in quotes.

ghost use Rattle.std.specs.Prelude.{◌≡◌, ◌<◌, length, take, drop};
ghost use Rattle.std.specs.Option.{option_map};
ghost use Rattle.eos_claims.specs.Slots.{plain_claim};
ghost use Rattle.eos_sought.specs.Alike.{has_nul, is_quoted, is_like_topic, is_like_partition, is_like_offset, is_like_output, names_it, is_like, is_alike};

use crate::reading::is_same;
use eos_claims::{ClaimRef, Place};

fn has_nul(topic: &[u8], claimed: &[u8]) -> bool
    ensures { result ≡ has_nul topic.now claimed.now }
{
    let size = topic.len();
    claimed.len().saturating_sub(size) == 1
        && claimed[size] == 0
        && is_same(&claimed[..size], topic)
}

/// What stands behind the first byte, so many bytes.
fn inside(claimed: &[u8], size: usize) -> &[u8]
    requires { size < length claimed.now }
    ensures { result.now ≡ take size (drop 1 claimed.now) }
{
    let behind = &claimed[1..];
    &behind[..size]
}

fn is_quoted(topic: &[u8], claimed: &[u8]) -> bool
    ensures { result ≡ is_quoted topic.now claimed.now }
{
    let size = topic.len();
    claimed.len().saturating_sub(size) == 2
        && claimed[0] == b'"'
        && claimed[size + 1] == b'"'
        && is_same(inside(claimed, size), topic)
}

/// Whether this is the topic, or the topic with a NUL behind it or in quotes.
fn is_like_topic(topic: &[u8], claimed: &[u8]) -> bool
    ensures { result ≡ is_like_topic topic.now claimed.now }
{
    is_same(claimed, topic) || has_nul(topic, claimed) || is_quoted(topic, claimed)
}

fn is_like_partition(number: i32, claimed: i32) -> bool
    ensures { result ≡ is_like_partition number claimed }
{
    claimed == number || claimed == number.swap_bytes()
}

fn is_like_offset(number: u64, claimed: u64) -> bool
    ensures { result ≡ is_like_offset number claimed }
{
    claimed == number || claimed == number.swap_bytes()
}

fn is_like_output(number: u32, claimed: u32) -> bool
    ensures { result ≡ is_like_output number claimed }
{
    claimed == number || claimed == number.swap_bytes()
}

fn names_it(place: &Place, output: u32, claim: ClaimRef<'_>) -> bool
    ensures { result ≡ names_it place.now output (plain_claim claim.entry) }
{
    is_same(claim.topic, place.partition.topic.as_slice())
        && claim.partition == place.partition.partition
        && claim.offset == place.offset
        && claim.output == output
}

fn is_like(place: &Place, output: u32, claim: ClaimRef<'_>) -> bool
    ensures { result ≡ is_like place.now output (plain_claim claim.entry) }
{
    is_like_topic(place.partition.topic.as_slice(), claim.topic)
        && is_like_partition(place.partition.partition, claim.partition)
        && is_like_offset(place.offset, claim.offset)
        && is_like_output(output, claim.output)
}

/// Whether a claim names this output of this input, but in another layout.
pub(crate) fn is_alike(place: &Place, output: u32, claim: Option<ClaimRef<'_>>) -> bool
    ensures { result ≡ is_alike place.now output (option_map plain_claim claim.entry) }
{
    match claim {
        None => false,
        Some(claim) => is_like(place, output, claim) && !names_it(place, output, claim),
    }
}
