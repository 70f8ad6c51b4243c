//! Lists of numbers, copied and changed.

ghost use Rattle.std.specs.Prelude.{◌≡◌, ◌+◌, ◌<◌, ◌^◌, [], IfOk, replicate, slice_index_or, slice_set};
ghost use Rattle.std.specs.List.{All, list_any};
ghost use Rattle.eos_machine.specs.LogIndexes.{IsConfig, listed, same_topic};
ghost use Rattle.eos_machine.specs.World.{said, without_odd_outputs};
ghost use Rattle.eos_machine.specs.Tests.{has};
ghost use Rattle.eos_machine.specs.Deliveries.{without};

use crate::log_indexes::{OFFSETS_INDEX, is_odd_output};
use eos_base::Listed;
use eos_machine::{Config, LogIndexes, Switches};
use std::alloc::{AllocError, Global};

pub fn copy(places: &LogIndexes) -> Result<LogIndexes, AllocError>
    ensures { IfOk result (λ p. p ≡ places.now) }
{
    Ok(places.clone()?)
}

/// No indexes.
pub fn none(alloc: Global) -> LogIndexes
    ensures { result ≡ [] }
{
    Listed::new(Vec::new(alloc))
}

pub fn has(place: usize, places: &[usize]) -> bool
    ensures { result ≡ has place places.now }
{
    places.contains(&place)
}

/// These indexes but for one.
pub fn without(alloc: Global, place: usize, places: &[usize]) -> Result<LogIndexes, AllocError>
    ensures { IfOk result (λ p. p ≡ without place places.now) }
{
    let mut others = Vec::new(alloc);
    for other in places {
        if *other != place {
            others.push(*other)?;
        }
    }
    Ok(Listed::new(others))
}

/// These indexes but for the odd partitions of `out`.
fn without_odd_outputs(
    alloc: Global,
    config: Config,
    places: &[usize],
) -> Result<LogIndexes, AllocError>
    requires { IsConfig config }
    ensures { IfOk result (λ p. p ≡ without_odd_outputs config places.now) }
{
    let mut others = Vec::new(alloc);
    for place in places {
        if !is_odd_output(config, *place) {
            others.push(*place)?;
        }
    }
    Ok(Listed::new(others))
}

/// What a record says of a transaction's partitions.
pub fn said(
    alloc: Global,
    switches: Switches,
    config: Config,
    places: &LogIndexes,
) -> Result<LogIndexes, AllocError>
    requires { IsConfig config }
    ensures { IfOk result (λ p. p ≡ said switches config places.now) }
{
    if switches.hide_listing {
        return without_odd_outputs(alloc, config, places.as_slice());
    }
    copy(places)
}

/// So many zeros.
pub fn zeros(alloc: Global, count: usize) -> Result<Listed<u32>, AllocError>
    ensures { IfOk result (λ q. q ≡ replicate count 0) }
{
    Ok(Listed::new(vec![in alloc; 0; count]?))
}

/// The number at an index is one more.
pub fn raised(numbers: Listed<u32>, place: usize) -> Listed<u32>
    requires { All (λ q. q < 2 ^ 31) numbers }
    ensures { result ≡ slice_set numbers place (slice_index_or numbers place 0 + 1) }
{
    let mut numbers = numbers.into_vec();
    if place < numbers.len() {
        numbers[place] += 1;
    }
    Listed::new(numbers)
}

/// Whether both are outputs, or both the partition of the offsets.
fn same_topic(place: usize, other: usize) -> bool
    ensures { result ≡ same_topic place other }
{
    (place == OFFSETS_INDEX) == (other == OFFSETS_INDEX)
}

/// Whether a partition of this topic is among these.
fn has_topic(place: usize, places: &[usize]) -> bool
    ensures { result ≡ list_any (same_topic place) places.now }
{
    places.iter().any(|other| same_topic(place, *other))
}

/// These indexes with one more: last under its topic, or last.
pub fn listed(alloc: Global, place: usize, places: &[usize]) -> Result<LogIndexes, AllocError>
    ensures { IfOk result (λ p. p ≡ listed place places.now) }
{
    let mut all = Vec::new(alloc);
    let mut is_placed = false;
    for i in 0..places.len() {
        all.push(places[i])?;
        if !is_placed && same_topic(place, places[i]) && !has_topic(place, &places[i + 1..]) {
            all.push(place)?;
            is_placed = true;
        }
    }
    if !is_placed {
        all.push(place)?;
    }
    Ok(Listed::new(all))
}
