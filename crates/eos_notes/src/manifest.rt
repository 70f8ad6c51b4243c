//! The notes that need the manifest alone.

ghost use Rattle.std.specs.Prelude.{◌≡◌, ◌++◌, ◌^◌, ◌<◌, map, flat_map, pos, int_lt, length, IfOk, OnOk};
ghost use Rattle.std.specs.List.{list_any};
ghost use Rattle.std.specs.Ordering.{nat_cmp, int_eq};
ghost use Rattle.std.specs.Cmp.Lexicographic.{slice_cmp};
ghost use Rattle.eos_base.specs.Members.{is_found};
ghost use Rattle.eos_notes.specs.ManifestNotes.{no_application, topics_of, absent_topic, absent_in, absent_topics, is_lesser as is_lesser_of, is_least as is_least_of, numbers_of, is_gap as is_gap_of, least_gap as least_gap_of, gap_note, gap_at, gaps, absent_internal, absent_internals};

use crate::note::{InternalTopic, Note, add_note};
use bytes::Bytes;
use eos_commits::TopicSet;
use eos_evidence::{App, End, GroupId, push_topics};
use std::alloc::{AllocError, Global};

// ---- no application

/// Puts a note at the end where there is no application.
///
/// # Errors
/// Only want of memory.
pub(crate) fn push_no_application(all: &mut Vec<Note>, apps: &[App]) -> Result<(), AllocError>
    ensures { OnOk result (all.new.items ≡ all.old.items ++ no_application apps.now) }
{
    if apps.is_empty() {
        add_note(all, Note::NoApplication)
    } else {
        Ok(())
    }
}

// ---- topics

/// The topic of each end.
fn topics_of_ends(alloc: Global, ends: &[End]) -> Result<Vec<Bytes>, AllocError>
    ensures { IfOk result (λ topics. topics.items ≡ map (λ e. e.topic) ends.now) }
{
    let mut topics = Vec::new(alloc);
    for end in ends {
        topics.push(end.topic.clone()?)?;
    }
    Ok(topics)
}

/// Puts what an application reads and writes at the end.
fn push_topics_of(all: &mut Vec<Bytes>, app: &App) -> Result<(), AllocError>
    ensures { OnOk result (all.new.items ≡ all.old.items ++ topics_of app.now) }
{
    push_topics(all, app.sources.as_slice())?;
    push_topics(all, app.outputs.as_slice())?;
    Ok(())
}

/// The topics that the applications read and write.
fn used_topics(alloc: Global, apps: &[App]) -> Result<Vec<Bytes>, AllocError>
    ensures { IfOk result (λ topics. topics.items ≡ flat_map topics_of apps.now) }
{
    let mut topics = Vec::new(alloc);
    for app in apps {
        push_topics_of(&mut topics, app)?;
    }
    Ok(topics)
}

// ---- topics without a partition

fn push_absent_topic(
    all: &mut Vec<Note>,
    present: &TopicSet<'_>,
    group: &GroupId,
    topic: &Bytes,
) -> Result<(), AllocError>
    ensures { OnOk result (all.new.items ≡ all.old.items ++ absent_topic (is_found (slice_cmp nat_cmp) present.now) group.now topic.now) }
{
    if present.has(topic.as_slice()) {
        return Ok(());
    }
    let topic = topic.clone()?;
    let group = group.clone()?;
    add_note(all, Note::NoPartition { topic, group })
}

fn push_absent_among(
    all: &mut Vec<Note>,
    present: &TopicSet<'_>,
    group: &GroupId,
    topics: &[Bytes],
) -> Result<(), AllocError>
    ensures { OnOk result (all.new.items ≡ all.old.items ++ flat_map (absent_topic (is_found (slice_cmp nat_cmp) present.now) group.now) topics.now) }
{
    for topic in topics {
        push_absent_topic(all, present, group, topic)?;
    }
    Ok(())
}

fn push_absent_in(all: &mut Vec<Note>, present: &TopicSet<'_>, app: &App) -> Result<(), AllocError>
    ensures { OnOk result (all.new.items ≡ all.old.items ++ absent_in (is_found (slice_cmp nat_cmp) present.now) app.now) }
{
    push_absent_among(all, present, &app.group, app.sources.as_slice())?;
    push_absent_among(all, present, &app.group, app.outputs.as_slice())?;
    Ok(())
}

fn push_absent_by(
    all: &mut Vec<Note>,
    present: &TopicSet<'_>,
    apps: &[App],
) -> Result<(), AllocError>
    ensures { OnOk result (all.new.items ≡ all.old.items ++ flat_map (absent_in (is_found (slice_cmp nat_cmp) present.now)) apps.now) }
{
    for app in apps {
        push_absent_in(all, present, app)?;
    }
    Ok(())
}

/// Puts a note at the end for each topic of an application that has no partition.
///
/// # Errors
/// Only want of memory.
pub(crate) fn push_absent_topics(
    alloc: Global,
    all: &mut Vec<Note>,
    apps: &[App],
    ends: &[End],
) -> Result<(), AllocError>
    ensures { OnOk result (all.new.items ≡ all.old.items ++ absent_topics ends.now apps.now) }
{
    let topics = topics_of_ends(alloc, ends)?;
    let present = TopicSet::of(alloc, topics.as_slice())?;
    push_absent_by(all, &present, apps)
}

// ---- gaps between the numbers of a topic's partitions

fn is_number(number: i32, n: u64) -> bool
    ensures { result ≡ int_eq (pos n) number }
{
    number >= 0 && number as u64 == n
}

fn is_above(number: i32, n: u64) -> bool
    ensures { result ≡ int_lt (pos n) number }
{
    number > 0 && n < number as u64
}

fn has_above(numbers: &[i32], n: u64) -> bool
    ensures { result ≡ list_any (int_lt (pos n)) numbers.now }
{
    for number in numbers {
        if is_above(*number, n) {
            return true;
        }
    }
    false
}

/// Whether it isn't one of the numbers, but one of them is greater.
fn is_gap(numbers: &[i32], n: u64) -> bool
    ensures { result ≡ is_gap_of numbers.now n }
{
    for number in numbers {
        if is_number(*number, n) {
            return false;
        }
    }
    has_above(numbers, n)
}

fn least_gap(numbers: &[i32]) -> Option<u64>
    ensures { result ≡ least_gap_of numbers.now }
{
    for n in 0..numbers.len() as u64 {
        if is_gap(numbers, n) {
            return Some(n);
        }
    }
    None
}

fn is_lesser(end: &End, other: &End) -> bool
    ensures { result ≡ is_lesser_of end.now other.now }
{
    other.topic == end.topic && other.partition < end.partition
}

/// Whether no partition of its topic has a lesser number.
fn is_least(ends: &[End], end: &End) -> bool
    ensures { result ≡ is_least_of ends.now end.now }
{
    for other in ends {
        if is_lesser(end, other) {
            return false;
        }
    }
    true
}

/// The numbers of a topic's partitions.
fn numbers_in(alloc: Global, ends: &[End], topic: &Bytes) -> Result<Vec<i32>, AllocError>
    ensures { IfOk result (λ numbers. numbers.items ≡ numbers_of ends.now topic.now) }
{
    let mut numbers = Vec::new(alloc);
    for end in ends {
        if end.topic == *topic {
            numbers.push(end.partition)?;
        }
    }
    Ok(numbers)
}

/// The least number of a topic's partitions that is missing below another one.
fn gap_in(alloc: Global, ends: &[End], topic: &Bytes) -> Result<Option<u64>, AllocError>
    ensures { IfOk result (λ gap. gap ≡ least_gap_of (numbers_of ends.now topic.now)) }
{
    let numbers = numbers_in(alloc, ends, topic)?;
    Ok(least_gap(numbers.as_slice()))
}

fn push_gap_of(
    alloc: Global,
    all: &mut Vec<Note>,
    ends: &[End],
    topic: &Bytes,
) -> Result<(), AllocError>
    ensures { OnOk result (all.new.items ≡ all.old.items ++ gap_note topic.now (least_gap_of (numbers_of ends.now topic.now))) }
{
    let Some(number) = gap_in(alloc, ends, topic)? else {
        return Ok(());
    };
    let topic = topic.clone()?;
    add_note(all, Note::Gap { topic, number })
}

fn push_gap_at(
    alloc: Global,
    all: &mut Vec<Note>,
    used: &TopicSet<'_>,
    ends: &[End],
    end: &End,
) -> Result<(), AllocError>
    ensures { OnOk result (all.new.items ≡ all.old.items ++ gap_at (is_found (slice_cmp nat_cmp) used.now) ends.now end.now) }
{
    if used.has(end.topic.as_slice()) && is_least(ends, end) {
        push_gap_of(alloc, all, ends, &end.topic)?;
    }
    Ok(())
}

fn push_gaps_by(
    alloc: Global,
    all: &mut Vec<Note>,
    used: &TopicSet<'_>,
    ends: &[End],
) -> Result<(), AllocError>
    ensures { OnOk result (all.new.items ≡ all.old.items ++ flat_map (gap_at (is_found (slice_cmp nat_cmp) used.now) ends.now) ends.now) }
{
    for end in ends {
        push_gap_at(alloc, all, used, ends, end)?;
    }
    Ok(())
}

/// Puts a note at the end for each topic of an application of which a partition is missing below another one.
///
/// # Errors
/// Only want of memory.
pub(crate) fn push_gaps(
    alloc: Global,
    all: &mut Vec<Note>,
    apps: &[App],
    ends: &[End],
) -> Result<(), AllocError>
    ensures { OnOk result (all.new.items ≡ all.old.items ++ gaps apps.now ends.now) }
{
    let topics = used_topics(alloc, apps)?;
    let used = TopicSet::of(alloc, topics.as_slice())?;
    push_gaps_by(alloc, all, &used, ends)
}

// ---- internal topics

fn push_internal(
    all: &mut Vec<Note>,
    present: &TopicSet<'_>,
    topic: InternalTopic,
) -> Result<(), AllocError>
    ensures { OnOk result (all.new.items ≡ all.old.items ++ absent_internal (is_found (slice_cmp nat_cmp) present.now) topic) }
{
    if present.has(topic.name().as_bytes()) {
        Ok(())
    } else {
        add_note(all, Note::NoInternal(topic))
    }
}

/// Puts a note at the end for each internal topic that has no partition.
///
/// # Errors
/// Only want of memory.
pub(crate) fn push_internals(
    alloc: Global,
    all: &mut Vec<Note>,
    ends: &[End],
) -> Result<(), AllocError>
    ensures { OnOk result (all.new.items ≡ all.old.items ++ absent_internals ends.now) }
{
    let topics = topics_of_ends(alloc, ends)?;
    let present = TopicSet::of(alloc, topics.as_slice())?;
    push_internal(all, &present, InternalTopic::ConsumerOffsets)?;
    push_internal(all, &present, InternalTopic::TransactionState)
}
