//! In which order pieces are drawn: long ones first, so that none is begun when there is little else left.

ghost use Rattle.std.specs.Prelude.{◌≡◌, ◌+◌, ◌<◌, length, vec_len, OnOk, IfOk};
ghost use Rattle.eos_evidence.specs.Evidence.{segments_of};
ghost use Rattle.eos_source.specs.steps.Order.{HaveTurns, IsOrder};

use eos_base::in_order;
use eos_evidence::{Evidence, Partition, is_internal_topic};
use std::alloc::{AllocError, Global};

/// How many offsets of another topic take about as long as one of Kafka's own, whose batches have few records.
const LONGER: u64 = 3;

/// When a piece is drawn: after all whose turn is less.
#[derive(Clone, Copy, PartialEq, Eq, PartialOrd, Ord)]
pub(crate) struct Turn {
    /// The less, the longer the piece takes.
    pub(crate) rank: u64,
    pub(crate) piece: u64,
}

/// How many offsets a partition's segment has at most, as the names of its segments and its end say.
fn offsets_of(shape: &Partition, i: usize) -> u64
    requires { i < length shape.now.segments }
{
    let segments = shape.segments.as_slice();
    let until = match segments.get(i + 1) {
        Some(next) => next.base,
        None => shape.end.end,
    };
    until.saturating_sub(segments[i].base).max(0) as u64
}

/// How long a partition's segment takes, about, in offsets of a topic that isn't Kafka's own.
fn length_of(shape: &Partition, i: usize) -> u64
    requires { i < length shape.now.segments }
{
    let offsets = offsets_of(shape, i);
    if is_internal_topic(shape.end.topic.as_slice()) {
        return offsets.saturating_mul(LONGER);
    }
    offsets
}

/// The turn of the next piece, which takes so long.
fn push_turn(turns: &mut Vec<Turn>, length: u64) -> Result<(), AllocError>
    requires { HaveTurns turns.old.items }
    ensures turns { OnOk result (HaveTurns turns.new.items) }
    ensures len { OnOk result (vec_len turns.new ≡ vec_len turns.old + 1) }
{
    let turn = Turn {
        rank: u64::MAX - length,
        piece: turns.len() as u64,
    };
    turns.push(turn)?;
    Ok(())
}

/// The turns of a partition's pieces, behind those of the pieces before.
fn push_turns(turns: &mut Vec<Turn>, shape: &Partition) -> Result<(), AllocError>
    requires { HaveTurns turns.old.items }
    ensures turns { OnOk result (HaveTurns turns.new.items) }
    ensures len { OnOk result (vec_len turns.new ≡ vec_len turns.old + length shape.now.segments) }
{
    for i in 0..shape.segments.len() {
        push_turn(turns, length_of(shape, i))?;
    }
    Ok(())
}

/// The turns of all pieces.
fn turns_of(alloc: Global, shapes: &[Partition]) -> Result<Vec<Turn>, AllocError>
    ensures turns { IfOk result (λ turns. HaveTurns turns.items) }
    ensures len { IfOk result (λ turns. vec_len turns ≡ length (segments_of shapes.now)) }
{
    let mut turns = Vec::new(alloc);
    for i in 0..shapes.len() {
        push_turns(&mut turns, &shapes[i])?;
    }
    Ok(turns)
}

/// The pieces of an evidence of this shape, each once: those first that take longest.
pub(crate) fn order_of(alloc: Global, shape: &Evidence) -> Result<Vec<u64>, AllocError>
    ensures { IfOk result (λ order. IsOrder (length (segments_of shape.now.partitions)) order.items) }
{
    let turns = in_order(turns_of(alloc, shape.partitions())?);
    let mut order = Vec::new(alloc);
    for turn in turns {
        order.push(turn.piece)?;
    }
    Ok(order)
}
