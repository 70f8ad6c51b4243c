//! The batches at some places of a partition, which is read again for them.

ghost use Rattle.std.specs.Prelude.{◌≡◌, ◌+◌, ◌≤◌, List, [], Option, Some, None, length, map, slice_get, IfOk, IfErr};
ghost use Rattle.std.specs.Option.{option_copied};
ghost use Rattle.eos_evidence.specs.Evidence.{segments_of};
ghost use Rattle.eos_evidence.specs.declared.partition.Partition.{Partition as Log};
ghost use Rattle.eos_sought.specs.declared.partition.Placed.{Placed as Spot};
ghost use Rattle.eos_source.specs.Said.{known_by};
ghost use Rattle.eos_source_check.specs.Picked.{batch_at, found_in, ArePickedOf, ArePickedNamed};
ghost use Rattle.eos_source_check.specs.Refusals.{IsNoLog, IsUnread};
ghost use Rattle.eos_source_check.specs.steps.Earned.{IsOfPiece, IsOfPieces};
ghost use Rattle.eos_source_check.specs.steps.PicksAgain.{byte_in, found_or, found_front, AreOfLog, IsPickedAgain};

use crate::again::{index_named, open_log};
use crate::fault::Unlisted;
use crate::picked::{byte_of, pick_batches};
use eos_base::PartitionName;
use eos_batch::Batch;
use eos_evidence::{Evidence, Partition};
use eos_sought::Placed;
use eos_source::Source;
use std::alloc::{AllocError, Global};

/// The batches at some places of a partition: of each place None where no segment has its name, and None in it where none reads there.
#[derive(Drop)]
pub struct Picked {
    pub found: Vec<Option<Option<Batch>>>,
}

impl Picked {
    /// The batch at the place of this number, if one reads there.
    pub fn at(&self, number: usize) -> Option<&Batch>
        ensures { (p : Log) (places : List (Option Spot)) (place : Option Spot) → ArePickedOf p places self.now → slice_get places number ≡ Some place → option_copied result ≡ batch_at p place }
    {
        let found = self.found.as_slice();
        if number >= found.len() {
            return None;
        }
        match &found[number] {
            Some(Some(batch)) => Some(batch),
            _ => None,
        }
    }
}

/// The byte of a place, if it is in the segment of this name.
fn byte_in(base: i64, place: Option<Placed>) -> Option<usize>
    ensures { result ≡ byte_in base place }
{
    match place {
        None => None,
        Some(placed) => {
            if base == placed.segment {
                Some(placed.standing.byte)
            } else {
                None
            }
        }
    }
}

fn bytes_in(
    alloc: Global,
    base: i64,
    places: &[Option<Placed>],
) -> Result<Vec<Option<usize>>, AllocError>
    ensures { IfOk result (λ bytes. bytes.items ≡ map (byte_in base) places.now) }
{
    let mut bytes = Vec::new(alloc);
    for place in places {
        bytes.push(byte_in(base, *place))?;
    }
    Ok(bytes)
}

/// The batches at these bytes of the piece of this number, if it is a log.
fn told_of_log<S: Source>(
    alloc: Global,
    source: &S,
    piece: u64,
    wanted: &Vec<Option<usize>>,
) -> Result<Vec<Option<Option<Batch>>>, Unlisted<S::Fault>>
    ensures ok { IfOk result (λ told. AreOfLog (known_by (S.said source.now) (S.is_log source.now) piece) wanted.now.items told.items) }
    ensures fold { IfErr result (λ why. IsNoLog (S.is_log source.now) why) }
    ensures earned { IfErr result (IsOfPiece (S.outcomes source.now) piece) }
{
    let mut reader = open_log(alloc, source, piece)?;
    match pick_batches(alloc, wanted, &mut reader) {
        Ok(told) => Ok(told),
        Err(why) => {
            let fault = source.refusal(alloc, piece, &mut reader, why);
            Err(Unlisted::Refused(fault))
        }
    }
}

/// Puts what a segment tells of a byte that was looked for there, and in none before.
fn put_one(found: &mut Option<Option<Batch>>, byte: Option<usize>, told: &mut Option<Option<Batch>>)
    ensures { found.new ≡ found_or found.old byte told.old }
{
    if found.is_none() && byte.is_some() {
        *found = Some(told.take().flatten());
    }
}

fn put_all(
    found: &mut Vec<Option<Option<Batch>>>,
    wanted: &[Option<usize>],
    told: &mut Vec<Option<Option<Batch>>>,
)
    requires { (length wanted.now ≡ length found.old.items) × (length told.old.items ≡ length found.old.items) }
    ensures { found.new.items ≡ found_front (length found.old.items) wanted.now told.old.items found.old.items }
{
    for i in 0..found.len() {
        let byte = byte_of(wanted, i);
        let one = &mut found[i];
        let by = &mut told[i];
        put_one(one, byte, by);
    }
}

/// Before any segment was read.
fn none_found(
    alloc: Global,
    places: &[Option<Placed>],
) -> Result<Vec<Option<Option<Batch>>>, AllocError>
    ensures { IfOk result (λ found. found.items ≡ map (found_in []) places.now) }
{
    let mut found = Vec::new(alloc);
    for _place in places {
        found.push(None)?;
    }
    Ok(found)
}

/// The batches at these places of the partition of this shape, whose first segment is the piece of this number.
fn batches_at<S: Source>(
    alloc: Global,
    source: &S,
    shape: &Partition,
    first: u64,
    places: &[Option<Placed>],
) -> Result<Picked, Unlisted<S::Fault>>
    requires { first + length shape.now.segments ≤ 65536 }
    ensures ok { IfOk result (λ picked. IsPickedAgain (known_by (S.said source.now) (S.is_log source.now)) first shape.now places.now picked.found.items) }
    ensures fold { IfErr result (λ why. IsNoLog (S.is_log source.now) why) }
    ensures earned { IfErr result (IsOfPieces (S.outcomes source.now) first (length shape.now.segments)) }
{
    let names = shape.segments.as_slice();
    let mut found = none_found(alloc, places)?;
    for i in 0..names.len() {
        let wanted = bytes_in(alloc, names[i].base, places)?;
        let mut told = told_of_log(alloc, source, first + i as u64, &wanted)?;
        put_all(&mut found, wanted.as_slice(), &mut told);
    }
    Ok(Picked { found })
}

/// The batches at these places of the partition of this name, as it is read now; none where the evidence of this shape has no such partition.
/// Its segments are read one after the other, and no more is held of them than a chunk, or a batch where that is larger, and the batches.
///
/// # Errors
/// A segment isn't there any more, is a fold, or can't be read; or want of memory.
pub fn batches_again<S: Source>(
    alloc: Global,
    source: &S,
    shape: &Evidence,
    name: &PartitionName,
    places: &[Option<Placed>],
) -> Result<Option<Picked>, Unlisted<S::Fault>>
    ensures read { IfOk result (ArePickedNamed (known_by (S.said source.now) (S.is_log source.now)) shape.now.partitions name.now places.now) }
    ensures fold { IfErr result (λ why. IsNoLog (S.is_log source.now) why) }
    ensures unread { IfErr result (IsUnread (S.outcomes source.now) (length (segments_of shape.now.partitions))) }
{
    let Some((index, first)) = index_named(shape, name) else {
        return Ok(None);
    };
    let picked = batches_at(alloc, source, &shape.partitions()[index], first, places)?;
    Ok(Some(picked))
}
