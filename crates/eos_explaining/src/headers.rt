//! The headers of the record in which a fault stands.

ghost use Rattle.std.specs.Prelude.{◌≡◌, Some, List, length, IfOk, IfErr, OnOk};
ghost use Rattle.std.specs.Option.{option_copied};
ghost use Rattle.eos_evidence.specs.Evidence.{segments_of};
ghost use Rattle.eos_evidence.specs.declared.partition.Partition.{Partition as Log};
ghost use Rattle.eos_sought.specs.Folded.{AreFolded};
ghost use Rattle.eos_sought.specs.declared.wanted.Wanted.TheVariants.{Holding};
ghost use Rattle.eos_source.specs.Said.{known_by};
ghost use Rattle.eos_source_check.specs.Refusals.{IsUnread};
ghost use Rattle.eos_story.specs.HeaderBytes.{headers_in};
ghost use Rattle.eos_story.specs.Rows.{IsFirst};
ghost use Rattle.eos_explaining.specs.steps.Again.{AreHeadersThere, ReadsMore};
ghost use Rattle.eos_explaining.specs.steps.HeadersRead.{AreHeadersAt};

use crate::again::read_name;
use eos_base::Listed;
use eos_batch::{Batch, Headers};
use eos_claims::Place;
use eos_sought::{Folded, Placed, Wanted, batches_of};
use eos_source::Source;
use eos_source_check::{Pieces, Unlisted, batches_again};
use std::alloc::{AllocError, Global};

/// The batch that holds the record of a place, if one does.
fn holder_of(alloc: Global, read: &[Folded], place: &Place) -> Result<Option<Placed>, AllocError>
    ensures { IfOk result (λ spot. (ps : List Log) → AreFolded ps read.now → IsFirst ps place.now.partition (Holding place.now.offset) spot) }
{
    let wanted = Wanted::Holding {
        offset: place.offset,
    };
    let found = batches_of(alloc, read, &place.partition, wanted)?;
    Ok(found.as_slice().first().copied())
}

/// The headers of the record of this number.
fn headers_in(alloc: Global, batch: &Batch, number: u64) -> Result<Headers, AllocError>
    ensures { IfOk result (λ headers. headers ≡ headers_in (Some batch.now) number) }
{
    let records = batch.records.as_slice();
    if number >= records.len() as u64 {
        return Ok(Listed::new(Vec::new(alloc)));
    }
    records[number as usize].headers.clone()
}

/// The headers of the record of a place in the batch that stands there, which is read again for it; none where no such record reads.
fn headers_at<S: Source>(
    alloc: Global,
    pieces: &Pieces<'_, S>,
    place: &Place,
    placed: Placed,
) -> Result<Headers, Unlisted<S::Fault>>
    ensures are { IfOk result (AreHeadersAt (known_by (S.said pieces.now.source.now) (S.is_log pieces.now.source.now)) pieces.now.shape.now place.now placed) }
    ensures unread { IfErr result (IsUnread (S.outcomes pieces.now.source.now) (length (segments_of pieces.now.shape.now.partitions))) }
{
    let places = [Some(placed)];
    let read = batches_again(
        alloc,
        pieces.source,
        pieces.shape,
        &place.partition,
        &places,
    )?;
    let Some(picked) = read else {
        return Ok(Listed::new(Vec::new(alloc)));
    };
    match picked.at(0) {
        None => Ok(Listed::new(Vec::new(alloc))),
        Some(batch) => {
            let number = place.offset.saturating_sub(placed.standing.head.offset);
            let headers = headers_in(alloc, batch, number)?;
            Ok(headers)
        }
    }
}

/// The headers of the record of a place, whose partition is read, unless it was before.
fn headers_of<S: Source>(
    alloc: Global,
    pieces: &Pieces<'_, S>,
    read: &mut Vec<Folded>,
    place: &Place,
) -> Result<Headers, Unlisted<S::Fault>>
    ensures more { OnOk result (ReadsMore (known_by (S.said pieces.now.source.now) (S.is_log pieces.now.source.now)) pieces.now.shape.now.partitions read.old.items read.new.items) }
    ensures are { IfOk result (AreHeadersThere (known_by (S.said pieces.now.source.now) (S.is_log pieces.now.source.now)) pieces.now.shape.now read.new.items (Some place.now)) }
    ensures unread { IfErr result (IsUnread (S.outcomes pieces.now.source.now) (length (segments_of pieces.now.shape.now.partitions))) }
{
    read_name(alloc, pieces, read, &place.partition)?;
    match holder_of(alloc, read.as_slice(), place)? {
        None => Ok(Listed::new(Vec::new(alloc))),
        Some(placed) => {
            let headers = headers_at(alloc, pieces, place, placed)?;
            Ok(headers)
        }
    }
}

/// The same, if there is a place.
pub(crate) fn own_headers<S: Source>(
    alloc: Global,
    pieces: &Pieces<'_, S>,
    read: &mut Vec<Folded>,
    place: Option<&Place>,
) -> Result<Headers, Unlisted<S::Fault>>
    ensures more { OnOk result (ReadsMore (known_by (S.said pieces.now.source.now) (S.is_log pieces.now.source.now)) pieces.now.shape.now.partitions read.old.items read.new.items) }
    ensures are { IfOk result (AreHeadersThere (known_by (S.said pieces.now.source.now) (S.is_log pieces.now.source.now)) pieces.now.shape.now read.new.items (option_copied place.entry)) }
    ensures unread { IfErr result (IsUnread (S.outcomes pieces.now.source.now) (length (segments_of pieces.now.shape.now.partitions))) }
{
    match place {
        None => Ok(Listed::new(Vec::new(alloc))),
        Some(place) => headers_of(alloc, pieces, read, place),
    }
}
