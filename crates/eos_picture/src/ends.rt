//! The end markers of a transaction in a partition.

ghost use Rattle.std.specs.Prelude.{◌≡◌, ◌≢◌, Some, true, false};
ghost use Rattle.eos_base.specs.Members.{Has};
ghost use Rattle.eos_fold.specs.declared.item.Item.{Item};
ghost use Rattle.eos_picture.specs.Ends.{is_end as is_end_of, ends, HasNone};
ghost use Rattle.eos_picture.specs.Order.{is_writer as is_writer_of};

use crate::mark::Column;
use eos_batch::{Kind, Marker};
use eos_fold::Fate;
use eos_kept::Part;

/// What an end marker says.
#[derive(Clone, Copy)]
pub(crate) struct End {
    pub producer: i64,
    pub epoch: i16,
    pub kind: Kind,
}

fn is_end(marker: &Marker, end: End) -> bool
    ensures { result ≡ is_end_of end.producer end.epoch end.kind marker.now }
{
    marker.producer == end.producer && marker.epoch == end.epoch && marker.kind == end.kind
}

/// How many end markers of a partition say this.
pub(crate) fn count_ends(part: &Part, end: End) -> u64
    ensures { result ≡ ends part.now.markers end.producer end.epoch end.kind }
{
    let markers = part.markers();
    let mut count = 0u64;
    for marker in markers {
        if is_end(marker, end) {
            count += 1;
        }
    }
    count
}

/// Whether there is no end marker of this producer id and epoch.
pub(crate) fn has_no_end(part: &Part, producer: i64, epoch: i16) -> bool
    ensures yes { result ≡ true → HasNone part.now.markers producer epoch }
    ensures no { result ≡ false → HasNone part.now.markers producer epoch → ⊥ }
{
    let commit = End {
        producer,
        epoch,
        kind: Kind::Commit,
    };
    let abort = End {
        producer,
        epoch,
        kind: Kind::Abort,
    };
    count_ends(part, commit) == 0 && count_ends(part, abort) == 0
}

/// Whether what is found is this producer id and epoch.
pub(crate) fn is_writer(found: Option<(i64, i16)>, writer: (i64, i16)) -> bool
    ensures is { result ≡ is_writer_of found writer }
    ensures no { result ≡ false → found ≢ Some writer }
{
    match found {
        None => false,
        Some(found) => found.0 == writer.0 && found.1 == writer.1,
    }
}

/// Whether a data record of the partition has this producer id and epoch.
pub(crate) fn has_data(part: &Part, writer: (i64, i16)) -> bool
    ensures { result ≡ false → (x : Item) → Has part.now.items x → x.writer ≢ Some writer }
{
    let mut items = part.items().cursor();
    while let Some(item) = items.next() {
        if is_writer(item.writer(), writer) {
            return true;
        }
    }
    false
}

/// Whether it was decided that the transaction's end markers have this producer id and epoch.
pub(crate) fn is_ended_by(column: &Column, producer: i64, epoch: i16) -> bool {
    match &column.decided {
        Some(decided) => column.producer == producer && decided.marker_epoch == epoch,
        None => false,
    }
}

/// Whether the transaction has such end markers.
pub(crate) fn has_end(column: &Column, end: End) -> bool {
    if column.decided.is_none() {
        return column.producer == end.producer;
    }
    is_ended_by(column, end.producer, end.epoch)
}

// ---- where they stand

/// How many data records stand before this offset; none where one stands at it.
fn data_before(part: &Part, offset: u64) -> Option<u64> {
    let mut count = 0u64;
    let mut items = part.items().cursor();
    while let Some(item) = items.next() {
        if offset == item.offset() {
            return None;
        }
        if offset < item.offset() {
            return Some(count);
        }
        count = count.saturating_add(1);
    }
    Some(count)
}

/// The end marker at this offset. Offsets are dense, and what isn't data is an end marker, unless it is a control record of another type,
/// as Kafka writes none into these logs.
pub(crate) fn marker_at(part: &Part, offset: u64) -> Option<Marker> {
    let before = data_before(part, offset)?;
    let place = offset.saturating_sub(before);
    let marker = part.markers().get(place as usize)?;
    Some(*marker)
}

/// Where the end marker stands that so many others precede.
fn offset_of_end(part: &Part, place: usize) -> u64 {
    let mut offset = place as u64;
    let mut items = part.items().cursor();
    while let Some(item) = items.next() {
        if offset < item.offset() {
            return offset;
        }
        offset = offset.saturating_add(1);
    }
    offset
}

/// Where the first end marker stands that says this.
pub(crate) fn first_end(part: &Part, end: End) -> Option<u64> {
    let markers = part.markers();
    for i in 0..markers.len() {
        if is_end(&markers[i], end) {
            return Some(offset_of_end(part, i));
        }
    }
    None
}

/// Where the first end marker of this kind stands that the transaction has: one with the epoch that was decided, or of one that nothing
/// decided, one of its producer id.
pub(crate) fn first_end_of(part: &Part, column: &Column, kind: Kind) -> Option<u64> {
    let markers = part.markers();
    for i in 0..markers.len() {
        let marker = &markers[i];
        let end = End {
            producer: marker.producer,
            epoch: marker.epoch,
            kind,
        };
        if is_end(marker, end) && has_end(column, end) {
            return Some(offset_of_end(part, i));
        }
    }
    None
}

/// The producer epoch of the last data of this producer id which no end marker follows.
pub(crate) fn open_epoch(part: &Part, producer: i64) -> Option<i16> {
    let mut epoch = None;
    let mut items = part.items().cursor();
    while let Some(item) = items.next() {
        if let (Fate::Waiting(_), Some(writer)) = (item.fate(), item.writer()) {
            if writer.0 == producer {
                epoch = Some(writer.1);
            }
        }
    }
    epoch
}
