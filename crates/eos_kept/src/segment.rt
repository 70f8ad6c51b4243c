//! One segment, from its reader or where its bytes are held.

ghost use Rattle.std.specs.Prelude.{◌≡◌, ◌≤◌, ◌+◌, ◌∷◌, [], ℕ, List, length, Err, IfOk, OnOk, OnErr};
ghost use Rattle.std.specs.Io.KnownBytes.{Consumes, IsAtEnd};
ghost use Rattle.eos_evidence.specs.declared.segment.Segment.{Segment};
ghost use Rattle.eos_evidence.specs.Reading.{Takes, TakesAtMost};
ghost use Rattle.eos_kept.specs.Kept.{IsKept};

use crate::fold::{Asked, SegmentFold};
use crate::summary::Kept;
use bytes::Bytes;
use eos_evidence::{MAX_SEGMENT_BYTES, ReadFault};
use eos_fold::{ByteFold, is_checked, read_folded};
use eos_reading::Reading;
use std::alloc::{AllocError, Global};
use std::io::Read;

/// Reads a segment of this topic, whose name is `base`, to its end: what is kept of the bytes that the reader has left. No more
/// of them is held than a chunk, or a batch where that is larger. At `Limit` one byte more than a segment may have was read, and
/// the rest is unread.
pub fn keep_segment<K: Reading + Drop, R: Read>(
    alloc: Global,
    reading: K,
    topic: &[u8],
    base: i64,
    reader: &mut R,
) -> Result<Kept<K::Kept>, ReadFault>
    ensures ok { IfOk result (λ kept. (bytes : List ℕ) × Consumes (R.remaining reader.old) (R.remaining reader.new) bytes × (length bytes ≤ MAX_SEGMENT_BYTES)
        × ((segment : Segment) → segment.topic ≡ topic.now → segment.base ≡ base → segment.bytes ≡ bytes → IsKept (K.kept reading) (segment ∷ []) kept)) }
    ensures end { OnOk result (IsAtEnd (R.remaining reader.new)) }
    ensures read { result ≡ Err ReadFault.Read → TakesAtMost MAX_SEGMENT_BYTES (R.remaining reader.old) (R.remaining reader.new) }
    ensures limit { result ≡ Err ReadFault.Limit → Takes (MAX_SEGMENT_BYTES + 1) (R.remaining reader.old) (R.remaining reader.new) }
    ensures refused { OnErr result (TakesAtMost (MAX_SEGMENT_BYTES + 1) (R.remaining reader.old) (R.remaining reader.new)) }
{
    let begin = base.unsigned_abs();
    let sequenced = is_checked(topic);
    let fold: SegmentFold<K> = SegmentFold::new(alloc, begin, sequenced);
    let asked = Asked {
        reading,
        begin,
        sequenced,
    };
    let (fold, waiting) = read_folded(alloc, &asked, fold, reader)?;
    Ok(fold.finish(waiting))
}

/// What is kept of a segment of this topic, whose name is `base` and whose bytes are held: they are read where they stand.
///
/// # Errors
/// Only want of memory.
pub(crate) fn keep_bytes<K: Reading + Drop>(
    alloc: Global,
    reading: K,
    topic: &[u8],
    base: i64,
    bytes: &Bytes,
) -> Result<Kept<K::Kept>, AllocError>
    requires { length bytes.now ≤ MAX_SEGMENT_BYTES }
    ensures { IfOk result (λ kept. (segment : Segment) → segment.topic ≡ topic.now → segment.base ≡ base → segment.bytes ≡ bytes.now → IsKept (K.kept reading) (segment ∷ []) kept) }
{
    let begin = base.unsigned_abs();
    let sequenced = is_checked(topic);
    let mut fold: SegmentFold<K> = SegmentFold::new(alloc, begin, sequenced);
    let asked = Asked {
        reading,
        begin,
        sequenced,
    };
    let taken = fold.take(alloc, &asked, bytes)?;
    Ok(fold.finish(bytes.len() - taken))
}
