//! How a reader's bytes come in, with one buffer for all chunks. Nothing says that an input ends, so reading stops at the
//! limit of a segment and says so.

ghost use Rattle.std.specs.Prelude.{◌≡◌, ◌≤◌, ◌+◌, ℕ, List, [], Err, IfOk, OnOk, OnErr, length};
ghost use Rattle.std.specs.Io.KnownBytes.{Consumes, IsAtEnd};
ghost use Rattle.eos_evidence.specs.Reading.{Takes, TakesAtMost};

use crate::feed::Feed;
use crate::fold::ByteFold;
use eos_evidence::{MAX_SEGMENT_BYTES, ReadFault, read_some};
use std::alloc::Global;
use std::io::Read;

/// How many bytes are asked for at once.
const CHUNK: usize = 0x4_0000;

/// Feeds a fold with all bytes that a reader has left, by a chunk of room.
fn read_by<F: ByteFold + Drop, R: Read>(
    alloc: Global,
    told: &F::Told,
    fold: F,
    reader: &mut R,
    chunk: &mut [u8],
) -> Result<(F, usize), ReadFault>
    requires { length chunk.old ≡ CHUNK }
    ensures ok { IfOk result (λ end. (bytes : List ℕ) × Consumes (R.remaining reader.old) (R.remaining reader.new) bytes × (length bytes ≤ MAX_SEGMENT_BYTES)
        × (F.holds told.now fold [] [] → (rest : List ℕ) × (length rest ≡ end.1) × F.holds told.now end.0 bytes rest)) }
    ensures end { OnOk result (IsAtEnd (R.remaining reader.new)) }
    ensures read { result ≡ Err ReadFault.Read → TakesAtMost MAX_SEGMENT_BYTES (R.remaining reader.old) (R.remaining reader.new) }
    ensures limit { result ≡ Err ReadFault.Limit → Takes (MAX_SEGMENT_BYTES + 1) (R.remaining reader.old) (R.remaining reader.new) }
    ensures refused { OnErr result (TakesAtMost (MAX_SEGMENT_BYTES + 1) (R.remaining reader.old) (R.remaining reader.new)) }
{
    let mut feed = Feed::new(alloc, fold);
    let mut fed = 0;
    while fed <= MAX_SEGMENT_BYTES {
        let room = (MAX_SEGMENT_BYTES + 1 - fed).min(CHUNK);
        let count = read_some(reader, &mut chunk[..room])?;
        if count == 0 {
            return Ok(feed.finish());
        }
        feed = feed.feed(alloc, told, &chunk[..count])?;
        fed += count;
    }
    Err(ReadFault::Limit)
}

/// Feeds a fold with all bytes that a reader has left, and gives it with the number of bytes that still wait for more. At
/// `Limit` one byte more than a segment may have was read, and the rest is unread. An interrupted read is tried again, up to
/// 1,000 times in a row.
pub fn read_folded<F: ByteFold + Drop, R: Read>(
    alloc: Global,
    told: &F::Told,
    fold: F,
    reader: &mut R,
) -> Result<(F, usize), ReadFault>
    ensures ok { IfOk result (λ end. (bytes : List ℕ) × Consumes (R.remaining reader.old) (R.remaining reader.new) bytes × (length bytes ≤ MAX_SEGMENT_BYTES)
        × (F.holds told.now fold [] [] → (rest : List ℕ) × (length rest ≡ end.1) × F.holds told.now end.0 bytes rest)) }
    ensures end { OnOk result (IsAtEnd (R.remaining reader.new)) }
    ensures read { result ≡ Err ReadFault.Read → TakesAtMost MAX_SEGMENT_BYTES (R.remaining reader.old) (R.remaining reader.new) }
    ensures limit { result ≡ Err ReadFault.Limit → Takes (MAX_SEGMENT_BYTES + 1) (R.remaining reader.old) (R.remaining reader.new) }
    ensures refused { OnErr result (TakesAtMost (MAX_SEGMENT_BYTES + 1) (R.remaining reader.old) (R.remaining reader.new)) }
{
    let mut chunk = vec![in alloc; 0; CHUNK]?;
    read_by(alloc, told, fold, reader, chunk.as_mut_slice())
}
