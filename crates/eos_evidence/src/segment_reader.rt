//! How the bytes of a segment come in. Nothing says that an input ends, so reading stops at the
//! limit of a segment and says so.

ghost use Rattle.std.specs.Prelude.{◌≡◌, ◌<◌, ◌≤◌, ◌+◌, ◌^◌, ℕ, List, IfOk, IfSome, OnOk, OnErr, take, length};
ghost use Rattle.std.specs.Io.KnownBytes.{Consumes, IsAtEnd, Keeps};
ghost use Rattle.eos_evidence.specs.Reading.{Takes, TakesAtMost};

use crate::fault::ReadFault;
use bytes::Bytes;
use std::alloc::Global;
use std::io::{ErrorKind, Read};

/// The greatest number of bytes of a segment.
pub const MAX_SEGMENT_BYTES: usize = 0x4000_0000;

/// How many bytes are asked for at once.
const CHUNK: usize = 0x2000;

/// How often in a row an interrupted read is tried.
const TRIES: u32 = 1000;

/// Reads a segment to its end: exactly the bytes that the reader has left. At `Limit` one byte more
/// than a segment may have was read, and the rest is unread. An interrupted read is tried again, up
/// to 1,000 times in a row.
pub fn read_segment<R: Read>(alloc: Global, reader: &mut R) -> Result<Bytes, ReadFault>
    ensures bytes { IfOk result (λ bytes. Consumes (R.remaining reader.old) (R.remaining reader.new) bytes) }
    ensures end { OnOk result (IsAtEnd (R.remaining reader.new)) }
    ensures within { IfOk result (λ bytes. length bytes ≤ MAX_SEGMENT_BYTES) }
    ensures read { result ≡ Err ReadFault.Read
        → TakesAtMost MAX_SEGMENT_BYTES (R.remaining reader.old) (R.remaining reader.new) }
    ensures limit { result ≡ Err ReadFault.Limit
        → Takes (MAX_SEGMENT_BYTES + 1) (R.remaining reader.old) (R.remaining reader.new) }
    ensures refused { OnErr result
        (TakesAtMost (MAX_SEGMENT_BYTES + 1) (R.remaining reader.old) (R.remaining reader.new)) }
{
    let bytes = read_up_to(alloc, reader, MAX_SEGMENT_BYTES)?;
    Ok(Bytes::from_vec(bytes)?)
}

/// Reads to the end, or one byte past the limit.
fn read_up_to<R: Read>(alloc: Global, reader: &mut R, limit: usize) -> Result<Vec<u8>, ReadFault>
    requires { limit < 2 ^ 32 }
    ensures ok { IfOk result (λ bytes. Consumes (R.remaining reader.old) (R.remaining reader.new) bytes.items) }
    ensures end { OnOk result (IsAtEnd (R.remaining reader.new)) }
    ensures within { IfOk result (λ bytes. length bytes.items ≤ limit) }
    ensures read { result ≡ Err ReadFault.Read
        → TakesAtMost limit (R.remaining reader.old) (R.remaining reader.new) }
    ensures limit { result ≡ Err ReadFault.Limit
        → Takes (limit + 1) (R.remaining reader.old) (R.remaining reader.new) }
    ensures refused { OnErr result (TakesAtMost (limit + 1) (R.remaining reader.old) (R.remaining reader.new)) }
{
    let mut bytes = Vec::new(alloc);
    let mut chunk = [0u8; CHUNK];
    while bytes.len() <= limit {
        let room = (limit + 1 - bytes.len()).min(CHUNK);
        let count = read_some(reader, &mut chunk[..room])?;
        if count == 0 {
            return Ok(bytes);
        }
        bytes.extend_from_slice(&chunk[..count])?;
    }
    Err(ReadFault::Limit)
}

/// One read into the room, of which it fills as many bytes as it says; 0 is the end. An interrupted read is tried again, up
/// to 1,000 times in a row.
///
/// # Errors
/// Read alone; then no byte was taken.
pub fn read_some<R: Read>(reader: &mut R, room: &mut [u8]) -> Result<usize, ReadFault>
    requires { 0 < length room.old }
    ensures within { IfOk result (λ count. count ≤ length room.new) }
    ensures ok { IfOk result (λ count.
        Consumes (R.remaining reader.old) (R.remaining reader.new) (take count room.new)) }
    ensures end { result ≡ Ok 0 → IsAtEnd (R.remaining reader.new) }
    ensures err { OnErr result (Keeps (R.remaining reader.old) (R.remaining reader.new)) }
    ensures only { OnErr result (result ≡ Err ReadFault.Read) }
{
    for _ in 0..TRIES {
        match reader.read(room) {
            Ok(count) => return Ok(count),
            Err(e) => {
                if e.kind() != ErrorKind::Interrupted {
                    return Err(ReadFault::Read);
                }
            }
        }
    }
    Err(ReadFault::Read)
}
