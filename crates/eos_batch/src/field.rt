//! The fields of a record: numbers, and texts behind their length.
//!
//! | Field | Bytes | Kafka's documents |
//! |---|---|---|
//! | a number | a varint of 32 or 64 bits, in zigzag | Message Format, Record |
//! | a length or count | a number that isn't below 0 | the same |
//! | bytes | a length, and that many bytes | a header's key |
//! | optional bytes | the same, or the length -1 for null | a record's key and value, a header's value |

ghost use Rattle.eos_batch.specs.Real.{IsReal};
ghost use Rattle.eos_batch.specs.steps.Answers.{Gives};
ghost use Rattle.eos_batch.specs.Reading.{int_at, long_at, count_at, bytes_at, optional_at};
ghost use Rattle.std.specs.Prelude.{IfErr};

use crate::fault::BatchFault;
use eos_wire::Cursor;

#[inline(always)]
#[tactic(auto, unfolding(crate::specs::Reading::int_at))]
pub(crate) fn read_int(rest: &mut Cursor<'_>) -> Result<i32, BatchFault>
    ensures gives { Gives result rest.new (int_at rest.old) }
    ensures real { IfErr result IsReal }
{
    rest.varint().ok_or(BatchFault::Varint)
}

#[inline(always)]
#[tactic(auto, unfolding(crate::specs::Reading::long_at))]
pub(crate) fn read_long(rest: &mut Cursor<'_>) -> Result<i64, BatchFault>
    ensures gives { Gives result rest.new (long_at rest.old) }
    ensures real { IfErr result IsReal }
{
    rest.varlong().ok_or(BatchFault::Varint)
}

/// A length or count.
#[inline(always)]
#[tactic(auto, unfolding(crate::specs::Reading::count_at))]
pub(crate) fn read_count(rest: &mut Cursor<'_>) -> Result<u32, BatchFault>
    ensures gives { Gives result rest.new (count_at rest.old) }
    ensures real { IfErr result IsReal }
{
    let count = read_int(rest)?;
    if count < 0 {
        return Err(BatchFault::Record);
    }
    Ok(count as u32)
}

/// A length and that many bytes.
#[inline(always)]
#[tactic(auto, unfolding(crate::specs::Reading::bytes_at))]
pub(crate) fn read_bytes<'a>(rest: &mut Cursor<'a>) -> Result<Cursor<'a>, BatchFault>
    ensures gives { Gives result rest.new (bytes_at rest.old) }
    ensures real { IfErr result IsReal }
{
    let len = read_count(rest)?;
    rest.take(len as usize).ok_or(BatchFault::Record)
}

/// The same, or null.
#[inline(always)]
#[tactic(auto, unfolding(crate::specs::Reading::optional_at))]
pub(crate) fn read_optional<'a>(rest: &mut Cursor<'a>) -> Result<Option<Cursor<'a>>, BatchFault>
    ensures gives { Gives result rest.new (optional_at rest.old) }
    ensures real { IfErr result IsReal }
{
    let len = read_int(rest)?;
    if len == -1 {
        return Ok(None);
    }
    if len < 0 {
        return Err(BatchFault::Record);
    }
    match rest.take(len as usize) {
        Some(bytes) => Ok(Some(bytes)),
        None => Err(BatchFault::Record),
    }
}
