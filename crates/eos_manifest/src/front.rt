//! Where the front of a log ends.

ghost use Rattle.std.specs.Prelude.{◌≡◌, ◌≤◌, ◌<◌, ◌↔◌, ℕ, List, [], true, length, drop, IfOk, MatchOption};
ghost use Rattle.eos_manifest.specs.Front.{HasNoNext, IsFrontTo};
ghost use Rattle.eos_manifest.specs.steps.Pieces.{IsNext};

use bytes::Bytes;
use eos_batch::next_batch;
use eos_wire::are_bytes;
use std::alloc::{AllocError, Global};

/// The offset after the last record of a segment's front, which begins at this offset, and whether the front is all of its
/// bytes.
///
/// # Errors
/// A growth of memory was refused. An offset past 64 bits counts as one.
pub fn front_end(alloc: Global, bytes: &Bytes, from: u64) -> Result<(u64, bool), AllocError>
    ensures { IfOk result (λ r. (rest : List ℕ) × IsFrontTo from bytes.now r.0 rest × ((r.1 ≡ true) ↔ (rest ≡ []))) }
{
    are_bytes(bytes.as_slice());
    let mut at = 0;
    let mut next = from;
    while at < bytes.len() {
        let Some((size, after)) = next_in_front(alloc, bytes, at, next)? else {
            return Ok((next, false));
        };
        at += size;
        next = after;
    }
    Ok((next, true))
}

/// The size of the batch of this offset that stands at this byte, and the offset after its last record.
fn next_in_front(
    alloc: Global,
    bytes: &Bytes,
    at: usize,
    next: u64,
) -> Result<Option<(usize, u64)>, AllocError>
    requires { at < length bytes.now }
    ensures { IfOk result (λ r. MatchOption r (HasNoNext next (drop at bytes.now)) (λ s. IsNext bytes.now at next s.0 s.1)) }
{
    match next_batch(alloc, bytes, at)? {
        Ok((batch, size)) => {
            if batch.base_offset < 0 || batch.base_offset.unsigned_abs() != next {
                return Ok(None);
            }
            match next.checked_add(batch.records.len() as u64) {
                Some(after) => Ok(Some((size, after))),
                None => Err(AllocError),
            }
        }
        Err(_) => Ok(None),
    }
}
