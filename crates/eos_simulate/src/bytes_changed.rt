//! The bytes of a file that was copied with a mistake.

ghost use Rattle.std.specs.Prelude.{◌≡◌, ◌++◌, IfOk};
ghost use Rattle.eos_wire.specs.Numbers.{u32_text};
ghost use Rattle.eos_simulate.specs.CopiedFiles.{without_last, with_byte, sealed};

use crate::mistake::Turned;
use bytes::Bytes;
use eos_wire::{crc32c, write_u32};
use std::alloc::{AllocError, Global};

/// Where the checksum of a batch stands, and where what it is of begins.
const CHECKSUM: usize = 17;

const COVERED: usize = 21;

pub(crate) fn without_last(bytes: &Bytes) -> Result<Bytes, AllocError>
    ensures { IfOk result (λ changed. changed ≡ without_last bytes.now) }
{
    bytes.slice(..bytes.len().saturating_sub(1))
}

/// With another byte at a place.
pub(crate) fn with_byte(alloc: Global, bytes: &Bytes, turned: Turned) -> Result<Bytes, AllocError>
    ensures { IfOk result (λ changed. changed ≡ with_byte turned.at turned.value bytes.now) }
{
    if turned.at >= bytes.len() {
        return bytes.clone();
    }
    let mut out = Vec::new(alloc);
    out.extend_from_slice(&bytes.as_slice()[..turned.at])?;
    out.push(turned.value)?;
    out.extend_from_slice(&bytes.as_slice()[turned.at + 1..])?;
    Ok(Bytes::from_vec(out)?)
}

/// With another byte at a place, and the checksum made anew.
pub(crate) fn rewritten(alloc: Global, bytes: &Bytes, turned: Turned) -> Result<Bytes, AllocError>
    ensures { IfOk result (λ changed. changed ≡ sealed (with_byte turned.at turned.value bytes.now)) }
{
    sealed(alloc, &with_byte(alloc, bytes, turned)?)
}

/// With the checksum of a batch that goes to the end.
pub(crate) fn sealed(alloc: Global, bytes: &Bytes) -> Result<Bytes, AllocError>
    ensures { IfOk result (λ changed. changed ≡ sealed bytes.now) }
{
    if bytes.len() < COVERED {
        return bytes.clone();
    }
    let covered = &bytes.as_slice()[COVERED..];
    with_number(
        alloc,
        &bytes.as_slice()[..CHECKSUM],
        crc32c(covered),
        covered,
    )
}

/// A number between bytes.
pub(crate) fn with_number(
    alloc: Global,
    front: &[u8],
    number: u32,
    rest: &[u8],
) -> Result<Bytes, AllocError>
    ensures { IfOk result (λ whole. whole ≡ front.now ++ (u32_text number ++ rest.now)) }
{
    let mut out = Vec::new(alloc);
    out.extend_from_slice(front)?;
    write_u32(&mut out, number)?;
    out.extend_from_slice(rest)?;
    Ok(Bytes::from_vec(out)?)
}
