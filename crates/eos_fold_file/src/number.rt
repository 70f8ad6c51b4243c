//! The numbers and texts of a fold file.
//!
//! | Read | Bytes | Meaning |
//! |---|---|---|
//! | kind | 1 | INT8: which of several forms follows |
//! | number | 1 to 10 | VARLONG in its shortest spelling: signed, groups of seven bits |
//! | unsigned number | 1 to 10 | the signed number of the same 64 bits |
//! | text | 1 to 10, and its bytes | the number of its bytes, and the bytes |
//!
//! The source of VARLONG is Kafka's protocol guide. A number in a longer spelling than its shortest is refused, so a value has one
//! text only.

ghost use Rattle.std.specs.Prelude.{◌≡◌, ◌++◌, ◌∷◌, ◌≤ℤ◌, ◌≤◌, [], length, drop, Ok, OnOk, IfOk, IfErr, IfSome};
ghost use Rattle.eos_wire.specs.Varint.{unzigzag};
ghost use Rattle.eos_wire.specs.Writing.{varlong_of};
ghost use Rattle.eos_fold_file.specs.Numbers.{u64_text, bytes_text, is_shortest, kind_from, number_from, within_from, i32_from, i16_from, u64_from, u32_from, bytes_from};
ghost use Rattle.eos_fold_file.specs.Legal.{IsText};
ghost use Rattle.eos_fold_file.specs.Faults.{Fails};
ghost use Rattle.eos_fold_file.specs.steps.Faults.{Gives};

use crate::fault::FoldFault;
use bytes::Bytes;
use eos_wire::{Cursor, read_varlong, write_varlong};
use std::alloc::AllocError;

/// The most bytes of a number.
const MOST: usize = 10;

/// A kind: which of several forms follows.
#[inline(always)]
#[tactic(auto, using(crate::proofs::SmallNumbers::no_kind, crate::proofs::SmallNumbers::kind_read))]
pub(crate) fn read_kind(rest: &mut Cursor<'_>) -> Result<i8, FoldFault>
    ensures { Gives result rest.new (kind_from rest.old) }
{
    let bytes = rest.rest();
    if bytes.is_empty() {
        return Err(FoldFault::Short);
    }
    let kind = bytes[0].cast_signed();
    rest.take(1);
    Ok(kind)
}

/// Whether a number's spelling of so many bytes at the front is its shortest.
fn is_shortest(bytes: &[u8], len: usize) -> bool
    requires { (1 ≤ len) × (len ≤ length bytes.now) }
    ensures { result ≡ is_shortest bytes.now len }
{
    len == 1 || bytes[len - 1] != 0
}

fn unzigzag(n: u32) -> i64
    ensures { result ≡ unzigzag n }
{
    let half = i64::from(n / 2);
    if n % 2 == 0 { half } else { -half - 1 }
}

/// The number at the front, and how many bytes it takes, where these are at most three. Most are, and need no loop.
#[inline(always)]
#[tactic(auto, using(crate::proofs::SmallNumbers::one_read, crate::proofs::SmallNumbers::two_read, crate::proofs::SmallNumbers::three_read))]
fn short(bytes: &[u8]) -> Option<(i64, usize)>
    ensures read { IfSome result (λ r. number_from bytes.now ≡ Ok (r.0, drop r.1 bytes.now)) }
    ensures within { IfSome result (λ r. r.1 ≤ length bytes.now) }
{
    if bytes.len() < 3 {
        return None;
    }
    let first = u32::from(bytes[0]);
    if first < 128 {
        return Some((unzigzag(first), 1));
    }
    let second = u32::from(bytes[1]);
    if second < 128 {
        if second == 0 {
            return None;
        }
        return Some((unzigzag(first - 128 + 128 * second), 2));
    }
    let third = u32::from(bytes[2]);
    if third == 0 || third >= 128 {
        return None;
    }
    Some((
        unzigzag(first - 128 + 128 * (second - 128 + 128 * third)),
        3,
    ))
}

/// The number at the front, however many bytes it takes, and how many these are.
#[inline(never)]
#[tactic(auto, unfolding(crate::specs::Numbers::number_from))]
fn long(bytes: &[u8]) -> Result<(i64, usize), FoldFault>
    ensures read { IfOk result (λ r. number_from bytes.now ≡ Ok (r.0, drop r.1 bytes.now)) }
    ensures within { IfOk result (λ r. r.1 ≤ length bytes.now) }
    ensures err { IfErr result (λ e. Fails e (number_from bytes.now)) }
{
    let Some((number, len)) = read_varlong(bytes) else {
        if bytes.len() < MOST {
            return Err(FoldFault::Short);
        }
        return Err(FoldFault::Number);
    };
    if !is_shortest(bytes, len) {
        return Err(FoldFault::Number);
    }
    Ok((number, len))
}

/// The number at the front, and how many bytes it takes.
#[inline(always)]
fn found(bytes: &[u8]) -> Result<(i64, usize), FoldFault>
    ensures read { IfOk result (λ r. number_from bytes.now ≡ Ok (r.0, drop r.1 bytes.now)) }
    ensures within { IfOk result (λ r. r.1 ≤ length bytes.now) }
    ensures err { IfErr result (λ e. Fails e (number_from bytes.now)) }
{
    match short(bytes) {
        Some(found) => Ok(found),
        None => long(bytes),
    }
}

/// A number of 64 bits.
#[inline(always)]
pub(crate) fn read_number(rest: &mut Cursor<'_>) -> Result<i64, FoldFault>
    ensures { Gives result rest.new (number_from rest.old) }
{
    let (number, len) = found(rest.rest())?;
    rest.take(len);
    Ok(number)
}

/// A number from this one to that one.
#[inline(always)]
#[tactic(auto, unfolding(crate::specs::Numbers::within_from))]
fn read_within(rest: &mut Cursor<'_>, low: i64, high: i64) -> Result<i64, FoldFault>
    ensures read { Gives result rest.new (within_from low high rest.old) }
    ensures within { IfOk result (λ number. (low ≤ℤ number) × (number ≤ℤ high)) }
{
    let number = read_number(rest)?;
    if number < low || high < number {
        return Err(FoldFault::Number);
    }
    Ok(number)
}

/// A number of 32 bits.
#[inline(always)]
pub(crate) fn read_i32(rest: &mut Cursor<'_>) -> Result<i32, FoldFault>
    ensures { Gives result rest.new (i32_from rest.old) }
{
    let number = read_within(rest, -0x8000_0000, 0x7fff_ffff)?;
    Ok(number as i32)
}

/// A number of 16 bits.
#[inline(always)]
pub(crate) fn read_i16(rest: &mut Cursor<'_>) -> Result<i16, FoldFault>
    ensures { Gives result rest.new (i16_from rest.old) }
{
    let number = read_within(rest, -0x8000, 0x7fff)?;
    Ok(number as i16)
}

/// An unsigned number of 64 bits.
#[inline(always)]
#[tactic(auto, unfolding(crate::specs::Numbers::u64_from))]
pub(crate) fn read_u64(rest: &mut Cursor<'_>) -> Result<u64, FoldFault>
    ensures { Gives result rest.new (u64_from rest.old) }
{
    let number = read_number(rest)?;
    Ok(number.cast_unsigned())
}

/// An unsigned number of 32 bits.
#[inline(always)]
#[tactic(auto, unfolding(crate::specs::Numbers::u32_from))]
pub(crate) fn read_u32(rest: &mut Cursor<'_>) -> Result<u32, FoldFault>
    ensures { Gives result rest.new (u32_from rest.old) }
{
    let number = read_u64(rest)?;
    if number > u64::from(u32::MAX) {
        return Err(FoldFault::Number);
    }
    Ok(number as u32)
}

/// A text, as a run of the file's bytes.
#[inline(always)]
#[tactic(auto, unfolding(crate::specs::Numbers::bytes_from))]
pub(crate) fn read_text_bytes<'a>(rest: &mut Cursor<'a>) -> Result<Cursor<'a>, FoldFault>
    ensures { Gives result rest.new (bytes_from rest.old) }
{
    let len = read_number(rest)?;
    if len < 0 {
        return Err(FoldFault::Number);
    }
    rest.take(len as usize).ok_or(FoldFault::Short)
}

/// A text, which shares the file's bytes.
pub(crate) fn read_bytes(rest: &mut Cursor<'_>) -> Result<Bytes, FoldFault>
    ensures { Gives result rest.new (bytes_from rest.old) }
{
    let text = read_text_bytes(rest)?;
    Ok(text.share()?)
}

/// The byte of a number that takes one. Most do, and need no loop.
#[inline(always)]
#[tactic(auto, using(crate::proofs::SmallNumbers::small_written))]
fn small_group(number: i64) -> Option<u8>
    ensures { IfSome result (λ group. varlong_of number ≡ group ∷ []) }
{
    if 0 <= number && number < 64 {
        return Some(number as u8 * 2);
    }
    if -64 <= number && number < 0 {
        return Some(-(number + 1) as u8 * 2 + 1);
    }
    None
}

/// Appends a number.
pub(crate) fn write_number(out: &mut Vec<u8>, number: i64) -> Result<(), AllocError>
    ensures { OnOk result (out.new.items ≡ out.old.items ++ varlong_of number) }
{
    let Some(group) = small_group(number) else {
        return write_varlong(out, number);
    };
    out.push(group)?;
    Ok(())
}

/// Appends an unsigned number.
pub(crate) fn write_u64(out: &mut Vec<u8>, number: u64) -> Result<(), AllocError>
    ensures { OnOk result (out.new.items ≡ out.old.items ++ u64_text number) }
{
    write_number(out, number.cast_signed())
}

/// Appends a text.
pub(crate) fn write_slice(out: &mut Vec<u8>, text: &[u8]) -> Result<(), AllocError>
    ensures text { OnOk result (out.new.items ≡ out.old.items ++ bytes_text text.now) }
    ensures fit { OnOk result (IsText text.now) }
{
    write_number(out, text.len() as i64)?;
    out.extend_from_slice(text)
}
