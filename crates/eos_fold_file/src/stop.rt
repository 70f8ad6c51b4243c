//! Why a front ends, in a fold file.
//!
//! | Field | Form | Meaning |
//! |---|---|---|
//! | kind | kind | 0 at the end of all bytes; 1 at bytes that are no batch; 2 at a batch that begins elsewhere |
//! | at 1: segment, byte | unsigned numbers | the segment's name, and the place among its bytes, which is behind its batches |
//! | at 1: fault | kind | why these bytes are no batch: the place of the fault among those of `BatchFault`, from 0 |
//! | at 2: found | unsigned number | where the batch begins |

ghost use Rattle.std.specs.Prelude.{◌≡◌, ◌++◌, OnOk};
ghost use Rattle.eos_fold_file.specs.Reading.{inside_from};
ghost use Rattle.eos_fold_file.specs.Stops.{fault_number, fault_of, fault_from, stop_text, no_batch_from, elsewhere_from, stop_from, is_inside};
ghost use Rattle.eos_fold_file.specs.steps.Faults.{Gives};
ghost use Rattle.eos_fold_file.specs.steps.Widths.{HasStopWidths};

use crate::fault::FoldFault;
use crate::number::{read_kind, read_u64, write_u64};
use eos_batch::BatchFault;
use eos_fold::Stop;
use eos_wire::{Cursor, write_i8};
use std::alloc::AllocError;

/// The fault of a number. Want of memory has none: no front ends by it.
fn fault_of(number: i8) -> Option<BatchFault>
    ensures { result ≡ fault_of number }
{
    match number {
        0 => Some(BatchFault::Truncated),
        1 => Some(BatchFault::Length),
        2 => Some(BatchFault::Magic),
        3 => Some(BatchFault::Crc),
        4 => Some(BatchFault::Compressed),
        5 => Some(BatchFault::Count),
        6 => Some(BatchFault::Varint),
        7 => Some(BatchFault::Record),
        8 => Some(BatchFault::Delta),
        9 => Some(BatchFault::Trailing),
        10 => Some(BatchFault::Control),
        11 => Some(BatchFault::Producer),
        _ => None,
    }
}

fn fault_number(fault: BatchFault) -> i8
    ensures { result ≡ fault_number fault }
{
    match fault {
        BatchFault::Truncated => 0,
        BatchFault::Length => 1,
        BatchFault::Magic => 2,
        BatchFault::Crc => 3,
        BatchFault::Compressed => 4,
        BatchFault::Count => 5,
        BatchFault::Varint => 6,
        BatchFault::Record => 7,
        BatchFault::Delta => 8,
        BatchFault::Trailing => 9,
        BatchFault::Control => 10,
        BatchFault::Producer => 11,
        BatchFault::OutOfMemory => 12,
    }
}

#[tactic(auto, unfolding(crate::specs::Stops::fault_from))]
fn read_fault(rest: &mut Cursor<'_>) -> Result<BatchFault, FoldFault>
    ensures { Gives result rest.new (fault_from rest.old) }
{
    let number = read_kind(rest)?;
    fault_of(number).ok_or(FoldFault::Stop)
}

#[tactic(auto, unfolding(crate::specs::Stops::no_batch_from))]
fn read_no_batch(rest: &mut Cursor<'_>) -> Result<Stop, FoldFault>
    ensures { Gives result rest.new (no_batch_from rest.old) }
{
    let segment = read_u64(rest)?;
    let byte = read_u64(rest)?;
    let fault = read_fault(rest)?;
    Ok(Stop::NoBatch {
        segment,
        byte,
        fault,
    })
}

#[tactic(auto, unfolding(crate::specs::Stops::elsewhere_from))]
fn read_elsewhere(rest: &mut Cursor<'_>) -> Result<Stop, FoldFault>
    ensures { Gives result rest.new (elsewhere_from rest.old) }
{
    let found = read_u64(rest)?;
    Ok(Stop::Elsewhere { found })
}

#[tactic(auto, unfolding(crate::specs::Stops::stop_from))]
fn read_stop(rest: &mut Cursor<'_>) -> Result<Stop, FoldFault>
    ensures { Gives result rest.new (stop_from rest.old) }
{
    match read_kind(rest)? {
        0 => Ok(Stop::AtEnd),
        1 => read_no_batch(rest),
        2 => read_elsewhere(rest),
        _ => Err(FoldFault::Stop),
    }
}

/// Whether batches from `begin` on, which end at `next` and take `size` of so many bytes, end so.
fn is_inside(begin: u64, next: u64, size: u64, bytes: u64, stop: Stop) -> bool
    ensures { result ≡ is_inside begin next size bytes stop }
{
    match stop {
        Stop::AtEnd => size == bytes,
        Stop::NoBatch { segment, byte, .. } => segment == begin && byte == size && size < bytes,
        Stop::Elsewhere { found } => found != next && size < bytes,
    }
}

/// Why a front ends whose batches begin at `begin`, end at `next` and take `size` of so many bytes.
#[tactic(auto, unfolding(crate::specs::Reading::inside_from))]
pub(crate) fn read_inside(
    rest: &mut Cursor<'_>,
    begin: u64,
    next: u64,
    size: u64,
    bytes: u64,
) -> Result<Stop, FoldFault>
    ensures { Gives result rest.new (inside_from begin next size bytes rest.old) }
{
    let stop = read_stop(rest)?;
    if !is_inside(begin, next, size, bytes, stop) {
        return Err(FoldFault::Stop);
    }
    Ok(stop)
}

pub(crate) fn write_stop(out: &mut Vec<u8>, stop: Stop) -> Result<(), AllocError>
    ensures text { OnOk result (out.new.items ≡ out.old.items ++ stop_text stop) }
    ensures fit { OnOk result (HasStopWidths stop) }
{
    match stop {
        Stop::AtEnd => write_i8(out, 0),
        Stop::NoBatch {
            segment,
            byte,
            fault,
        } => {
            write_i8(out, 1)?;
            write_u64(out, segment)?;
            write_u64(out, byte)?;
            write_i8(out, fault_number(fault))
        }
        Stop::Elsewhere { found } => {
            write_i8(out, 2)?;
            write_u64(out, found)
        }
    }
}
