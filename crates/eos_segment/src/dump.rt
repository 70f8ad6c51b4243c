//! `dump`: the batches and records of a segment, line by line.

ghost use Rattle.std.specs.Prelude.{◌≡◌, ◌≤◌, ◌+◌, ◌^◌, Err, ℕ, List, ◌++◌, IfOk, IfErr, OnErr, OnOk, string_bytes, [], drop};
ghost use Rattle.std.specs.Io.KnownBytes.{Appends, Keeps};
ghost use Rattle.eos_segment.specs.Choosing.{IsChosenListing, chosen_lines, plain_options};
ghost use Rattle.eos_segment.specs.Listing.{IsListing, StopsHere};
ghost use Rattle.eos_segment.specs.Running.{Ran, IsOfReading};
ghost use Rattle.eos_text.specs.Writing.{Writes, WritesFrontOf, WritesFront};
ghost use Rattle.eos_segment.specs.steps.Holding.{HasListed, Passes};

use crate::chosen::push_batch;
use crate::fault::RunFault;
use crate::lines::push_last;
use crate::options::ListingOptions;
use bytes::Bytes;
use eos_batch::{BatchFault, next_batch};
use eos_evidence::read_segment;
use eos_text::{finish, write_whole};
use eos_wire::are_bytes;
use std::alloc::Global;
use std::io::{Read, Write};

/// How many bytes of lines are held back at most before they are written.
const HELD_BACK: usize = 0x1_0000;

/// Reads a segment and writes its listing, of the records and in the lines that the options say. The status is 0 where all
/// bytes are batches, else 1.
///
/// Nothing is written before all was read.
///
/// # Errors
/// After `Read` and `Limit` nothing was written, after `Write` and `OutOfMemory` a front of the listing.
pub fn dump_to<R: Read, W: Write>(
    alloc: Global,
    options: &ListingOptions,
    reader: &mut R,
    writer: &mut W,
) -> Result<u8, RunFault>
    ensures ran { Ran (IsChosenListing options.now) (R.remaining reader.old) (R.remaining reader.new) (W.contents writer.old) (W.contents writer.new) result }

    // With no option it is the listing of every record.
    ensures plain { options.now ≡ plain_options → Ran IsListing (R.remaining reader.old) (R.remaining reader.new) (W.contents writer.old) (W.contents writer.new) result }
{
    read_and_dump(alloc, options, reader, writer)
}

fn read_and_dump<R: Read, W: Write>(
    alloc: Global,
    options: &ListingOptions,
    reader: &mut R,
    writer: &mut W,
) -> Result<u8, RunFault>
    ensures { Ran (IsChosenListing options.now) (R.remaining reader.old) (R.remaining reader.new) (W.contents writer.old) (W.contents writer.new) result }
{
    let bytes = read_segment(alloc, reader)?;
    dump(alloc, options, &bytes, writer)
}

/// Writes the listing of a segment's bytes, a batch at a time.
fn dump<W: Write>(
    alloc: Global,
    options: &ListingOptions,
    bytes: &Bytes,
    writer: &mut W,
) -> Result<u8, RunFault>
    ensures ok { IfOk result (λ status. Writes (IsChosenListing options.now bytes.now) (W.contents writer.old) (W.contents writer.new) status) }
    ensures front { OnErr result (WritesFrontOf (IsChosenListing options.now bytes.now) (W.contents writer.old) (W.contents writer.new)) }
    ensures only { OnErr result (IsOfReading result → ⊥) }
{
    are_bytes(bytes.as_slice());
    let mut lines = String::new(alloc);
    let (byte, stop) = list_batches(alloc, options, bytes, writer, &mut lines)?;
    let status = push_last(&mut lines, byte, stop)?;
    finish(writer, lines.as_bytes())?;
    Ok(status)
}

/// Lists the batches up to the end or the first fault, and gives that place and the fault. Lines that were not written yet
/// are held back.
fn list_batches<W: Write>(
    alloc: Global,
    options: &ListingOptions,
    bytes: &Bytes,
    writer: &mut W,
    lines: &mut String,
) -> Result<(usize, Option<BatchFault>), RunFault>
    requires { string_bytes lines.old ≡ [] }
    ensures listed { IfOk result (λ r. HasListed (chosen_lines options.now) bytes.now (W.contents writer.old) (W.contents writer.new) (string_bytes lines.new) r.0) }
    ensures stops { IfOk result (λ r. StopsHere (drop r.0 bytes.now) r.1) }
    ensures front { OnErr result (WritesFrontOf (IsChosenListing options.now bytes.now) (W.contents writer.old) (W.contents writer.new)) }
    ensures only { OnErr result (IsOfReading result → ⊥) }
{
    are_bytes(bytes.as_slice());
    let mut byte = 0usize;
    'batches: while byte < bytes.len() {
        let found = next_batch(alloc, bytes, byte)?;
        match found {
            Ok((batch, size)) => {
                push_batch(alloc, lines, options, byte, &batch)?;
                byte += size;
                write_long(writer, lines)?;
            }
            Err(fault) => return Ok((byte, Some(fault))),
        }
    }
    Ok((byte, None))
}

/// Writes the lines that are held back, where they are many.
fn write_long<W: Write>(writer: &mut W, lines: &mut String) -> Result<(), RunFault>
    ensures ok { OnOk result (Passes (W.contents writer.old) (W.contents writer.new) (string_bytes lines.old) (string_bytes lines.new)) }
    ensures front { OnErr result (WritesFront (W.contents writer.old) (W.contents writer.new) (string_bytes lines.old)) }
    ensures only { IfErr result (λ fault. fault ≡ RunFault.Write) }
{
    if lines.len() >= HELD_BACK {
        write_whole(writer, lines.as_bytes())?;
        lines.clear();
    }
    Ok(())
}
