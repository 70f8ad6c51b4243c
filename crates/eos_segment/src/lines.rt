//! The lines that `dump` prints for a batch and its records.

ghost use Rattle.std.specs.Prelude.{◌≡◌, OnOk, IfOk, Some, None, string_bytes};
ghost use Rattle.eos_text.specs.Adding.{Adds};
ghost use Rattle.eos_segment.specs.Listing.{kind_word, last_line, status_of};
ghost use Rattle.eos_segment.specs.Lines.{record_line, begin_of, producer_of, batch_line};

use crate::text::push_hex;
use eos_batch::{Batch, BatchFault, Kind, Record};
use eos_text::{push_text, push_value};
use std::alloc::{AllocError, Global};

/// Adds the line of a record at this offset.
pub(crate) fn push_record(
    alloc: Global,
    out: &mut String,
    offset: i64,
    item: &Record,
) -> Result<(), AllocError>
    ensures { OnOk result (Adds (string_bytes out.old) (string_bytes out.new) (record_line offset item.now)) }
{
    push_value(out, "record offset=", &offset)?;
    push_hex(alloc, out, " key=", &item.key)?;
    push_hex(alloc, out, " value=", &item.value)?;
    push_value(out, " headers=", &item.headers.as_slice().len())?;
    push_text(out, "\n")?;
    Ok(())
}

/// Adds where a batch begins, and which offsets it has.
fn push_begin(out: &mut String, byte: usize, batch: &Batch) -> Result<(), AllocError>
    ensures { OnOk result (Adds (string_bytes out.old) (string_bytes out.new) (begin_of byte batch.now)) }
{
    push_value(out, "batch byte=", &byte)?;
    push_value(out, " base=", &batch.base_offset)?;
    push_value(out, " count=", &batch.records.as_slice().len())?;
    Ok(())
}

/// Adds who wrote a batch, and which records these are in the producer's order.
fn push_producer(out: &mut String, batch: &Batch) -> Result<(), AllocError>
    ensures { OnOk result (Adds (string_bytes out.old) (string_bytes out.new) (producer_of batch.now)) }
{
    push_value(out, " producer=", &batch.producer)?;
    push_value(out, " epoch=", &batch.epoch)?;
    push_value(out, " sequence=", &batch.sequence)?;
    Ok(())
}

/// Adds the line of a batch whose first byte is this one of the segment.
pub(crate) fn push_head(
    out: &mut String,
    byte: usize,
    kind: &str,
    batch: &Batch,
) -> Result<(), AllocError>
    ensures { OnOk result (Adds (string_bytes out.old) (string_bytes out.new) (batch_line byte kind.now batch.now)) }
{
    push_begin(out, byte, batch)?;
    push_producer(out, batch)?;
    push_value(out, " ", &kind)?;
    push_text(out, "\n")?;
    Ok(())
}

/// The last word of a batch's line.
pub(crate) fn kind_word(batch: &Batch) -> &'static str
    ensures { result.now ≡ kind_word batch.now }
{
    if batch.is_control() {
        match batch.marker() {
            None => "control",
            Some(marker) => match marker.kind {
                Kind::Commit => "commit",
                Kind::Abort => "abort",
            },
        }
    } else if batch.is_transactional() {
        "txn"
    } else {
        "plain"
    }
}

/// Adds the last line of a listing, and gives the exit status.
pub(crate) fn push_last(
    out: &mut String,
    byte: usize,
    stop: Option<BatchFault>,
) -> Result<u8, AllocError>
    ensures line { OnOk result (Adds (string_bytes out.old) (string_bytes out.new) (last_line byte stop)) }
    ensures status { IfOk result (λ status. status ≡ status_of stop) }
{
    match stop {
        None => push_end(out, byte)?,
        Some(fault) => push_fault(out, byte, fault)?,
    }
    Ok(match stop {
        None => 0,
        Some(_) => 1,
    })
}

fn push_end(out: &mut String, byte: usize) -> Result<(), AllocError>
    ensures { OnOk result (Adds (string_bytes out.old) (string_bytes out.new) (last_line byte None)) }
{
    push_value(out, "end bytes=", &byte)?;
    push_text(out, "\n")?;
    Ok(())
}

fn push_fault(out: &mut String, byte: usize, fault: BatchFault) -> Result<(), AllocError>
    ensures { OnOk result (Adds (string_bytes out.old) (string_bytes out.new) (last_line byte (Some fault))) }
{
    push_value(out, "bad byte=", &byte)?;
    push_value(out, " ", &fault.name())?;
    push_text(out, "\n")?;
    Ok(())
}
