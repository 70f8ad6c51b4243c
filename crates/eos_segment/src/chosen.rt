//! The lines of the records that were asked for, and of their batches.

ghost use Rattle.std.specs.Prelude.{◌≡◌, ◌++◌, ◌+◌, ◌^◌, ◌≤ℤ◌, ◌+ℤ◌, ℕ, pos, nat_lt, max, min, length, OnOk, string_bytes};
ghost use Rattle.eos_text.specs.Adding.{Adds};
ghost use Rattle.eos_segment.specs.Choosing.{its_headers, its_content, chosen_record, chosen_records, chosen_lines, asks_for_one as one_is_asked};
ghost use Rattle.eos_segment.specs.Lines.{record_line, batch_line};
ghost use Rattle.eos_segment.specs.Listing.{kind_word as kind_word_of};

use crate::headers::push_headers;
use crate::lines::{kind_word, push_head, push_record};
use crate::options::ListingOptions;
use crate::{Reading, push_decoded};
use eos_batch::{Batch, Record};
use std::alloc::{AllocError, Global};

fn push_its_headers(
    alloc: Global,
    out: &mut String,
    options: &ListingOptions,
    batch: &Batch,
    item: &Record,
) -> Result<(), AllocError>
    ensures { OnOk result (Adds (string_bytes out.old) (string_bytes out.new) (its_headers options.now batch.now item.now)) }
{
    if options.headers {
        push_headers(alloc, out, batch, item)?;
    }
    Ok(())
}

/// Adds what a data record says, where it is read.
fn push_content(
    alloc: Global,
    out: &mut String,
    decode: Option<Reading>,
    batch: &Batch,
    item: &Record,
) -> Result<(), AllocError>
    ensures { OnOk result (Adds (string_bytes out.old) (string_bytes out.new) (its_content decode batch.now item.now)) }
{
    match decode {
        None => Ok(()),
        Some(reading) => {
            if batch.is_control() {
                return Ok(());
            }
            push_decoded(alloc, out, reading, item)
        }
    }
}

/// A record with its offset.
#[derive(Clone, Copy)]
struct Placed<'a> {
    offset: i64,
    item: &'a Record,
}

/// Adds the lines of a record, where it was asked for.
#[tactic(auto, unfolding(crate::specs::Choosing::chosen_record))]
fn push_chosen(
    alloc: Global,
    out: &mut String,
    options: &ListingOptions,
    batch: &Batch,
    placed: Placed<'_>,
) -> Result<(), AllocError>
    requires { pos 0 ≤ℤ placed.offset }
    ensures { OnOk result (Adds (string_bytes out.old) (string_bytes out.new) (chosen_record options.now batch.now placed.entry.offset placed.entry.item.now)) }
{
    if options.ask_for(placed.offset) {
        push_record(alloc, out, placed.offset, placed.item)?;
        push_its_headers(alloc, out, options, batch, placed.item)?;
        push_content(alloc, out, options.decode, batch, placed.item)?;
    }
    Ok(())
}

/// Adds the lines of a batch's records that were asked for.
fn push_records(
    alloc: Global,
    out: &mut String,
    options: &ListingOptions,
    batch: &Batch,
) -> Result<(), AllocError>
    requires low { pos 0 ≤ℤ batch.now.base_offset }
    requires high { (batch.now.base_offset +ℤ pos (length batch.now.records)) ≤ℤ pos (2 ^ 63) }
    ensures { OnOk result (Adds (string_bytes out.old) (string_bytes out.new)
        (chosen_records options.now batch.now batch.now.base_offset batch.now.records)) }
{
    for (place, item) in batch.records.as_slice().iter().enumerate() {
        let placed = Placed {
            offset: batch.base_offset + place as i64,
            item,
        };
        push_chosen(alloc, out, options, batch, placed)?;
    }
    Ok(())
}

/// Whether a record of this batch was asked for.
fn asks_for_one(options: &ListingOptions, batch: &Batch) -> bool
    requires low { pos 0 ≤ℤ batch.now.base_offset }
    requires high { (batch.now.base_offset +ℤ pos (length batch.now.records)) ≤ℤ pos (2 ^ 63) }
    ensures { result ≡ one_is_asked options.now batch.now.base_offset batch.now.records }
{
    let first = batch.base_offset as u64;
    let end = first + batch.records.len() as u64;
    options.from.max(first) < options.to.min(end)
}

/// Adds the lines of the batch that begins at this byte, where one of its records was asked for.
pub(crate) fn push_batch(
    alloc: Global,
    out: &mut String,
    options: &ListingOptions,
    byte: usize,
    batch: &Batch,
) -> Result<(), AllocError>
    requires low { pos 0 ≤ℤ batch.now.base_offset }
    requires high { (batch.now.base_offset +ℤ pos (length batch.now.records)) ≤ℤ pos (2 ^ 63) }
    ensures { OnOk result (Adds (string_bytes out.old) (string_bytes out.new) (chosen_lines options.now byte batch.now)) }
{
    if asks_for_one(options, batch) {
        push_head(out, byte, kind_word(batch), batch)?;
        push_records(alloc, out, options, batch)?;
    }
    Ok(())
}
