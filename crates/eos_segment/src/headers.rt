//! The lines of a record's timestamp and headers.

ghost use Rattle.std.specs.Int.{w64};
ghost use Rattle.std.specs.Prelude.{◌≡◌, ◌++◌, flat_map, FitsSigned, OnOk, string_bytes};
ghost use Rattle.eos_text.specs.Adding.{Adds};
ghost use Rattle.eos_segment.specs.HeaderLines.{has_append_time as is_append_time, timestamp_of, timestamp_line, header_line, header_lines};

use crate::text::push_hex;
use eos_batch::{Batch, Header, Record};
use eos_text::{push_escaped, push_text, push_value};
use std::alloc::{AllocError, Global};

const APPEND_TIME: i16 = 0x08;

/// Whether the broker's clock counts (attributes bit 3).
fn has_append_time(batch: &Batch) -> bool
    ensures { result ≡ is_append_time batch.now.attributes }
{
    batch.attributes & APPEND_TIME != 0
}

/// A record's timestamp, in milliseconds.
fn timestamp(batch: &Batch, item: &Record) -> i64
    ensures value { result ≡ timestamp_of batch.now item.now }
    ensures fits { FitsSigned w64 result }
{
    if has_append_time(batch) {
        batch.max_timestamp
    } else {
        batch.base_timestamp.wrapping_add(item.timestamp_delta)
    }
}

fn push_timestamp(out: &mut String, timestamp: &i64) -> Result<(), AllocError>
    ensures { OnOk result (Adds (string_bytes out.old) (string_bytes out.new) (timestamp_line timestamp.now)) }
{
    push_value(out, "  timestamp=", timestamp)?;
    push_text(out, "\n")?;
    Ok(())
}

fn push_header(alloc: Global, out: &mut String, header: &Header) -> Result<(), AllocError>
    ensures { OnOk result (Adds (string_bytes out.old) (string_bytes out.new) (header_line header.now)) }
{
    push_escaped(alloc, out, "  header ", header.key.as_slice())?;
    push_hex(alloc, out, "=", &header.value)?;
    push_text(out, "\n")?;
    Ok(())
}

fn push_all(alloc: Global, out: &mut String, headers: &[Header]) -> Result<(), AllocError>
    ensures { OnOk result (Adds (string_bytes out.old) (string_bytes out.new) (flat_map header_line headers.now)) }
{
    for header in headers {
        push_header(alloc, out, header)?;
    }
    Ok(())
}

/// Adds the lines of a record's timestamp and headers.
pub(crate) fn push_headers(
    alloc: Global,
    out: &mut String,
    batch: &Batch,
    item: &Record,
) -> Result<(), AllocError>
    ensures { OnOk result (Adds (string_bytes out.old) (string_bytes out.new) (header_lines batch.now item.now)) }
{
    let time = timestamp(batch, item);
    push_timestamp(out, &time)?;
    push_all(alloc, out, item.headers.as_slice())?;
    Ok(())
}
