//! The line of a row.

ghost use Rattle.std.specs.Prelude.{◌≡◌, ◌++◌, OnOk, IfOk, codes, length, string_bytes};
ghost use Rattle.std.specs.Fmt.{decimal};
ghost use Rattle.std.specs.Option.{option_copied};
ghost use Rattle.eos_text.specs.Adding.{Adds};
ghost use Rattle.eos_explaining.specs.RowLines.{width_of, bytes_text, more_line, segment_line, end_line, is_below_zero, value_text, values_text, header_line, first_line, row_line};

use crate::batches::{kind_role, push_batch, push_no_batch};
use crate::records::{push_no_record, push_record, role_of};
use bytes::Bytes;
use eos_base::PartitionName;
use eos_claims::Place;
use eos_sought::{Placed, Wanted};
use eos_story::{HeaderName, Row, push_name};
use eos_text::{push_text, push_value};
use std::alloc::{AllocError, Global};

pub(crate) fn push_more(out: &mut String, shown: u64, all: u64) -> Result<(), AllocError>
    ensures { OnOk result (Adds (string_bytes out.old) (string_bytes out.new) (more_line shown all)) }
{
    push_value(out, ".. and ", &all.saturating_sub(shown))?;
    push_text(out, " more\n")
}

/// Adds how many more there are than are shown, behind what they are.
fn push_more_of(out: &mut String, role: &str, shown: u64, all: u64) -> Result<(), AllocError>
    ensures { OnOk result (Adds (string_bytes out.old) (string_bytes out.new) (role.now ++ more_line shown all)) }
{
    push_text(out, role)?;
    push_more(out, shown, all)
}

fn push_segment(
    alloc: Global,
    out: &mut String,
    name: &PartitionName,
    base: u64,
    size: u64,
) -> Result<(), AllocError>
    ensures { OnOk result (Adds (string_bytes out.old) (string_bytes out.new) (segment_line name.now base size)) }
{
    push_name(alloc, out, " segment  ", name)?;
    push_value(out, " segment ", &base)?;
    push_value(out, " of bytes=", &size)?;
    push_text(out, "\n")
}

fn push_end(
    alloc: Global,
    out: &mut String,
    name: &PartitionName,
    end: &i64,
) -> Result<(), AllocError>
    ensures { OnOk result (Adds (string_bytes out.old) (string_bytes out.new) (end_line name.now end.now)) }
{
    push_name(alloc, out, " end      ", name)?;
    push_value(out, " is declared to end at ", end)?;
    push_text(out, "\n")
}

// ---- headers

fn width_of(name: HeaderName) -> usize
    ensures { result ≡ width_of name }
{
    match name {
        HeaderName::Topic => 0,
        HeaderName::Partition | HeaderName::Output | HeaderName::Of => 4,
        HeaderName::Offset => 8,
    }
}

fn is_below_zero(bytes: &[u8]) -> bool
    ensures { result ≡ is_below_zero bytes.now }
{
    !bytes.is_empty() && bytes[0] >= 128
}

fn push_value_of(out: &mut String, width: usize, value: &Option<Bytes>) -> Result<(), AllocError>
    ensures { OnOk result (Adds (string_bytes out.old) (string_bytes out.new) (value_text width value.now)) }
{
    match value {
        None => push_text(out, " is null"),
        Some(bytes) => push_bytes(out, width, bytes.as_slice()),
    }
}

fn push_bytes(out: &mut String, width: usize, bytes: &[u8]) -> Result<(), AllocError>
    ensures { OnOk result (Adds (string_bytes out.old) (string_bytes out.new) (bytes_text width bytes.now)) }
{
    if width == 0 {
        return push_text(out, " is there once");
    }
    if bytes.len() != width {
        push_value(out, " has bytes=", &bytes.len())?;
        push_value(out, ", not ", &width)?;
        return Ok(());
    }
    if is_below_zero(bytes) {
        return push_text(out, " is below 0");
    }
    push_text(out, " is there once")
}

fn push_values(out: &mut String, width: usize, values: &[Option<Bytes>]) -> Result<(), AllocError>
    ensures { OnOk result (Adds (string_bytes out.old) (string_bytes out.new) (values_text width values.now)) }
{
    if values.is_empty() {
        return push_text(out, " is absent");
    }
    if values.len() == 1 {
        return push_value_of(out, width, &values[0]);
    }
    push_value(out, " is there ", &values.len())?;
    push_text(out, " times")?;
    Ok(())
}

fn push_header(
    out: &mut String,
    name: HeaderName,
    values: &[Option<Bytes>],
) -> Result<(), AllocError>
    ensures { OnOk result (Adds (string_bytes out.old) (string_bytes out.new) (header_line name values.now)) }
{
    push_value(out, " header   ", &name.key())?;
    push_values(out, width_of(name), values)?;
    push_text(out, "\n")
}

// ---- all

fn push_first(
    alloc: Global,
    out: &mut String,
    fault: Option<&Place>,
    name: &PartitionName,
    first: (Wanted, Option<Placed>),
) -> Result<(), AllocError>
    ensures { OnOk result (Adds (string_bytes out.old) (string_bytes out.new) (first_line (option_copied fault.entry) name.now first.0 first.1)) }
{
    match first.1 {
        None => push_no_batch(alloc, out, name, first.0),
        Some(placed) => push_batch(alloc, out, fault, name, (first.0, placed)),
    }
}

/// Adds the line of a row.
pub(crate) fn push_row(
    alloc: Global,
    out: &mut String,
    fault: Option<&Place>,
    row: &Row,
) -> Result<(), AllocError>
    ensures { OnOk result (Adds (string_bytes out.old) (string_bytes out.new) (row_line (option_copied fault.entry) row.now)) }
{
    match row {
        Row::Record { sought, find, spot } => push_record(alloc, out, fault, sought, (find, *spot)),
        Row::NoRecord { sought } => push_no_record(alloc, out, sought),
        Row::MoreRecords { shown, all, sought } => {
            push_more_of(out, role_of(sought), *shown, *all)
        }
        Row::MoreBatches {
            wanted,
            shown,
            all,
            ..
        } => push_more_of(out, kind_role(*wanted), *shown, *all),
        Row::MorePartitions { shown, all, .. } => push_more_of(out, " listed   ", *shown, *all),
        Row::MoreSegments { shown, all, .. } => push_more_of(out, " segment  ", *shown, *all),
        Row::Batch {
            partition,
            wanted,
            placed,
        } => push_batch(alloc, out, fault, partition, (*wanted, *placed)),
        Row::First {
            partition,
            wanted,
            placed,
        } => push_first(alloc, out, fault, partition, (*wanted, *placed)),
        Row::Segment {
            partition,
            base,
            size,
        } => push_segment(alloc, out, partition, *base, *size),
        Row::End { partition, end } => push_end(alloc, out, partition, end),
        Row::Header { name, values, .. } => push_header(out, *name, values.as_slice()),
    }
}
