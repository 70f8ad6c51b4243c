//! Writing the records of a batch, and their headers, field by field in the order of the layout, which stands at the head
//! of the module that reads them. Each part is appended, and what a refused growth leaves is never looked at.

ghost use Rattle.std.specs.Prelude.{◌≡◌, ◌≤◌, ◌<◌, ◌^◌, ◌++◌, length, All, OnOk};
ghost use Rattle.eos_batch.specs.Encoding.{bytes_text, optional_text, header_text, headers_text, body_text, record_text, records_text};
ghost use Rattle.eos_batch.specs.steps.Writing.{HasRecordWidths};

use crate::encode_size::body_size;
use crate::record::{Header, Record};
use bytes::Bytes;
use eos_wire::{write_i8, write_varint, write_varlong};
use std::alloc::AllocError;

/// A length and that many bytes.
#[tactic(auto, unfolding(crate::specs::Encoding::bytes_text))]
fn write_bytes(out: &mut Vec<u8>, bytes: &Bytes) -> Result<(), AllocError>
    requires { length (bytes_text bytes.now) ≤ 2 ^ 30 }
    ensures { OnOk result (out.new.items ≡ out.old.items ++ bytes_text bytes.now) }
{
    write_varint(out, bytes.len() as i32)?;
    out.extend_from_slice(bytes.as_slice())
}

/// The same, or the length -1 for null.
#[tactic(auto, unfolding(crate::specs::Encoding::optional_text))]
fn write_optional(out: &mut Vec<u8>, bytes: &Option<Bytes>) -> Result<(), AllocError>
    requires { length (optional_text bytes.now) ≤ 2 ^ 30 }
    ensures { OnOk result (out.new.items ≡ out.old.items ++ optional_text bytes.now) }
{
    match bytes {
        None => write_varint(out, -1),
        Some(bytes) => write_bytes(out, bytes),
    }
}

#[tactic(auto, unfolding(crate::specs::Encoding::header_text))]
fn write_header(out: &mut Vec<u8>, header: &Header) -> Result<(), AllocError>
    requires { length (header_text header.now) ≤ 2 ^ 30 }
    ensures { OnOk result (out.new.items ≡ out.old.items ++ header_text header.now) }
{
    write_bytes(out, &header.key)?;
    write_optional(out, &header.value)
}

fn write_headers(out: &mut Vec<u8>, headers: &[Header]) -> Result<(), AllocError>
    requires { length (headers_text headers.now) ≤ 2 ^ 30 }
    ensures { OnOk result (out.new.items ≡ out.old.items ++ headers_text headers.now) }
{
    for header in headers {
        write_header(out, header)?;
    }
    Ok(())
}

/// The record at this place of its batch, without its length.
#[tactic(auto, unfolding(crate::specs::Encoding::body_text))]
fn write_body(out: &mut Vec<u8>, place: usize, record: &Record) -> Result<(), AllocError>
    requires place { place < 2 ^ 31 }
    requires size { length (body_text place «record».now) ≤ 2 ^ 30 }
    ensures text { OnOk result (out.new.items ≡ out.old.items ++ body_text place «record».now) }
    ensures widths { OnOk result (HasRecordWidths «record».now) }
{
    write_i8(out, record.attributes)?;
    write_varlong(out, record.timestamp_delta)?;
    write_varint(out, place as i32)?;
    write_optional(out, &record.key)?;
    write_optional(out, &record.value)?;
    let headers = record.headers.as_slice();
    write_varint(out, headers.len() as i32)?;
    write_headers(out, headers)
}

#[tactic(auto, unfolding(crate::specs::Encoding::record_text, crate::specs::Encoding::bytes_text))]
fn write_record(out: &mut Vec<u8>, place: usize, record: &Record) -> Result<(), AllocError>
    requires place { place < 2 ^ 31 }
    requires size { length (record_text place «record».now) ≤ 2 ^ 30 }
    ensures text { OnOk result (out.new.items ≡ out.old.items ++ record_text place «record».now) }
    ensures widths { OnOk result (HasRecordWidths «record».now) }
{
    write_varint(out, body_size(place, record) as i32)?;
    write_body(out, place, record)
}

/// All records of a batch.
pub(crate) fn write_records(out: &mut Vec<u8>, records: &[Record]) -> Result<(), AllocError>
    requires count { length records.now < 2 ^ 31 }
    requires size { length (records_text 0 records.now) ≤ 2 ^ 30 }
    ensures text { OnOk result (out.new.items ≡ out.old.items ++ records_text 0 records.now) }
    ensures widths { OnOk result (All HasRecordWidths records.now) }
{
    for (place, record) in records.iter().enumerate() {
        write_record(out, place, record)?;
    }
    Ok(())
}
