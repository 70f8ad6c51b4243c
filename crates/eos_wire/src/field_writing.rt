//! A field, written. The layout stands at the head of the module that reads. The choices of the writer: numbers in their shortest
//! spelling, and no tagged fields.

ghost use Rattle.std.specs.Prelude.{◌≡◌, ◌+◌, ◌++◌, true, length, OnOk};
ghost use Rattle.eos_wire.specs.Writing.{uvarint_of};
ghost use Rattle.eos_wire.specs.FieldWriting.{fits_length, length_text, fits_count, count_text, section_text, string_text};

use crate::form::Form;
use crate::{write_i16, write_i32, write_uvarint};
use bytes::Bytes;
use std::alloc::AllocError;

/// Whether a text of so many bytes fits its length field.
pub fn fits_length(form: Form, len: usize) -> bool
    ensures { result ≡ fits_length form len }
{
    match form {
        Form::Plain => len <= i16::MAX as usize,
        Form::Flexible => len < u32::MAX as usize,
    }
}

/// Whether a list of so many items fits its count field.
pub fn fits_count(form: Form, count: usize) -> bool
    ensures { result ≡ fits_count form count }
{
    match form {
        Form::Plain => count <= i32::MAX as usize,
        Form::Flexible => count < u32::MAX as usize,
    }
}

/// The length of a text.
fn write_length(out: &mut Vec<u8>, form: Form, len: usize) -> Result<(), AllocError>
    requires { fits_length form len ≡ true }
    ensures { OnOk result (out.new.items ≡ out.old.items ++ length_text form len) }
{
    match form {
        Form::Plain => write_i16(out, len as i16),
        Form::Flexible => write_uvarint(out, len as u32 + 1),
    }
}

/// Appends the count of a list, or leaves a front of it where memory is refused.
pub fn write_count(out: &mut Vec<u8>, form: Form, count: usize) -> Result<(), AllocError>
    requires { fits_count form count ≡ true }
    ensures { OnOk result (out.new.items ≡ out.old.items ++ count_text form count) }
{
    match form {
        Form::Plain => write_i32(out, count as i32),
        Form::Flexible => write_uvarint(out, count as u32 + 1),
    }
}

/// Appends a section without a field, which only the flexible form has.
pub fn write_section(out: &mut Vec<u8>, form: Form) -> Result<(), AllocError>
    ensures { OnOk result (out.new.items ≡ out.old.items ++ section_text form) }
{
    match form {
        Form::Plain => Ok(()),
        Form::Flexible => write_uvarint(out, 0),
    }
}

/// Appends a text, or leaves a front of it where memory is refused.
pub fn write_text(out: &mut Vec<u8>, form: Form, text: &Bytes) -> Result<(), AllocError>
    requires { fits_length form (length text.now) ≡ true }
    ensures { OnOk result (out.new.items ≡ out.old.items ++ string_text form text.now) }
{
    write_length(out, form, text.len())?;
    out.extend_from_slice(text.as_slice())
}
