//! A field, read from the front of what is left.
//!
//! | Field | Plain | Flexible | Source |
//! |---|---|---|---|
//! | length of a text | INT16, not below 0 | unsigned varint of one more, 0 is null | protocol guide; KIP-482 |
//! | count of a list | INT32, -1 is null | unsigned varint of one more, 0 is null | protocol guide; KIP-482 |
//! | section of tagged fields | none | count, then tag, size and bytes of each | KIP-482 |

ghost use Rattle.std.specs.Prelude.{IfErr};
ghost use Rattle.eos_base.specs.Records.{Parses, skipped};
ghost use Rattle.eos_wire.specs.Reading.{IsOfField, uvarint_from, length_from, count_from, string_from, many_from, tagged_from, section_from};

use crate::Cursor;
use crate::form::Form;
use eos_base::RecordFault;

/// The most bytes of an unsigned varint.
const VARINT_MOST: usize = 5;

/// An unsigned varint: Length where it is too long, Short where the bytes end before it does.
#[tactic(auto, unfolding(crate::specs::Reading::uvarint_from))]
fn read_unsigned(rest: &mut Cursor<'_>) -> Result<u32, RecordFault>
    ensures reading { Parses result rest.new (uvarint_from rest.old) }
    ensures fault { IfErr result IsOfField }
{
    let left = rest.left();
    let Some(number) = rest.uvarint() else {
        if left < VARINT_MOST {
            return Err(RecordFault::Short);
        }
        return Err(RecordFault::Length);
    };
    Ok(number)
}

/// The length of a text, which may not be null.
#[tactic(auto, unfolding(crate::specs::Reading::length_from))]
fn read_length(rest: &mut Cursor<'_>, form: Form) -> Result<u32, RecordFault>
    ensures reading { Parses result rest.new (length_from form rest.old) }
    ensures fault { IfErr result IsOfField }
{
    match form {
        Form::Plain => {
            let Some(len) = rest.i16() else {
                return Err(RecordFault::Short);
            };
            if len < 0 {
                return Err(RecordFault::Length);
            }
            Ok(len as u32)
        }
        Form::Flexible => {
            let len = read_unsigned(rest)?;
            if len == 0 {
                return Err(RecordFault::Length);
            }
            Ok(len - 1)
        }
    }
}

/// The count of a list, `None` where it is null. It takes no memory.
///
/// # Errors
/// Short where the bytes run out, Length where the count is below -1 or a varint of more than five bytes. After a fault nothing is
/// said of what is left.
#[tactic(auto, unfolding(crate::specs::Reading::count_from))]
pub fn read_count(rest: &mut Cursor<'_>, form: Form) -> Result<Option<u32>, RecordFault>
    ensures { Parses result rest.new (count_from form rest.old) }
{
    match form {
        Form::Plain => {
            let Some(count) = rest.i32() else {
                return Err(RecordFault::Short);
            };
            if count == -1 {
                return Ok(None);
            }
            if count < 0 {
                return Err(RecordFault::Length);
            }
            Ok(Some(count as u32))
        }
        Form::Flexible => {
            let count = read_unsigned(rest)?;
            if count == 0 {
                return Ok(None);
            }
            Ok(Some(count - 1))
        }
    }
}

/// A text, as a part of the input. It takes no memory.
///
/// # Errors
/// Short where the bytes run out, Length where its length is below 0, null, or a varint of more than five bytes. After a fault
/// nothing is said of what is left.
#[tactic(auto, unfolding(crate::specs::Reading::string_from))]
pub fn read_text<'a>(rest: &mut Cursor<'a>, form: Form) -> Result<Cursor<'a>, RecordFault>
    ensures reading { Parses result rest.new (string_from form rest.old) }
    ensures fault { IfErr result IsOfField }
{
    let len = read_length(rest, form)?;
    rest.take(len as usize).ok_or(RecordFault::Short)
}

/// Passes over a tagged field: its tag, its size and its content.
#[tactic(auto, unfolding(crate::specs::Reading::tagged_from))]
fn skip_tagged(rest: &mut Cursor<'_>) -> Result<(), RecordFault>
    ensures { Parses result rest.new (skipped (tagged_from rest.old)) }
{
    let _tag = read_unsigned(rest)?;
    let size = read_unsigned(rest)?;
    match rest.take(size as usize) {
        Some(_) => Ok(()),
        None => Err(RecordFault::Short),
    }
}

fn skip_many_tagged(rest: &mut Cursor<'_>, count: u32) -> Result<(), RecordFault>
    ensures { Parses result rest.new (skipped (many_from tagged_from count rest.old)) }
{
    for _ in 0..count {
        skip_tagged(rest)?;
    }
    Ok(())
}

/// Passes over a section of tagged fields, which only the flexible form has.
///
/// # Errors
/// Short where the bytes run out, Length where a number is a varint of more than five bytes. After a fault nothing is said of what
/// is left.
#[tactic(auto, unfolding(crate::specs::Reading::section_from))]
pub fn skip_section(rest: &mut Cursor<'_>, form: Form) -> Result<(), RecordFault>
    ensures { Parses result rest.new (section_from form rest.old) }
{
    match form {
        Form::Plain => Ok(()),
        Form::Flexible => {
            let count = read_unsigned(rest)?;
            skip_many_tagged(rest, count)
        }
    }
}
