//! Keys and values that are read where they stand. Nothing is shared or copied, and no memory is taken.

ghost use Rattle.std.specs.Prelude.{◌≡◌, IfErr};
ghost use Rattle.eos_wire.specs.declared.form.Form.TheVariants.{Plain};
ghost use Rattle.eos_wire.specs.Reading.{string_from};
ghost use Rattle.eos_offsets.specs.Reading.{IsOfBytes, key_fields_of, read_key, read_value};
ghost use Rattle.eos_offsets.specs.Views.{LendsAnyKey};
ghost use Rattle.eos_offsets.specs.steps.Views.{Lends, LendsKey};

use crate::value::read_value;
use eos_base::RecordFault;
use eos_wire::Fields;

/// A group and a partition that it reads, with lent texts.
#[derive(Clone, Copy)]
pub struct KeyRef<'a> {
    pub group: &'a [u8],
    pub topic: &'a [u8],
    pub partition: i32,
}

/// A STRING, as a part of the input.
#[tactic(auto, unfolding(eos_wire::specs::Reading::string_from, eos_wire::specs::Reading::length_from))]
fn view_string<'a>(fields: &mut Fields<'a>) -> Result<&'a [u8], RecordFault>
    ensures reading { Lends result fields.new (string_from Plain fields.old) }
    ensures faults { IfErr result IsOfBytes }
{
    let len = fields.i16().ok_or(RecordFault::Short)?;
    if len < 0 {
        return Err(RecordFault::Length);
    }
    fields.take(len as usize).ok_or(RecordFault::Short)
}

/// Reads the fields after the version, which are all that is left.
#[tactic(auto, unfolding(crate::specs::Reading::key_fields_of))]
fn view_fields<'a>(mut fields: Fields<'a>) -> Result<KeyRef<'a>, RecordFault>
    ensures reading { LendsKey result (key_fields_of fields.entry) }
    ensures faults { IfErr result IsOfBytes }
{
    let group = view_string(&mut fields)?;
    let topic = view_string(&mut fields)?;
    let partition = fields.i32().ok_or(RecordFault::Short)?;
    if fields.left() > 0 {
        return Err(RecordFault::Trailing);
    }
    Ok(KeyRef {
        group,
        topic,
        partition,
    })
}

/// The group and the partition that a key names, or `None` for a key of another version than 0 and 1, which is of no
/// commit: what `decode_key` says, with lent texts.
///
/// # Errors
/// The first fault in field order, as `decode_key` has it.
#[tactic(auto, unfolding(crate::specs::Reading::read_key))]
pub fn view_key<'a>(bytes: &'a [u8]) -> Result<Option<KeyRef<'a>>, RecordFault>
    ensures answer { LendsAnyKey result (read_key bytes.now) }
    ensures faults { IfErr result IsOfBytes }
{
    let mut fields = Fields::new(bytes);
    let version = fields.i16().ok_or(RecordFault::Short)?;
    if version != 0 && version != 1 {
        return Ok(None);
    }
    Ok(Some(view_fields(fields)?))
}

/// The offset that a value commits: what `decode_value` says.
///
/// # Errors
/// The first fault in field order, as `decode_value` has it.
pub fn view_value(bytes: &[u8]) -> Result<i64, RecordFault>
    ensures answer { result ≡ read_value bytes.now }
    ensures faults { IfErr result IsOfBytes }
{
    read_value(Fields::new(bytes))
}
