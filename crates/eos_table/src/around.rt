//! A value of the transaction log in two: the fields around its partitions, and their text.

ghost use Rattle.std.specs.Prelude.{◌≡◌, ◌+◌, true, length, IfSome};
ghost use Rattle.eos_wire.specs.FieldWriting.{section_text};
ghost use Rattle.eos_wire.specs.Texts.{IsSectionText};
ghost use Rattle.eos_txnlog.specs.declared.value.TxnValue.{TxnValue as TxnValueOf};
ghost use Rattle.eos_txnlog.specs.Writing.{value_text, partitions_text};
ghost use Rattle.eos_table.specs.steps.Known.{version_of, section_in, IsAround};

use crate::section::Section;
use eos_base::Listed;
use eos_txnlog::{Status, TxnValue};
use eos_wire::{Fields, Form, are_bytes};
use std::alloc::Global;

/// The fields around the partitions, and the text of these.
#[derive(Drop)]
pub(crate) struct Around<'a> {
    pub form: Form,
    /// Where the partitions have to stand. It isn't looked into.
    pub text: &'a [u8],
    /// The value without its partitions.
    pub bare: TxnValue,
}

/// The version that is written in a form.
pub(crate) fn version_of(form: Form) -> i16
    ensures { result ≡ version_of form }
{
    match form {
        Form::Plain => 0,
        Form::Flexible => 1,
    }
}

fn form_of(version: i16) -> Option<Form>
    ensures { IfSome result (λ form. version_of form ≡ version) }
{
    match version {
        0 => Some(Form::Plain),
        1 => Some(Form::Flexible),
        _ => None,
    }
}

pub(crate) fn is_same(a: Form, b: Form) -> bool
    ensures { result ≡ true → a ≡ b }
{
    matches!(
        (a, b),
        (Form::Plain, Form::Plain) | (Form::Flexible, Form::Flexible)
    )
}

/// The form of a value, by its version.
pub(crate) fn form_in(value: &[u8]) -> Option<Form> {
    let version = Fields::new(value).i16()?;
    form_of(version)
}

/// The bytes of a value's section, where this is the one of the flexible form.
fn section_in<'a>(form: Form, section: &'a Section) -> &'a [u8]
    ensures value { result.now ≡ section_in form section.now }
    ensures tagged { IsSectionText form result.now }
{
    match form {
        Form::Plain => b"".as_slice(),
        Form::Flexible => section.as_slice(),
    }
}

/// How many bytes stand before the partitions.
pub(crate) const HEAD: usize = 17;

/// How many bytes two times take, behind them.
pub(crate) const TIMES: usize = 16;

/// How many bytes stand behind the partitions, where the section has no field.
#[tactic(auto, unfolding(eos_wire::specs::Writing::uvarint_of, eos_wire::specs::Writing::groups_of))]
fn tail_len(form: Form) -> usize
    ensures { result ≡ 16 + length (section_text form) }
{
    match form {
        Form::Plain => TIMES,
        Form::Flexible => TIMES + 1,
    }
}

/// The text of the partitions in what is written of a value in this form, which ends in a section without a field.
pub(crate) fn set_text(form: Form, written: &[u8]) -> &[u8]
    ensures { (value : TxnValueOf) → written.now ≡ value_text (version_of form) form value → result.now ≡ partitions_text form value.partitions }
{
    let end = written.len().saturating_sub(tail_len(form));
    &written[HEAD.min(end)..end]
}

/// The fields of a value and the text of its partitions, where in the flexible form it ends in this section. None says nothing.
pub(crate) fn fields_around<'a>(
    alloc: Global,
    value: &'a [u8],
    section: &Section,
) -> Option<Around<'a>>
    ensures { IfSome result (λ found. IsAround found.form value.now found.text.now (section_in found.form section.now) found.bare) }
{
    are_bytes(value);
    let mut fields = Fields::new(value);
    let (Some(version), Some(producer), Some(epoch), Some(timeout), Some(number)) = (
        fields.i16(),
        fields.i64(),
        fields.i16(),
        fields.i32(),
        fields.i8(),
    ) else {
        return None;
    };
    let (Some(form), Some(status)) = (form_of(version), Status::from_number(number)) else {
        return None;
    };
    let end = section_in(form, section);
    let len = fields.left().saturating_sub(TIMES + end.len());
    let (Some(text), Some(last_update), Some(start)) = (
        fields.take(len),
        fields.i64(),
        fields.i64(),
    ) else {
        return None;
    };
    let rest = fields.take(fields.left())?;
    if rest != end {
        return None;
    }
    let bare = TxnValue {
        producer,
        epoch,
        timeout,
        status,
        partitions: Listed::new(Vec::new(alloc)),
        last_update,
        start,
    };
    Some(Around { form, text, bare })
}
