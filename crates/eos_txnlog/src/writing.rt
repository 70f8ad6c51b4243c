//! A value, written as its bytes. The layout stands at the head of the module that reads them. What doesn't fit its length
//! field is refused before any memory is taken.
//!
//! The choices of the writer: numbers in their shortest spelling, an empty list by the count 0, no tagged fields.

ghost use Rattle.std.specs.Prelude.{◌≡◌, ◌+◌, ◌++◌, true, length, All, FitsSigned, flat_map, OnOk, IfOk, Ok};
ghost use Rattle.std.specs.Int.{w32};
ghost use Rattle.std.specs.List.{list_all};
ghost use Rattle.eos_wire.specs.Numbers.{i32_text};
ghost use Rattle.eos_wire.specs.Writing.{uvarint_of};
ghost use Rattle.eos_base.specs.Records.{Settles};
ghost use Rattle.eos_txnlog.specs.Text.{FitsHead, FitsTail, IsValueText};
ghost use Rattle.eos_txnlog.specs.steps.Text.{FitNumbers, IsInRange};
ghost use Rattle.eos_txnlog.specs.Reading.{read_value};
ghost use Rattle.eos_wire.specs.FieldWriting.{fits_length, length_text, fits_count, count_text, section_text, string_text};
ghost use Rattle.eos_txnlog.specs.Writing.{numbers_text, fits_topic, topic_text, partitions_text, fits_partitions, head_text, tail_text, body_text, value_text, write_value};

use crate::form::form_of;
use crate::partitions::TopicPartitions;
use crate::value::TxnValue;
use bytes::Bytes;
use eos_base::RecordFault;
use eos_wire::{
    Form, fits_count, fits_length, write_count, write_i8, write_i16, write_i32, write_i64,
    write_section, write_text,
};
use std::alloc::{AllocError, Global};

// ---- what fits its length field

fn fits_topic(form: Form, topic: &TopicPartitions) -> bool
    ensures { result ≡ fits_topic form topic.now }
{
    fits_length(form, topic.topic.len()) && fits_count(form, topic.numbers.len())
}

fn fit_topics(form: Form, topics: &[TopicPartitions]) -> bool
    ensures { result ≡ list_all (fits_topic form) topics.now }
{
    for topic in topics {
        if !fits_topic(form, topic) {
            return false;
        }
    }
    true
}

fn fits_partitions(form: Form, topics: &[TopicPartitions]) -> bool
    ensures { result ≡ fits_partitions form topics.now }
{
    fits_count(form, topics.len()) && fit_topics(form, topics)
}

// ---- what fits, written

/// Numbers, one after the other.
fn write_many_numbers(out: &mut Vec<u8>, numbers: &[i32]) -> Result<(), AllocError>
    ensures text { OnOk result (out.new.items ≡ out.old.items ++ flat_map i32_text numbers.now) }
    ensures fit { OnOk result (All (FitsSigned w32) numbers.now) }
{
    for number in numbers {
        write_i32(out, *number)?;
    }
    Ok(())
}

/// The numbers of a topic's partitions.
fn write_numbers(out: &mut Vec<u8>, form: Form, numbers: &[i32]) -> Result<(), AllocError>
    requires { fits_count form (length numbers.now) ≡ true }
    ensures text { OnOk result (out.new.items ≡ out.old.items ++ numbers_text form numbers.now) }
    ensures fit { OnOk result (All (FitsSigned w32) numbers.now) }
{
    write_count(out, form, numbers.len())?;
    write_many_numbers(out, numbers)
}

fn write_topic(out: &mut Vec<u8>, form: Form, topic: &TopicPartitions) -> Result<(), AllocError>
    requires { fits_topic form topic.now ≡ true }
    ensures text { OnOk result (out.new.items ≡ out.old.items ++ topic_text form topic.now) }
    ensures fit { OnOk result (FitNumbers topic.now) }
{
    write_text(out, form, &topic.topic)?;
    write_numbers(out, form, topic.numbers.as_slice())?;
    write_section(out, form)
}

/// Topics, one after the other.
fn write_many_topics(
    out: &mut Vec<u8>,
    form: Form,
    topics: &[TopicPartitions],
) -> Result<(), AllocError>
    requires { list_all (fits_topic form) topics.now ≡ true }
    ensures text { OnOk result (out.new.items ≡ out.old.items ++ flat_map (topic_text form) topics.now) }
    ensures fit { OnOk result (All FitNumbers topics.now) }
{
    for topic in topics {
        write_topic(out, form, topic)?;
    }
    Ok(())
}

fn write_partitions(
    out: &mut Vec<u8>,
    form: Form,
    topics: &[TopicPartitions],
) -> Result<(), AllocError>
    requires { fits_partitions form topics.now ≡ true }
    ensures text { OnOk result (out.new.items ≡ out.old.items ++ partitions_text form topics.now) }
    ensures fit { OnOk result (All FitNumbers topics.now) }
{
    write_count(out, form, topics.len())?;
    write_many_topics(out, form, topics)
}

/// The fields before the partitions.
fn write_head(out: &mut Vec<u8>, value: &TxnValue) -> Result<(), AllocError>
    ensures text { OnOk result (out.new.items ≡ out.old.items ++ head_text value.now) }
    ensures fit { OnOk result (FitsHead value.now) }
{
    write_i64(out, value.producer)?;
    write_i16(out, value.epoch)?;
    write_i32(out, value.timeout)?;
    write_i8(out, value.status.number())?;
    Ok(())
}

/// The fields after the partitions.
fn write_tail(out: &mut Vec<u8>, form: Form, value: &TxnValue) -> Result<(), AllocError>
    ensures text { OnOk result (out.new.items ≡ out.old.items ++ tail_text form value.now) }
    ensures fit { OnOk result (FitsTail value.now) }
{
    write_i64(out, value.last_update)?;
    write_i64(out, value.start)?;
    write_section(out, form)
}

/// The fields after the version.
fn write_body(out: &mut Vec<u8>, form: Form, value: &TxnValue) -> Result<(), AllocError>
    requires { fits_partitions form value.now.partitions ≡ true }
    ensures text { OnOk result (out.new.items ≡ out.old.items ++ body_text form value.now) }
    ensures fit { OnOk result (IsInRange value.now) }
{
    write_head(out, value)?;
    write_partitions(out, form, value.partitions.as_slice())?;
    write_tail(out, form, value)
}

/// A value whose texts and lists fit.
fn write_value(
    alloc: Global,
    value: &TxnValue,
    version: i16,
    form: Form,
) -> Result<Bytes, AllocError>
    requires { fits_partitions form value.now.partitions ≡ true }
    ensures text { IfOk result (λ bytes. bytes ≡ value_text version form value.now) }
    ensures fit { OnOk result (IsInRange value.now) }
{
    let mut out = Vec::new(alloc);
    write_i16(&mut out, version)?;
    write_body(&mut out, form, value)?;
    Ok(Bytes::from_vec(out)?)
}

/// Writes a value of the log in version 0 or 1.
///
/// # Errors
/// Version where the version is another, then Length where a text or list doesn't fit its length field. OutOfMemory comes
/// only after these.
#[tactic(auto, unfolding(crate::specs::Writing::write_value))]
pub fn encode_value(alloc: Global, value: &TxnValue, version: i16) -> Result<Bytes, RecordFault>
    ensures answer { Settles result (write_value version value.now) }
    ensures text { IfOk result (λ bytes. IsValueText bytes value.now) }
    ensures reads_back { IfOk result (λ bytes. read_value bytes ≡ Ok value.now) }
{
    let Some(form) = form_of(version) else {
        return Err(RecordFault::Version);
    };
    if !fits_partitions(form, value.partitions.as_slice()) {
        return Err(RecordFault::Length);
    }
    Ok(write_value(alloc, value, version, form)?)
}
