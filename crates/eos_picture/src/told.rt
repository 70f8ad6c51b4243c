//! What is told of a mark where a pointer rests on it: where it stands, what it is, of which transaction, and when it was written.

ghost use Rattle.std.specs.Prelude.{◌≡◌, ◌++◌, false, codes, IfOk, OnOk, string_bytes};
ghost use Rattle.std.specs.Option.{option_copied};
ghost use Rattle.eos_text.specs.Adding.{Adds};
ghost use Rattle.eos_picture.specs.Titles.{offset_text, place_text, kind_words, fate_words, passed_text, times_text, commit_text, sign_text, decided_text, column_text, time_at, when_text, fault_text, title_of};

use crate::cells::offset_of;
use crate::labels::push_passed;
use crate::{Column, Decided, Mark, Sign};
use eos_base::PartitionName;
use eos_batch::Kind;
use eos_fold::Fate;
use eos_sought::push_time;
use eos_text::{push_escaped, push_text, push_value};
use std::alloc::{AllocError, Global};

/// A mark, the partition that it stands in, the transaction that it is of, and when its record was written.
#[derive(Clone, Copy)]
pub(crate) struct Marked<'a> {
    pub name: &'a PartitionName,
    pub mark: &'a Mark,
    pub column: Option<&'a Column>,
    pub time: Option<i64>,
}

/// Of these times that at this offset, if it has one.
pub(crate) fn time_at(times: &[(u64, i64)], offset: Option<u64>) -> Option<i64>
    ensures { result ≡ time_at times.now offset }
{
    let offset = offset?;
    for time in times {
        if time.0 == offset {
            return Some(time.1);
        }
    }
    None
}

fn fate_words(fate: Fate, is_open: bool) -> &'static str
    ensures { result.now ≡ fate_words fate is_open }
{
    match (fate, is_open) {
        (Fate::Plain, _) => "of no transaction",
        (Fate::Committed, false) => "committed",
        (Fate::Aborted, false) => "aborted",
        (Fate::Waiting(_), _) => "open: no end marker follows",
        (Fate::Committed, true) =>
            "open: its own end marker is missing (a later one commits it for readers)",
        (Fate::Aborted, true) =>
            "open: its own end marker is missing (a later one aborts it for readers)",
    }
}

fn kind_words(kind: Kind) -> &'static str
    ensures { result.now ≡ kind_words kind }
{
    match kind {
        Kind::Commit => "COMMIT",
        Kind::Abort => "ABORT",
    }
}

fn push_offset(out: &mut String, offset: Option<u64>) -> Result<(), AllocError>
    ensures { OnOk result (Adds (string_bytes out.old) (string_bytes out.new) (offset_text offset)) }
{
    match offset {
        None => push_text(out, " "),
        Some(offset) => write!(out, ":{offset} "),
    }
}

/// The place, as verdicts print it.
fn push_place(
    alloc: Global,
    out: &mut String,
    name: &PartitionName,
    offset: Option<u64>,
) -> Result<(), AllocError>
    ensures { OnOk result (Adds (string_bytes out.old) (string_bytes out.new) (place_text name.now offset)) }
{
    push_escaped(alloc, out, "", name.topic.as_slice())?;
    push_value(out, "-", &name.partition)?;
    push_offset(out, offset)
}

fn push_commit(
    alloc: Global,
    out: &mut String,
    source: &PartitionName,
    committed: &i64,
    fate: &str,
) -> Result<(), AllocError>
    ensures { OnOk result (Adds (string_bytes out.old) (string_bytes out.new) (commit_text source.now committed.now ++ fate.now)) }
{
    push_escaped(alloc, out, "commit of ", source.topic.as_slice())?;
    push_value(out, "-", &source.partition)?;
    push_value(out, " at ", committed)?;
    push_text(out, ", ")?;
    push_text(out, fate)
}

fn push_count(out: &mut String, count: u64) -> Result<(), AllocError>
    ensures { OnOk result (Adds (string_bytes out.old) (string_bytes out.new) (times_text count)) }
{
    if count <= 1 {
        return push_text(out, "");
    }
    write!(out, ", {count} times")
}

fn push_marker(out: &mut String, kind: Kind, count: u64) -> Result<(), AllocError>
    ensures { OnOk result (Adds (string_bytes out.old) (string_bytes out.new) ((codes "end marker " ++ kind_words kind) ++ times_text count)) }
{
    push_value(out, "end marker ", &kind_words(kind))?;
    push_count(out, count)
}

fn push_inputs(out: &mut String, fate: Fate, from: &i64, to: &i64) -> Result<(), AllocError>
    ensures { OnOk result (Adds (string_bytes out.old) (string_bytes out.new) (codes "inputs passed by its commit: " ++ (passed_text from.now to.now ++ (codes ", " ++ fate_words fate false)))) }
{
    push_text(out, "inputs passed by its commit: ")?;
    push_passed(out, from, to)?;
    push_value(out, ", ", &fate_words(fate, false))
}

fn push_sign(alloc: Global, out: &mut String, sign: &Sign, is_open: bool) -> Result<(), AllocError>
    ensures { OnOk result (Adds (string_bytes out.old) (string_bytes out.new) (sign_text sign.now is_open)) }
{
    match sign {
        Sign::Decision { kind, .. } => push_value(out, "Prepare record: ", &kind_words(*kind)),
        Sign::Record { fate, .. } => push_value(out, "data record, ", &fate_words(*fate, is_open)),
        Sign::Commit {
            fate,
            source,
            committed,
            ..
        } => push_commit(alloc, out, source, committed, fate_words(*fate, is_open)),
        Sign::Passed { fate, from, to } => push_inputs(out, *fate, from, to),
        Sign::Marker { kind, count } => push_marker(out, *kind, *count),
        Sign::Missing(kind) => push_value(out, "missing: the end marker ", &kind_words(*kind)),
        Sign::Spot(_) => push_text(out, "what stands or is missing here"),
    }
}

fn push_decided(
    alloc: Global,
    out: &mut String,
    decided: &Option<Decided>,
) -> Result<(), AllocError>
    ensures { OnOk result (Adds (string_bytes out.old) (string_bytes out.new) (decided_text decided.now)) }
{
    match decided {
        None => push_text(out, ""),
        Some(decided) => push_escaped(alloc, out, " of ", decided.id.as_slice()),
    }
}

fn push_column(alloc: Global, out: &mut String, column: Option<&Column>) -> Result<(), AllocError>
    ensures { OnOk result (Adds (string_bytes out.old) (string_bytes out.new) (column_text (option_copied column.entry))) }
{
    let Some(column) = column else {
        return push_text(out, ", of none of these transactions");
    };
    push_value(out, ", pid ", &column.producer)?;
    push_value(out, " epoch ", &column.epoch)?;
    push_decided(alloc, out, &column.decided)?;
    Ok(())
}

fn push_when(out: &mut String, time: Option<i64>) -> Result<(), AllocError>
    ensures { OnOk result (Adds (string_bytes out.old) (string_bytes out.new) (when_text time)) }
{
    let Some(time) = time else {
        return push_text(out, "");
    };
    push_text(out, ", at ")?;
    push_time(out, time)
}

fn fault_words(is_of_fault: bool) -> &'static str
    ensures { result.now ≡ fault_text is_of_fault }
{
    if is_of_fault {
        "; a place of the fault"
    } else {
        ""
    }
}

fn push_told(
    alloc: Global,
    out: &mut String,
    marked: Marked<'_>,
    is_open: bool,
) -> Result<(), AllocError>
    ensures { OnOk result (Adds (string_bytes out.old) (string_bytes out.new) (title_of marked.entry.name.now (option_copied marked.entry.column) marked.entry.time is_open marked.entry.mark.now)) }
{
    let mark = marked.mark;
    push_place(alloc, out, marked.name, offset_of(mark))?;
    push_sign(alloc, out, &mark.sign, is_open)?;
    push_column(alloc, out, marked.column)?;
    push_when(out, marked.time)?;
    push_text(out, fault_words(mark.is_of_fault))
}

/// The words.
pub(crate) fn told_of(
    alloc: Global,
    marked: Marked<'_>,
    is_open: bool,
) -> Result<String, AllocError>
    ensures { IfOk result (λ text. string_bytes text ≡ title_of marked.entry.name.now (option_copied marked.entry.column) marked.entry.time is_open marked.entry.mark.now) }
{
    let mut out = String::new(alloc);
    push_told(alloc, &mut out, marked, is_open)?;
    Ok(out)
}
