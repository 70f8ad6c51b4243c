//! The line of a verdict as JSON, and those of all faults: what the text has, and of a fault the fields that a report has of it.

ghost use Rattle.std.specs.Prelude.{◌≡◌, ◌++◌, codes, IfOk, OnOk, string_bytes};
ghost use Rattle.std.specs.List.{flat_map};
ghost use Rattle.serde_json.specs.Data.{put as with_member, string};
ghost use Rattle.serde_json.specs.View.{view};
ghost use Rattle.serde_json.specs.Written.{compact_text};
ghost use Rattle.eos_text.specs.Adding.{Adds};
ghost use Rattle.eos_verdict.specs.FaultTexts.{fault_text};
ghost use Rattle.eos_report.specs.Lines.{line_value, json_line, fault_json_line, count_value, list_json};
ghost use Rattle.eos_report.specs.FaultValues.{fault_value};
ghost use Rattle.eos_manifest.specs.Objects.{held};

use crate::json_fault::value_of_fault;
use crate::verdict_json;
use eos_manifest::Object;
use eos_text::push_text;
use eos_verdict::{Fault, Verdict, text_of_fault};
use serde_json::Value;
use std::alloc::{AllocError, Global};

/// The JSON line of a verdict, with its line feed: its object, and of a no beside the text of the fault the fields of it.
///
/// # Errors
/// A growth of memory was refused.
pub fn json_line(alloc: Global, verdict: &Verdict) -> Result<String, AllocError>
    ensures { IfOk result (λ line. string_bytes line ≡ json_line verdict.now) }
{
    let value = value_of_line(alloc, verdict)?;
    let line = value.to_string(alloc);
    drop(value);
    let mut line = line?;
    line.push_str("\n")?;
    Ok(line)
}

fn value_of_line(alloc: Global, verdict: &Verdict) -> Result<Value, AllocError>
    ensures { IfOk result (λ value. view value ≡ line_value verdict.now) }
{
    match verdict {
        Verdict::Yes(_) => verdict_json(alloc, verdict),
        Verdict::No(fault) => value_of_no(alloc, fault),
    }
}

fn value_of_no(alloc: Global, fault: &Fault) -> Result<Value, AllocError>
    ensures { IfOk result (λ value. view value ≡ line_value (Verdict.No fault.now)) }
{
    let mut made = Object::new(alloc);
    put_no(alloc, &mut made, fault)?;
    Ok(made.into_value())
}

/// Puts in what the object of a verdict has that names this fault, and the fields of the fault.
fn put_no(alloc: Global, out: &mut Object, fault: &Fault) -> Result<(), AllocError>
    ensures { OnOk result (held out.new ≡ with_member (codes "fields") (fault_value fault.now) (with_member (codes "answer") (string (codes "no")) (with_member (codes "fault") (string (fault_text fault.now)) (held out.old)))) }
{
    let text = text_of_fault(alloc, fault)?;
    out.put("fault", Value::String(text))?;
    out.put_str("answer", "no")?;
    let fields = value_of_fault(alloc, fault)?;
    out.put("fields", fields)
}

/// For each fault the JSON line of the verdict that names it, and then the line `{"faults":N}`, each after the words on which folder
/// it is about.
///
/// # Errors
/// A growth of memory was refused.
pub fn fault_list_json(alloc: Global, about: &str, faults: &[Fault]) -> Result<String, AllocError>
    ensures { IfOk result (λ text. string_bytes text ≡ list_json about.now faults.now) }
{
    let mut text = String::new(alloc);
    push_json_lines(alloc, &mut text, about, faults)?;
    let count = text_of_count(alloc, faults.len())?;
    push_text(&mut text, about)?;
    push_text(&mut text, count.as_str())?;
    push_text(&mut text, "\n")?;
    Ok(text)
}

fn push_json_lines(
    alloc: Global,
    out: &mut String,
    about: &str,
    faults: &[Fault],
) -> Result<(), AllocError>
    ensures { OnOk result (Adds (string_bytes out.old) (string_bytes out.new) (flat_map (fault_json_line about.now) faults.now)) }
{
    for fault in faults {
        push_json_line(alloc, out, about, fault)?;
    }
    Ok(())
}

fn push_json_line(
    alloc: Global,
    out: &mut String,
    about: &str,
    fault: &Fault,
) -> Result<(), AllocError>
    ensures { OnOk result (Adds (string_bytes out.old) (string_bytes out.new) (fault_json_line about.now fault.now)) }
{
    let object = text_of_no(alloc, fault)?;
    push_text(out, about)?;
    push_text(out, object.as_str())?;
    push_text(out, "\n")
}

fn text_of_no(alloc: Global, fault: &Fault) -> Result<String, AllocError>
    ensures { IfOk result (λ text. string_bytes text ≡ compact_text (line_value (Verdict.No fault.now))) }
{
    let value = value_of_no(alloc, fault)?;
    let text = value.to_string(alloc);
    drop(value);
    text
}

fn text_of_count(alloc: Global, count: usize) -> Result<String, AllocError>
    ensures { IfOk result (λ text. string_bytes text ≡ compact_text (count_value count)) }
{
    let value = value_of_count(alloc, count)?;
    let text = value.to_string(alloc);
    drop(value);
    text
}

fn value_of_count(alloc: Global, count: usize) -> Result<Value, AllocError>
    ensures { IfOk result (λ value. view value ≡ count_value count) }
{
    let mut made = Object::new(alloc);
    made.put_size("faults", count)?;
    Ok(made.into_value())
}
