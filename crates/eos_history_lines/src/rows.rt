//! Lines read from their texts.

ghost use Rattle.std.specs.Prelude.{◌≡◌, ◌≢◌, ◌≤◌, ◌++◌, true, false, Err, Some, None, IfOk, IfErr, IfSome, IsUtf8, codes, string_bytes};
ghost use Rattle.serde_json.specs.Data.{depth};
ghost use Rattle.serde_json.specs.Read.{read as read_text, max_depth};
ghost use Rattle.serde_json.specs.View.{view};
ghost use Rattle.serde_json.specs.Written.{compact_text};
ghost use Rattle.eos_history_lines.specs.Lines.{head_value, row_value};
ghost use Rattle.eos_history_lines.specs.Files.{SaysHead, SaysRow};
ghost use Rattle.eos_history_lines.specs.Fits.{FitsRow};
ghost use Rattle.eos_history_lines.specs.steps.Reading.{row_in};
ghost use Rattle.eos_history_lines.specs.declared.fault.LineFault.TheVariants.{NotJson, OutOfMemory};
ghost use Rattle.eos_history_lines.specs.declared.line.Head.{Head};
ghost use Rattle.eos_history_lines.specs.declared.line.Row.{Row};

use crate::fault::LineFault;
use crate::line::{Head, Row};
use crate::mistake::Mistake;
use crate::names::look_for_doubles;
use crate::reader::{read_head, read_line, read_tail};
use crate::same::is_same;
use crate::search::{look_at_head, look_at_row};
use crate::writer::{head_text, line_text, tail_text};
use serde_json::Value;
use std::alloc::{AllocError, Global};

/// The first line of a history, whatever the order of its members.
///
/// # Errors
/// `NotJson` where it is no JSON text; `Mistaken` where it has another value than a first line has, or a member twice; `OutOfMemory`.
pub fn head_of(alloc: Global, text: &[u8]) -> Result<Head, LineFault>
    ensures ok { IfOk result (SaysHead text.now) }
    ensures json { result ≡ Err NotJson → IsUtf8 text.now → read_text text.now ≡ None }
    ensures err { IfErr result (λ e. e ≢ OutOfMemory → IsUtf8 text.now → (head : Head) → ¬ SaysHead text.now head) }
{
    let value = match parse(alloc, text) {
        Ok(value) => value,
        Err(fault) => return Err(fault),
    };
    match exact_head(alloc, &value) {
        Ok(exact) => match exact {
            Some(head) => {
                drop(value);
                match look_for_doubles(alloc, text) {
                    Ok(()) => Ok(head),
                    Err(fault) => Err(fault),
                }
            }
            None => {
                let mistake = found(look_at_head(&value));
                drop(value);
                Err(LineFault::Mistaken(mistake))
            }
        },
        Err(_) => {
            drop(value);
            Err(LineFault::OutOfMemory)
        }
    }
}

/// A line of a history after its first, whatever the order of its members. One whose topics aren't UTF-8 may be refused.
///
/// # Errors
/// `NotJson` where it is no JSON text; `Mistaken` where it has another value than such a line has, or a member twice; `OutOfMemory`.
pub fn row_of(alloc: Global, text: &[u8]) -> Result<Row, LineFault>
    ensures ok { IfOk result (SaysRow text.now) }
    ensures json { result ≡ Err NotJson → IsUtf8 text.now → read_text text.now ≡ None }
    ensures err { IfErr result (λ e. e ≢ OutOfMemory → IsUtf8 text.now → (row : Row) → FitsRow row → ¬ SaysRow text.now row) }
{
    let value = match parse(alloc, text) {
        Ok(value) => value,
        Err(fault) => return Err(fault),
    };
    match exact_row(alloc, &value) {
        Ok(exact) => match exact {
            Some(row) => {
                drop(value);
                match look_for_doubles(alloc, text) {
                    Ok(()) => Ok(row),
                    Err(fault) => {
                        drop(row);
                        Err(fault)
                    }
                }
            }
            None => {
                let mistake = found(look_at_row(&value));
                drop(value);
                Err(LineFault::Mistaken(mistake))
            }
        },
        Err(_) => {
            drop(value);
            Err(LineFault::OutOfMemory)
        }
    }
}

/// The JSON value of a text.
fn parse(alloc: Global, text: &[u8]) -> Result<Value, LineFault>
    ensures ok { IfOk result (λ value. read_text text.now ≡ Some (view value)) }
    ensures shallow { IfOk result (λ value. depth (view value) ≤ max_depth) }
    ensures json { result ≡ Err NotJson → IsUtf8 text.now → read_text text.now ≡ None }
    ensures err { IfErr result (λ e. e ≢ OutOfMemory → IsUtf8 text.now → read_text text.now ≡ None) }
{
    match Value::from_slice(alloc, text) {
        Ok(value) => Ok(value),
        Err(error) => {
            let refused = error.is_memory();
            drop(error);
            if refused {
                Err(LineFault::OutOfMemory)
            } else {
                Err(LineFault::NotJson)
            }
        }
    }
}

/// The first line whose value this is, if there is one.
fn exact_head(alloc: Global, value: &Value) -> Result<Option<Head>, AllocError>
    requires { depth (view value.now) ≤ max_depth }
    ensures some { IfOk result (λ head. IfSome head (λ h. view value.now ≡ head_value h)) }
    ensures none { IfOk result (λ head. head ≡ None → (h : Head) → view value.now ≢ head_value h) }
{
    let Some(head) = read_head(value) else {
        return Ok(None);
    };
    let written = head_text(alloc, &head)?;
    let same = is_same(alloc, value, &written)?;
    if same { Ok(Some(head)) } else { Ok(None) }
}

/// The line after the first whose value this is, if there is one.
fn exact_row(alloc: Global, value: &Value) -> Result<Option<Row>, AllocError>
    requires { depth (view value.now) ≤ max_depth }
    ensures some { IfOk result (λ row. IfSome row (λ r. view value.now ≡ row_value r)) }
    ensures none { IfOk result (λ row. row ≡ None → (r : Row) → FitsRow r → view value.now ≢ row_value r) }
{
    let found = read_row(alloc, value)?;
    match found {
        Some(row) => match is_row(alloc, value, &row) {
            Ok(same) => {
                if same {
                    Ok(Some(row))
                } else {
                    drop(row);
                    Ok(None)
                }
            }
            Err(refused) => {
                drop(row);
                Err(refused)
            }
        },
        None => Ok(None),
    }
}

/// Whether a value is that of a line after the first.
fn is_row(alloc: Global, value: &Value, row: &Row) -> Result<bool, AllocError>
    requires { depth (view value.now) ≤ max_depth }
    ensures same { IfOk result (λ same. same ≡ true → view value.now ≡ row_value row.now) }
    ensures differ { IfOk result (λ same. same ≡ false → view value.now ≢ row_value row.now) }
{
    let written = row_text(alloc, row)?;
    is_same(alloc, value, &written)
}

/// A line after the first, as it is written.
fn row_text(alloc: Global, row: &Row) -> Result<String, AllocError>
    ensures says { IfOk result (λ text. string_bytes text ≡ compact_text (row_value row.now) ++ codes "\n") }
    ensures reads { IfOk result (λ text. read_text (compact_text (row_value row.now)) ≡ Some (row_value row.now)) }
{
    match row {
        Row::Line(line) => line_text(alloc, line),
        Row::Tail(tail) => tail_text(alloc, tail),
    }
}

fn read_row(alloc: Global, value: &Value) -> Result<Option<Row>, AllocError>
    ensures { IfOk result (λ row. row ≡ row_in (view value.now)) }
{
    match value.get("events") {
        Some(_) => match read_tail(value) {
            Some(tail) => Ok(Some(Row::Tail(tail))),
            None => Ok(None),
        },
        None => match read_line(alloc, value)? {
            Some(line) => Ok(Some(Row::Line(line))),
            None => Ok(None),
        },
    }
}

/// The mistake that was found, or else that a member is there which such a line hasn't.
fn found(looked: Result<(), Mistake>) -> Mistake {
    match looked {
        Ok(()) => Mistake::Surplus,
        Err(mistake) => mistake,
    }
}
