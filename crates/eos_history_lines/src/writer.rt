//! The texts of lines.

ghost use Rattle.std.specs.Prelude.{◌≡◌, ◌≤◌, ◌++◌, false, Some, IfOk, codes, string_bytes};
ghost use Rattle.serde_json.specs.Data.{depth, object};
ghost use Rattle.serde_json.specs.Read.{read as read_text, max_depth};
ghost use Rattle.serde_json.specs.Written.{has_float, compact_text, outline};
ghost use Rattle.json.specs.Strict.{HasUniqueKeys};
ghost use Rattle.eos_history_lines.specs.Lines.{head_value, line_value, tail_value};
ghost use Rattle.eos_history_lines.specs.Names.{NamesOnce};
ghost use Rattle.eos_manifest.specs.Objects.{held};

use crate::line::{Head, Line, Tail};
use crate::values::{put_head, put_line, put_tail};
use eos_manifest::Object;
use std::alloc::{AllocError, Global};

/// The first line of a history, with its line feed. It reads back as its value, and names each member once.
///
/// # Errors
/// Only want of memory.
pub fn head_text(alloc: Global, head: &Head) -> Result<String, AllocError>
    ensures says { IfOk result (λ text. string_bytes text ≡ compact_text (head_value head.now) ++ codes "\n") }
    ensures reads { IfOk result (λ text. read_text (compact_text (head_value head.now)) ≡ Some (head_value head.now)) }
    ensures once { IfOk result (λ text. NamesOnce (compact_text (head_value head.now))) }
{
    let mut made = Object::new(alloc);
    put_head(alloc, &mut made, head)?;
    text_of(alloc, made)
}

/// A line of what was done, with its line feed. It reads back as its value, and names each member once.
///
/// # Errors
/// Only want of memory.
pub fn line_text(alloc: Global, line: &Line) -> Result<String, AllocError>
    ensures says { IfOk result (λ text. string_bytes text ≡ compact_text (line_value line.now) ++ codes "\n") }
    ensures reads { IfOk result (λ text. read_text (compact_text (line_value line.now)) ≡ Some (line_value line.now)) }
    ensures once { IfOk result (λ text. NamesOnce (compact_text (line_value line.now))) }
{
    let mut made = Object::new(alloc);
    put_line(alloc, &mut made, line)?;
    text_of(alloc, made)
}

/// The last line of a history, with its line feed. It reads back as its value, and names each member once.
///
/// # Errors
/// Only want of memory.
pub fn tail_text(alloc: Global, tail: &Tail) -> Result<String, AllocError>
    ensures says { IfOk result (λ text. string_bytes text ≡ compact_text (tail_value tail.now) ++ codes "\n") }
    ensures reads { IfOk result (λ text. read_text (compact_text (tail_value tail.now)) ≡ Some (tail_value tail.now)) }
    ensures once { IfOk result (λ text. NamesOnce (compact_text (tail_value tail.now))) }
{
    let mut made = Object::new(alloc);
    put_tail(&mut made, tail)?;
    text_of(alloc, made)
}

/// An object on one line.
fn text_of(alloc: Global, made: Object) -> Result<String, AllocError>
    requires plain { has_float (object (held made)) ≡ false }
    requires shallow { depth (object (held made)) ≤ max_depth }
    ensures says { IfOk result (λ text. string_bytes text ≡ compact_text (object (held made)) ++ codes "\n") }
    ensures reads { IfOk result (λ text. read_text (compact_text (object (held made))) ≡ Some (object (held made))) }
    ensures once { IfOk result (λ text. HasUniqueKeys (outline (object (held made))) → NamesOnce (compact_text (object (held made)))) }
{
    let value = made.into_value();
    let said = value.to_string(alloc);
    drop(value);
    let mut text = said?;
    text.push_str("\n")?;
    Ok(text)
}
