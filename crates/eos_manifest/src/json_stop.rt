//! Where bytes stop being a JSON text.

use crate::words::Words;
use eos_evidence::SpecFault;
use serde_json::{Error, Value};
use std::alloc::Global;
use std::str;

/// How deep a JSON text may nest.
const MAX_DEPTH: usize = 127;

/// The JSON value of bytes. Where they are no JSON text, the words say why, and at which byte, counted from 0.
pub(crate) fn parse(
    alloc: Global,
    words: &mut Words<'_>,
    bytes: &[u8],
) -> Result<Value, SpecFault> {
    let text = match str::from_utf8(bytes) {
        Ok(text) => text,
        Err(e) => {
            add_byte(
                words,
                "the bytes stop being UTF-8 at byte ",
                e.valid_up_to(),
            );
            return Err(SpecFault::Json);
        }
    };
    match Value::from_str(alloc, text) {
        Ok(value) => Ok(value),
        Err(e) if e.is_memory() => Err(SpecFault::OutOfMemory),
        Err(e) => {
            add_stop(words, bytes, &e);
            Err(SpecFault::Json)
        }
    }
}

/// Adds where a text stops being JSON.
fn add_stop(words: &mut Words<'_>, bytes: &[u8], e: &Error) {
    if e.is_eof() {
        add_byte(words, "the text ends too early, at byte ", bytes.len());
        return;
    }
    let byte = byte_of(bytes, e.line(), e.column());
    match deep_at(bytes, byte) {
        Some(deep) => {
            words.add_value("the text nests deeper than ", &MAX_DEPTH);
            add_byte(words, " at byte ", deep);
        }
        None => add_byte(words, "the text stops being JSON at byte ", byte),
    }
}

/// Adds at which byte it is.
fn add_byte(words: &mut Words<'_>, label: &str, byte: usize) {
    words.point_at_byte(byte);
    words.add_value(label, &byte);
}

/// The byte at a line and a column, both counted from 1.
fn byte_of(bytes: &[u8], line: usize, column: usize) -> usize {
    let mut line = line;
    let mut start = 0usize;
    for (at, byte) in bytes.iter().enumerate() {
        if line > 1 && *byte == b'\n' {
            line -= 1;
            start = at.saturating_add(1);
        }
    }
    start.saturating_add(column).saturating_sub(1)
}

/// The bracket, at most this byte, with which a text nests too deep that is JSON until there.
fn deep_at(bytes: &[u8], last: usize) -> Option<usize> {
    let mut depth = 0usize;
    let mut in_text = false;
    let mut is_escaped = false;
    for (at, byte) in bytes.iter().enumerate() {
        if at > last {
            break;
        }
        if in_text {
            in_text = is_escaped || *byte != b'"';
            is_escaped = !is_escaped && *byte == b'\\';
        } else {
            in_text = *byte == b'"';
            depth = depth_after(depth, *byte);
            if depth > MAX_DEPTH {
                return Some(at);
            }
        }
    }
    None
}

fn depth_after(depth: usize, byte: u8) -> usize {
    match byte {
        b'[' | b'{' => depth.saturating_add(1),
        b']' | b'}' => depth.saturating_sub(1),
        _ => depth,
    }
}
