//! The lines of a story: each ends behind its twentieth part, and stands once.

ghost use Rattle.std.specs.Prelude.{◌≡◌, OnOk, length, filter, map, string_bytes};
ghost use Rattle.std.specs.List.{before_first};
ghost use Rattle.eos_text.specs.Adding.{Adds};
ghost use Rattle.eos_explaining.specs.Lines.{is_comma, commas, separator, terms_behind, terms_left, terms_text, is_end, is_said, with_line, joined};

use eos_text::{push_text, push_value};
use std::alloc::AllocError;

/// How many parts of a line are told.
const MOST_TERMS: usize = 20;

fn is_comma(byte: u8) -> bool
    ensures { result ≡ is_comma byte }
{
    byte == b','
}

fn commas(bytes: &[u8]) -> usize
    ensures { result ≡ length (filter is_comma bytes.now) }
{
    let mut count = 0;
    for byte in bytes {
        if is_comma(*byte) {
            count += 1;
        }
    }
    count
}

fn separator(left: usize) -> &'static str
    ensures { result.now ≡ separator left }
{
    if left == 0 { " " } else { "," }
}

/// How many parts of a line stand behind those that are told.
fn terms_behind(line: &str) -> usize
    ensures { result ≡ terms_behind line.now }
{
    commas(line.as_bytes()).saturating_sub(MOST_TERMS - 1)
}

fn push_terms_left(out: &mut String, line: &str) -> Result<(), AllocError>
    ensures { OnOk result (Adds (string_bytes out.old) (string_bytes out.new) (terms_left line.now)) }
{
    push_value(out, ".. and ", &terms_behind(line))?;
    push_text(out, " more")
}

/// Adds a line as far as its twentieth part, and how many more it has.
pub(crate) fn push_terms(out: &mut String, line: &str) -> Result<(), AllocError>
    ensures { OnOk result (Adds (string_bytes out.old) (string_bytes out.new) (terms_text line.now)) }
{
    let mut rest = line;
    let mut left = MOST_TERMS;
    while left > 0 {
        let Some((part, others)) = rest.split_once(',') else {
            push_text(out, rest)?;
            return Ok(());
        };
        left -= 1;
        push_text(out, part)?;
        push_text(out, separator(left))?;
        rest = others;
    }
    push_terms_left(out, line)?;
    Ok(())
}

fn is_said(said: &[String], line: &str) -> bool
    ensures { result ≡ is_said (map string_bytes said.now) line.now }
{
    for one in said {
        if one.as_str() == line {
            return true;
        }
    }
    false
}

/// Keeps a line that none before says.
pub(crate) fn add_line(said: &mut Vec<String>, line: String) -> Result<(), AllocError>
    ensures { OnOk result (map string_bytes said.new.items ≡ with_line (map string_bytes said.old.items) (string_bytes line)) }
{
    if is_said(said.as_slice(), line.as_str()) {
        return Ok(());
    }
    said.push(line)?;
    Ok(())
}

/// A line without its end.
pub(crate) fn front_of(line: &str) -> &str
    ensures { result.now ≡ before_first is_end line.now }
{
    match line.split_once('\n') {
        None => line,
        Some((front, _)) => front,
    }
}

/// Adds lines, one behind the other.
pub(crate) fn push_joined(out: &mut String, lines: &[String]) -> Result<(), AllocError>
    ensures { OnOk result (Adds (string_bytes out.old) (string_bytes out.new) (joined (map string_bytes lines.now))) }
{
    for line in lines {
        push_text(out, line.as_str())?;
    }
    Ok(())
}
