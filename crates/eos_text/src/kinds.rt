//! The list of all kinds.

ghost use Rattle.std.specs.Prelude.{◌≡◌, OnOk, string_bytes};
ghost use Rattle.eos_text.specs.Adding.{Adds};
ghost use Rattle.eos_text.specs.Kinds.{AddsKinds, kind_text, kinds_text, line_text, lines_text, phase_text, spaces, spaces_before};

use crate::page::Page;
use crate::phases::{of_decisions, of_outputs, of_partitions, of_records, of_transaction_log};
use crate::push_text;
use std::alloc::AllocError;

/// How many columns stand before a brief.
const COLUMN: usize = 24;

/// Adds the list of all kinds of faults, as the help of `check` has it: before each phase an empty line, and for each kind its
/// code, its name and its brief.
///
/// # Errors
/// A growth of memory was refused.
pub fn push_kinds(out: &mut String) -> Result<(), AllocError>
    ensures { OnOk result (AddsKinds (string_bytes out.old) (string_bytes out.new)) }
{
    push_phase(out, of_partitions())?;
    push_phase(out, of_transaction_log())?;
    push_phase(out, of_decisions())?;
    push_phase(out, of_records())?;
    push_phase(out, of_outputs())?;
    Ok(())
}

fn push_phase(out: &mut String, pages: &'static [Page]) -> Result<(), AllocError>
    ensures { OnOk result (Adds (string_bytes out.old) (string_bytes out.new) (phase_text pages.now)) }
{
    push_text(out, "\n")?;
    push_pages(out, pages)?;
    Ok(())
}

fn push_pages(out: &mut String, pages: &'static [Page]) -> Result<(), AllocError>
    ensures { OnOk result (Adds (string_bytes out.old) (string_bytes out.new) (kinds_text pages.now)) }
{
    for page in pages {
        push_kind(out, page)?;
    }
    Ok(())
}

fn push_kind(out: &mut String, page: &Page) -> Result<(), AllocError>
    ensures { OnOk result (Adds (string_bytes out.old) (string_bytes out.new) (kind_text page.now)) }
{
    push_text(out, "  ")?;
    push_text(out, page.code)?;
    push_text(out, " ")?;
    push_text(out, page.name)?;
    push_lines(out, spaces_before(page), page.brief)?;
    Ok(())
}

/// How many spaces stand before a page's brief.
fn spaces_before(page: &Page) -> usize
    ensures { result ≡ spaces_before page.now }
{
    (COLUMN - 3)
        .saturating_sub(page.code.len())
        .saturating_sub(page.name.len())
}

/// Lines, of which the first stands after so many spaces.
fn push_lines(out: &mut String, first: usize, lines: &[&str]) -> Result<(), AllocError>
    ensures { OnOk result (Adds (string_bytes out.old) (string_bytes out.new) (lines_text first lines.now)) }
{
    let mut before = first;
    for line in lines {
        push_line(out, before, line)?;
        before = COLUMN;
    }
    Ok(())
}

fn push_line(out: &mut String, before: usize, line: &str) -> Result<(), AllocError>
    ensures { OnOk result (Adds (string_bytes out.old) (string_bytes out.new) (line_text before line.now)) }
{
    push_spaces(out, before)?;
    push_text(out, line)?;
    push_text(out, "\n")?;
    Ok(())
}

fn push_spaces(out: &mut String, count: usize) -> Result<(), AllocError>
    ensures { OnOk result (Adds (string_bytes out.old) (string_bytes out.new) (spaces count)) }
{
    for _ in 0..count {
        push_text(out, " ")?;
    }
    Ok(())
}
