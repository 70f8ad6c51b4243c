//! A page, and how it is found.

ghost use Rattle.std.specs.Prelude.{◌≡◌, IfOk, OnOk, codes, string_bytes};
ghost use Rattle.std.specs.Option.{option_copied};
ghost use Rattle.eos_text.specs.Adding.{Adds};
ghost use Rattle.eos_text.specs.Catalogue.{IsPageOf};
ghost use Rattle.eos_text.specs.Pages.{title_text, section_text, sections_text, case_lines, cases_lines, cases_heading, cases_text, page_text};
ghost use Rattle.eos_text.specs.steps.Found.{page_in};

use crate::case::Case;
use crate::phases::{of_decisions, of_outputs, of_partitions, of_records, of_transaction_log};
use crate::push_text;
use std::alloc::{AllocError, Global};

/// What is known of a kind of fault. Texts are lines of at most 78 columns, without a last line's end.
#[derive(Clone, Copy)]
pub struct Page {
    /// Its phase, a dot, and its number in it, as a verdict's line has them.
    pub code: &'static str,
    /// Its name, as a verdict's line has it.
    pub name: &'static str,
    /// What its rows may show that the kind alone doesn't say: the first case that holds counts.
    pub cases: &'static [Case],
    /// The same in few words, as a list of all kinds has it: one line or two of at most 56 columns.
    pub brief: &'static [&'static str],
    /// What stands in the logs.
    pub says: &'static str,
    /// What follows from that, and what doesn't.
    pub means: &'static str,
    /// What makes it happen, the likeliest first.
    pub causes: &'static str,
    /// What to look at next.
    pub next: &'static str,
}

/// The first of these with this code.
fn page_in(pages: &'static [Page], code: &str) -> Option<&'static Page>
    ensures { option_copied result ≡ page_in pages.now code.now }
{
    for page in pages {
        if page.code == code {
            return Some(page);
        }
    }
    None
}

/// The page of the kind with this code, such as `5.10`; none where no kind has it.
pub fn page_of(code: &str) -> Option<&'static Page>
    ensures { IsPageOf code.now (option_copied result) }
{
    page_in(of_partitions(), code)
        .or(page_in(of_transaction_log(), code))
        .or(page_in(of_decisions(), code))
        .or(page_in(of_records(), code))
        .or(page_in(of_outputs(), code))
}

/// A page as it is printed.
///
/// # Errors
/// A growth of memory was refused.
pub fn page_text(alloc: Global, page: &Page) -> Result<String, AllocError>
    ensures { IfOk result (λ text. string_bytes text ≡ page_text page.now) }
{
    let mut out = String::new(alloc);
    push_title(&mut out, page)?;
    push_sections(&mut out, page)?;
    push_cases(&mut out, page.cases)?;
    Ok(out)
}

fn push_title(out: &mut String, page: &Page) -> Result<(), AllocError>
    ensures { OnOk result (Adds (string_bytes out.old) (string_bytes out.new) (title_text page.now)) }
{
    push_text(out, page.code)?;
    push_text(out, " ")?;
    push_text(out, page.name)?;
    push_text(out, "\n")?;
    Ok(())
}

fn push_sections(out: &mut String, page: &Page) -> Result<(), AllocError>
    ensures { OnOk result (Adds (string_bytes out.old) (string_bytes out.new) (sections_text page.now)) }
{
    push_section(out, "What it says", page.says)?;
    push_section(out, "What it means", page.means)?;
    push_section(
        out,
        "What makes it happen, the likeliest first",
        page.causes,
    )?;
    push_section(out, "What to look at", page.next)?;
    Ok(())
}

fn push_section(out: &mut String, heading: &str, lines: &str) -> Result<(), AllocError>
    ensures { OnOk result (Adds (string_bytes out.old) (string_bytes out.new) (section_text heading.now lines.now)) }
{
    push_text(out, "\n")?;
    push_text(out, heading)?;
    push_text(out, "\n")?;
    push_text(out, lines)?;
    push_text(out, "\n")?;
    Ok(())
}

/// The heading of what the rows of a story may show, if there is such.
fn cases_heading(cases: &[Case]) -> &'static str
    ensures { result.now ≡ cases_heading cases.now }
{
    if cases.is_empty() {
        return "";
    }
    "\nWhat the rows of its story may show, the first that holds\n"
}

fn push_cases(out: &mut String, cases: &[Case]) -> Result<(), AllocError>
    ensures { OnOk result (Adds (string_bytes out.old) (string_bytes out.new) (cases_text cases.now)) }
{
    push_text(out, cases_heading(cases))?;
    push_case_lines(out, cases)?;
    Ok(())
}

fn push_case_lines(out: &mut String, cases: &[Case]) -> Result<(), AllocError>
    ensures { OnOk result (Adds (string_bytes out.old) (string_bytes out.new) (cases_lines cases.now)) }
{
    for case in cases {
        push_case(out, case)?;
    }
    Ok(())
}

fn push_case(out: &mut String, case: &Case) -> Result<(), AllocError>
    ensures { OnOk result (Adds (string_bytes out.old) (string_bytes out.new) (case_lines case.now)) }
{
    push_text(out, "- ")?;
    push_text(out, case.when)?;
    push_text(out, ":\n")?;
    push_text(out, case.means)?;
    push_text(out, "\n")?;
    Ok(())
}
