//! The page of a check, as HTML: for people, to attach to what they write of an incident. It needs nothing from outside.

ghost use Rattle.std.specs.Prelude.{◌≡◌, ◌++◌, IfOk, OnOk, length, take, option_map, string_bytes};
ghost use Rattle.std.specs.List.{flat_map, filter, find};
ghost use Rattle.eos_text.specs.Adding.{Adds};
ghost use Rattle.eos_report.specs.Pages.{yes_words, no_words, verdict_words, verdict_part, about_part, notes_part, is_of_kind, row_of, kind_row, phases, numbers, number_row, phase_rows, kinds_part, fault_item, first_part, faults_part, title_text, findings_text, body_text, IsPageText};

use crate::about::About;
use crate::html::push_html;
use crate::json_report::Findings;
use crate::page_tables::{push_groups, push_partitions};
use eos_notes::{Note, note_lines};
use eos_text::{push_text, push_value};
use eos_verdict::{Counts, Fault, Verdict, text_of_fault, verdict_line};
use std::alloc::{AllocError, Global};

/// How many of the faults are named one by one.
const FIRST: usize = 10;

/// How a page looks: on a telephone wide tables and pictures move by themselves, and printed nothing is cut.
const LOOK: &str = "<style>
body { font: 1rem/1.5 sans-serif; max-width: 70rem; margin: 1rem auto; padding: 0 1rem; color: #1a1a1a; background: #fff; }
h1 { font-size: 1.4rem; }
h2 { font-size: 1.15rem; margin-top: 2rem; }
h3 { font-size: 1rem; margin-top: 1.5rem; }
pre { white-space: pre-wrap; overflow-wrap: anywhere; background: #f3f4f6; padding: 0.5rem; }
pre.line { font-weight: bold; border-left: 0.3rem solid #1f4e9c; }
div { overflow-x: auto; }
table { border-collapse: collapse; font-size: 0.9rem; }
th, td { border: 1px solid #c5c9d0; padding: 0.2rem 0.5rem; text-align: left; }
li, p { overflow-wrap: anywhere; }
@media print { div { overflow: visible; } svg { max-width: 100%; height: auto; } th, td { overflow-wrap: anywhere; } tr, li, svg { break-inside: avoid; } h3 { break-after: avoid; } }
</style>
";

/// The page of a check, which `end_page` ends. It is ASCII, whatever names and ids stand in the evidence, and has no script and no link.
///
/// # Errors
/// Only want of memory.
pub fn page_text(alloc: Global, about: About<'_>, found: Findings<'_>) -> Result<String, AllocError>
    ensures { IfOk result (λ text. IsPageText about.entry found.entry.verdict.now found.entry.faults.now found.entry.notes.now found.entry.tallies.now (string_bytes text)) }
{
    page_with(alloc, about, found, LOOK)
}

/// The page with this style sheet.
fn page_with(
    alloc: Global,
    about: About<'_>,
    found: Findings<'_>,
    look: &str,
) -> Result<String, AllocError>
    ensures { IfOk result (λ text. IsPageText about.entry found.entry.verdict.now found.entry.faults.now found.entry.notes.now found.entry.tallies.now (string_bytes text)) }
{
    let mut out = String::new(alloc);
    push_title(alloc, &mut out, about)?;
    push_text(&mut out, look)?;
    push_body(alloc, &mut out, about, found)?;
    Ok(out)
}

fn push_title(alloc: Global, out: &mut String, about: About<'_>) -> Result<(), AllocError>
    ensures { OnOk result (Adds (string_bytes out.old) (string_bytes out.new) (title_text about.entry)) }
{
    push_text(
        out,
        "<!DOCTYPE html>\n<html lang=\"en\">\n<head>\n<meta charset=\"utf-8\">\n<meta name=\"viewport\" content=\"width=device-width, initial-scale=1\">\n<title>eoscheck: ",
    )?;
    push_html(alloc, out, about.folder)?;
    push_text(out, "</title>\n")
}

fn push_body(
    alloc: Global,
    out: &mut String,
    about: About<'_>,
    found: Findings<'_>,
) -> Result<(), AllocError>
    ensures { OnOk result (Adds (string_bytes out.old) (string_bytes out.new) (body_text about.entry found.entry.verdict.now found.entry.faults.now found.entry.notes.now found.entry.tallies.now)) }
{
    push_text(out, "</head>\n<body>\n<h1>Was exactly once kept?</h1>\n")?;
    push_about(alloc, out, about)?;
    push_findings(alloc, out, found)?;
    push_partitions(alloc, out, found.tallies)?;
    push_groups(alloc, out, found.tallies)
}

fn push_about(alloc: Global, out: &mut String, about: About<'_>) -> Result<(), AllocError>
    ensures { OnOk result (Adds (string_bytes out.old) (string_bytes out.new) (about_part about.entry)) }
{
    push_text(out, "<p>Folder: ")?;
    push_html(alloc, out, about.folder)?;
    push_text(out, "<br>\neoscheck ")?;
    push_html(alloc, out, about.version)?;
    push_value(out, ", workers: ", &about.workers)?;
    push_text(out, "</p>\n")
}

fn push_findings(alloc: Global, out: &mut String, found: Findings<'_>) -> Result<(), AllocError>
    ensures { OnOk result (Adds (string_bytes out.old) (string_bytes out.new) (findings_text found.entry.verdict.now found.entry.faults.now found.entry.notes.now)) }
{
    push_verdict(alloc, out, found.verdict, found.faults)?;
    push_notes(alloc, out, found.notes)?;
    push_faults(alloc, out, found.verdict, found.faults)
}

// ---- the verdict and the notes

fn push_verdict(
    alloc: Global,
    out: &mut String,
    verdict: &Verdict,
    faults: &[Fault],
) -> Result<(), AllocError>
    ensures { OnOk result (Adds (string_bytes out.old) (string_bytes out.new) (verdict_part verdict.now faults.now)) }
{
    let line = verdict_line(alloc, verdict)?;
    push_text(out, "<pre class=\"line\">")?;
    push_html(alloc, out, line.as_str())?;
    push_text(out, "</pre>\n")?;
    push_words(out, verdict, faults)
}

fn push_words(out: &mut String, verdict: &Verdict, faults: &[Fault]) -> Result<(), AllocError>
    ensures { OnOk result (Adds (string_bytes out.old) (string_bytes out.new) (verdict_words verdict.now faults.now)) }
{
    match verdict {
        Verdict::Yes(counts) => push_yes(out, *counts),
        Verdict::No(_) => push_no(out, faults),
    }
}

fn push_yes(out: &mut String, counts: Counts) -> Result<(), AllocError>
    ensures { OnOk result (Adds (string_bytes out.old) (string_bytes out.new) (yes_words counts)) }
{
    push_value(
        out,
        "<p>Yes: in these logs exactly once was kept. Counted were transactions: ",
        &counts.transactions,
    )?;
    push_value(out, ", inputs: ", &counts.inputs)?;
    push_value(out, ", outputs: ", &counts.outputs)?;
    push_text(
        out,
        ".</p>\n<p>The logs are whole and fenced, no sequence is repeated or missing in a producer epoch, every transaction is committed in all its partitions or aborted in all, and the visible outputs are, for each input below its group's committed offset, its numbered outputs or one note, each once, and nothing else. That these are the cluster's whole logs, and that each output has the right value, no log can tell.</p>\n",
    )
}

fn push_no(out: &mut String, faults: &[Fault]) -> Result<(), AllocError>
    ensures { OnOk result (Adds (string_bytes out.old) (string_bytes out.new) (no_words faults.now)) }
{
    push_value(
        out,
        "<p>No: in these logs exactly once was not kept, or they are not whole. Faults told here: ",
        &faults.len(),
    )?;
    push_text(
        out,
        ".</p>\n<p>A fault counts only where those that come before it in the order of the phases have none: partitions, the transaction log, both against each other, records, outputs.</p>\n",
    )
}

fn push_notes(alloc: Global, out: &mut String, notes: &[Note]) -> Result<(), AllocError>
    ensures { OnOk result (Adds (string_bytes out.old) (string_bytes out.new) (notes_part notes.now)) }
{
    let lines = note_lines(alloc, notes)?;
    push_text(out, "<h2>Notes</h2>\n<pre>")?;
    push_html(alloc, out, lines.as_str())?;
    push_text(out, "</pre>\n")
}

// ---- the faults

fn push_faults(
    alloc: Global,
    out: &mut String,
    verdict: &Verdict,
    faults: &[Fault],
) -> Result<(), AllocError>
    ensures { OnOk result (Adds (string_bytes out.old) (string_bytes out.new) (faults_part verdict.now faults.now)) }
{
    match verdict {
        Verdict::Yes(_) => push_text(out, ""),
        Verdict::No(_) => push_told(alloc, out, faults),
    }
}

fn push_told(alloc: Global, out: &mut String, faults: &[Fault]) -> Result<(), AllocError>
    ensures { OnOk result (Adds (string_bytes out.old) (string_bytes out.new) (kinds_part faults.now ++ first_part faults.now)) }
{
    push_kinds(out, faults)?;
    push_first(alloc, out, faults)
}

static PHASES: [u8; 5] = [1, 2, 3, 4, 5];

static NUMBERS: [u8; 13] = [1, 2, 3, 4, 5, 6, 7, 8, 9, 10, 11, 12, 13];

/// The numbers of the phases.
fn phases() -> &'static [u8]
    ensures { result.now ≡ phases }
{
    PHASES.as_slice()
}

/// The numbers that a kind has in its phase.
fn numbers() -> &'static [u8]
    ensures { result.now ≡ numbers }
{
    NUMBERS.as_slice()
}

fn push_kinds(out: &mut String, faults: &[Fault]) -> Result<(), AllocError>
    ensures { OnOk result (Adds (string_bytes out.old) (string_bytes out.new) (kinds_part faults.now)) }
{
    push_text(
        out,
        "<h2>Faults by kind</h2>\n<p>What a kind means and what makes it happen tells <code>eoscheck explain --code KIND</code>.</p>\n<div><table>\n<tr><th>Kind</th><th>Name</th><th>Told</th></tr>\n",
    )?;
    push_phases(out, faults, phases())?;
    push_text(out, "</table></div>\n")
}

fn push_phases(out: &mut String, faults: &[Fault], phases: &[u8]) -> Result<(), AllocError>
    ensures { OnOk result (Adds (string_bytes out.old) (string_bytes out.new) (flat_map (phase_rows faults.now) phases.now)) }
{
    for phase in phases {
        push_phase(out, faults, *phase, numbers())?;
    }
    Ok(())
}

/// Adds the rows of those kinds of a phase that have these numbers.
fn push_phase(
    out: &mut String,
    faults: &[Fault],
    phase: u8,
    numbers: &[u8],
) -> Result<(), AllocError>
    ensures { OnOk result (Adds (string_bytes out.old) (string_bytes out.new) (flat_map (number_row faults.now phase) numbers.now)) }
{
    for number in numbers {
        push_number(out, faults, phase, *number)?;
    }
    Ok(())
}

fn push_number(out: &mut String, faults: &[Fault], phase: u8, number: u8) -> Result<(), AllocError>
    ensures { OnOk result (Adds (string_bytes out.old) (string_bytes out.new) (number_row faults.now phase number)) }
{
    match first_of_kind(faults, phase, number) {
        None => push_text(out, ""),
        Some(fault) => push_row(out, fault, count_of_kind(faults, phase, number)),
    }
}

fn is_of_kind(fault: &Fault, phase: u8, number: u8) -> bool
    ensures { result ≡ is_of_kind phase number fault.now }
{
    fault.phase() == phase && fault.number() == number
}

/// The first of one kind.
fn first_of_kind(faults: &[Fault], phase: u8, number: u8) -> Option<&Fault>
    ensures { option_map (λ f. f.now) result ≡ find (is_of_kind phase number) faults.now }
{
    for fault in faults {
        if is_of_kind(fault, phase, number) {
            return Some(fault);
        }
    }
    None
}

/// How many there are of one kind.
fn count_of_kind(faults: &[Fault], phase: u8, number: u8) -> usize
    ensures { result ≡ length (filter (is_of_kind phase number) faults.now) }
{
    let mut count = 0;
    for fault in faults {
        if is_of_kind(fault, phase, number) {
            count += 1;
        }
    }
    count
}

fn push_row(out: &mut String, fault: &Fault, count: usize) -> Result<(), AllocError>
    ensures { OnOk result (Adds (string_bytes out.old) (string_bytes out.new) (row_of fault.now count)) }
{
    push_value(out, "<tr><td>", &fault.phase())?;
    push_value(out, ".", &fault.number())?;
    push_value(out, "</td><td>", &fault.name())?;
    push_value(out, "</td><td>", &count)?;
    push_text(out, "</td></tr>\n")
}

fn push_first(alloc: Global, out: &mut String, faults: &[Fault]) -> Result<(), AllocError>
    ensures { OnOk result (Adds (string_bytes out.old) (string_bytes out.new) (first_part faults.now)) }
{
    push_text(
        out,
        "<h2>The first faults</h2>\n<p>Where the fault of number N comes from in the logs tells <code>eoscheck explain --fault N FOLDER</code>, and <code>eoscheck draw --fault N FOLDER FILE.svg</code> draws it.</p>\n<ol>\n",
    )?;
    push_items(alloc, out, first_of(faults))?;
    push_text(out, "</ol>\n")
}

/// At most the first ten.
#[tactic(auto, using(std::proofs::lemmas::List::take_min))]
fn first_of(faults: &[Fault]) -> &[Fault]
    ensures { result.now ≡ take 10 faults.now }
{
    &faults[..FIRST.min(faults.len())]
}

fn push_items(alloc: Global, out: &mut String, faults: &[Fault]) -> Result<(), AllocError>
    ensures { OnOk result (Adds (string_bytes out.old) (string_bytes out.new) (flat_map fault_item faults.now)) }
{
    for fault in faults {
        push_item(alloc, out, fault)?;
    }
    Ok(())
}

fn push_item(alloc: Global, out: &mut String, fault: &Fault) -> Result<(), AllocError>
    ensures { OnOk result (Adds (string_bytes out.old) (string_bytes out.new) (fault_item fault.now)) }
{
    let text = text_of_fault(alloc, fault)?;
    push_text(out, "<li>")?;
    push_html(alloc, out, text.as_str())?;
    push_text(out, "</li>\n")
}
