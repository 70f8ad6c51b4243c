//! What a yes has to meet: the exit status, and the lines of counts that aren't the expected ones.

ghost use Rattle.std.specs.Prelude.{◌≡◌, IfOk, OnOk, string_bytes};
ghost use Rattle.eos_text.specs.Adding.{Adds};
ghost use Rattle.eos_checking.specs.Demands.{differs, falls_short, exit_status, differing_line, count_line, unmet_text};

use eos_check::{Counts, Verdict};
use eos_text::push_text;
use eos_words::Demands;
use std::alloc::{AllocError, Global};

/// What a yes has to meet, and how the folder is named in what is said of it.
#[derive(Clone, Copy)]
pub struct Terms<'a> {
    pub folder: &'a str,
    pub demands: Demands,
}

/// Whether a count is another one than is expected.
fn differs(expected: Option<u64>, count: u64) -> bool
    ensures { result ≡ differs expected count }
{
    match expected {
        None => false,
        Some(expected) => expected != count,
    }
}

/// Whether a yes with these counts isn't as it is demanded.
fn falls_short(demands: Demands, counts: Counts, noted: bool) -> bool
    ensures { result ≡ falls_short demands counts noted }
{
    let noted_or_not = demands.strict && noted;
    let transactions = differs(demands.transactions, counts.transactions);
    let inputs = differs(demands.inputs, counts.inputs);
    let outputs = differs(demands.outputs, counts.outputs);
    noted_or_not || transactions || inputs || outputs
}

/// The exit status of a verdict, beside which a note stands or not.
pub(crate) fn exit_status(demands: Demands, verdict: &Verdict, noted: bool) -> u8
    ensures { result ≡ exit_status demands verdict.now noted }
{
    match verdict {
        Verdict::Yes(counts) => {
            if falls_short(demands, *counts, noted) {
                4
            } else {
                0
            }
        }
        Verdict::No(_) => 1,
    }
}

/// The line of a count that isn't the expected one.
fn differing_line(
    alloc: Global,
    folder: &str,
    name: &str,
    expected: u64,
    count: u64,
) -> Result<String, AllocError>
    ensures { IfOk result (λ line. string_bytes line ≡ differing_line folder.now name.now expected count) }
{
    format!(in alloc; "eoscheck: {folder}: {name}={count}, but {expected} were expected\n")
}

/// Adds the line of a count, if it isn't the expected one.
fn push_count(
    out: &mut String,
    alloc: Global,
    folder: &str,
    name: &str,
    counted: (Option<u64>, u64),
) -> Result<(), AllocError>
    ensures { OnOk result (Adds (string_bytes out.old) (string_bytes out.new) (count_line folder.now name.now counted.0 counted.1)) }
{
    let (expected, count) = counted;
    match expected {
        None => Ok(()),
        Some(expected) => {
            if expected == count {
                return Ok(());
            }
            let line = differing_line(alloc, folder, name, expected, count)?;
            push_text(out, line.as_str())
        }
    }
}

fn push_counts(
    out: &mut String,
    alloc: Global,
    terms: Terms<'_>,
    counts: Counts,
) -> Result<(), AllocError>
    ensures { OnOk result (Adds (string_bytes out.old) (string_bytes out.new) (unmet_text terms.entry (Verdict.Yes counts))) }
{
    let Terms { folder, demands } = terms;
    push_count(
        out,
        alloc,
        folder,
        "transactions",
        (demands.transactions, counts.transactions),
    )?;
    push_count(
        out,
        alloc,
        folder,
        "inputs",
        (demands.inputs, counts.inputs),
    )?;
    push_count(
        out,
        alloc,
        folder,
        "outputs",
        (demands.outputs, counts.outputs),
    )?;
    Ok(())
}

/// The lines of the counts that aren't the expected ones.
pub(crate) fn unmet_text(
    alloc: Global,
    terms: Terms<'_>,
    verdict: &Verdict,
) -> Result<String, AllocError>
    ensures { IfOk result (λ text. string_bytes text ≡ unmet_text terms.entry verdict.now) }
{
    let mut text = String::new(alloc);
    match verdict {
        Verdict::Yes(counts) => {
            push_counts(&mut text, alloc, terms, *counts)?;
            Ok(text)
        }
        Verdict::No(_) => Ok(text),
    }
}
