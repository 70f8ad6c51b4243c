//! A verdict as a line.

ghost use Rattle.std.specs.Prelude.{◌≡◌, IfOk, OnOk, string_bytes};
ghost use Rattle.eos_text.specs.Adding.{Adds};
ghost use Rattle.eos_verdict.specs.FaultTexts.{fault_text};
ghost use Rattle.eos_verdict.specs.VerdictTexts.{counts_text, verdict_text, verdict_line};

use crate::fault_text::push_fault;
use crate::verdict::{Counts, Fault, Verdict};
use eos_text::{push_text, push_value};
use std::alloc::{AllocError, Global};

/// The line of a verdict, with its line feed.
///
/// # Errors
/// A growth of memory was refused.
pub fn verdict_line(alloc: Global, verdict: &Verdict) -> Result<String, AllocError>
    ensures { IfOk result (λ line. string_bytes line ≡ verdict_line verdict.now) }
{
    let mut line = String::new(alloc);
    push_verdict(alloc, &mut line, verdict)?;
    push_text(&mut line, "\n")?;
    Ok(line)
}

fn push_verdict(alloc: Global, out: &mut String, verdict: &Verdict) -> Result<(), AllocError>
    ensures { OnOk result (Adds (string_bytes out.old) (string_bytes out.new) (verdict_text verdict.now)) }
{
    match verdict {
        Verdict::Yes(counts) => push_counts(out, counts),
        Verdict::No(fault) => push_no(alloc, out, fault),
    }
}

fn push_counts(out: &mut String, counts: &Counts) -> Result<(), AllocError>
    ensures { OnOk result (Adds (string_bytes out.old) (string_bytes out.new) (counts_text counts.now)) }
{
    push_value(out, "yes transactions=", &counts.transactions)?;
    push_value(out, " inputs=", &counts.inputs)?;
    push_value(out, " outputs=", &counts.outputs)?;
    Ok(())
}

/// Adds the text of a verdict that names this fault, without the end of the line.
///
/// # Errors
/// A growth of memory was refused.
pub fn push_no(alloc: Global, out: &mut String, fault: &Fault) -> Result<(), AllocError>
    ensures { OnOk result (Adds (string_bytes out.old) (string_bytes out.new) (verdict_text (Verdict.No fault.now))) }
{
    push_text(out, "no ")?;
    push_fault(alloc, out, fault)?;
    Ok(())
}

/// The text of a fault, as the line of a verdict has it behind `no `.
///
/// # Errors
/// A growth of memory was refused.
pub fn text_of_fault(alloc: Global, fault: &Fault) -> Result<String, AllocError>
    ensures { IfOk result (λ text. string_bytes text ≡ fault_text fault.now) }
{
    let mut text = String::new(alloc);
    push_fault(alloc, &mut text, fault)?;
    Ok(text)
}
