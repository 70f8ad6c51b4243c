//! All faults, a line each.

ghost use Rattle.std.specs.Prelude.{◌≡◌, ◌++◌, IfOk, OnOk, string_bytes};
ghost use Rattle.std.specs.List.{flat_map};
ghost use Rattle.eos_text.specs.Adding.{Adds};
ghost use Rattle.eos_report.specs.FaultLists.{fault_line, count_line, list_text};

use eos_text::{push_text, push_value};
use eos_verdict::{Fault, push_no};
use std::alloc::{AllocError, Global};

/// For each fault the line of the verdict that names it, and then the line `faults=N`, each after the words on which folder it
/// is about.
///
/// # Errors
/// A growth of memory was refused.
pub fn fault_list(alloc: Global, about: &str, faults: &[Fault]) -> Result<String, AllocError>
    ensures { IfOk result (λ text. string_bytes text ≡ list_text about.now faults.now) }
{
    let mut text = String::new(alloc);
    push_lines(alloc, &mut text, about, faults)?;
    push_text(&mut text, about)?;
    push_value(&mut text, "faults=", &faults.len())?;
    push_text(&mut text, "\n")?;
    Ok(text)
}

fn push_lines(
    alloc: Global,
    out: &mut String,
    about: &str,
    faults: &[Fault],
) -> Result<(), AllocError>
    ensures { OnOk result (Adds (string_bytes out.old) (string_bytes out.new) (flat_map (fault_line about.now) faults.now)) }
{
    for fault in faults {
        push_line(alloc, out, about, fault)?;
    }
    Ok(())
}

fn push_line(alloc: Global, out: &mut String, about: &str, fault: &Fault) -> Result<(), AllocError>
    ensures { OnOk result (Adds (string_bytes out.old) (string_bytes out.new) (fault_line about.now fault.now)) }
{
    push_text(out, about)?;
    push_no(alloc, out, fault)?;
    push_text(out, "\n")
}
