//! The objects of faults in the text of a report. Each is made and written by itself, so that one at a time is held.

ghost use Rattle.std.specs.Prelude.{◌≡◌, ◌++◌, false, IfOk, OnOk, string_bytes};
ghost use Rattle.std.specs.Str.{IsCharBoundary};
ghost use Rattle.serde_json.specs.Written.{compact_text, comma_if, items_text};
ghost use Rattle.eos_report.specs.DatedValues.{dated_value, dated_items};
ghost use Rattle.eos_report.specs.steps.Texts.{array_end, IsRead, AreRead};
ghost use Rattle.eos_report.specs.steps.Frames.{with_faults, Opens, IsFilled};

use crate::dates::{Timestamps, first_of, rest_of};
use crate::json_fault::value_of_dated;
use eos_verdict::{Fault, Verdict};
use std::alloc::{AllocError, Global};

/// What stands before the first fault in the report of a no, whose members stand in the order of their names.
const HEAD: &str = "{\"answer\":\"no\",\"faults\":[";

/// The text of a report, of that of the report which lists no fault.
pub(crate) fn filled(
    alloc: Global,
    frame: String,
    verdict: &Verdict,
    faults: &[Fault],
    times: &[Timestamps],
) -> Result<String, AllocError>
    requires { Opens verdict.now (string_bytes frame) }
    ensures { IfOk result (λ text. IsFilled verdict.now faults.now times.now (string_bytes frame) (string_bytes text)) }
{
    match verdict {
        Verdict::Yes(_) => Ok(frame),
        Verdict::No(_) => with_faults(alloc, frame.as_str(), faults, times),
    }
}

fn with_faults(
    alloc: Global,
    frame: &str,
    faults: &[Fault],
    times: &[Timestamps],
) -> Result<String, AllocError>
    requires { IsCharBoundary frame.now array_end }
    ensures text { IfOk result (λ text. string_bytes text ≡ with_faults faults.now times.now frame.now) }
    ensures read { IfOk result (λ _. AreRead (dated_items faults.now times.now)) }
{
    // Behind the empty array.
    let (_, rest) = frame.split_at(26);
    let mut text = String::from_str(alloc, HEAD)?;
    push_items(alloc, &mut text, faults, times)?;
    text.push_str(rest)?;
    Ok(text)
}

/// Adds the objects of faults, and the bracket that closes their array.
fn push_items(
    alloc: Global,
    out: &mut String,
    faults: &[Fault],
    times: &[Timestamps],
) -> Result<(), AllocError>
    ensures text { OnOk result (string_bytes out.new ≡ string_bytes out.old ++ items_text false (dated_items faults.now times.now)) }
    ensures read { OnOk result (AreRead (dated_items faults.now times.now)) }
{
    let mut later = false;
    let mut left = times;
    for fault in faults {
        push_item(alloc, out, later, fault, first_of(left))?;
        later = true;
        left = rest_of(left);
    }
    out.push_str("]")
}

/// Adds the object of a fault, after a comma where another stands before it.
fn push_item(
    alloc: Global,
    out: &mut String,
    later: bool,
    fault: &Fault,
    times: Timestamps,
) -> Result<(), AllocError>
    ensures text { OnOk result (string_bytes out.new ≡ string_bytes out.old ++ (comma_if later ++ compact_text (dated_value fault.now times))) }
    ensures read { OnOk result (IsRead (dated_value fault.now times)) }
{
    let object = text_of_dated(alloc, fault, times)?;
    let comma = if later { "," } else { "" };
    out.push_str(comma)?;
    out.push_str(object.as_str())
}

fn text_of_dated(alloc: Global, fault: &Fault, times: Timestamps) -> Result<String, AllocError>
    ensures text { IfOk result (λ text. string_bytes text ≡ compact_text (dated_value fault.now times)) }
    ensures read { IfOk result (λ _. IsRead (dated_value fault.now times)) }
{
    let value = value_of_dated(alloc, fault, times)?;
    let text = value.to_string(alloc);
    drop(value);
    text
}
