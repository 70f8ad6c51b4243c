//! A verdict as a line, and as a JSON value.

ghost use Rattle.std.specs.Prelude.{◌≡◌, Err, IfOk, OnOk};
ghost use Rattle.std.specs.Io.KnownBytes.{Appends, Keeps};
ghost use Rattle.serde_json.specs.View.{view};
ghost use Rattle.eos_text.specs.Writing.{WritesFront};
ghost use Rattle.eos_verdict.specs.VerdictTexts.{verdict_line};
ghost use Rattle.eos_report.specs.VerdictValues.{verdict_value};

use crate::fault::ReportFault;
use eos_manifest::Object;
use eos_text::finish;
use eos_verdict::{Counts, Fault, Verdict, text_of_fault, verdict_line};
use serde_json::Value;
use std::alloc::{AllocError, Global};
use std::io::Write;

/// Writes the line of a verdict: `yes transactions=T inputs=I outputs=O`, or `no PHASE.KIND NAME` and the place of the
/// fault. The whole line is made before any of it is written.
///
/// # Errors
/// At `Write` a front of the line was written, at `OutOfMemory` nothing.
pub fn write_verdict<W: Write>(
    alloc: Global,
    verdict: &Verdict,
    writer: &mut W,
) -> Result<(), ReportFault>
    ensures ok { OnOk result (Appends (W.contents writer.old) (W.contents writer.new) (verdict_line verdict.now)) }
    ensures write { result ≡ Err ReportFault.Write → WritesFront (W.contents writer.old) (W.contents writer.new) (verdict_line verdict.now) }
    ensures memory { result ≡ Err ReportFault.OutOfMemory → Keeps (W.contents writer.old) (W.contents writer.new) }
{
    let line = verdict_line(alloc, verdict)?;
    finish(writer, line.as_bytes())?;
    Ok(())
}

/// The JSON object of a verdict: `{"answer":"yes","inputs":I,"outputs":O,"transactions":T}`, or
/// `{"answer":"no","fault":"TEXT"}` with the text that the line has after `no `.
///
/// # Errors
/// A growth of memory was refused.
pub fn verdict_json(alloc: Global, verdict: &Verdict) -> Result<Value, AllocError>
    ensures { IfOk result (λ value. view value ≡ verdict_value verdict.now) }
{
    match verdict {
        Verdict::Yes(counts) => json_of_counts(alloc, *counts),
        Verdict::No(fault) => no_json(alloc, fault),
    }
}

fn json_of_counts(alloc: Global, counts: Counts) -> Result<Value, AllocError>
    ensures { IfOk result (λ value. view value ≡ verdict_value (Verdict.Yes counts)) }
{
    let mut made = Object::new(alloc);
    made.put_str("answer", "yes")?;
    made.put_count("inputs", counts.inputs)?;
    made.put_count("outputs", counts.outputs)?;
    made.put_count("transactions", counts.transactions)?;
    Ok(made.into_value())
}

/// The JSON object of a verdict that names this fault.
///
/// # Errors
/// A growth of memory was refused.
pub fn no_json(alloc: Global, fault: &Fault) -> Result<Value, AllocError>
    ensures { IfOk result (λ value. view value ≡ verdict_value (Verdict.No fault.now)) }
{
    let text = text_of_fault(alloc, fault)?;
    let mut made = Object::new(alloc);
    made.put("fault", Value::String(text))?;
    made.put_str("answer", "no")?;
    Ok(made.into_value())
}
