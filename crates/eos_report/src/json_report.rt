//! The report of a check, as a text.

ghost use Rattle.std.specs.Prelude.{◌≡◌, [], IfOk, OnOk, codes, string_bytes};
ghost use Rattle.serde_json.specs.Data.{Data, array, no_members, object, put as with_member};
ghost use Rattle.serde_json.specs.View.{view};
ghost use Rattle.eos_manifest.specs.Objects.{held};
ghost use Rattle.eos_report.specs.TallyValues.{with_tallies};
ghost use Rattle.eos_report.specs.steps.Frames.{IsFrame};
ghost use Rattle.eos_report.specs.Reports.{counts_value, note_items, with_verdict, program_value, with_about, report_value, AreSeconds, AreTimes, IsReportText, IsTimedReportText};

use crate::about::{About, Times};
use crate::dates::Dates;
use crate::json_faults::filled;
use crate::note::values_of_notes;
use crate::tally::put_tallies;
use eos_manifest::Object;
use eos_notes::{Note, Tallies};
use eos_verdict::{Counts, Fault, Verdict};
use serde_json::Value;
use std::alloc::{AllocError, Global};
use std::time::Duration;

/// What a check has found.
#[derive(Clone, Copy)]
pub struct Findings<'a> {
    pub verdict: &'a Verdict,
    /// At no, the faults that are told: the first alone, or all. At yes they aren't looked at.
    pub faults: &'a [Fault],
    /// When the records were written that these faults name.
    pub dates: &'a Dates,
    pub notes: &'a [Note],
    pub tallies: &'a Tallies,
}

/// The report of a check as one line of JSON, with its line feed: an object whose members stand in the order of their names.
///
/// # Errors
/// Only want of memory.
pub fn report_text(
    alloc: Global,
    about: About<'_>,
    found: Findings<'_>,
    times: Times,
) -> Result<String, AllocError>
    ensures says { IfOk result (λ text. IsReportText about.entry found.entry.verdict.now found.entry.faults.now found.entry.dates.now found.entry.notes.now found.entry.tallies.now (string_bytes text)) }
    ensures timed { IfOk result (λ text. IsTimedReportText about.entry found.entry.verdict.now found.entry.faults.now found.entry.dates.now found.entry.notes.now found.entry.tallies.now times (string_bytes text)) }
{
    let frame = frame_of(alloc, about, found, times)?;
    let mut text = filled(
        alloc,
        frame,
        found.verdict,
        found.faults,
        found.dates.of_faults.as_slice(),
    )?;
    text.push_str("\n")?;
    Ok(text)
}

/// The text of the report that lists no fault.
fn frame_of(
    alloc: Global,
    about: About<'_>,
    found: Findings<'_>,
    times: Times,
) -> Result<String, AllocError>
    ensures { IfOk result (λ frame. IsFrame about.entry found.entry.verdict.now found.entry.dates.now found.entry.notes.now found.entry.tallies.now times (string_bytes frame)) }
{
    let value = value_of_report(alloc, about, found, times)?;
    let text = value.to_string(alloc);
    drop(value);
    text
}

fn value_of_report(
    alloc: Global,
    about: About<'_>,
    found: Findings<'_>,
    times: Times,
) -> Result<Value, AllocError>
    ensures { IfOk result (λ value. (seconds : Data) × AreTimes times seconds × (view value ≡ report_value about.entry found.entry.verdict.now [] found.entry.dates.now found.entry.notes.now found.entry.tallies.now seconds)) }
{
    let mut made = Object::new(alloc);
    put_report(alloc, &mut made, about, found, times)?;
    Ok(made.into_value())
}

/// Puts all of it into an object that has no members yet.
fn put_report(
    alloc: Global,
    out: &mut Object,
    about: About<'_>,
    found: Findings<'_>,
    times: Times,
) -> Result<(), AllocError>
    requires { held out.old ≡ no_members }
    ensures { OnOk result ((seconds : Data) × AreTimes times seconds × (object (held out.new) ≡ report_value about.entry found.entry.verdict.now [] found.entry.dates.now found.entry.notes.now found.entry.tallies.now seconds)) }
{
    put_findings(alloc, out, about, found)?;
    put_times(alloc, out, times)?;
    out.put_flag("timestamps_read", found.dates.read)?;
    Ok(())
}

/// Puts in what was checked and what was found.
fn put_findings(
    alloc: Global,
    out: &mut Object,
    about: About<'_>,
    found: Findings<'_>,
) -> Result<(), AllocError>
    ensures { OnOk result (held out.new ≡ with_tallies found.entry.tallies.now (with_member (codes "notes") (array (note_items found.entry.notes.now)) (with_verdict found.entry.verdict.now [] found.entry.dates.now.of_faults (with_about about.entry (held out.old))))) }
{
    put_about(alloc, out, about)?;
    put_verdict(alloc, out, found)?;
    let notes = values_of_notes(alloc, found.notes)?;
    out.put("notes", Value::Array(notes))?;
    put_tallies(alloc, out, found.tallies)
}

#[tactic(auto, unfolding(crate::specs::Reports::with_about))]
fn put_about(alloc: Global, out: &mut Object, about: About<'_>) -> Result<(), AllocError>
    ensures { OnOk result (held out.new ≡ with_about about.entry (held out.old)) }
{
    out.put_count("schema", 1)?;
    let program = value_of_program(alloc, about)?;
    out.put("program", program)?;
    out.put_str("folder", about.folder)?;
    out.put_count("folds", about.folds)?;
    out.put_count("workers", about.workers)
}

#[tactic(auto, unfolding(crate::specs::Reports::program_value))]
fn value_of_program(alloc: Global, about: About<'_>) -> Result<Value, AllocError>
    ensures { IfOk result (λ value. view value ≡ program_value about.entry) }
{
    let mut made = Object::new(alloc);
    made.put_str("name", "eoscheck")?;
    made.put_str("version", about.version)?;
    Ok(made.into_value())
}

/// Puts the answer in, and the counts of a yes; of a no an array that lists no fault.
#[tactic(auto, unfolding(crate::specs::Reports::with_verdict))]
fn put_verdict(alloc: Global, out: &mut Object, found: Findings<'_>) -> Result<(), AllocError>
    ensures { OnOk result (held out.new ≡ with_verdict found.entry.verdict.now [] found.entry.dates.now.of_faults (held out.old)) }
{
    match found.verdict {
        Verdict::Yes(counts) => {
            out.put_str("answer", "yes")?;
            let counts = value_of_counts(alloc, *counts)?;
            out.put("counts", counts)
        }
        Verdict::No(_) => {
            out.put_str("answer", "no")?;
            out.put("faults", Value::Array(Vec::new(alloc)))
        }
    }
}

#[tactic(auto, unfolding(crate::specs::Reports::counts_value))]
fn value_of_counts(alloc: Global, counts: Counts) -> Result<Value, AllocError>
    ensures { IfOk result (λ value. view value ≡ counts_value counts) }
{
    let mut made = Object::new(alloc);
    made.put_count("inputs", counts.inputs)?;
    made.put_count("outputs", counts.outputs)?;
    made.put_count("transactions", counts.transactions)?;
    Ok(made.into_value())
}

fn put_times(alloc: Global, out: &mut Object, times: Times) -> Result<(), AllocError>
    ensures { OnOk result ((seconds : Data) × AreTimes times seconds × (held out.new ≡ with_member (codes "seconds") seconds (held out.old))) }
{
    let seconds = value_of_times(alloc, times)?;
    out.put("seconds", seconds)?;
    Ok(())
}

/// The seconds of each stage.
fn value_of_times(alloc: Global, times: Times) -> Result<Value, AllocError>
    ensures { IfOk result (λ value. AreTimes times (view value)) }
{
    let mut made = Object::new(alloc);
    put_seconds(&mut made, "read", times.read)?;
    put_seconds(&mut made, "folded", times.folded)?;
    put_seconds(&mut made, "judged", times.judged)?;
    Ok(made.into_value())
}

fn put_seconds(out: &mut Object, name: &str, milliseconds: u64) -> Result<(), AllocError>
    ensures { OnOk result ((value : Data) × AreSeconds milliseconds value × (held out.new ≡ with_member name.now value (held out.old))) }
{
    let seconds = value_of_seconds(milliseconds);
    out.put(name, seconds)?;
    Ok(())
}

fn value_of_seconds(milliseconds: u64) -> Value
    ensures { AreSeconds milliseconds (view result) }
{
    let seconds = Duration::from_millis(milliseconds).as_secs_f64();
    Value::from(seconds)
}
