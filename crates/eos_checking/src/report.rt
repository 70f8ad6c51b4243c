//! What is made of a check beside its answer: the report and the page.

ghost use Rattle.std.specs.Prelude.{IfOk, option_map, string_bytes};
ghost use Rattle.eos_commits.specs.Faults.{AreInOrder};
ghost use Rattle.eos_report.specs.Pages.{IsPageText};
ghost use Rattle.eos_report.specs.Reports.{IsReportText};
ghost use Rattle.eos_checking.specs.Checking.{IsMadeIf};
ghost use Rattle.eos_checking.specs.Dates.{IsTextWith};
ghost use Rattle.eos_checking.specs.steps.Tellings.{IsReportBy};

use crate::check::{Made, Wanted};
use eos_base::Listed;
use eos_check::{Fault, Verdict};
use eos_ending::Progress;
use eos_evidence::Spec;
use eos_kept::Logs;
use eos_notes::{Counted, all_notes, tallies_of};
use eos_reading::EpochEntry;
use eos_report::{Dates, Findings, Times, page_text, report_text};
use std::alloc::{AllocError, Global};

/// Who knows how long the stages of a check took. No contract speaks of it.
pub trait Timed {
    /// The answer stands, and is going to be written.
    fn done(&self);

    fn times(&self) -> Times;
}

impl Timed for Progress<'_> {
    fn done(&self) {
        self.end();
    }

    fn times(&self) -> Times {
        let stages = self.stages();
        Times {
            read: stages.read,
            folded: stages.folded,
            judged: stages.judged,
        }
    }
}

/// What a report is made of: a manifest, logs with what is counted of their segments and the entries of their
/// leader epochs, and the verdict with the faults that are told.
#[derive(Clone, Copy)]
pub(crate) struct Told<'a> {
    pub spec: &'a Spec,
    pub logs: &'a Logs,
    pub counted: &'a [Counted],
    pub epochs: &'a [Listed<EpochEntry>],
    pub verdict: &'a Verdict,
    pub faults: &'a [Fault],
    /// When the records were written that these name.
    pub dates: &'a Dates,
}

/// The report, where it is wanted.
fn report_if(
    alloc: Global,
    wanted: Wanted<'_>,
    found: Findings<'_>,
    times: Times,
) -> Result<Option<String>, AllocError>
    ensures { IfOk result (λ made. IsMadeIf wanted.entry.report (IsReportText wanted.entry.about found.entry.verdict.now found.entry.faults.now found.entry.dates.now found.entry.notes.now found.entry.tallies.now) (option_map string_bytes made)) }
{
    if !wanted.report {
        return Ok(None);
    }
    let text = report_text(alloc, wanted.about, found, times)?;
    Ok(Some(text))
}

/// The page, where it is wanted.
fn page_if(
    alloc: Global,
    wanted: Wanted<'_>,
    found: Findings<'_>,
) -> Result<Option<String>, AllocError>
    ensures { IfOk result (λ made. IsMadeIf wanted.entry.page (IsPageText wanted.entry.about found.entry.verdict.now found.entry.faults.now found.entry.notes.now found.entry.tallies.now) (option_map string_bytes made)) }
{
    if !wanted.page {
        return Ok(None);
    }
    let text = page_text(alloc, wanted.about, found)?;
    Ok(Some(text))
}

/// What is wanted of these.
pub(crate) fn made_of<T: Timed>(
    alloc: Global,
    told: Told<'_>,
    wanted: Wanted<'_>,
    timed: &T,
) -> Result<Made, AllocError>
    ensures made { AreInOrder told.entry.logs.now.parts.items → IfOk result (IsReportBy told.entry wanted.entry) }
    ensures dated { IfOk result (λ made. IsMadeIf wanted.entry.report (IsTextWith wanted.entry.about told.entry.faults.now told.entry.dates.now) (option_map string_bytes made.report)) }
{
    let notes = all_notes(alloc, told.spec, told.logs, told.epochs)?;
    let tallies = tallies_of(alloc, told.spec, told.logs, told.counted)?;
    let findings = Findings {
        verdict: told.verdict,
        faults: told.faults,
        dates: told.dates,
        notes: notes.as_slice(),
        tallies: &tallies,
    };
    let report = report_if(alloc, wanted, findings, timed.times())?;
    let page = page_if(alloc, wanted, findings)?;
    Ok(Made { report, page })
}
