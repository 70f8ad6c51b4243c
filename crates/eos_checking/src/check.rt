//! What is asked of `check`, and the lines that answer.

ghost use Rattle.std.specs.Prelude.{◌≡◌, ◌++◌, IfOk, string_bytes};
ghost use Rattle.eos_ending.specs.Subjects.{subject_text};
ghost use Rattle.eos_checking.specs.Checking.{verdict_answer, list_answer, answer_text};

use crate::folds::Folded;
use crate::terms::Terms;
use eos_base::Workers;
use eos_check::{Fault, Verdict};
use eos_ending::Subject;
use eos_report::{About, Dates, fault_list, fault_list_json, json_line, verdict_line};
use eos_text::{push_text, push_value};
use std::alloc::{AllocError, Global};

/// What is asked of a check: by how many workers, and how the outside is told of it.
#[derive(Drop)]
pub struct Asked<'a, T> {
    pub workers: Workers,
    /// Who is told how far it is, and knows how long the stages took.
    pub watch: &'a T,
    /// Whether lines are of JSON.
    pub json: bool,
    /// Whether all faults are told, and not the first alone.
    pub all: bool,
    /// Whether the notes are left out.
    pub quiet: bool,
    /// What a yes has to meet.
    pub terms: Terms<'a>,
    /// Which of several folders it is about.
    pub subject: Subject<'a>,
    /// What is made of it beside the answer, if anything is wanted.
    pub report: Option<Wanted<'a>>,
}

/// What is made of a check beside its answer.
#[derive(Clone, Copy)]
pub struct Wanted<'a> {
    /// What is said in it of the run, but for the count of folds, which is that of the folder.
    pub about: About<'a>,
    /// Whether a report is wanted, for programs.
    pub report: bool,
    /// Whether a page is wanted, for people.
    pub page: bool,
}

/// What was made of a check beside its answer, as it was wanted.
#[derive(Drop)]
pub struct Made {
    pub report: Option<String>,
    /// The page but for its end, which tells where the faults come from.
    pub page: Option<String>,
}

/// What is left to be told after the answer was written.
#[derive(Drop)]
pub struct Said {
    /// The exit status: 0 for yes, 1 for no, 4 for a yes that isn't as it is demanded.
    pub status: u8,
    /// The lines of the notes, which are empty where these are left out.
    pub notes: String,
    /// How many segments were judged by folds.
    pub folded: Folded,
    /// The lines of the counts that aren't the expected ones.
    pub unmet: String,
    /// What was made beside it, if anything was wanted.
    pub report: Option<Made>,
}

/// The faults that are told, which are all or the first alone.
#[derive(Clone, Copy)]
pub(crate) struct Faults<'a> {
    pub told: &'a [Fault],
    pub all: bool,
    /// When the records were written that these name.
    pub dates: &'a Dates,
}

/// The line of the verdict, or those of all faults.
pub(crate) fn lines_told<T>(
    alloc: Global,
    verdict: &Verdict,
    faults: Faults<'_>,
    asked: &Asked<'_, T>,
) -> Result<String, AllocError>
    ensures { IfOk result (λ lines. string_bytes lines ≡ answer_text (subject_text asked.now.subject) asked.now.json faults.entry.all verdict.now faults.entry.told.now) }
{
    let about = about_of(alloc, asked.subject)?;
    match verdict {
        Verdict::No(_) if faults.all => list_lines(alloc, about.as_str(), asked.json, faults.told),
        verdict => line_about(alloc, about.as_str(), asked.json, verdict),
    }
}

/// The words that say which folder a line is about.
fn about_of(alloc: Global, subject: Subject<'_>) -> Result<String, AllocError>
    ensures { IfOk result (λ text. string_bytes text ≡ subject_text subject.entry) }
{
    let mut text = String::new(alloc);
    push_value(&mut text, "", &subject)?;
    Ok(text)
}

/// The lines of faults, as text or as JSON, each after these words.
fn list_lines(
    alloc: Global,
    about: &str,
    json: bool,
    faults: &[Fault],
) -> Result<String, AllocError>
    ensures { IfOk result (λ lines. string_bytes lines ≡ list_answer about.now json faults.now) }
{
    if json {
        fault_list_json(alloc, about, faults)
    } else {
        fault_list(alloc, about, faults)
    }
}

/// The line of a verdict after these words.
fn line_about(
    alloc: Global,
    about: &str,
    json: bool,
    verdict: &Verdict,
) -> Result<String, AllocError>
    ensures { IfOk result (λ text. string_bytes text ≡ about.now ++ verdict_answer json verdict.now) }
{
    let line = answer_line(alloc, verdict, json)?;
    let mut text = String::new(alloc);
    push_text(&mut text, about)?;
    push_text(&mut text, line.as_str())?;
    Ok(text)
}

/// The line of a verdict, as text or as JSON.
fn answer_line(alloc: Global, verdict: &Verdict, json: bool) -> Result<String, AllocError>
    ensures { IfOk result (λ line. string_bytes line ≡ verdict_answer json verdict.now) }
{
    if json {
        json_line(alloc, verdict)
    } else {
        verdict_line(alloc, verdict)
    }
}
