//! A story and its text.

ghost use Rattle.std.specs.Prelude.{◌≡◌, ℤ, Option, OnOk, IfOk, map, take, string_bytes};
ghost use Rattle.std.specs.Option.{option_copied};
ghost use Rattle.eos_text.specs.Adding.{Adds};
ghost use Rattle.eos_notes.specs.Texts.{note_lines as lines_of};
ghost use Rattle.eos_verdict.specs.VerdictTexts.{verdict_line};
ghost use Rattle.eos_story.specs.declared.row.Row.{Row as ARow};
ghost use Rattle.eos_explaining.specs.Lines.{AreAmong, AreDistinct};
ghost use Rattle.eos_explaining.specs.Stories.{lines_of_first, lines_of_story, rows_text, rest_text, page_text, notes_text, next_text, story_text};

use crate::command::push_command;
use crate::lines::push_joined;
use crate::rows::push_more;
use crate::sentences::{push_sentences, shown_of};
use crate::told::told_lines;
use eos_check::Verdict;
use eos_claims::Place;
use eos_notes::{Note, note_lines};
use eos_story::{Row, Told};
use eos_text::{Page, push_text};
use eos_verdict::verdict_line;
use std::alloc::{AllocError, Global};

/// How many lines of rows there are at most, and of notes.
const MOST_ROWS: usize = 22;

const MOST_NOTES: usize = 6;

/// A fault, and what is told of it.
#[derive(Clone, Copy)]
pub struct Story<'a> {
    /// The folder of the evidence, as it was named.
    pub folder: &'a str,
    /// The verdict that names it.
    pub verdict: &'a Verdict,
    /// Its place, if it has one.
    pub place: Option<&'a Place>,
    /// The places that it is about.
    pub rows: &'a [Row],
    /// The catalogue's page of its kind.
    pub page: Option<&'a Page>,
    /// The line of how many faults there are of each kind.
    pub counts: &'a str,
    /// The notes on the evidence.
    pub notes: &'a [Note],
}

/// That there are more than are shown, if so.
fn push_rest(out: &mut String, shown: usize, all: usize) -> Result<(), AllocError>
    ensures { OnOk result (Adds (string_bytes out.old) (string_bytes out.new) (rest_text shown all)) }
{
    if all <= shown {
        return push_text(out, "");
    }
    push_more(out, shown as u64, all as u64)
}

/// The lines that are shown.
fn shown_lines(lines: &[String]) -> &[String]
    ensures { result.now ≡ take 22 lines.now }
{
    &lines[..MOST_ROWS.min(lines.len())]
}

/// The rows that what is meant follows from: the lines of all of them are shown.
fn shown_rows(rows: &[Row]) -> &[Row]
    ensures { result.now ≡ take 22 rows.now }
{
    &rows[..MOST_ROWS.min(rows.len())]
}

fn push_rows(
    alloc: Global,
    out: &mut String,
    story: &Story<'_>,
    times: &[Option<i64>],
) -> Result<(), AllocError>
    ensures { (time_of : ARow → Option ℤ) → times.now ≡ map time_of story.now.rows.now → OnOk result (Adds (string_bytes out.old) (string_bytes out.new) (rows_text (lines_of_story time_of story.now))) }
{
    let lines = told_lines(alloc, story.place, times, story.rows)?;
    push_joined(out, shown_lines(lines.as_slice()))?;
    push_rest(out, MOST_ROWS, lines.len())
}

/// What the fault means and what to do next, by the rows that are shown.
fn push_page(
    alloc: Global,
    out: &mut String,
    place: Option<&Place>,
    rows: &[Row],
    page: Option<&Page>,
) -> Result<(), AllocError>
    ensures { OnOk result (Adds (string_bytes out.old) (string_bytes out.new) (page_text (option_copied place.entry) rows.now (option_copied page.entry))) }
{
    let told = Told {
        place,
        rows: shown_rows(rows),
    };
    match page {
        None => push_text(out, ""),
        Some(page) => push_sentences(alloc, out, &told, page),
    }
}

fn push_notes(alloc: Global, out: &mut String, notes: &[Note]) -> Result<(), AllocError>
    ensures { OnOk result (Adds (string_bytes out.old) (string_bytes out.new) (notes_text notes.now)) }
{
    let lines = note_lines(alloc, &notes[..MOST_NOTES.min(notes.len())])?;
    push_text(out, lines.as_str())?;
    push_rest(out, MOST_NOTES, notes.len())
}

/// The command to run next.
fn push_next(alloc: Global, out: &mut String, story: &Story<'_>) -> Result<(), AllocError>
    ensures { OnOk result (Adds (string_bytes out.old) (string_bytes out.new) (next_text story.now)) }
{
    let told = Told {
        place: story.place,
        rows: shown_rows(story.rows),
    };
    let shown = shown_of(alloc, &told, story.page)?;
    push_command(alloc, out, story.folder, &told, shown)
}

/// The text of a story: the line of its fault, the first lines of its rows, each once and with the time of its record, of which each row
/// has its own of these, what the fault means and what to do next by what these show, how many faults of each kind there are, the first notes,
/// and the command to run next. These are 40 lines at most.
///
/// # Errors
/// Only want of memory.
pub fn story_text(
    alloc: Global,
    story: &Story<'_>,
    times: &[Option<i64>],
) -> Result<String, AllocError>
    ensures text { (time_of : ARow → Option ℤ) → times.now ≡ map time_of story.now.rows.now → IfOk result (λ text. string_bytes text ≡ story_text time_of story.now) }
    ensures once { (time_of : ARow → Option ℤ) → IfOk result (λ text. AreDistinct (lines_of_story time_of story.now)) }
    ensures shown { (time_of : ARow → Option ℤ) → IfOk result (λ text. AreAmong (take 22 (lines_of_story time_of story.now)) (lines_of_first time_of story.now)) }
{
    let mut text = verdict_line(alloc, story.verdict)?;
    push_rows(alloc, &mut text, story, times)?;
    push_page(alloc, &mut text, story.place, story.rows, story.page)?;
    push_text(&mut text, story.counts)?;
    push_notes(alloc, &mut text, story.notes)?;
    push_next(alloc, &mut text, story)?;
    Ok(text)
}
