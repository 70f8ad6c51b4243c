//! The lines of rows as they are told: with the time of its record at the end of each, and each line once.

ghost use Rattle.std.specs.Prelude.{◌≡◌, ℤ, Option, Some, IfOk, OnOk, map, slice_get, string_bytes};
ghost use Rattle.std.specs.Option.{option_copied};
ghost use Rattle.eos_text.specs.Adding.{Adds};
ghost use Rattle.eos_story.specs.declared.row.Row.{Row as ARow};
ghost use Rattle.eos_explaining.specs.RowLines.{row_line};
ghost use Rattle.eos_explaining.specs.Told.{when_text, told_line, told_lines};

use crate::lines::{add_line, front_of, push_terms};
use crate::rows::push_row;
use eos_claims::Place;
use eos_sought::push_time;
use eos_story::Row;
use eos_text::push_text;
use std::alloc::{AllocError, Global};

fn push_when(out: &mut String, time: Option<i64>) -> Result<(), AllocError>
    ensures { OnOk result (Adds (string_bytes out.old) (string_bytes out.new) (when_text time)) }
{
    match time {
        None => push_text(out, ""),
        Some(time) => {
            push_text(out, " at ")?;
            push_time(out, time)?;
            Ok(())
        }
    }
}

fn row_text(alloc: Global, place: Option<&Place>, row: &Row) -> Result<String, AllocError>
    ensures { IfOk result (λ text. string_bytes text ≡ row_line (option_copied place.entry) row.now) }
{
    let mut text = String::new(alloc);
    push_row(alloc, &mut text, place, row)?;
    Ok(text)
}

#[tactic(auto, unfolding(crate::specs::Told::told_line))]
fn told_line(
    alloc: Global,
    place: Option<&Place>,
    time: Option<i64>,
    row: &Row,
) -> Result<String, AllocError>
    ensures { (time_of : ARow → Option ℤ) → time ≡ time_of row.now → IfOk result (λ line. string_bytes line ≡ told_line (option_copied place.entry) time_of row.now) }
{
    let whole = row_text(alloc, place, row)?;
    let mut line = String::new(alloc);
    push_terms(&mut line, front_of(whole.as_str()))?;
    push_when(&mut line, time)?;
    push_text(&mut line, "\n")?;
    Ok(line)
}

/// The time of this number, if there is one.
fn time_at(times: &[Option<i64>], number: usize) -> Option<i64>
    ensures { (time : Option ℤ) → slice_get times.now number ≡ Some time → result ≡ time }
{
    if number < times.len() {
        times[number]
    } else {
        None
    }
}

/// The lines of these rows, each once. Each row has its own of these times.
pub(crate) fn told_lines(
    alloc: Global,
    place: Option<&Place>,
    times: &[Option<i64>],
    rows: &[Row],
) -> Result<Vec<String>, AllocError>
    ensures { (time_of : ARow → Option ℤ) → times.now ≡ map time_of rows.now → IfOk result (λ said. map string_bytes said.items ≡ told_lines (option_copied place.entry) time_of rows.now) }
{
    let mut said = Vec::new(alloc);
    for i in 0..rows.len() {
        let line = told_line(alloc, place, time_at(times, i), &rows[i])?;
        add_line(&mut said, line)?;
    }
    Ok(said)
}
