//! What a fault means and what to do next, by what its rows show.

ghost use Rattle.std.specs.Prelude.{◌≡◌, IfOk, OnOk, string_bytes};
ghost use Rattle.std.specs.Option.{option_copied};
ghost use Rattle.eos_text.specs.Adding.{Adds};
ghost use Rattle.eos_explaining.specs.Sentences.{row_place, first_place, segment_place, case_text, kind_text, sentences_text, shown_by, shown_of};

use eos_base::PartitionName;
use eos_sought::Placed;
use eos_story::{Row, Told, bearer, push_at, push_name};
use eos_text::{Case, Page, push_text, push_value};
use std::alloc::{AllocError, Global};

fn push_first_place(
    alloc: Global,
    out: &mut String,
    name: &PartitionName,
    placed: Option<Placed>,
) -> Result<(), AllocError>
    ensures { OnOk result (Adds (string_bytes out.old) (string_bytes out.new) (first_place name.now placed)) }
{
    match placed {
        None => push_name(alloc, out, "", name),
        Some(placed) => push_at(alloc, out, "", name, &placed.standing.head.offset),
    }
}

fn push_segment_place(
    alloc: Global,
    out: &mut String,
    name: &PartitionName,
    base: u64,
) -> Result<(), AllocError>
    ensures { OnOk result (Adds (string_bytes out.old) (string_bytes out.new) (segment_place name.now base)) }
{
    push_name(alloc, out, "", name)?;
    push_value(out, " segment ", &base)
}

/// Adds the place that a row is of.
fn push_row_place(alloc: Global, out: &mut String, row: &Row) -> Result<(), AllocError>
    ensures { OnOk result (Adds (string_bytes out.old) (string_bytes out.new) (row_place row.now)) }
{
    match row {
        Row::Record { find, .. } => push_at(alloc, out, "", &find.partition, &find.item.offset),
        Row::Batch {
            partition,
            placed,
            ..
        } => push_first_place(alloc, out, partition, Some(*placed)),
        Row::First {
            partition,
            placed,
            ..
        } => push_first_place(alloc, out, partition, *placed),
        Row::Segment {
            partition,
            base,
            ..
        } => push_segment_place(alloc, out, partition, *base),
        Row::End { partition, .. } => push_name(alloc, out, "", partition),
        _ => push_text(out, ""),
    }
}

fn push_case(alloc: Global, out: &mut String, case: &Case, row: &Row) -> Result<(), AllocError>
    ensures { OnOk result (Adds (string_bytes out.old) (string_bytes out.new) (case_text case.now row.now)) }
{
    push_text(out, "Means: ")?;
    push_text(out, case.means)?;
    push_text(out, "\nShown by: ")?;
    push_row_place(alloc, out, row)?;
    push_text(out, "\nNext: ")?;
    push_text(out, case.next)?;
    push_text(out, "\n")
}

fn push_kind(out: &mut String, page: &Page) -> Result<(), AllocError>
    ensures { OnOk result (Adds (string_bytes out.old) (string_bytes out.new) (kind_text page.now)) }
{
    push_text(out, "Means: ")?;
    push_text(out, page.means)?;
    push_text(out, "\nNext: ")?;
    push_text(out, page.next)?;
    push_text(out, "\n")
}

fn push_by(
    alloc: Global,
    out: &mut String,
    told: &Told<'_>,
    page: &Page,
    cases: &[Case],
) -> Result<(), AllocError>
    ensures { OnOk result (Adds (string_bytes out.old) (string_bytes out.new) (sentences_text (option_copied told.now.place) told.now.rows.now page.now cases.now)) }
{
    for case in cases {
        if let Some(row) = bearer(alloc, case.sign, told)? {
            return push_case(alloc, out, case, row);
        }
    }
    push_kind(out, page)
}

/// Adds what a fault means and what to do next: by the first case of its page that its rows show, or else by its kind.
pub(crate) fn push_sentences(
    alloc: Global,
    out: &mut String,
    told: &Told<'_>,
    page: &Page,
) -> Result<(), AllocError>
    ensures { OnOk result (Adds (string_bytes out.old) (string_bytes out.new) (sentences_text (option_copied told.now.place) told.now.rows.now page.now page.now.cases.now)) }
{
    push_by(alloc, out, told, page, page.cases)
}

fn shown_by<'a>(
    alloc: Global,
    told: &Told<'a>,
    cases: &[Case],
) -> Result<Option<&'a Row>, AllocError>
    ensures { IfOk result (λ row. option_copied row ≡ shown_by (option_copied told.now.place) told.now.rows.now cases.now) }
{
    for case in cases {
        if let Some(row) = bearer(alloc, case.sign, told)? {
            return Ok(Some(row));
        }
    }
    Ok(None)
}

/// The row that shows the case, if there is one.
pub(crate) fn shown_of<'a>(
    alloc: Global,
    told: &Told<'a>,
    page: Option<&Page>,
) -> Result<Option<&'a Row>, AllocError>
    ensures { IfOk result (λ row. option_copied row ≡ shown_of (option_copied told.now.place) told.now.rows.now (option_copied page.entry)) }
{
    match page {
        None => Ok(None),
        Some(page) => shown_by(alloc, told, page.cases),
    }
}
