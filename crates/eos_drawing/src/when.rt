//! When the records of a picture's marks were written.

ghost use Rattle.std.specs.Prelude.{◌≡◌, ◌++◌, IfOk, IfErr, OnOk};
ghost use Rattle.eos_source.specs.FirstRefusals.{pieces_of};
ghost use Rattle.eos_source.specs.Said.{known_by};
ghost use Rattle.eos_source_check.specs.Refusals.{IsRefusedAgain};
ghost use Rattle.eos_source_check.specs.Times.{AreTimesEach};
ghost use Rattle.eos_picture.specs.Titles.{mark_offset};
ghost use Rattle.eos_drawing.specs.Whens.{listed, offsets_of, AreTimesOfRows};

use eos_base::{Listed, Sorted};
use eos_evidence::Evidence;
use eos_picture::{Mark, Row, Times, offset_of};
use eos_source::Source;
use eos_source_check::{Unlisted, times_each};
use std::alloc::{AllocError, Global};

fn push_offset(offsets: &mut Vec<u64>, mark: &Mark) -> Result<(), AllocError>
    ensures { OnOk result (offsets.new.items ≡ offsets.old.items ++ listed (mark_offset mark.now)) }
{
    if let Some(offset) = offset_of(mark) {
        offsets.push(offset)?;
    }
    Ok(())
}

fn offsets_of(alloc: Global, marks: &[Mark]) -> Result<Vec<u64>, AllocError>
    ensures { IfOk result (λ offsets. offsets.items ≡ offsets_of marks.now) }
{
    let mut offsets = Vec::new(alloc);
    for mark in marks {
        push_offset(&mut offsets, mark)?;
    }
    Ok(offsets)
}

fn times_of_row<S: Source>(
    alloc: Global,
    source: &S,
    shape: &Evidence,
    row: &Row,
) -> Result<Times, Unlisted<S::Fault>>
    ensures times { IfOk result (λ times. AreTimesEach (known_by (S.said source.now) (S.is_log source.now)) shape.now.partitions row.now.name (offsets_of row.now.marks.items) times.at) }
    ensures refused { IfErr result (IsRefusedAgain (S.outcomes source.now) (pieces_of shape.now)) }
{
    let marked = offsets_of(alloc, row.marks.as_slice())?;
    let offsets = Sorted::of(marked);
    let times = times_each(alloc, source, shape, &row.name, &offsets)?;
    Ok(Times {
        at: Listed::new(times),
    })
}

/// The times of the records at the marks of these rows. The segments in which they lie are read again.
///
/// # Errors
/// A segment isn't there any more, or can't be read; or want of memory.
pub(crate) fn times_of_rows<S: Source>(
    alloc: Global,
    source: &S,
    shape: &Evidence,
    rows: &[Row],
) -> Result<Vec<Times>, Unlisted<S::Fault>>
    ensures times { IfOk result (λ times. AreTimesOfRows (known_by (S.said source.now) (S.is_log source.now)) shape.now.partitions rows.now times.items) }
    ensures refused { IfErr result (IsRefusedAgain (S.outcomes source.now) (pieces_of shape.now)) }
{
    let mut times = Vec::new(alloc);
    for row in rows {
        times.push(times_of_row(alloc, source, shape, row)?)?;
    }
    Ok(times)
}
