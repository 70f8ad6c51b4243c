//! Lines of batches.

ghost use Rattle.std.specs.Prelude.{◌≡◌, ◌++◌, OnOk, codes, string_bytes};
ghost use Rattle.std.specs.Fmt.{signed_decimal};
ghost use Rattle.std.specs.Option.{option_copied};
ghost use Rattle.eos_text.specs.Adding.{Adds};
ghost use Rattle.eos_explaining.specs.Batches.{kind_role, end_text, data_text, content_text, touch_text, batch_line, no_batch_text, no_batch_line};

use eos_base::PartitionName;
use eos_batch::{BatchHead, Kind, Marker};
use eos_claims::Place;
use eos_sought::{Placed, Wanted};
use eos_story::{is_there, mark, push_at, push_name, push_spot};
use eos_text::{push_text, push_value};
use std::alloc::{AllocError, Global};

/// The word before a batch.
pub(crate) fn kind_role(wanted: Wanted) -> &'static str
    ensures { result.now ≡ kind_role wanted }
{
    match wanted {
        Wanted::Holding { .. } => " before   ",
        Wanted::Between { .. } => " between  ",
        Wanted::Of { .. } => " touch    ",
        Wanted::Ending { .. } | Wanted::Marking { .. } => " marker   ",
        Wanted::Data { .. } => " data     ",
        Wanted::Open { .. } => " open     ",
    }
}

fn push_end(out: &mut String, marker: Option<Marker>) -> Result<(), AllocError>
    ensures { OnOk result (Adds (string_bytes out.old) (string_bytes out.new) (end_text marker)) }
{
    match marker {
        None => push_text(out, " control"),
        Some(marker) => match marker.kind {
            Kind::Commit => push_text(out, " COMMIT"),
            Kind::Abort => push_text(out, " ABORT"),
        },
    }
}

fn push_data(out: &mut String, head: &BatchHead) -> Result<(), AllocError>
    ensures { OnOk result (Adds (string_bytes out.old) (string_bytes out.new) (data_text head.now)) }
{
    push_value(out, " sequence=", &head.sequence)?;
    push_value(out, " records=", &head.count)?;
    if head.is_transactional {
        push_text(out, " transactional")?;
    }
    Ok(())
}

fn push_content(out: &mut String, head: &BatchHead) -> Result<(), AllocError>
    ensures { OnOk result (Adds (string_bytes out.old) (string_bytes out.new) (content_text head.now)) }
{
    if head.is_control {
        push_end(out, head.marker)
    } else {
        push_data(out, head)
    }
}

fn push_touch(out: &mut String, head: &BatchHead) -> Result<(), AllocError>
    ensures { OnOk result (Adds (string_bytes out.old) (string_bytes out.new) (touch_text head.now)) }
{
    push_value(out, " producer=", &head.producer)?;
    push_value(out, " epoch=", &head.epoch)?;
    push_content(out, head)
}

/// Adds the line of a batch.
pub(crate) fn push_batch(
    alloc: Global,
    out: &mut String,
    fault: Option<&Place>,
    name: &PartitionName,
    batch: (Wanted, Placed),
) -> Result<(), AllocError>
    ensures { OnOk result (Adds (string_bytes out.old) (string_bytes out.new) (batch_line (option_copied fault.entry) name.now batch.0 batch.1)) }
{
    let (wanted, placed) = batch;
    let head = placed.standing.head;
    let is_fault = is_there(fault, name, head.offset);
    push_at(
        alloc,
        out,
        mark(is_fault, kind_role(wanted)),
        name,
        &head.offset,
    )?;
    push_spot(out, Some(placed))?;
    push_touch(out, &head)?;
    push_text(out, "\n")
}

fn push_absent(out: &mut String, wanted: Wanted) -> Result<(), AllocError>
    ensures { OnOk result (Adds (string_bytes out.old) (string_bytes out.new) (no_batch_text wanted)) }
{
    match wanted {
        Wanted::Holding { offset } => push_value(out, " has none that holds ", &offset),
        Wanted::Between { .. } => push_text(out, " has none"),
        Wanted::Of { producer } => push_value(out, " has none of producer=", &producer),
        Wanted::Open { producer, .. } => push_value(out, " has none of producer=", &producer),
        Wanted::Ending { producer, .. } => push_value(out, " HAS NONE of producer=", &producer),
        Wanted::Marking { producer, epoch } => push_both(
            out,
            " HAS NONE of producer=",
            producer,
            epoch,
        ),
        Wanted::Data { producer, epoch } => push_both(
            out,
            " has none of producer=",
            producer,
            epoch,
        ),
    }
}

fn push_both(out: &mut String, label: &str, producer: i64, epoch: i16) -> Result<(), AllocError>
    ensures { OnOk result (Adds (string_bytes out.old) (string_bytes out.new) ((label.now ++ signed_decimal producer) ++ (codes " epoch=" ++ signed_decimal epoch))) }
{
    push_value(out, label, &producer)?;
    push_value(out, " epoch=", &epoch)?;
    Ok(())
}

/// Adds the line that says that a partition has no batch that is wanted.
pub(crate) fn push_no_batch(
    alloc: Global,
    out: &mut String,
    name: &PartitionName,
    wanted: Wanted,
) -> Result<(), AllocError>
    ensures { OnOk result (Adds (string_bytes out.old) (string_bytes out.new) (no_batch_line name.now wanted)) }
{
    push_name(alloc, out, kind_role(wanted), name)?;
    push_absent(out, wanted)?;
    push_text(out, "\n")
}
