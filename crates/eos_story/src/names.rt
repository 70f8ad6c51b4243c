//! Places, and the words before them.

ghost use Rattle.std.specs.Prelude.{◌≡◌, ◌++◌, OnOk, string_bytes};
ghost use Rattle.std.specs.Option.{option_copied};
ghost use Rattle.eos_verdict.specs.FaultTexts.{name_text};
ghost use Rattle.eos_text.specs.Adding.{Adds};
ghost use Rattle.eos_story.specs.Places.{at_text, spot_text, is_there, mark_of};

use eos_base::PartitionName;
use eos_claims::Place;
use eos_sought::{Placed, is_same};
use eos_text::{push_text, push_value};
use std::alloc::{AllocError, Global};

/// Adds a label and the name of a partition.
pub fn push_name(
    alloc: Global,
    out: &mut String,
    label: &str,
    name: &PartitionName,
) -> Result<(), AllocError>
    ensures { OnOk result (Adds (string_bytes out.old) (string_bytes out.new) (label.now ++ name_text name.now.topic name.now.partition)) }
{
    eos_verdict::push_name(alloc, out, label, name.topic.as_slice(), &name.partition)
}

/// Adds a label and an offset of a partition.
pub fn push_at(
    alloc: Global,
    out: &mut String,
    label: &str,
    name: &PartitionName,
    offset: &u64,
) -> Result<(), AllocError>
    ensures { OnOk result (Adds (string_bytes out.old) (string_bytes out.new) (label.now ++ at_text name.now offset.now)) }
{
    push_name(alloc, out, label, name)?;
    push_value(out, ":", offset)?;
    Ok(())
}

/// Adds where a batch stands, if it is known.
pub fn push_spot(out: &mut String, spot: Option<Placed>) -> Result<(), AllocError>
    ensures { OnOk result (Adds (string_bytes out.old) (string_bytes out.new) (spot_text spot)) }
{
    match spot {
        None => push_text(out, ""),
        Some(placed) => {
            push_value(out, " byte ", &placed.standing.byte)?;
            push_value(out, " of segment ", &placed.segment)?;
            Ok(())
        }
    }
}

/// Whether this is the fault's place.
pub fn is_there(fault: Option<&Place>, name: &PartitionName, offset: u64) -> bool
    ensures { result ≡ is_there (option_copied fault.entry) name.now offset }
{
    match fault {
        None => false,
        Some(place) => {
            is_same(place.partition.topic.as_slice(), name.topic.as_slice())
                && place.partition.partition == name.partition
                && place.offset == offset
        }
    }
}

/// The word before a place: its role, or that the fault is there.
pub fn mark<'a>(is_fault: bool, role: &'a str) -> &'a str
    ensures { result.now ≡ mark_of is_fault role.now }
{
    if is_fault { " fault    " } else { role }
}
