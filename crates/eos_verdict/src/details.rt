//! What stood at a fault of one partition.

ghost use Rattle.std.specs.Prelude.{◌≡◌, ◌++◌, OnOk, string_bytes, codes};
ghost use Rattle.std.specs.Fmt.{decimal};
ghost use Rattle.eos_text.specs.Adding.{Adds};
ghost use Rattle.eos_verdict.specs.Details.{details};

use eos_text::push_value;
use eos_touch::PartitionFaultKind;
use std::alloc::AllocError;

/// Adds what stood at a fault of one partition, by its kind.
#[tactic(auto, unfolding(crate::specs::Details::details))]
pub fn push_details(out: &mut String, kind: &PartitionFaultKind) -> Result<(), AllocError>
    ensures { OnOk result (Adds (string_bytes out.old) (string_bytes out.new) (details kind.now)) }
{
    match kind {
        PartitionFaultKind::BadBatch {
            segment,
            byte,
            batch,
        } => push_refusal(out, segment, byte, batch.name()),
        PartitionFaultKind::Gap { found } => push_value(out, " found=", found),
        PartitionFaultKind::Pair { producer, .. } => push_value(out, " producer=", producer),
        PartitionFaultKind::End { end } => push_value(out, " end=", end),
        PartitionFaultKind::OpenAtEnd { producer } => push_value(out, " producer=", producer),
    }
}

fn push_refusal(out: &mut String, segment: &u64, byte: &u64, name: &str) -> Result<(), AllocError>
    ensures { OnOk result (Adds (string_bytes out.old) (string_bytes out.new)
        ((codes " segment=" ++ decimal segment.now) ++ ((codes " byte=" ++ decimal byte.now) ++ (codes " batch=" ++ name.now)))) }
{
    push_value(out, " segment=", segment)?;
    push_value(out, " byte=", byte)?;
    push_value(out, " batch=", &name)?;
    Ok(())
}
