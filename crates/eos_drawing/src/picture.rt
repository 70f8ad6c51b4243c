//! The picture of an evidence that was judged.

ghost use Rattle.std.specs.Prelude.{IfOk};
ghost use Rattle.std.specs.Option.{option_copied};
ghost use Rattle.eos_drawing.specs.Pictures.{IsPictureOf};
ghost use Rattle.eos_evidence.specs.Evidence.{EvidenceParts};
ghost use Rattle.eos_source_check.specs.Judged.{IsJudgedFor};

use eos_evidence::Spec;
use eos_picture::{Picture, picture_of};
use eos_source_check::Judged;
use eos_verdict::Fault;
use std::alloc::{AllocError, Global};

/// The picture around a fault, with so many transactions on each side, or without a fault of the first transactions, twice so many.
/// It is made of what is kept of the logs, and it is one of the logs of each evidence of which this was judged.
///
/// # Errors
/// Only want of memory.
pub fn judged_picture(
    alloc: Global,
    spec: &Spec,
    judged: &Judged,
    fault: Option<&Fault>,
    around: usize,
) -> Result<Picture, AllocError>
    ensures { (e : EvidenceParts) → IsJudgedFor judged.now e → IfOk result (IsPictureOf e (option_copied fault.entry) around) }
{
    let apps = spec.apps().as_slice();
    let picture = picture_of(alloc, apps, judged.logs.parts.as_slice(), fault, around)?;
    Ok(picture)
}
