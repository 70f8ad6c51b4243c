//! Kept logs as the phases take them.

ghost use Rattle.std.specs.Prelude.{◌≡◌, IfOk, map};
ghost use Rattle.eos_source_check.specs.steps.Apart.{counted_as, IsApart};

use eos_base::Listed;
use eos_kept::Logs;
use eos_notes::Counted;
use eos_reading::EpochEntry;
use eos_source::{KeptLogs, Tally};
use std::alloc::{AllocError, Global};

/// What was counted of each partition's segments.
fn counted_in(alloc: Global, tallies: &[Tally]) -> Result<Vec<Counted>, AllocError>
    ensures { IfOk result (λ all. all.items ≡ map counted_as tallies.now) }
{
    let mut all = Vec::new(alloc);
    for tally in tallies {
        all.push(Counted {
            batches: tally.batches,
            segments: tally.sizes.segments,
            bytes: tally.sizes.bytes,
        })?;
    }
    Ok(all)
}

/// What is kept of an evidence's logs, each with its least fault, what was counted of their segments, and their leader epochs.
pub(crate) fn apart(
    alloc: Global,
    kept: KeptLogs,
) -> Result<(Logs, Vec<Counted>, Vec<Listed<EpochEntry>>), AllocError>
    ensures logs { IfOk result (λ r. IsApart kept r.0 r.1.items) }
    ensures epochs { IfOk result (λ r. r.2.items ≡ kept.epochs.items) }
{
    let KeptLogs {
        parts,
        faults,
        tallies,
        epochs,
        ..
    } = kept;
    let counted = counted_in(alloc, tallies.as_slice())?;
    Ok((Logs { parts, faults }, counted, epochs))
}
