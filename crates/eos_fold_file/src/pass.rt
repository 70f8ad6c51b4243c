//! The batches of a segment's front: those that follow one another from the segment's name on.

ghost use Rattle.std.specs.Prelude.{◌≡◌, ◌≤◌, ◌^◌, IfOk};
ghost use Rattle.eos_fold_file.specs.Files.{data_records};
ghost use Rattle.eos_fold_file.specs.Heads.{fold_head};
ghost use Rattle.eos_fold_file.specs.steps.Passing.{AllFit, Passes};

use crate::FoldHead;
use eos_base::Listed;
use eos_batch::BatchHead;
use std::alloc::{AllocError, Global};

/// The batches that were passed.
#[derive(Drop)]
pub(crate) struct Passed {
    /// The head of each.
    pub(crate) heads: Listed<FoldHead>,
    /// The number of their data records.
    pub(crate) records: usize,
    /// Where the next one begins, if it begins elsewhere than where they end.
    pub(crate) found: Option<u64>,
}

/// The number of a batch's data records.
fn data_records(head: &BatchHead) -> usize
    ensures value { result ≡ data_records (fold_head head.now) }
    ensures bound { result ≤ head.now.count }
{
    if head.is_control {
        return 0;
    }
    head.count as usize
}

/// Passes batches up to one that begins elsewhere than where the one before ends. The first has to begin at `begin`.
///
/// # Errors
/// Only want of memory.
pub(crate) fn pass_heads(
    alloc: Global,
    begin: u64,
    heads: &[BatchHead],
) -> Result<Passed, AllocError>
    requires begin { begin ≤ 2 ^ 63 }
    requires fit { AllFit heads.now }
    ensures { IfOk result (Passes begin heads.now) }
{
    let mut passed = Vec::with_capacity(alloc, heads.len())?;
    let mut records = 0;
    let mut next = begin;
    for head in heads {
        if head.offset != next {
            return Ok(Passed {
                heads: Listed::new(passed),
                records,
                found: Some(head.offset),
            });
        }
        passed.push(FoldHead::of(head))?;
        records += data_records(head);
        next += u64::from(head.count);
    }
    Ok(Passed {
        heads: Listed::new(passed),
        records,
        found: None,
    })
}
