//! Which records of a transactional id say nothing new.

ghost use Rattle.std.specs.Prelude.{◌≡◌, IfOk, option_map};
ghost use Rattle.std.specs.Option.{option_copied};
ghost use Rattle.eos_txnlog.specs.Skips.{says_the_same, is_skipped};

use crate::partition_sets::is_same_set;
use crate::value::TxnValue;
use std::alloc::{AllocError, Global};

fn says_the_same(alloc: Global, before: &TxnValue, after: &TxnValue) -> Result<bool, AllocError>
    ensures { IfOk result (λ same. same ≡ says_the_same before.now after.now) }
{
    if after.status != before.status
        || after.producer != before.producer
        || after.epoch != before.epoch
    {
        return Ok(false);
    }
    is_same_set(
        alloc,
        before.partitions.as_slice(),
        after.partitions.as_slice(),
    )
}

/// Whether a record is skipped: its status means nothing here, or it says what the last unskipped record of its id said.
/// `next` is the record's value, `None` for a tombstone; `last` is the value of that other record, if there is one.
///
/// # Errors
/// Want of memory alone.
pub fn is_skipped(
    alloc: Global,
    last: Option<Option<&TxnValue>>,
    next: Option<&TxnValue>,
) -> Result<bool, AllocError>
    ensures { IfOk result (λ skipped. skipped ≡ is_skipped (option_map option_copied last.entry) (option_copied next.entry)) }
{
    let Some(after) = next else {
        return Ok(matches!(last, Some(None)));
    };
    if after.status.means_nothing() {
        return Ok(true);
    }
    match last {
        Some(Some(before)) => says_the_same(alloc, before, after),
        _ => Ok(false),
    }
}
