//! How the transactions of a partition's log ended, by the heads of its data batches.

ghost use Rattle.std.specs.Prelude.{◌≡◌, IfOk};
ghost use Rattle.eos_fold.specs.Parts.{AreCloses};
ghost use Rattle.eos_kept.specs.steps.Closes.{closes_under};

use eos_fold::{Close, DataHead, once, push_close};
use std::alloc::{AllocError, Global};

/// The closes of a log's data batches, in the order of the log.
fn list_closes(alloc: Global, heads: &[DataHead]) -> Result<Vec<Close>, AllocError>
    ensures { IfOk result (λ closes. closes.items ≡ closes_under heads.now) }
{
    let mut closes = Vec::new(alloc);
    for head in heads {
        push_close(&mut closes, head)?;
    }
    Ok(closes)
}

/// The unequal closes of a log's data batches, in ascending order.
pub(crate) fn closes_of(alloc: Global, heads: &[DataHead]) -> Result<Vec<Close>, AllocError>
    ensures { IfOk result (λ closes. AreCloses (closes_under heads.now) closes.items) }
{
    let closes = list_closes(alloc, heads)?;
    Ok(once(closes))
}
