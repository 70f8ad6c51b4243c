//! The batches of a segment.

ghost use Rattle.std.specs.Prelude.{◌≡◌, ◌+◌, ◌++◌, ◌∷◌, [], filter, IfOk, OnOk};
ghost use Rattle.eos_sought.specs.Folded.{wanted_in};
ghost use Rattle.eos_sought.specs.Wanted.{is_wanted};

use crate::wanted::{Standing, Wanted};
use eos_fold_file::{FoldFile, FoldHead};
use std::alloc::{AllocError, Global};

fn push_wanted(
    found: &mut Vec<Standing>,
    wanted: Wanted,
    standing: Standing,
) -> Result<(), AllocError>
    ensures { OnOk result (found.new.items ≡ found.old.items ++ filter (λ s. is_wanted wanted s.head) (standing ∷ [])) }
{
    if wanted.is_met(standing.head) {
        found.push(standing)?;
    }
    Ok(())
}

/// The byte and the offset behind a batch that stands there: no segment has as many of either as 64 bits count.
fn behind(head: &FoldHead, byte: usize, next: u64) -> Result<(usize, u64), AllocError>
    ensures { IfOk result (λ after. (after.0 ≡ byte + head.now.size) × (after.1 ≡ next + head.now.count)) }
{
    match (
        byte.checked_add(head.size),
        next.checked_add(u64::from(head.count)),
    ) {
        (Some(byte), Some(next)) => Ok((byte, next)),
        _ => Err(AllocError),
    }
}

/// The batches of the segment with this fold that are wanted, in order, each with its byte.
///
/// # Errors
/// Want of memory. A byte or an offset past 64 bits, which no segment has, counts as one.
pub fn batches_in(
    alloc: Global,
    fold: &FoldFile,
    wanted: Wanted,
) -> Result<Vec<Standing>, AllocError>
    ensures { IfOk result (λ found. found.items ≡ wanted_in fold.now wanted) }
{
    let heads = fold.heads.as_slice();
    let mut found = Vec::new(alloc);
    let mut byte = 0usize;
    let mut next = fold.base.unsigned_abs();
    for head in heads {
        let standing = Standing {
            byte,
            head: head.at(next),
        };
        push_wanted(&mut found, wanted, standing)?;
        let after = behind(head, byte, next)?;
        byte = after.0;
        next = after.1;
    }
    Ok(found)
}
