//! How the transactions of a partition's log ended.

ghost use Rattle.std.specs.Prelude.{◌≡◌, ◌++◌, OnOk};
ghost use Rattle.std.specs.Option.{option_to_list};
ghost use Rattle.eos_fold.specs.Closes.{close_cmp, close_in};
ghost use Rattle.eos_fold.specs.Parts.{AreCloses};

use crate::{DataHead, Ending};
use eos_batch::Kind;
use std::alloc::AllocError;

/// A transactional data batch's producer id and epoch, and the epoch and kind of its next end marker: the one of its
/// producer id with the least greater offset. The order is that of the fields, Commit before Abort.
#[derive(Clone, Copy, PartialEq, Eq, PartialOrd, Ord)]
pub struct Close {
    pub producer: i64,
    pub epoch: i16,
    pub marker_epoch: i16,
    pub kind: Kind,
}

impl Close {
    /// Their order, which is the derived one.
    pub fn order(&self, other: &Close) -> std::cmp::Ordering
        ensures { result ≡ close_cmp self.now other.now }
    {
        self.cmp(other)
    }
}

/// The close of a data batch of this writer, if its transaction has ended.
fn close_of(writer: Option<(i64, i16)>, ending: Ending) -> Option<Close>
    ensures { option_to_list result ≡ close_in writer ending }
{
    let (producer, epoch) = writer?;
    let Ending::Ended {
        epoch: marker_epoch,
        kind,
    } = ending
    else {
        return None;
    };
    Some(Close {
        producer,
        epoch,
        marker_epoch,
        kind,
    })
}

/// Puts the close of a data batch of this writer at the end, if its transaction has ended.
fn push_ended(
    closes: &mut Vec<Close>,
    writer: Option<(i64, i16)>,
    ending: Ending,
) -> Result<(), AllocError>
    ensures { OnOk result (closes.new.items ≡ closes.old.items ++ close_in writer ending) }
{
    let Some(close) = close_of(writer, ending) else {
        return Ok(());
    };
    closes.push(close)?;
    Ok(())
}

/// Puts the close of the data batch with this head at the end, if its transaction has ended.
///
/// # Errors
/// Only want of memory.
pub fn push_close(closes: &mut Vec<Close>, head: &DataHead) -> Result<(), AllocError>
    ensures { OnOk result (closes.new.items ≡ closes.old.items ++ close_in head.now.writer head.now.ending) }
{
    push_ended(closes, head.writer(), head.ending())
}

/// Each unequal close once, in ascending order.
pub fn once(mut closes: Vec<Close>) -> Vec<Close>
    ensures { AreCloses closes.items result.items }
{
    closes.sort_unstable();
    closes.dedup();
    closes
}
