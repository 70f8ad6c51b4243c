//! The leader epochs of a front's batches, by the offsets at which they change.

ghost use Rattle.std.specs.Prelude.{◌≡◌, ◌≤◌, ◌+◌, ◌++◌, length, vec_len, vec_capacity, None, IsOk, OnOk};
ghost use Rattle.eos_reading.specs.Epochs.{is_change, epoch_behind, entries_behind};

use std::alloc::AllocError;

/// A leader epoch, and the offset of the first batch that has it.
#[derive(Clone, Copy)]
pub struct EpochEntry {
    pub epoch: i32,
    pub start_offset: u64,
}

/// Whether a batch of this leader epoch has another one than the batch before, or is the first.
pub fn is_change(last: Option<i32>, epoch: i32) -> bool
    ensures { result ≡ is_change last epoch }
{
    match last {
        None => true,
        Some(last) => last != epoch,
    }
}

/// The leader epoch of the last batch with these entries.
pub(crate) fn last_epoch(entries: &[EpochEntry]) -> Option<i32>
    ensures { result ≡ epoch_behind None entries.now }
{
    match entries.last() {
        None => None,
        Some(entry) => Some(entry.epoch),
    }
}

/// The entries of batches that follow one of this epoch: the first only where its epoch is another.
fn following(last: Option<i32>, more: &[EpochEntry]) -> &[EpochEntry]
    ensures value { result.now ≡ entries_behind last more.now }
    ensures within { length result.now ≤ length more.now }
{
    let Some(first) = more.first() else {
        return more;
    };
    if is_change(last, first.epoch) {
        return more;
    }
    &more[1..]
}

/// Puts the entries of batches that follow at the end: the first of them only where its epoch is another than the last one. Where
/// there is room for all of them it is done.
///
/// # Errors
/// Only want of memory.
pub fn append_entries(entries: &mut Vec<EpochEntry>, more: &[EpochEntry]) -> Result<(), AllocError>
    ensures items { OnOk result (entries.new.items ≡ entries.old.items ++ entries_behind (epoch_behind None entries.old.items) more.now) }
    ensures room { vec_len entries.old + length more.now ≤ vec_capacity entries.old → IsOk result }
{
    let last = last_epoch(entries.as_slice());
    entries.extend_from_slice(following(last, more))?;
    Ok(())
}
