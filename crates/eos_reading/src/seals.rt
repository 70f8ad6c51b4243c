//! What a log says of a batch beside its head: its leader epoch and its checksum, by the bytes in which they stand.

ghost use Rattle.std.specs.Prelude.{◌≡◌, ◌≤◌, ◌<◌, ◌+◌, ◌^◌, ◌++◌, ℕ, List, length, drop, None, OnOk};
ghost use Rattle.eos_batch.specs.declared.batch.Batch.{Batch};
ghost use Rattle.eos_reading.specs.Epochs.{is_change, entry_at, epoch_behind};
ghost use Rattle.eos_reading.specs.Heads.{HasHeads};
ghost use Rattle.eos_reading.specs.Seals.{seal_from, AreSealed, entries_of};

use crate::epoch::{EpochEntry, is_change, last_epoch};
use bytes::Bytes;
use eos_batch::BatchHead;
use eos_wire::Cursor;
use std::alloc::AllocError;

/// Where a batch has its leader epoch, and where its checksum.
const LEADER_EPOCH: usize = 12;

const CHECKSUM: usize = 17;

/// A batch's leader epoch and its checksum.
#[derive(Clone, Copy)]
pub struct Seal {
    /// The batch's offset.
    pub offset: u64,
    pub leader_epoch: i32,
    pub checksum: u32,
}

/// The seal of the batch of this offset that begins at `at`.
fn read_seal(bytes: &Bytes, at: usize, offset: u64) -> Option<Seal>
    requires inside { at + 17 ≤ length bytes.now }
    requires small { length bytes.now < 2 ^ 63 }
    ensures { result ≡ seal_from offset (drop at bytes.now) }
{
    let Some(leader_epoch) = Cursor::starting_at(bytes, at + LEADER_EPOCH).i32() else {
        return None;
    };
    let Some(checksum) = Cursor::starting_at(bytes, at + CHECKSUM).u32() else {
        return None;
    };
    Some(Seal {
        offset,
        leader_epoch,
        checksum,
    })
}

/// Puts the seals of the batches at the front of these bytes, which have these heads, at the end.
#[tactic(auto, using(crate::proofs::SealSteps::read_none, crate::proofs::SealSteps::read_inside, crate::proofs::SealSteps::next_fits, crate::proofs::SealSteps::read_some, crate::proofs::SealSteps::read_on, crate::proofs::SealSteps::read_all))]
pub fn read_seals(
    bytes: &Bytes,
    heads: &[BatchHead],
    seals: &mut Vec<Seal>,
) -> Result<(), AllocError>
    requires heads { (batches : List Batch) × (rest : List ℕ) × HasHeads bytes.now batches heads.now rest }
    requires small { length bytes.now < 2 ^ 63 }
    ensures { OnOk result (AreSealed bytes.now heads.now seals.old.items seals.new.items) }
{
    let mut at = 0;
    for head in heads {
        let Some(seal) = read_seal(bytes, at, head.offset) else {
            unreachable!();
        };
        seals.push(seal)?;
        at += head.size;
    }
    Ok(())
}

/// Puts an entry at the end where the leader epoch is another than that of the batch before.
fn push_change(
    entries: &mut Vec<EpochEntry>,
    last: Option<i32>,
    seal: Seal,
) -> Result<(), AllocError>
    ensures { OnOk result (entries.new.items ≡ entries.old.items ++ entry_at (is_change last seal.leader_epoch) seal.offset seal.leader_epoch) }
{
    if !is_change(last, seal.leader_epoch) {
        return Ok(());
    }
    entries.push(EpochEntry {
        epoch: seal.leader_epoch,
        start_offset: seal.offset,
    })?;
    Ok(())
}

/// Puts the leader epochs of batches with these seals at the end, each with the offset at which it begins: behind the entries of the
/// batches before them one stands where a batch has another epoch than the one before.
#[tactic(auto, using(crate::proofs::SealLists::entries_on, crate::proofs::SealLists::entries_done))]
pub fn push_entries(entries: &mut Vec<EpochEntry>, seals: &[Seal]) -> Result<(), AllocError>
    ensures { OnOk result (entries.new.items ≡ entries.old.items ++ entries_of (epoch_behind None entries.old.items) seals.now) }
{
    let mut last = last_epoch(entries.as_slice());
    for seal in seals {
        push_change(entries, last, *seal)?;
        last = Some(seal.leader_epoch);
    }
    Ok(())
}
