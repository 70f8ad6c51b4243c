//! What a fold keeps of its batches' seals: their leader epochs, where they change, and one checksum of theirs.

ghost use Rattle.std.specs.Prelude.{◌≡◌, flat_map, None, IfOk};
ghost use Rattle.eos_reading.specs.Seals.{entries_of};
ghost use Rattle.eos_wire.specs.Crc.{crc32c_of};
ghost use Rattle.eos_fold_file.specs.steps.Seals.{checksum_text};

use eos_reading::{EpochEntry, Seal, push_entries};
use eos_wire::{crc32c, write_u32};
use std::alloc::{AllocError, Global};

/// The leader epochs of batches with these seals, each with the offset at which it begins.
pub(crate) fn entries_of(alloc: Global, seals: &[Seal]) -> Result<Vec<EpochEntry>, AllocError>
    ensures { IfOk result (λ entries. entries.items ≡ entries_of None seals.now) }
{
    let mut entries = Vec::new(alloc);
    push_entries(&mut entries, seals)?;
    Ok(entries)
}

/// CRC-32C of the checksums of batches with these seals.
#[tactic(auto, using(crate::proofs::SealLists::fields_on, crate::proofs::SealLists::fields_done))]
pub(crate) fn checksum_of(alloc: Global, seals: &[Seal]) -> Result<u32, AllocError>
    ensures { IfOk result (λ checksum. checksum ≡ crc32c_of (flat_map checksum_text seals.now)) }
{
    let mut fields = Vec::new(alloc);
    for seal in seals {
        write_u32(&mut fields, seal.checksum)?;
    }
    Ok(crc32c(fields.as_slice()))
}
