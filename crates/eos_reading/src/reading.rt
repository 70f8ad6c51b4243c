//! What is wanted of a log's data records.

use crate::kept_list::KeptList;
use crate::placed::Placed;
use std::alloc::{AllocError, Global};

/// What is kept of a data record, and how.
pub trait Reading {
    ghost use Rattle.std.specs.Prelude.{◌≡◌, ◌++◌, ◌∷◌, [], ℕ, OnOk, OnErr};
    ghost use Rattle.eos_batch.specs.declared.record.Record.{Record};

    /// Where it lies. It holds no bytes of the log.
    type Kept: KeptList + Drop;

    /// Of the record at this offset.
    ghost kept: { Self → ℕ → Record → Self.Kept.One };

    /// Puts what is kept of the record at this offset at the end of these.
    ///
    /// # Errors
    /// Only want of memory; then nothing more is kept.
    fn keep(
        &self,
        alloc: Global,
        to: &mut Self::Kept,
        offset: u64,
        placed: Placed<'_>,
    ) -> Result<(), AllocError>
        ensures ok { OnOk result (Self.Kept.list to.new ≡ Self.Kept.list to.old ++ kept self.now offset placed.entry ∷ []) }
        ensures err { OnErr result (Self.Kept.list to.new ≡ Self.Kept.list to.old) };
}
