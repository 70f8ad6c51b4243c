//! Where the pieces of an evidence are read from.

use eos_evidence::ReadFault;
use eos_fold_file::{FoldFile, Unfit};
use std::alloc::{AllocError, Global};
use std::io::Read;

/// A piece as it was opened.
#[derive(Drop)]
pub enum Piece<R> {
    /// A log, whose bytes the reader has left.
    Log(R),
    /// A fold of it.
    Fold(FoldFile),
}

/// What the pieces of an evidence are read from, by their numbers: partitions in order, each with its segments by base. Threads
/// share it.
pub trait Source: Sync {
    ghost use Rattle.std.specs.Prelude.{◌≡◌, ℕ, Bool, true, false, Option, None, Some, IfOk, IfErr, IfSome, ⊤};
    ghost use Rattle.eos_source.specs.Said.{Said, WillSay, IsOpenedLog, IsLegalPiece};

    /// What a piece is read from that is a log.
    type Reader: Read + Drop + Send;

    /// Why a piece, or memory for what is kept of it, isn't there.
    type Fault: From<AllocError> + Drop + Send;

    /// What a piece will say, where it is known.
    ghost said: { Self → ℕ → Option Said };

    /// Whether a piece is known to be a log, of whatever bytes.
    ghost is_log: { Self → ℕ → Bool } = { λ source piece. false };

    /// What can become of a piece, as far as that is known: it was opened, or it was refused for this fault.
    ghost outcomes: { Self → ℕ → Option Self.Fault → Type 0 } = { λ source piece why. ⊤ };

    /// Opens the piece of this number.
    fn open(&self, alloc: Global, piece: u64) -> Result<Piece<Self::Reader>, Self::Fault>
        ensures said { IfOk result (λ opened. IfSome (said self.now piece) (WillSay Self.Reader.remaining opened)) }
        ensures log { is_log self.now piece ≡ true → IfOk result IsOpenedLog }
        ensures legal { IfOk result IsLegalPiece }
        ensures opened { IfOk result (λ opened. outcomes self.now piece None) }
        ensures refused { IfErr result (λ why. outcomes self.now piece (Some why)) };

    /// Why reading a log, which was opened, ended so.
    fn refusal(
        &self,
        alloc: Global,
        piece: u64,
        reader: &mut Self::Reader,
        why: ReadFault,
    ) -> Self::Fault
        ensures { outcomes self.now piece (Some result) };

    /// Why a fold, which was opened, can't be taken for what is asked of its piece.
    fn unfit(&self, alloc: Global, piece: u64, why: Unfit) -> Self::Fault
        ensures { outcomes self.now piece (Some result) };
}
