//! Why the faults of a source's evidence aren't listed.

ghost use Rattle.std.specs.Prelude.{◌≡◌};
ghost use Rattle.eos_source_check.specs.declared.fault.Unlisted.TheVariants.{OutOfMemory};

use std::alloc::{AllocError, AllocFailed};

/// Why they aren't, where the refusals of the source are of type `F`.
#[derive(Drop)]
pub enum Unlisted<F> {
    /// The source refused a piece.
    Refused(F),
    /// The piece of this number is to be read again, and is a fold.
    Fold(u64),
    /// A partition whose first piece has this number is another than when it was judged: its least fault is another. One that is
    /// another with the same least fault isn't refused, but listed as it is read now.
    Changed(u64),
    /// A growth of memory was refused.
    OutOfMemory,
}

impl<F> From<AllocError> for Unlisted<F> {
    ghost from_gives = { λ _ e. e ≡ OutOfMemory };

    fn from(_e: AllocError) -> Unlisted<F> {
        Unlisted::OutOfMemory
    }
}

impl<F, T: Drop> From<AllocFailed<T>> for Unlisted<F> {
    ghost from_gives = { λ _ e. e ≡ OutOfMemory };

    fn from(_e: AllocFailed<T>) -> Unlisted<F> {
        Unlisted::OutOfMemory
    }
}
