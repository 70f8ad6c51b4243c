//! Why a fold can't be taken.

ghost use Rattle.std.specs.Prelude.{◌≡◌};
ghost use Rattle.eos_fold_file.specs.declared.unfit.Unfit.TheVariants.{OutOfMemory};

use std::alloc::AllocError;

/// Why a fold can't be taken for what is asked.
#[derive(Clone, Copy)]
pub enum Unfit {
    /// It was folded for other roles, or for other source topics.
    Roles,
    /// It has a claim that no headers say.
    Record,
    /// A growth of memory was refused.
    OutOfMemory,
}

impl From<AllocError> for Unfit {
    ghost from_gives = { λ _ e. e ≡ OutOfMemory };

    fn from(_e: AllocError) -> Unfit {
        Unfit::OutOfMemory
    }
}
