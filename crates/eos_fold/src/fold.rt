//! What is fed with a log's bytes.

use bytes::Bytes;
use std::alloc::{AllocError, Global};

/// What goes along a log's bytes, and takes them from the front of a buffer as far as they are whole.
pub trait ByteFold {
    ghost use Rattle.std.specs.Prelude.{◌≡◌, ◌≤◌, ◌++◌, ℕ, List, length, drop, IfOk};

    /// What it is told of the log each time.
    type Told;

    /// What it is after these bytes of a log, the last of which wait for more.
    ghost holds: { Self.Told → Self → List ℕ → List ℕ → Type 0 };

    /// Takes bytes from the front of a buffer, in which further bytes follow those that wait. The answer is how many it took.
    ///
    /// # Errors
    /// Only want of memory.
    fn take(
        &mut self,
        alloc: Global,
        told: &Self::Told,
        buffer: &Bytes,
    ) -> Result<usize, AllocError>
        ensures within { IfOk result (λ taken. taken ≤ length buffer.now) }
        ensures goes_on { IfOk result (λ taken. (fed waiting more : List ℕ) → holds told.now self.old fed waiting → buffer.now ≡ waiting ++ more
            → holds told.now self.new (fed ++ more) (drop taken buffer.now)) };
}
