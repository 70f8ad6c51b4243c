//! Why the front of a partition's log ends.

ghost use Rattle.std.specs.Prelude.{◌≡◌, ◌≢◌, true, false};
ghost use Rattle.eos_fold.specs.declared.stop.Stop.TheVariants.{AtEnd};

use eos_batch::BatchFault;

/// Why a front ends.
#[derive(Clone, Copy)]
pub enum Stop {
    /// It uses all bytes of all segments.
    AtEnd,
    /// Bytes that are no batch: in the segment of this name, at this place of its bytes, for this reason.
    NoBatch {
        segment: u64,
        byte: u64,
        fault: BatchFault,
    },
    /// A segment of this name or a batch with this base offset, which is another than the next.
    Elsewhere {
        found: u64,
    },
}

/// Whether a front uses all bytes.
pub fn is_at_end(stop: Stop) -> bool
    ensures at_end { result ≡ true → stop ≡ AtEnd }
    ensures other { result ≡ false → stop ≢ AtEnd }
{
    match stop {
        Stop::AtEnd => true,
        _ => false,
    }
}
