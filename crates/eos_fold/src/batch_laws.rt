//! A law on the definitions alone.

ghost use Rattle.eos_fold.specs.NextMarker.{FirstIsNext};

/// The next marker by offsets is the first in the rest of the list.
pub fn next_marker()
    ensures { FirstIsNext }
{}
