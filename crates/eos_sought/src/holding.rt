//! In which partitions a record that is sought may stand.

ghost use Rattle.std.specs.Prelude.{◌≡◌};
ghost use Rattle.eos_sought.specs.steps.Holding.{may_hold};

use crate::commits::is_of_offsets_log;
use crate::reading::is_named;
use crate::sought::{Sought, is_state};
use eos_kept::Part;

/// Whether a record of this partition may be one of those that are sought, by the partition's name. Most of them are of one partition or of
/// one topic, so that no other's records need be read.
pub(crate) fn may_hold(sought: &Sought, part: &Part) -> bool
    ensures { result ≡ may_hold sought.now part.now }
{
    match sought {
        Sought::At(place) => is_named(part, &place.partition),
        Sought::Claiming(_) => true,
        Sought::Hidden(_) => true,
        Sought::Alike { .. } => true,
        Sought::OfId(_) => is_state(part),
        Sought::Before { place, .. } => is_named(part, &place.partition),
        Sought::OfProducer(_) => is_state(part),
        Sought::Within(_) => is_state(part),
        Sought::Deciding { .. } => is_state(part),
        Sought::OfGroup(_) => is_of_offsets_log(part),
        Sought::Passing { .. } => is_of_offsets_log(part),
        Sought::UpTo { .. } => is_of_offsets_log(part),
        Sought::Passed(_) => is_of_offsets_log(part),
    }
}
