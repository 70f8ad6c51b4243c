//! What the front of a partition's log begins at, whether its sequences are checked, and its end markers.

ghost use Rattle.std.specs.Prelude.{◌≡◌, ◌++◌, OnOk, not};
ghost use Rattle.std.specs.Option.{option_to_list};
ghost use Rattle.eos_evidence.specs.Topics.{is_internal};
ghost use Rattle.eos_fold.specs.Fronts.{base_of};

use eos_batch::Marker;
use eos_evidence::{Segment, is_internal_topic};
use std::alloc::AllocError;

/// A segment's name, the offset of its first record.
pub fn begin_of(segment: &Segment) -> u64
    ensures { result ≡ base_of segment.now }
{
    segment.base.unsigned_abs()
}

/// Whether the sequences of a topic are checked: not those of the internal topics.
pub fn is_checked(topic: &[u8]) -> bool
    ensures { result ≡ not (is_internal topic.now) }
{
    !is_internal_topic(topic)
}

/// Puts an end marker at the end, if there is one.
///
/// # Errors
/// Want of memory alone.
pub fn push_marker(markers: &mut Vec<Marker>, marker: Option<Marker>) -> Result<(), AllocError>
    ensures { OnOk result (markers.new.items ≡ markers.old.items ++ option_to_list marker) }
{
    let Some(marker) = marker else {
        return Ok(());
    };
    markers.push(marker)?;
    Ok(())
}
