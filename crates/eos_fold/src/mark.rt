//! An end marker as a summary keeps it.

ghost use Rattle.std.specs.Prelude.{◌≡◌, Some};
ghost use Rattle.eos_fold.specs.Ends.{mark_in};

use eos_batch::Kind;
use eos_touch::Touch;

/// An end marker.
#[derive(Clone, Copy)]
pub struct EndMark {
    pub offset: u64,
    pub producer: i64,
    pub epoch: i16,
    pub kind: Kind,
}

/// The end marker that a touch at this offset is.
pub(crate) fn mark_in(offset: u64, producer: i64, touch: Touch) -> Option<EndMark>
    ensures { result ≡ mark_in offset (Some (producer, touch)) }
{
    match touch {
        Touch::Data { .. } => None,
        Touch::End { epoch, kind } => Some(EndMark {
            offset,
            producer,
            epoch,
            kind,
        }),
    }
}
