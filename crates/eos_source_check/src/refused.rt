//! Why nothing is told of the pieces of a folder.

ghost use Rattle.eos_source.specs.FirstRefusals.{outcomes_of, pieces_of};
ghost use Rattle.eos_source_check.specs.Refusals.{IsRefusalFor};

use crate::fault::Unlisted;
use eos_disk::{Disk, FolderFault, Watch};
use eos_source::FolderSource;
use std::alloc::Global;

/// The refusal of a folder for this one of its pieces. A fold that is to be read again is refused at its file, a partition that has
/// changed at that of its first piece; it is `OutOfMemory` where memory is refused.
pub fn refusal_of<D: Disk, T: Watch>(
    alloc: Global,
    source: &FolderSource<'_, D, T>,
    why: Unlisted<FolderFault>,
) -> FolderFault
    ensures { IsRefusalFor (outcomes_of (D.holds source.now.folder.disk.now) source.now.folder.path.now source.now.shape.now.evidence source.now.shape.now.forms.items) (pieces_of source.now.shape.now.evidence) why result }
{
    match why {
        Unlisted::Refused(fault) => fault,
        Unlisted::Fold(piece) => source.needs_log(alloc, piece),
        Unlisted::Changed(piece) => source.changed(alloc, piece),
        Unlisted::OutOfMemory => FolderFault::OutOfMemory,
    }
}
