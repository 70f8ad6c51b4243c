//! Why a piece of a folder that is read again won't do.

ghost use Rattle.std.specs.Prelude.{Some, length};
ghost use Rattle.eos_evidence.specs.Evidence.{segments_of};
ghost use Rattle.eos_source.specs.FolderRefusals.{IsOfAny, OutcomeAt};

use crate::folder_source::{FolderSource, piece_of};
use eos_disk::{Cause, Disk, FoldRefusal, FolderFault, Watch, refused_at, segment_path};
use std::alloc::Global;

/// The fold stands where the log is wanted.
const NEEDS_LOG: FoldRefusal = FoldRefusal {
    name: "Fold",
    words: "its partition has a fault by itself, or a story names it: the log is read again, which a fold doesn't hold",
};

impl<'a, D: Disk, W: Watch> FolderSource<'a, D, W> {
    /// The piece of this number is a fold, where its log is to be read again.
    #[tactic(auto, using(crate::proofs::Refused::no_piece, crate::proofs::Refused::fold_at))]
    pub fn needs_log(&self, alloc: Global, piece: u64) -> FolderFault
        ensures { OutcomeAt (D.holds self.now.folder.disk.now) self.now.folder.path.now (segments_of self.now.shape.now.evidence.partitions) self.now.shape.now.forms.items piece (Some result) }
    {
        match piece_of(&self.shape.evidence, self.shape.forms.as_slice(), piece) {
            Some((name, form)) => {
                refused_at(segment_path(alloc, self.folder.path, name, form), NEEDS_LOG)
            }
            None => FolderFault::Limit(Cause::Unknown),
        }
    }

    /// The partition whose first piece has this number isn't as it was read first. It is told of that piece's file.
    #[tactic(auto, using(crate::proofs::Refused::memory_any, crate::proofs::Refused::changed_any))]
    pub fn changed(&self, alloc: Global, piece: u64) -> FolderFault
        ensures { IsOfAny (OutcomeAt (D.holds self.now.folder.disk.now) self.now.folder.path.now (segments_of self.now.shape.now.evidence.partitions) self.now.shape.now.forms.items)
            (length (segments_of self.now.shape.now.evidence.partitions)) result }
    {
        match piece_of(&self.shape.evidence, self.shape.forms.as_slice(), piece) {
            Some((name, form)) => match segment_path(alloc, self.folder.path, name, form) {
                Ok(path) => FolderFault::CannotRead(
                    path,
                    Cause::Words("its partition changed while the folder was checked"),
                ),
                Err(_) => FolderFault::OutOfMemory,
            },
            None => FolderFault::Limit(Cause::Unknown),
        }
    }
}
