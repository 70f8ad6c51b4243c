//! Why a fold in a folder is refused.

ghost use Rattle.std.specs.Prelude.{◌≡◌, ℕ, List, IfOk, string_bytes};
ghost use Rattle.eos_disk.specs.Paths.{segment_path};
ghost use Rattle.eos_disk.specs.Refusals.{RefusesFold};
ghost use Rattle.eos_disk.specs.declared.names.Form.TheVariants.{Fold};

use crate::cause::Cause;
use crate::folder::FolderFault;
use crate::names::Form;
use crate::paths::segment_path;
use eos_evidence::Segment;
use std::alloc::{AllocError, Global};

/// Why a fold is refused: the name of the refusal, and the same in words.
#[derive(Clone, Copy)]
pub struct FoldRefusal {
    pub name: &'static str,
    pub words: &'static str,
}

/// The log of the same segment stands beside it.
pub(crate) const TWICE: FoldRefusal = FoldRefusal {
    name: "Twice",
    words: "the log of the same segment stands beside it",
};

/// Records are to be shown, or read for a manifest.
pub(crate) const NO_RECORDS: FoldRefusal = FoldRefusal {
    name: "Fold",
    words: "explain and init read records, which a fold doesn't have: they need the log",
};

/// The fold of this segment in the folder is refused so.
pub fn refused_fold(
    alloc: Global,
    folder: &str,
    name: &Segment,
    refusal: FoldRefusal,
) -> FolderFault
    ensures { RefusesFold (segment_path folder.now name.now Fold) result }
{
    refused_at(segment_path(alloc, folder, name, Form::Fold), refusal)
}

/// The fold at this path is refused so.
pub fn refused_at(path: Result<String, AllocError>, refusal: FoldRefusal) -> FolderFault
    ensures { (at : List ℕ) → IfOk path (λ named. string_bytes named ≡ at) → RefusesFold at result }
{
    match path {
        Ok(path) => FolderFault::Fold(path, refusal.name, Cause::Words(refusal.words)),
        Err(_) => FolderFault::OutOfMemory,
    }
}
