//! The partitions that a story names, as the folds of their segments: of each batch the head, and no bytes.

use eos_evidence::End;
use eos_fold_file::FoldFile;

/// A partition: its name and end, and the folds of its segments by base.
#[derive(Drop)]
pub struct Folded {
    pub end: End,
    pub folds: Vec<FoldFile>,
}
