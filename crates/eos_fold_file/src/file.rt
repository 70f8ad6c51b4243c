//! What a fold file says.

ghost use Rattle.std.specs.Prelude.{◌≡◌};
ghost use Rattle.eos_fold_file.specs.Files.{wanted_in};

use crate::fold_texts::FoldTexts;
use crate::head::FoldHead;
use bytes::Bytes;
use eos_base::Listed;
use eos_fold::Stop;
use eos_reading::{EpochEntry, KeptOutput, Wanted};

/// What is kept of a front's data records, by what was wanted of them.
#[derive(Drop)]
pub enum FoldKept {
    /// That they are there.
    Presence,
    /// The claim of each.
    Claims {
        /// The topics that were asked for, whose places the claims name.
        topics: Listed<Bytes>,
        outputs: Listed<KeptOutput>,
    },
    /// The key, the value and the claim of each.
    Texts(FoldTexts),
}

impl FoldKept {
    /// What was wanted.
    pub fn wanted(&self) -> Wanted
        ensures { result ≡ wanted_in self.now }
    {
        match self {
            FoldKept::Presence => Wanted::Presence,
            FoldKept::Claims { .. } => Wanted::Claims,
            FoldKept::Texts(_) => Wanted::Texts,
        }
    }
}

/// A segment as it was folded: the front of its bytes, and of each data record of the front what was wanted.
#[derive(Drop)]
pub struct FoldFile {
    pub topic: Bytes,
    pub partition: i32,
    /// The segment's name.
    pub base: i64,
    /// The number of the segment's bytes, whatever of them is of the front.
    pub bytes: u64,
    /// CRC-32C of the checksums of the front's batches, each as the four bytes in which its batch has it.
    pub batches: u32,
    /// The heads of the front's batches, in order. The first begins at the segment's name, and each other one where the one before
    /// ends.
    pub heads: Listed<FoldHead>,
    /// The leader epochs of these batches, each with the offset at which it begins.
    pub epochs: Listed<EpochEntry>,
    /// As many as the data batches have records.
    pub kept: FoldKept,
    /// Why the front ends.
    pub stop: Stop,
}
