//! A folder of a disk as a source.

ghost use Rattle.std.specs.Prelude.{◌≡◌, ◌≤◌, ◌⊎◌, None, Some, IfSome, length, slice_get};
ghost use Rattle.eos_evidence.specs.Evidence.{segments_of};

use crate::fold::{read_fold, refused_unfit};
use crate::reader::SegmentReader;
use crate::{Piece, Source};
use eos_disk::{Cause, Disk, FolderFault, Form, NamedFile, Shape, Watch, segment_path};
use eos_evidence::{Evidence, ReadFault, Segment};
use eos_fold_file::Unfit;
use std::alloc::Global;

/// A folder of a disk.
#[derive(Drop)]
pub struct Folder<'a, D, W> {
    pub disk: &'a D,
    pub path: &'a str,
    /// Who is told how far its reading is: of each file that is looked for, and each segment that was read to its end.
    pub watch: &'a W,
}

/// A folder of this shape, as `read_shape` gives it.
#[derive(Drop)]
pub struct FolderSource<'a, D: Disk, W: Watch> {
    pub folder: Folder<'a, D, W>,
    pub shape: &'a Shape,
}

/// The name and the form of the piece of this number, where the shape has it.
pub(crate) fn piece_of<'a>(
    shape: &'a Evidence,
    forms: &[Form],
    piece: u64,
) -> Option<(&'a Segment, Form)>
    ensures name { IfSome result (λ found. slice_get (segments_of shape.now.partitions) piece ≡ Some found.0.now) }
    ensures form { IfSome result (λ found. slice_get forms.now piece ≡ Some found.1) }
    ensures none { result ≡ None → (length (segments_of shape.now.partitions) ≤ piece) ⊎ (length forms.now ≤ piece) }
{
    if piece >= shape.pieces() || piece >= forms.len() as u64 {
        return None;
    }
    Some((shape.piece(piece), forms[piece as usize]))
}

impl<'a, D: Disk, W: Watch> Source for FolderSource<'a, D, W> {
    type Reader = SegmentReader<'a, D::File, W>;

    type Fault = FolderFault;

    ghost use Rattle.eos_evidence.specs.Evidence.{segments_of};
    ghost use Rattle.eos_source.specs.FolderLogs.{is_log_at};
    ghost use Rattle.eos_source.specs.FolderRefusals.{OutcomeAt};
    ghost use Rattle.eos_source.specs.Saying.{said_at};

    ghost said = { λ s piece. said_at (D.holds s.folder.disk.now) s.folder.path.now (segments_of s.shape.now.evidence.partitions) s.shape.now.forms.items piece };

    ghost is_log = { λ s piece. is_log_at s.shape.now.forms.items piece };

    ghost outcomes = { λ s piece why. OutcomeAt (D.holds s.folder.disk.now) s.folder.path.now (segments_of s.shape.now.evidence.partitions) s.shape.now.forms.items piece why };

    /// Opens the file of a segment. There is no file of a number that the shape doesn't have, which is answered as a segment too
    /// many.
    #[tactic(auto, using(crate::proofs::Saying::log_at, crate::proofs::Saying::fold_at, crate::proofs::Refused::no_piece, crate::proofs::Refused::memory_at, crate::proofs::Refused::unopened_at, crate::proofs::Refused::file_at, crate::proofs::Refused::piece_at, crate::proofs::Refused::opened_log, crate::proofs::Refused::opened_fold))]
    fn open(
        &self,
        alloc: Global,
        piece: u64,
    ) -> Result<Piece<SegmentReader<'a, D::File, W>>, FolderFault> {
        let Some((name, form)) = piece_of(&self.shape.evidence, self.shape.forms.as_slice(), piece)
        else {
            return Err(FolderFault::Limit(Cause::Unknown));
        };
        let path = segment_path(alloc, self.folder.path, name, form)?;
        let opened = self.folder.disk.open(alloc, path.as_str());
        let named = NamedFile::of_opened(path, opened)?;
        match form {
            Form::Log => {
                let NamedFile { file, .. } = named;
                Ok(Piece::Log(SegmentReader::new(file, self.folder.watch)))
            }
            Form::Fold => {
                let bytes = named.read_whole(alloc)?;
                self.folder.watch.read(bytes.len() as u64);
                let fold = read_fold(alloc, self.folder.path, name, &bytes)?;
                Ok(Piece::Fold(fold))
            }
        }
    }

    /// The path is made again of the piece's number, since of a reader that was lent nothing but its bytes is known.
    #[tactic(auto, using(crate::proofs::Refused::no_piece, crate::proofs::Refused::memory_at, crate::proofs::Refused::file_at))]
    fn refusal(
        &self,
        alloc: Global,
        piece: u64,
        reader: &mut SegmentReader<'a, D::File, W>,
        why: ReadFault,
    ) -> FolderFault {
        match piece_of(&self.shape.evidence, self.shape.forms.as_slice(), piece) {
            Some((name, form)) => match segment_path(alloc, self.folder.path, name, form) {
                Ok(path) => reader.refusal(alloc, path, why),
                Err(_) => FolderFault::OutOfMemory,
            },
            None => FolderFault::Limit(Cause::Unknown),
        }
    }

    #[tactic(auto, using(crate::proofs::Refused::no_piece, crate::proofs::Refused::fold_at))]
    fn unfit(&self, alloc: Global, piece: u64, why: Unfit) -> FolderFault {
        match piece_of(&self.shape.evidence, self.shape.forms.as_slice(), piece) {
            Some((name, form)) => {
                refused_unfit(segment_path(alloc, self.folder.path, name, form), why)
            }
            None => FolderFault::Limit(Cause::Unknown),
        }
    }
}
