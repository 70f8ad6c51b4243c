//! The folds of a folder: how one is read, and why one is refused.

ghost use Rattle.std.specs.Prelude.{◌≡◌, ◌≢◌, ◌≤◌, ◌<◌, ◌^◌, ℕ, List, None, Some, Ok, IfOk, IfErr, string_bytes};
ghost use Rattle.eos_disk.specs.Entries.{Entry};
ghost use Rattle.eos_fold_file.specs.Files.{record_count};
ghost use Rattle.eos_fold_file.specs.Legal.{IsLegal};
ghost use Rattle.eos_fold_file.specs.Reading.{read_fold};
ghost use Rattle.eos_disk.specs.Paths.{segment_path};
ghost use Rattle.eos_disk.specs.Refusals.{MayRefuse, RefusesFold, RefusesPiece};
ghost use Rattle.eos_disk.specs.declared.names.Form.TheVariants.{Fold};
ghost use Rattle.eos_source.specs.FolderRefusals.{IsForName};

use bytes::Bytes;
use eos_disk::{Cause, FoldRefusal, FolderFault, Form, refused_at, refused_fold, segment_path};
use eos_evidence::{MAX_SEGMENT_BYTES, Segment};
use eos_fold_file::{FoldFault, FoldField, FoldFile, Unfit, decode_fold, refused_field};
use std::alloc::{AllocError, Global};

/// Why a fold isn't one of the segment by whose name its file lies there.
#[derive(Clone, Copy)]
pub(crate) enum Mismatch {
    Partition,
    Base,
    Long,
}

/// Why a fold isn't one of the segment of this name, by the first of these tests.
fn mismatch_of(name: &Segment, fold: &FoldFile) -> Option<Mismatch>
    ensures fits { result ≡ None → IsForName name.now fold.now }
    ensures partition { result ≡ Some Mismatch.Partition → fold.now.topic ≡ name.now.topic → fold.now.partition ≢ name.now.partition }
    ensures base { result ≡ Some Mismatch.Base → fold.now.base ≢ name.now.base }
    ensures long { result ≡ Some Mismatch.Long → MAX_SEGMENT_BYTES < fold.now.bytes }
{
    if fold.topic != name.topic || fold.partition != name.partition {
        return Some(Mismatch::Partition);
    }
    if fold.base != name.base {
        return Some(Mismatch::Base);
    }
    if fold.bytes > MAX_SEGMENT_BYTES as u64 {
        return Some(Mismatch::Long);
    }
    None
}

/// The fold of the segment of this name in a folder, of these bytes. It has no more records than its segment has bytes, so a small file
/// can't make a check go over more records than a segment has room for.
#[tactic(auto, using(crate::proofs::FoldBounds::records_within, crate::proofs::Refused::fold_piece, crate::proofs::Refused::fold_so))]
pub(crate) fn read_fold(
    alloc: Global,
    folder: &str,
    name: &Segment,
    bytes: &Bytes,
) -> Result<FoldFile, FolderFault>
    ensures read { IfOk result (λ fold. read_fold bytes.now ≡ Ok fold) }
    ensures legal { IfOk result IsLegal }
    ensures named { IfOk result (IsForName name.now) }
    ensures room { IfOk result (λ fold. record_count fold.heads ≤ fold.bytes) }
    ensures path { IfErr result (RefusesPiece (segment_path folder.now name.now Fold)) }
    ensures so { (e : Entry) → IfErr result (MayRefuse e) }
{
    match decode_fold(alloc, bytes) {
        Ok(fold) => match mismatch_of(name, &fold) {
            None => Ok(fold),
            Some(why) => {
                drop(fold);
                Err(refused_as(alloc, folder, name, why))
            }
        },
        Err(FoldFault::OutOfMemory) => Err(FolderFault::OutOfMemory),
        Err(fault) => Err(refused_in(alloc, folder, name, bytes, fault)),
    }
}

/// The bytes of the fold of this name are none by this fault, in one of their fields.
#[tactic(auto, using(crate::proofs::Refused::fold_piece, crate::proofs::Refused::fold_so))]
fn refused_in(
    alloc: Global,
    folder: &str,
    name: &Segment,
    bytes: &Bytes,
    fault: FoldFault,
) -> FolderFault
    ensures path { RefusesPiece (segment_path folder.now name.now Fold) result }
    ensures so { (e : Entry) → MayRefuse e result }
{
    let Ok(path) = segment_path(alloc, folder, name, Form::Fold) else {
        return FolderFault::OutOfMemory;
    };
    match placed(alloc, bytes, words_of(fault)) {
        Some(words) => FolderFault::Fold(path, fault.name(), Cause::Told(words)),
        None => FolderFault::OutOfMemory,
    }
}

/// The words of a refusal behind the place and the name of the field that is refused, unless memory runs out.
fn placed(alloc: Global, bytes: &Bytes, words: &str) -> Option<String> {
    let refused = refused_field(alloc, bytes)?;
    let at = bytes.len().saturating_sub(refused.left);
    let field = field_name(refused.field);
    format!(in alloc; "at byte {at}, the {field}: {words}").ok()
}

/// As docs/FOLD.md names a field.
fn field_name(field: FoldField) -> &'static str {
    match field {
        FoldField::Magic => "magic",
        FoldField::Version => "version",
        FoldField::Roles => "roles",
        FoldField::Topic => "topic",
        FoldField::Partition => "partition",
        FoldField::Base => "base",
        FoldField::Bytes => "bytes",
        FoldField::Batches => "batches",
        FoldField::Heads => "heads",
        FoldField::Epochs => "epochs",
        FoldField::Kept => "kept",
        FoldField::Stop => "stop",
        FoldField::Checksum => "checksum",
        FoldField::End => "end",
    }
}

/// The fold of this name is of another segment.
#[tactic(auto, using(crate::proofs::Refused::fold_piece, crate::proofs::Refused::fold_so))]
fn refused_as(alloc: Global, folder: &str, name: &Segment, why: Mismatch) -> FolderFault
    ensures path { RefusesPiece (segment_path folder.now name.now Fold) result }
    ensures so { (e : Entry) → MayRefuse e result }
{
    let refusal = match why {
        Mismatch::Partition => FoldRefusal {
            name: "Partition",
            words: "it is of another topic or partition than its folder",
        },
        Mismatch::Base => FoldRefusal {
            name: "Base",
            words: "it is of another segment than its name says",
        },
        Mismatch::Long => {
            return match segment_path(alloc, folder, name, Form::Fold) {
                Ok(path) => FolderFault::Limit(Cause::LongFold(path)),
                Err(_) => FolderFault::OutOfMemory,
            };
        }
    };
    refused_fold(alloc, folder, name, refusal)
}

/// The fold in the file of this path can't be taken for what is asked.
pub(crate) fn refused_unfit(path: Result<String, AllocError>, why: Unfit) -> FolderFault
    ensures { (at : List ℕ) → IfOk path (λ named. string_bytes named ≡ at) → RefusesFold at result }
{
    let refusal = match why {
        Unfit::Roles => FoldRefusal {
            name: FoldFault::Roles.name(),
            words: "it was folded for other roles or other source topics than this manifest's: fold the log by this one",
        },
        Unfit::Record => FoldRefusal {
            name: FoldFault::Record.name(),
            words: "a claim in it is one that no record can have",
        },
        Unfit::OutOfMemory => return FolderFault::OutOfMemory,
    };
    refused_at(path, refusal)
}

/// Bytes are no fold by this fault.
fn words_of(fault: FoldFault) -> &'static str {
    match fault {
        FoldFault::Short => "it ends early",
        FoldFault::Magic => "it doesn't begin with EOSFOLD, as a fold does",
        FoldFault::Version => "it is of another version than this program reads",
        FoldFault::Roles => "what was wanted of its records is none of the three roles",
        FoldFault::Number => "a number is spelled longer than it need be, or doesn't fit its field",
        FoldFault::Head => "no batch has a head that stands in it, or the offsets pass 2^63",
        FoldFault::Epoch => "no batches have the leader epochs that stand in it",
        FoldFault::Record =>
            "what is kept of a record is of no known kind, or of no topic that was asked for",
        FoldFault::Stop => "the segment's front ends for no known reason",
        FoldFault::Crc => "its checksum differs, so it was changed after it was written",
        FoldFault::Trailing => "bytes are left after its checksum",
        FoldFault::OutOfMemory => "memory ran out",
    }
}
