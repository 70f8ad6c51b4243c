//! The fold of a segment, from its reader.

ghost use Rattle.std.specs.Prelude.{◌≡◌, ◌≤◌, ◌+◌, ◌^◌, ℕ, List, length, Err, IfOk, OnOk, OnErr};
ghost use Rattle.std.specs.Io.KnownBytes.{Consumes, IsAtEnd};
ghost use Rattle.eos_evidence.specs.Reading.{Takes, TakesAtMost};
ghost use Rattle.eos_evidence.specs.declared.segment.Segment.{Segment};
ghost use Rattle.eos_fold_file.specs.Folds.{IsKeptOf, IsAskedAs, IsFoldOf};
ghost use Rattle.eos_fold_file.specs.Legal.{IsRight};
ghost use Rattle.eos_fold_file.specs.steps.Fronts.{IsFront};

use crate::fold_texts::FoldTexts;
use crate::front::{Front, read_front};
use crate::{FoldFile, FoldKept};
use bytes::Bytes;
use eos_base::Listed;
use eos_evidence::{MAX_SEGMENT_BYTES, ReadFault, Segment};
use eos_reading::{Nothing, Outputs, Texts, Wanted};
use std::alloc::{AllocError, Global};
use std::io::Read;

/// Copies of these topics, which share their bytes.
fn copies_of(alloc: Global, topics: &[Bytes]) -> Result<Vec<Bytes>, AllocError>
    ensures { IfOk result (λ copies. copies.items ≡ topics.now) }
{
    let mut copies = Vec::with_capacity(alloc, topics.len())?;
    for topic in topics {
        copies.push(topic.clone()?)?;
    }
    Ok(copies)
}

/// Reads a segment of this name to its end: its front, and of the front's data records what is wanted.
fn read_kept<R: Read>(
    alloc: Global,
    wanted: Wanted,
    topics: &[Bytes],
    begin: u64,
    reader: &mut R,
) -> Result<(Front, FoldKept), ReadFault>
    requires { begin ≤ 2 ^ 63 }
    ensures ok { IfOk result (λ both. (bytes : List ℕ) × Consumes (R.remaining reader.old) (R.remaining reader.new) bytes × (length bytes ≤ MAX_SEGMENT_BYTES)
        × IsFront begin bytes (λ batches. IsKeptOf batches both.1) both.0) }
    ensures asked { IfOk result (λ both. IsAskedAs wanted topics.now both.1) }
    ensures end { OnOk result (IsAtEnd (R.remaining reader.new)) }
    ensures read { result ≡ Err ReadFault.Read → TakesAtMost MAX_SEGMENT_BYTES (R.remaining reader.old) (R.remaining reader.new) }
    ensures limit { result ≡ Err ReadFault.Limit → Takes (MAX_SEGMENT_BYTES + 1) (R.remaining reader.old) (R.remaining reader.new) }
    ensures refused { OnErr result (TakesAtMost (MAX_SEGMENT_BYTES + 1) (R.remaining reader.old) (R.remaining reader.new)) }
{
    match wanted {
        Wanted::Presence => {
            let (front, _) = read_front(alloc, &Nothing, begin, reader)?;
            Ok((front, FoldKept::Presence))
        }
        Wanted::Claims => {
            let (front, outputs) = read_front(alloc, &Outputs { topics }, begin, reader)?;
            let kept = FoldKept::Claims {
                topics: Listed::new(copies_of(alloc, topics)?),
                outputs: Listed::new(outputs.into_vec()),
            };
            Ok((front, kept))
        }
        Wanted::Texts => {
            let (front, texts) = read_front(alloc, &Texts, begin, reader)?;
            Ok((front, FoldKept::Texts(FoldTexts::of(alloc, texts))))
        }
    }
}

/// Reads a segment of this name to its end, and gives its fold: its front, and of the front's data records what is wanted. The
/// segment's own bytes aren't looked at: it names topic, partition and base. Where claims are wanted, those of these topics are
/// kept by the topic's place. No more of the bytes is held than a chunk, or a batch where that is larger.
///
/// # Errors
/// `Read` where the reader fails, and `OutOfMemory`. At `Limit` one byte more than a segment may have was read, and the rest is
/// unread.
pub fn fold_of<R: Read>(
    alloc: Global,
    wanted: Wanted,
    topics: &[Bytes],
    name: &Segment,
    reader: &mut R,
) -> Result<FoldFile, ReadFault>
    ensures ok { IfOk result (λ fold. (bytes : List ℕ) × Consumes (R.remaining reader.old) (R.remaining reader.new) bytes × (length bytes ≤ MAX_SEGMENT_BYTES)
        × ((segment : Segment) → segment.topic ≡ name.now.topic → segment.partition ≡ name.now.partition → segment.base ≡ name.now.base → segment.bytes ≡ bytes → IsFoldOf segment fold)) }
    ensures asked { IfOk result (λ fold. IsAskedAs wanted topics.now fold.kept) }
    ensures right { IfOk result IsRight }
    ensures end { OnOk result (IsAtEnd (R.remaining reader.new)) }
    ensures read { result ≡ Err ReadFault.Read → TakesAtMost MAX_SEGMENT_BYTES (R.remaining reader.old) (R.remaining reader.new) }
    ensures limit { result ≡ Err ReadFault.Limit → Takes (MAX_SEGMENT_BYTES + 1) (R.remaining reader.old) (R.remaining reader.new) }
    ensures refused { OnErr result (TakesAtMost (MAX_SEGMENT_BYTES + 1) (R.remaining reader.old) (R.remaining reader.new)) }
{
    let begin = name.base.unsigned_abs();
    let (front, kept) = read_kept(alloc, wanted, topics, begin, reader)?;
    Ok(FoldFile {
        topic: name.topic.clone()?,
        partition: name.partition,
        base: name.base,
        bytes: front.bytes,
        batches: front.batches,
        heads: front.heads,
        epochs: front.epochs,
        kept,
        stop: front.stop,
    })
}
