//! A fold file, written. The layout stands at the head of the module that reads it, and the code follows its order.

ghost use Rattle.std.specs.Prelude.{◌≡◌, ◌++◌, ◌<◌, ◌^◌, OnOk, IfOk};
ghost use Rattle.eos_fold_file.specs.Files.{wanted_number, segment_text, front_text, heads_text, epochs_text, kept_text, body_text, fold_text};
ghost use Rattle.eos_fold_file.specs.Legal.{IsRight};
ghost use Rattle.eos_fold_file.specs.Reading.{read_fold};
ghost use Rattle.eos_fold_file.specs.steps.Widths.{HasSegmentWidths, AreHeadWidths, AreEpochWidths, HasKeptWidths, HasWidths};
ghost use Rattle.eos_wire.specs.Crc.{crc32c_of};

use crate::entry::write_many;
use crate::file::{FoldFile, FoldKept};
use crate::head::FoldHead;
use crate::number::{write_number, write_slice, write_u64};
use crate::stop::write_stop;
use crate::texts::write_texts;
use eos_reading::{EpochEntry, Wanted};
use eos_wire::{crc32c, write_i8, write_u32};
use std::alloc::{AllocError, Global};

fn wanted_number(wanted: Wanted) -> i8
    ensures { result ≡ wanted_number wanted }
{
    match wanted {
        Wanted::Presence => 0,
        Wanted::Claims => 1,
        Wanted::Texts => 2,
    }
}

/// Which segment it is, how many bytes it has, and the checksum of its batches.
fn write_segment(out: &mut Vec<u8>, fold: &FoldFile) -> Result<(), AllocError>
    ensures text { OnOk result (out.new.items ≡ out.old.items ++ segment_text fold.now) }
    ensures fit { OnOk result (HasSegmentWidths fold.now) }
{
    write_slice(out, fold.topic.as_slice())?;
    write_number(out, i64::from(fold.partition))?;
    write_number(out, fold.base)?;
    write_u64(out, fold.bytes)?;
    write_u32(out, fold.batches)
}

fn write_front(out: &mut Vec<u8>, fold: &FoldFile) -> Result<(), AllocError>
    ensures text { OnOk result (out.new.items ≡ out.old.items ++ front_text fold.now) }
    ensures fit { OnOk result (HasSegmentWidths fold.now) }
{
    out.extend_from_slice(b"EOSFOLD".as_slice())?;
    write_i8(out, 3)?;
    write_i8(out, wanted_number(fold.kept.wanted()))?;
    write_segment(out, fold)
}

fn write_heads(out: &mut Vec<u8>, heads: &[FoldHead]) -> Result<(), AllocError>
    ensures text { OnOk result (out.new.items ≡ out.old.items ++ heads_text heads.now) }
    ensures fit { OnOk result (AreHeadWidths heads.now) }
{
    write_u64(out, heads.len() as u64)?;
    write_many(out, heads)
}

fn write_epochs(out: &mut Vec<u8>, epochs: &[EpochEntry]) -> Result<(), AllocError>
    ensures text { OnOk result (out.new.items ≡ out.old.items ++ epochs_text epochs.now) }
    ensures fit { OnOk result (AreEpochWidths epochs.now) }
{
    write_u64(out, epochs.len() as u64)?;
    write_many(out, epochs)
}

fn write_kept(out: &mut Vec<u8>, kept: &FoldKept) -> Result<(), AllocError>
    ensures text { OnOk result (out.new.items ≡ out.old.items ++ kept_text kept.now) }
    ensures fit { OnOk result (HasKeptWidths kept.now) }
{
    match kept {
        FoldKept::Presence => Ok(()),
        FoldKept::Claims { topics, outputs } => {
            write_u64(out, topics.len() as u64)?;
            write_many(out, topics.as_slice())?;
            write_many(out, outputs.as_slice())
        }
        FoldKept::Texts(texts) => write_texts(out, texts),
    }
}

#[tactic(auto, unfolding(crate::specs::Files::body_text))]
fn write_body(out: &mut Vec<u8>, fold: &FoldFile) -> Result<(), AllocError>
    ensures text { OnOk result (out.new.items ≡ out.old.items ++ body_text fold.now) }
    ensures fit { OnOk result (HasWidths fold.now) }
{
    write_front(out, fold)?;
    write_heads(out, fold.heads.as_slice())?;
    write_epochs(out, fold.epochs.as_slice())?;
    write_kept(out, &fold.kept)?;
    write_stop(out, fold.stop)
}

fn write_fold(alloc: Global, fold: &FoldFile) -> Result<Vec<u8>, AllocError>
    ensures bytes { IfOk result (λ bytes. bytes.items ≡ fold_text fold.now) }
    ensures checksum { OnOk result (crc32c_of (body_text fold.now) < 2 ^ 32) }
    ensures fit { OnOk result (HasWidths fold.now) }
{
    let mut out = Vec::new(alloc);
    write_body(&mut out, fold)?;
    let crc = crc32c(out.as_slice());
    write_u32(&mut out, crc)?;
    Ok(out)
}

/// The bytes of a fold file, which read back as the fold where it is right: its heads, counts, epochs, places and stop.
///
/// # Errors
/// Only want of memory.
pub fn encode_fold(alloc: Global, fold: &FoldFile) -> Result<Vec<u8>, AllocError>
    ensures bytes { IfOk result (λ bytes. bytes.items ≡ fold_text fold.now) }
    ensures reads_back { IsRight fold.now → IfOk result (λ bytes. read_fold bytes.items ≡ Ok fold.now) }
{
    write_fold(alloc, fold)
}
