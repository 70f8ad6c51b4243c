//! A file read field by field: the fold that it says, or the first field that isn't one, with its place.

ghost use Rattle.std.specs.Prelude.{◌≡◌, Result, Err, IfSome};
ghost use Rattle.eos_fold_file.specs.declared.file.FoldFile.{FoldFile};
ghost use Rattle.eos_fold_file.specs.declared.refusal.RefusedField.{RefusedField};
ghost use Rattle.eos_fold_file.specs.Reading.{read_fold};
ghost use Rattle.eos_fold_file.specs.Refusals.{signs_in, front_in, body_in, read_in};
ghost use Rattle.eos_fold_file.specs.steps.Refusals.{AnswersIn, GivesIn};

use crate::fault::FoldFault;
use crate::file::FoldFile;
use crate::number::{read_bytes, read_i32, read_number, read_u64};
use crate::read::{
    Front, read_batches, read_epochs, read_heads, read_kept, read_magic, read_version, read_wanted,
};
use crate::stop::read_inside;
use bytes::Bytes;
use eos_reading::Wanted;
use eos_wire::{Cursor, crc32c};
use std::alloc::Global;

/// A field of a fold file, in the file's order.
#[derive(Clone, Copy)]
pub enum FoldField {
    Magic,
    Version,
    Roles,
    Topic,
    Partition,
    Base,
    Bytes,
    Batches,
    Heads,
    Epochs,
    /// The topics that were asked for, and what is kept of the records.
    Kept,
    Stop,
    Checksum,
    /// Behind the checksum.
    End,
}

/// Why bytes are no fold file, and where.
#[derive(Clone, Copy)]
pub struct RefusedField {
    pub fault: FoldFault,
    pub field: FoldField,
    /// The number of the file's bytes from the first of this field on.
    pub left: usize,
}

fn refused(fault: FoldFault, field: FoldField, left: usize) -> RefusedField
    ensures { result ≡ record { fault = fault; field = field; left = left } }
{
    RefusedField { fault, field, left }
}

#[tactic(auto, unfolding(crate::specs::Refusals::signs_in))]
fn signs_in(rest: &mut Cursor<'_>) -> Result<Wanted, RefusedField>
    ensures { GivesIn result rest.new (signs_in rest.old) }
{
    let left = rest.left();
    if let Err(fault) = read_magic(rest) {
        return Err(refused(fault, FoldField::Magic, left));
    }
    let left = rest.left();
    if let Err(fault) = read_version(rest) {
        return Err(refused(fault, FoldField::Version, left));
    }
    let left = rest.left();
    match read_wanted(rest) {
        Ok(wanted) => Ok(wanted),
        Err(fault) => Err(refused(fault, FoldField::Roles, left)),
    }
}

#[tactic(auto, unfolding(crate::specs::Refusals::front_in))]
fn front_in(rest: &mut Cursor<'_>) -> Result<Front, RefusedField>
    ensures { GivesIn result rest.new (front_in rest.old) }
{
    let wanted = signs_in(rest)?;
    let left = rest.left();
    let topic = match read_bytes(rest) {
        Ok(topic) => topic,
        Err(fault) => return Err(refused(fault, FoldField::Topic, left)),
    };
    let left = rest.left();
    let partition = match read_i32(rest) {
        Ok(partition) => partition,
        Err(fault) => return Err(refused(fault, FoldField::Partition, left)),
    };
    let left = rest.left();
    let base = match read_number(rest) {
        Ok(base) => base,
        Err(fault) => return Err(refused(fault, FoldField::Base, left)),
    };
    let left = rest.left();
    let bytes = match read_u64(rest) {
        Ok(bytes) => bytes,
        Err(fault) => return Err(refused(fault, FoldField::Bytes, left)),
    };
    let left = rest.left();
    match read_batches(rest) {
        Ok(batches) => Ok(Front {
            wanted,
            topic,
            partition,
            base,
            bytes,
            batches,
        }),
        Err(fault) => Err(refused(fault, FoldField::Batches, left)),
    }
}

#[tactic(auto, unfolding(crate::specs::Refusals::body_in))]
fn body_in(alloc: Global, rest: &mut Cursor<'_>) -> Result<FoldFile, RefusedField>
    ensures { GivesIn result rest.new (body_in rest.old) }
{
    let front = front_in(rest)?;
    let begin = front.base.unsigned_abs();
    let left = rest.left();
    let (heads, counted) = match read_heads(alloc, rest, front.base, front.bytes) {
        Ok(read) => read,
        Err(fault) => return Err(refused(fault, FoldField::Heads, left)),
    };
    let left = rest.left();
    let epochs = match read_epochs(alloc, rest, begin, heads.as_slice()) {
        Ok(epochs) => epochs,
        Err(fault) => return Err(refused(fault, FoldField::Epochs, left)),
    };
    let left = rest.left();
    let kept = match read_kept(alloc, rest, front.wanted, counted.records) {
        Ok(kept) => kept,
        Err(fault) => return Err(refused(fault, FoldField::Kept, left)),
    };
    let left = rest.left();
    match read_inside(rest, begin, counted.next, counted.size, front.bytes) {
        Ok(stop) => Ok(FoldFile {
            topic: front.topic,
            partition: front.partition,
            base: front.base,
            bytes: front.bytes,
            batches: front.batches,
            heads,
            epochs,
            kept,
            stop,
        }),
        Err(fault) => Err(refused(fault, FoldField::Stop, left)),
    }
}

/// The fold that the bytes say and nothing else, or the first field that is refused.
#[tactic(auto, unfolding(crate::specs::Refusals::read_in))]
pub(crate) fn read_in(alloc: Global, mut rest: Cursor<'_>) -> Result<FoldFile, RefusedField>
    ensures { AnswersIn result (read_in rest.entry) }
{
    let bytes = rest.rest();
    let fold = body_in(alloc, &mut rest)?;
    let left = rest.left();
    let len = bytes.len().saturating_sub(left);
    let Some(crc) = rest.u32() else {
        return Err(refused(FoldFault::Short, FoldField::Checksum, left));
    };
    if crc != crc32c(&bytes[..len]) {
        return Err(refused(FoldFault::Crc, FoldField::Checksum, left));
    }
    let left = rest.left();
    if left != 0 {
        return Err(refused(FoldFault::Trailing, FoldField::End, left));
    }
    Ok(fold)
}

/// A refusal, unless memory ran out.
fn known(refusal: RefusedField) -> Option<RefusedField>
    ensures { IfSome result (λ known. (said : Result FoldFile RefusedField) → AnswersIn (Err refusal) said → said ≡ Err known) }
{
    match refusal.fault {
        FoldFault::OutOfMemory => None,
        _ => Some(refusal),
    }
}

fn refused_by(alloc: Global, bytes: &Bytes) -> Option<RefusedField>
    ensures { IfSome result (λ refusal. read_in bytes.now ≡ Err refusal) }
{
    match read_in(alloc, Cursor::new(bytes)) {
        Ok(_) => None,
        Err(refusal) => known(refusal),
    }
}

/// Why a file is no fold, by the first of its fields that isn't one. There is none where it is a fold, or where memory runs out.
#[tactic(auto, using(crate::proofs::RefusedFields::known_is))]
pub fn refused_field(alloc: Global, bytes: &Bytes) -> Option<RefusedField>
    ensures field { IfSome result (λ refusal. read_in bytes.now ≡ Err refusal) }
    ensures fault { IfSome result (λ refusal. read_fold bytes.now ≡ Err refusal.fault) }
{
    refused_by(alloc, bytes)
}
