//! The head of a batch in a fold file. Its offset isn't written: the batches of a front follow one another.
//!
//! | Field | Form | Meaning |
//! |---|---|---|
//! | kind | kind | 0 data, 2 control, 4 commit, 6 abort; one more where the batch is transactional |
//! | coordinator epoch | number | at 4 to 7: the epoch of the coordinator that wrote the marker |
//! | count | unsigned number | the number of records |
//! | size | unsigned number | the number of the batch's bytes in the log |
//! | producer, epoch, sequence | numbers | producer id and epoch, base sequence |

ghost use Rattle.std.specs.Prelude.{◌≡◌, ◌++◌, OnOk};
ghost use Rattle.eos_fold_file.specs.Heads.{fold_head, kind_in, batch_head, batch_marker, kind_number, epoch_text, batch_kind_text, producer_text, commit_from, abort_from, batch_kind_from, is_possible, names_producer, is_control_kind};
ghost use Rattle.eos_fold_file.specs.Legal.{IsLegalKind};
ghost use Rattle.eos_fold_file.specs.steps.Faults.{Gives};
ghost use Rattle.eos_fold_file.specs.steps.Widths.{HasProducerWidths};

use crate::entry::Entry;
use crate::fault::FoldFault;
use crate::number::{
    read_i16, read_i32, read_kind, read_number, read_u32, read_u64, write_number, write_u64,
};
use eos_batch::{BatchHead, Kind, Marker};
use eos_wire::{Cursor, write_i8};
use std::alloc::{AllocError, Global};

/// How many bytes a batch has before its records.
const LEAST_BATCH: usize = 61;

/// The fewest bytes of a record.
const LEAST_RECORD: usize = 7;

/// What a batch is. An end marker has the epoch of the transaction coordinator that wrote it.
#[derive(Clone, Copy)]
pub enum BatchKind {
    Data,
    /// A control batch that ends no transaction.
    Control,
    Commit(i32),
    Abort(i32),
}

/// A batch's head, wherever the batch stands.
#[derive(Clone, Copy)]
pub struct FoldHead {
    pub kind: BatchKind,
    pub is_transactional: bool,
    /// The number of records.
    pub count: u32,
    /// The number of the batch's bytes in the log.
    pub size: usize,
    /// The producer id; below 0 where the producer is not idempotent.
    pub producer: i64,
    /// The producer epoch.
    pub epoch: i16,
    /// The base sequence.
    pub sequence: i32,
}

// ---- what a batch is

#[tactic(auto, unfolding(crate::specs::Heads::commit_from))]
fn read_commit(
    rest: &mut Cursor<'_>,
    is_transactional: bool,
) -> Result<(bool, BatchKind), FoldFault>
    ensures { Gives result rest.new (commit_from is_transactional rest.old) }
{
    let epoch = read_i32(rest)?;
    Ok((is_transactional, BatchKind::Commit(epoch)))
}

#[tactic(auto, unfolding(crate::specs::Heads::abort_from))]
fn read_abort(rest: &mut Cursor<'_>, is_transactional: bool) -> Result<(bool, BatchKind), FoldFault>
    ensures { Gives result rest.new (abort_from is_transactional rest.old) }
{
    let epoch = read_i32(rest)?;
    Ok((is_transactional, BatchKind::Abort(epoch)))
}

/// Whether a batch is transactional, and what it is.
#[tactic(auto, unfolding(crate::specs::Heads::batch_kind_from))]
fn read_batch_kind(rest: &mut Cursor<'_>) -> Result<(bool, BatchKind), FoldFault>
    ensures { Gives result rest.new (batch_kind_from rest.old) }
{
    match read_kind(rest)? {
        0 => Ok((false, BatchKind::Data)),
        1 => Ok((true, BatchKind::Data)),
        2 => Ok((false, BatchKind::Control)),
        3 => Ok((true, BatchKind::Control)),
        4 => read_commit(rest, false),
        5 => read_commit(rest, true),
        6 => read_abort(rest, false),
        7 => read_abort(rest, true),
        _ => Err(FoldFault::Head),
    }
}

fn kind_number(is_transactional: bool, kind: BatchKind) -> i8
    ensures { result ≡ kind_number is_transactional kind }
{
    match (is_transactional, kind) {
        (false, BatchKind::Data) => 0,
        (true, BatchKind::Data) => 1,
        (false, BatchKind::Control) => 2,
        (true, BatchKind::Control) => 3,
        (false, BatchKind::Commit(_)) => 4,
        (true, BatchKind::Commit(_)) => 5,
        (false, BatchKind::Abort(_)) => 6,
        (true, BatchKind::Abort(_)) => 7,
    }
}

fn write_epoch(out: &mut Vec<u8>, kind: BatchKind) -> Result<(), AllocError>
    ensures text { OnOk result (out.new.items ≡ out.old.items ++ epoch_text kind) }
    ensures fit { OnOk result (IsLegalKind kind) }
{
    match kind {
        BatchKind::Data => Ok(()),
        BatchKind::Control => Ok(()),
        BatchKind::Commit(epoch) => write_number(out, i64::from(epoch)),
        BatchKind::Abort(epoch) => write_number(out, i64::from(epoch)),
    }
}

fn write_kind(out: &mut Vec<u8>, is_transactional: bool, kind: BatchKind) -> Result<(), AllocError>
    ensures text { OnOk result (out.new.items ≡ out.old.items ++ batch_kind_text is_transactional kind) }
    ensures fit { OnOk result (IsLegalKind kind) }
{
    write_i8(out, kind_number(is_transactional, kind))?;
    write_epoch(out, kind)
}

// ---- the head

fn write_producer(out: &mut Vec<u8>, head: FoldHead) -> Result<(), AllocError>
    ensures text { OnOk result (out.new.items ≡ out.old.items ++ producer_text head) }
    ensures fit { OnOk result (HasProducerWidths head) }
{
    write_number(out, head.producer)?;
    write_number(out, i64::from(head.epoch))?;
    write_number(out, i64::from(head.sequence))
}

/// What the batch of a head is.
fn kind_in(head: &BatchHead) -> BatchKind
    ensures { result ≡ kind_in head.now.is_control head.now.marker }
{
    if !head.is_control {
        return BatchKind::Data;
    }
    let Some(marker) = head.marker else {
        return BatchKind::Control;
    };
    match marker.kind {
        Kind::Commit => BatchKind::Commit(marker.coordinator_epoch),
        Kind::Abort => BatchKind::Abort(marker.coordinator_epoch),
    }
}

impl FoldHead {
    /// The head of a batch, wherever it stands.
    pub fn of(head: &BatchHead) -> FoldHead
        ensures { result ≡ fold_head head.now }
    {
        FoldHead {
            kind: kind_in(head),
            is_transactional: head.is_transactional,
            count: head.count,
            size: head.size,
            producer: head.producer,
            epoch: head.epoch,
            sequence: head.sequence,
        }
    }

    pub(crate) fn is_control(&self) -> bool
        ensures { result ≡ is_control_kind self.now.kind }
    {
        match self.kind {
            BatchKind::Data => false,
            _ => true,
        }
    }

    /// Whether the batch has to name a producer: transactional data, and an end marker.
    fn names_producer(&self) -> bool
        ensures { result ≡ names_producer self.now }
    {
        match self.kind {
            BatchKind::Data => self.is_transactional,
            BatchKind::Control => false,
            _ => true,
        }
    }

    /// Whether a batch can have this head: it has a record, one only where it is a control batch, and no more than fit into its bytes;
    /// transactional data and end markers name a producer; and a producer has an epoch.
    pub fn is_possible(&self) -> bool
        ensures { result ≡ is_possible self.now }
    {
        if self.count < 1 || self.count > 0x7fff_ffff {
            return false;
        }
        if self.is_control() && self.count != 1 {
            return false;
        }
        if self.size < LEAST_BATCH + LEAST_RECORD * self.count as usize {
            return false;
        }
        if self.producer < 0 {
            return !self.names_producer();
        }
        self.epoch >= 0
    }

    fn marker(&self) -> Option<Marker>
        ensures { result ≡ batch_marker self.now }
    {
        let (kind, coordinator_epoch) = match self.kind {
            BatchKind::Commit(epoch) => (Kind::Commit, epoch),
            BatchKind::Abort(epoch) => (Kind::Abort, epoch),
            _ => return None,
        };
        Some(Marker {
            producer: self.producer,
            epoch: self.epoch,
            kind,
            coordinator_epoch,
        })
    }

    /// The head of the batch that begins at this offset.
    pub fn at(&self, offset: u64) -> BatchHead
        ensures { result ≡ batch_head offset self.now }
    {
        BatchHead {
            offset,
            count: self.count,
            size: self.size,
            producer: self.producer,
            epoch: self.epoch,
            sequence: self.sequence,
            is_control: self.is_control(),
            is_transactional: self.is_transactional,
            marker: self.marker(),
        }
    }
}

impl Entry for FoldHead {
    ghost use Rattle.eos_fold_file.specs.Heads.{head_from, head_text};
    ghost use Rattle.eos_fold_file.specs.steps.Widths.{HasHeadWidths};

    ghost entry_from = { head_from };

    ghost entry_text = { head_text };

    ghost entry_fits = { HasHeadWidths };

    #[tactic(auto, unfolding(crate::specs::Heads::head_from))]
    fn read(_alloc: Global, rest: &mut Cursor<'_>) -> Result<FoldHead, FoldFault> {
        let (is_transactional, kind) = read_batch_kind(rest)?;
        let count = read_u32(rest)?;
        let size = read_u64(rest)?;
        let producer = read_number(rest)?;
        let epoch = read_i16(rest)?;
        let sequence = read_i32(rest)?;
        let head = FoldHead {
            kind,
            is_transactional,
            count,
            size: size as usize,
            producer,
            epoch,
            sequence,
        };
        if !head.is_possible() {
            return Err(FoldFault::Head);
        }
        Ok(head)
    }

    fn write(&self, out: &mut Vec<u8>) -> Result<(), AllocError> {
        write_kind(out, self.is_transactional, self.kind)?;
        write_u64(out, u64::from(self.count))?;
        write_u64(out, self.size as u64)?;
        write_producer(out, *self)
    }
}
