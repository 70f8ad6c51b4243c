//! A fold file, read from its bytes.
//!
//! | Field | Form | Meaning |
//! |---|---|---|
//! | magic | 7 bytes | `EOSFOLD` |
//! | version | kind | 3 |
//! | roles | kind | what was wanted of the records: 0 presence, 1 claims, 2 texts |
//! | topic, partition, base | text, numbers | which segment it is |
//! | bytes | unsigned number | how many bytes the segment has |
//! | batches | UINT32 | CRC-32C of the checksums of the front's batches |
//! | heads | unsigned number, and so many heads | the batches of the front |
//! | epochs | unsigned number, and so many entries | where their leader epoch changes |
//! | topics | at 1: unsigned number, and so many texts | those that were asked for |
//! | kept | at 1 and 2: one for each data record | what is kept of it |
//! | stop | as its module says | why the front ends |
//! | checksum | UINT32 | CRC-32C of all bytes before it |

ghost use Rattle.std.specs.Prelude.{◌≡◌, ◌≤◌, ◌+◌, ◌-◌, ◌^◌, min, IfOk, unsigned_abs};
ghost use Rattle.eos_fold_file.specs.declared.file.FoldFile.{FoldFile};
ghost use Rattle.eos_fold_file.specs.Faults.{Answers};
ghost use Rattle.eos_fold_file.specs.Files.{record_count, data_records, fold_text};
ghost use Rattle.eos_fold_file.specs.Heads.{head_from};
ghost use Rattle.eos_fold_file.specs.Legal.{IsLegal};
ghost use Rattle.eos_fold_file.specs.Numbers.{many_from};
ghost use Rattle.eos_fold_file.specs.Reading.{magic_from, version_from, wanted_from, batches_from, heads_from, epochs_from, placed_claims, claims_from, texts_from, kept_from, read_fold};
ghost use Rattle.eos_fold_file.specs.steps.Faults.{Gives};
ghost use Rattle.eos_fold_file.specs.steps.Counts.{GivesCounted, GivesHeads};

use crate::claim::are_placed;
use crate::entry::{Entry, read_many};
use crate::epoch::are_entries;
use crate::fault::FoldFault;
use crate::file::{FoldFile, FoldKept};
use crate::head::FoldHead;
use crate::number::{read_kind, read_u64};
use crate::refusal::read_in;
use crate::texts::read_texts;
use bytes::Bytes;
use eos_base::Listed;
use eos_reading::{EpochEntry, KeptOutput, Wanted};
use eos_wire::{Cursor, are_bytes};
use std::alloc::Global;

/// The fewest bytes of a head: its batch has 68 bytes or more, and a number above 63 takes two.
const LEAST_HEAD: usize = 7;

/// What stands before the batches.
#[derive(Drop)]
pub(crate) struct Front {
    pub(crate) wanted: Wanted,
    pub(crate) topic: Bytes,
    pub(crate) partition: i32,
    pub(crate) base: i64,
    pub(crate) bytes: u64,
    pub(crate) batches: u32,
}

/// What the batches of a front are together, as far as a u64 tells.
#[derive(Clone, Copy)]
pub(crate) struct Counted {
    /// The offset after their last record.
    pub(crate) next: u64,
    /// The number of their data records, where that offset is known.
    pub(crate) records: u64,
    /// The number of their bytes.
    pub(crate) size: u64,
}

#[tactic(auto, unfolding(crate::specs::Reading::magic_from))]
pub(crate) fn read_magic<'a>(rest: &mut Cursor<'a>) -> Result<Cursor<'a>, FoldFault>
    ensures { Gives result rest.new (magic_from rest.old) }
{
    let found = rest.take(7).ok_or(FoldFault::Short)?;
    if found.rest() != b"EOSFOLD".as_slice() {
        return Err(FoldFault::Magic);
    }
    Ok(found)
}

#[tactic(auto, unfolding(crate::specs::Reading::version_from))]
pub(crate) fn read_version(rest: &mut Cursor<'_>) -> Result<i8, FoldFault>
    ensures { Gives result rest.new (version_from rest.old) }
{
    let version = read_kind(rest)?;
    if version != 3 {
        return Err(FoldFault::Version);
    }
    Ok(version)
}

#[tactic(auto, unfolding(crate::specs::Reading::wanted_from))]
pub(crate) fn read_wanted(rest: &mut Cursor<'_>) -> Result<Wanted, FoldFault>
    ensures { Gives result rest.new (wanted_from rest.old) }
{
    match read_kind(rest)? {
        0 => Ok(Wanted::Presence),
        1 => Ok(Wanted::Claims),
        2 => Ok(Wanted::Texts),
        _ => Err(FoldFault::Roles),
    }
}

#[tactic(auto, unfolding(crate::specs::Reading::batches_from))]
pub(crate) fn read_batches(rest: &mut Cursor<'_>) -> Result<u32, FoldFault>
    ensures { Gives result rest.new (batches_from rest.old) }
{
    rest.u32().ok_or(FoldFault::Short)
}

/// The number of a batch's data records.
fn data_records(head: &FoldHead) -> u64
    ensures { result ≡ data_records head.now }
{
    if head.is_control() {
        return 0;
    }
    u64::from(head.count)
}

/// The same with this batch behind them. A number that a u64 doesn't hold is the greatest one.
fn counted_on(before: Counted, head: &FoldHead) -> Counted
    ensures next { result.next ≡ min (before.next + head.now.count) (2 ^ 64 - 1) }
    ensures records { result.records ≡ min (before.records + data_records head.now) (2 ^ 64 - 1) }
    ensures size { result.size ≡ min (before.size + head.now.size) (2 ^ 64 - 1) }
{
    Counted {
        next: before.next.saturating_add(u64::from(head.count)),
        records: before.records.saturating_add(data_records(head)),
        size: before.size.saturating_add(head.size as u64),
    }
}

/// So many heads, the first of a batch that begins here, and what their batches are together. Their list has room for no more of them than
/// can stand in the bytes that are left.
fn read_counted(
    alloc: Global,
    rest: &mut Cursor<'_>,
    begin: u64,
    count: u64,
) -> Result<(Listed<FoldHead>, Counted), FoldFault>
    ensures { GivesCounted begin result rest.new (many_from head_from count rest.old) }
{
    let room = count.min((rest.left() / LEAST_HEAD) as u64) as usize;
    let mut heads = Listed::new(Vec::with_capacity(alloc, room)?);
    let mut counted = Counted {
        next: begin,
        records: 0,
        size: 0,
    };
    let mut here = rest.fork();
    for _ in 0..count {
        let head = FoldHead::read(alloc, &mut here)?;
        counted = counted_on(counted, &head);
        heads.push(head)?;
    }
    *rest = here;
    Ok((heads, counted))
}

/// The heads of a segment of this name and of so many bytes.
#[tactic(auto, unfolding(crate::specs::Reading::heads_from), using(crate::proofs::HeadTotals::offsets_past, crate::proofs::HeadTotals::sizes_past, crate::proofs::HeadTotals::both_fit, crate::proofs::HeadTotals::counted_are, crate::proofs::HeadTotals::counted_within))]
pub(crate) fn read_heads(
    alloc: Global,
    rest: &mut Cursor<'_>,
    base: i64,
    bytes: u64,
) -> Result<(Listed<FoldHead>, Counted), FoldFault>
    ensures heads { GivesHeads (unsigned_abs base) result rest.new (heads_from base bytes rest.old) }
    ensures within { IfOk result (λ read. unsigned_abs base + record_count read.0 ≤ 2 ^ 63) }
{
    let count = read_u64(rest)?;
    let (heads, counted) = read_counted(alloc, rest, base.unsigned_abs(), count)?;
    if counted.next > 1 << 63 {
        return Err(FoldFault::Head);
    }
    if counted.size > bytes.min(1 << 63) {
        return Err(FoldFault::Head);
    }
    Ok((heads, counted))
}

/// The leader epochs of a front that begins here and has these heads.
#[tactic(auto, unfolding(crate::specs::Reading::epochs_from))]
pub(crate) fn read_epochs(
    alloc: Global,
    rest: &mut Cursor<'_>,
    begin: u64,
    heads: &[FoldHead],
) -> Result<Listed<EpochEntry>, FoldFault>
    requires { begin + record_count heads.now ≤ 2 ^ 63 }
    ensures { Gives result rest.new (epochs_from begin heads.now rest.old) }
{
    let count = read_u64(rest)?;
    let epochs: Listed<EpochEntry> = read_many(alloc, rest, count)?;
    if !are_entries(begin, heads, epochs.as_slice()) {
        return Err(FoldFault::Epoch);
    }
    Ok(epochs)
}

/// Claims, each of which names a place among the topics, or a topic.
fn placed(topics: Listed<Bytes>, outputs: Listed<KeptOutput>) -> Result<FoldKept, FoldFault>
    ensures { result ≡ placed_claims topics outputs }
{
    if !are_placed(outputs.as_slice(), topics.len()) {
        return Err(FoldFault::Record);
    }
    Ok(FoldKept::Claims { topics, outputs })
}

#[tactic(auto, unfolding(crate::specs::Reading::claims_from))]
fn read_claims(alloc: Global, rest: &mut Cursor<'_>, count: u64) -> Result<FoldKept, FoldFault>
    ensures { Gives result rest.new (claims_from count rest.old) }
{
    let asked = read_u64(rest)?;
    let topics: Listed<Bytes> = read_many(alloc, rest, asked)?;
    let outputs: Listed<KeptOutput> = read_many(alloc, rest, count)?;
    let claims = placed(topics, outputs)?;
    Ok(claims)
}

#[tactic(auto, unfolding(crate::specs::Reading::texts_from))]
fn read_kept_texts(alloc: Global, rest: &mut Cursor<'_>, count: u64) -> Result<FoldKept, FoldFault>
    ensures { Gives result rest.new (texts_from count rest.old) }
{
    let texts = read_texts(alloc, rest, count)?;
    Ok(FoldKept::Texts(texts))
}

pub(crate) fn read_kept(
    alloc: Global,
    rest: &mut Cursor<'_>,
    wanted: Wanted,
    count: u64,
) -> Result<FoldKept, FoldFault>
    ensures { Gives result rest.new (kept_from wanted count rest.old) }
{
    match wanted {
        Wanted::Presence => Ok(FoldKept::Presence),
        Wanted::Claims => read_claims(alloc, rest, count),
        Wanted::Texts => read_kept_texts(alloc, rest, count),
    }
}

/// What `read_in` says, without the field.
#[tactic(auto, using(crate::proofs::RefusedFields::fold_said, crate::proofs::RefusedFields::fails_too))]
fn read_fold(alloc: Global, rest: Cursor<'_>) -> Result<FoldFile, FoldFault>
    ensures { Answers result (read_fold rest.entry) }
{
    match read_in(alloc, rest) {
        Ok(fold) => Ok(fold),
        Err(refusal) => Err(refusal.fault),
    }
}

/// The fold that a file says, and nothing else: its bytes are those that are written for it.
///
/// # Errors
/// The first fault in field order. Short where the bytes run out, Magic, Version, Roles, Number, Head, Epoch, Record and Stop where a
/// field isn't one, Crc where the checksum differs, Trailing where bytes are left. OutOfMemory may come at any field; a count
/// reserves nothing that the bytes don't bear out.
pub fn decode_fold(alloc: Global, bytes: &Bytes) -> Result<FoldFile, FoldFault>
    ensures answer { Answers result (read_fold bytes.now) }
    ensures text { IfOk result (λ fold. (bytes.now ≡ fold_text fold) × IsLegal fold) }
    ensures each_text { (fold : FoldFile) → IsLegal fold → bytes.now ≡ fold_text fold → Answers result (Ok fold) }
{
    are_bytes(bytes.as_slice());
    read_fold(alloc, Cursor::new(bytes))
}
