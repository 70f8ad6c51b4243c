//! What Kafka's log cleaner leaves of a partition's log.

ghost use Rattle.std.specs.Prelude.{◌≡◌, ◌≤◌, ◌<◌, ◌^◌, ◌+◌, ◌++◌, ◌∷◌, [], IfOk, OnOk, length, slice_range};
ghost use Rattle.eos_batch.specs.Marker.{marker_of};
ghost use Rattle.eos_simulate.specs.Cleaning.{logged_in, logged_of, log_of, is_data, is_data_of, has_data_of, is_closed, is_abort, aborts, is_aborted_in, is_aborted, is_live, is_key, has_key, supersedes, is_superseded, stays, one_if, text_if, left_count, left_text, first_size, with_left, is_last_of_producer, left_batch, left_of, left_here, left_in, cleaned_file, cleaned_files};

use crate::bytes_changed::{sealed, with_number};
use crate::copied::{is_file_of, push_copy, push_with};
use crate::mistake::Mistake;
use bytes::Bytes;
use eos_base::Listed;
use eos_batch::{Batch, Kind, Record, next_batch};
use eos_evidence::Segment;
use eos_wire::read_varint;
use std::alloc::{AllocError, Global};

/// Where a batch's length stands and what it counts begins, where the number of its records stands, and where they begin.
const LENGTH: usize = 8;

const COUNTED: usize = 12;

const COUNT: usize = 57;

const RECORDS: usize = 61;

/// More bytes than a segment has, and more records.
const MOST: usize = 1 << 30;

/// A batch of a partition's log, as it stands in a file, which is called by its name.
#[derive(Drop)]
pub(crate) struct Logged {
    pub(crate) base: i64,
    pub(crate) batch: Batch,
    pub(crate) text: Bytes,
}

/// These files, those of one partition as the cleaner leaves them.
pub(crate) fn cleaned_files(
    alloc: Global,
    mistake: &Mistake<'_>,
    files: &[Segment],
) -> Result<Listed<Segment>, AllocError>
    ensures { IfOk result (λ cleaned. cleaned ≡ cleaned_files mistake.now files.now) }
{
    let log = log_of(alloc, mistake, files)?;
    let mut cleaned = Listed::new(Vec::new(alloc));
    for file in files {
        push_cleaned(alloc, &mut cleaned, mistake, log.as_slice(), file)?;
    }
    Ok(cleaned)
}

fn push_cleaned(
    alloc: Global,
    cleaned: &mut Listed<Segment>,
    mistake: &Mistake<'_>,
    log: &[Logged],
    file: &Segment,
) -> Result<(), AllocError>
    ensures { OnOk result (cleaned.new ≡ cleaned.old ++ cleaned_file mistake.now log.now file.now ∷ []) }
{
    if !is_file_of(mistake, file) {
        return push_copy(cleaned, file);
    }
    push_with(cleaned, file, left_in(alloc, file.base, log))
}

// ---- the log

fn log_of(
    alloc: Global,
    mistake: &Mistake<'_>,
    files: &[Segment],
) -> Result<Vec<Logged>, AllocError>
    ensures { IfOk result (λ log. log.items ≡ log_of mistake.now files.now) }
{
    let mut log = Vec::new(alloc);
    for file in files {
        push_logged(alloc, &mut log, mistake, file)?;
    }
    Ok(log)
}

fn push_logged(
    alloc: Global,
    log: &mut Vec<Logged>,
    mistake: &Mistake<'_>,
    file: &Segment,
) -> Result<(), AllocError>
    ensures { OnOk result (log.new.items ≡ log.old.items ++ logged_of mistake.now file.now) }
{
    if !is_file_of(mistake, file) {
        return Ok(());
    }
    push_batches(alloc, log, file)
}

/// Adds a batch of the file, which takes so many bytes.
fn push_batch(
    log: &mut Vec<Logged>,
    file: &Segment,
    batch: Batch,
    at: usize,
    size: usize,
) -> Result<(), AllocError>
    requires { (at + size ≤ length file.now.bytes) × (length file.now.bytes < 2 ^ 63) }
    ensures { OnOk result (log.new.items ≡ log.old.items ++ record { base = file.now.base; batch = batch; text = slice_range file.now.bytes at (at + size) } ∷ []) }
{
    log.push(Logged {
        base: file.base,
        batch,
        text: file.bytes.slice(at..at + size)?,
    })?;
    Ok(())
}

fn push_batches(alloc: Global, log: &mut Vec<Logged>, file: &Segment) -> Result<(), AllocError>
    ensures { OnOk result (log.new.items ≡ log.old.items ++ logged_in (length file.now.bytes) file.now.base file.now.bytes) }
{
    let mut at = 0;
    for _ in 0..file.bytes.len() {
        match next_batch(alloc, &file.bytes, at)? {
            Ok((batch, size)) => {
                push_batch(log, file, batch, at, size)?;
                at += size;
            }
            Err(_) => return Ok(()),
        }
    }
    Ok(())
}

// ---- what is asked of a batch and those behind it

fn is_data(logged: &Logged) -> bool
    ensures { result ≡ is_data logged.now }
{
    !logged.batch.is_control()
}

#[tactic(auto, using(crate::proofs::LookedFor::looked_at, crate::proofs::LookedFor::none_found))]
fn is_closed(logged: &Logged, later: &[Logged]) -> bool
    ensures { result ≡ is_closed logged.now later.now }
{
    for other in later {
        if other.base != logged.base {
            return true;
        }
    }
    false
}

fn is_abort(kind: Kind) -> bool
    ensures { result ≡ is_abort kind }
{
    match kind {
        Kind::Commit => false,
        Kind::Abort => true,
    }
}

/// Whether a batch ends a transaction of this producer id by an abort, if it ends one.
fn aborts(producer: i64, logged: &Logged) -> Option<bool>
    ensures { result ≡ aborts producer (marker_of logged.now.batch) }
{
    match logged.batch.marker() {
        Some(marker) if marker.producer == producer => Some(is_abort(marker.kind)),
        _ => None,
    }
}

fn is_aborted_in(producer: i64, later: &[Logged]) -> bool
    ensures { result ≡ is_aborted_in producer later.now }
{
    for logged in later {
        if let Some(aborts) = aborts(producer, logged) {
            return aborts;
        }
    }
    false
}

fn is_aborted(logged: &Logged, later: &[Logged]) -> bool
    ensures { result ≡ is_aborted logged.now later.now }
{
    logged.batch.is_transactional() && is_aborted_in(logged.batch.producer, later)
}

fn is_live(logged: &Logged, later: &[Logged]) -> bool
    ensures { result ≡ is_live logged.now later.now }
{
    is_data(logged) && is_closed(logged, later) && !is_aborted(logged, later)
}

fn is_data_of(logged: &Logged, other: &Logged) -> bool
    ensures { result ≡ is_data_of logged.now other.now }
{
    is_data(other) && other.batch.producer == logged.batch.producer
}

fn has_data_of(logged: &Logged, later: &[Logged]) -> bool
    ensures { result ≡ has_data_of logged.now later.now }
{
    for other in later {
        if is_data_of(logged, other) {
            return true;
        }
    }
    false
}

fn is_last_of_producer(logged: &Logged, later: &[Logged]) -> bool
    ensures { result ≡ is_last_of_producer logged.now later.now }
{
    logged.batch.producer >= 0 && !has_data_of(logged, later)
}

// ---- which records stay

fn is_key(key: &Bytes, other: &Option<Bytes>) -> bool
    ensures { result ≡ is_key key.now other.now }
{
    match other {
        Some(other) => other == key,
        None => false,
    }
}

fn has_key(key: &Bytes, records: &[Record]) -> bool
    ensures { result ≡ has_key key.now records.now }
{
    for record in records {
        if is_key(key, &record.key) {
            return true;
        }
    }
    false
}

fn supersedes(key: &Bytes, logged: &Logged, later: &[Logged]) -> bool
    ensures { result ≡ supersedes key.now logged.now later.now }
{
    has_key(key, logged.batch.records.as_slice()) && is_live(logged, later)
}

fn is_superseded(key: &Bytes, later: &[Logged]) -> bool
    ensures { result ≡ is_superseded key.now later.now }
{
    for i in 0..later.len() {
        if supersedes(key, &later[i], &later[i + 1..]) {
            return true;
        }
    }
    false
}

fn stays(key: &Option<Bytes>, others: &[Record], later: &[Logged]) -> bool
    ensures { result ≡ stays key.now others.now later.now }
{
    match key {
        Some(key) => !has_key(key, others) && !is_superseded(key, later),
        None => false,
    }
}

// ---- their bytes

/// How many bytes the first record takes.
fn first_size(text: &[u8]) -> usize
    ensures { result ≡ first_size text.now }
{
    match read_varint(text) {
        Some((size, len)) if size >= 0 => len + size as usize,
        _ => 0,
    }
}

/// Adds this text, if it stays, and tells how many were added.
fn push_if(out: &mut Vec<u8>, stays: bool, text: &[u8]) -> Result<usize, AllocError>
    ensures count { IfOk result (λ count. count ≡ one_if stays) }
    ensures text { OnOk result (out.new.items ≡ out.old.items ++ text_if stays text.now) }
{
    if !stays {
        return Ok(0);
    }
    out.extend_from_slice(text)?;
    Ok(1)
}

/// Adds the records that stay, and tells how many.
fn push_left(
    out: &mut Vec<u8>,
    records: &[Record],
    text: &[u8],
    later: &[Logged],
) -> Result<usize, AllocError>
    ensures count { IfOk result (λ count. count ≡ left_count records.now later.now) }
    ensures text { OnOk result (out.new.items ≡ out.old.items ++ left_text records.now text.now later.now) }
{
    let mut count = 0;
    let mut rest = text;
    for i in 0..records.len() {
        let (first, others) = rest.split_at(first_size(rest).min(rest.len()));
        count += push_if(out, stays(&records[i].key, &records[i + 1..], later), first)?;
        rest = others;
    }
    Ok(count)
}

/// The batch with so many records, which are these bytes.
fn with_left(alloc: Global, text: &Bytes, count: usize, records: &[u8]) -> Result<Bytes, AllocError>
    ensures { IfOk result (λ left. left ≡ with_left text.now count records.now) }
{
    if text.len() < RECORDS || count >= MOST || records.len() >= MOST {
        return text.clone();
    }
    let text = text.as_slice();
    let rest = with_number(alloc, &text[COUNTED..COUNT], count as u32, records)?;
    let size = (RECORDS - COUNTED + records.len()) as u32;
    let whole = with_number(alloc, &text[..LENGTH], size, rest.as_slice())?;
    sealed(alloc, &whole)
}

// ---- what is left

/// What is left of a batch of which these records aren't aborted.
fn left_batch(
    alloc: Global,
    logged: &Logged,
    records: &[Record],
    later: &[Logged],
) -> Result<Bytes, AllocError>
    ensures { IfOk result (λ left. left ≡ left_batch logged.now records.now later.now) }
{
    let mut left = Vec::new(alloc);
    let (_, text) = logged
        .text
        .as_slice()
        .split_at(RECORDS.min(logged.text.len()));
    let count = push_left(&mut left, records, text, later)?;
    if count == 0 && !is_last_of_producer(logged, later) {
        return Ok(Bytes::from_static(b"".as_slice()));
    }
    with_left(alloc, &logged.text, count, left.as_slice())
}

fn left_of(alloc: Global, logged: &Logged, later: &[Logged]) -> Result<Bytes, AllocError>
    ensures { IfOk result (λ left. left ≡ left_of logged.now later.now) }
{
    if !(is_data(logged) && is_closed(logged, later)) {
        return logged.text.clone();
    }
    if is_aborted(logged, later) {
        return left_batch(alloc, logged, &[], later);
    }
    left_batch(alloc, logged, logged.batch.records.as_slice(), later)
}

/// Adds what is left of a batch, if it stands in the file of this name.
fn push_here(
    alloc: Global,
    out: &mut Vec<u8>,
    base: i64,
    logged: &Logged,
    later: &[Logged],
) -> Result<(), AllocError>
    ensures { OnOk result (out.new.items ≡ out.old.items ++ left_here base logged.now later.now) }
{
    if logged.base != base {
        return Ok(());
    }
    let left = left_of(alloc, logged, later)?;
    out.extend_from_slice(left.as_slice())
}

/// What is left in the file of this name.
fn left_in(alloc: Global, base: i64, log: &[Logged]) -> Result<Bytes, AllocError>
    ensures { IfOk result (λ left. left ≡ left_in base log.now) }
{
    let mut out = Vec::new(alloc);
    for i in 0..log.len() {
        push_here(alloc, &mut out, base, &log[i], &log[i + 1..])?;
    }
    Ok(Bytes::from_vec(out)?)
}
