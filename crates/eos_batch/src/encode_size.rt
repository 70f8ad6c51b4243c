//! How many bytes the texts of records take, counted before any memory is taken for them. A size that no `usize` holds
//! stays at the greatest one.

ghost use Rattle.std.specs.Prelude.{◌≡◌, ◌≤◌, ◌<◌, ◌+◌, ◌*◌, pos, length};
ghost use Rattle.eos_wire.specs.Writing.{groups_of, varint_of, varlong_of};
ghost use Rattle.eos_batch.specs.Encoding.{bytes_text, optional_text, header_text, headers_text, body_text, record_text, records_text};
ghost use Rattle.eos_batch.specs.steps.Writing.{capped};

use crate::record::{Header, Record};
use bytes::Bytes;

/// How many groups of seven bits a number takes, of at most `more` and one more.
fn groups_size(more: usize, number: u64) -> usize
    requires { more < 10 }
    ensures size { result ≡ length (groups_of more number) }
    ensures small { result ≤ more + 1 }
{
    let mut size = 1;
    let mut rest = number;
    while size <= more && rest >= 128 {
        rest /= 128;
        size += 1;
    }
    size
}

/// The same for a number with a sign, which stands as twice this half or as one more.
fn zigzag_size(more: usize, half: u64) -> usize
    requires { more < 10 }
    ensures even { result ≡ length (groups_of (more + 1) (2 * half)) }
    ensures odd { result ≡ length (groups_of (more + 1) (2 * half + 1)) }
    ensures small { result ≤ more + 2 }
{
    if half < 64 {
        return 1;
    }
    1 + groups_size(more, half / 64)
}

/// The size of a length, a count or a place.
#[tactic(auto, unfolding(eos_wire::specs::Writing::varint_of))]
fn count_size(count: usize) -> usize
    ensures size { result ≡ length (varint_of (pos count)) }
    ensures small { result ≤ 5 }
{
    zigzag_size(3, count as u64)
}

#[tactic(auto, unfolding(eos_wire::specs::Writing::varlong_of))]
fn varlong_size(value: i64) -> usize
    ensures size { result ≡ length (varlong_of value) }
    ensures small { result ≤ 10 }
{
    if value < 0 {
        zigzag_size(8, (-(value + 1)) as u64)
    } else {
        zigzag_size(8, value as u64)
    }
}

#[tactic(auto, unfolding(crate::specs::Encoding::bytes_text))]
fn bytes_size(bytes: &Bytes) -> usize
    ensures { result ≡ capped (length (bytes_text bytes.now)) }
{
    let len = bytes.len();
    count_size(len).saturating_add(len)
}

#[tactic(auto, unfolding(crate::specs::Encoding::optional_text))]
fn optional_size(bytes: &Option<Bytes>) -> usize
    ensures { result ≡ capped (length (optional_text bytes.now)) }
{
    match bytes {
        None => 1,
        Some(bytes) => bytes_size(bytes),
    }
}

#[tactic(auto, unfolding(crate::specs::Encoding::header_text))]
fn header_size(header: &Header) -> usize
    ensures { result ≡ capped (length (header_text header.now)) }
{
    bytes_size(&header.key).saturating_add(optional_size(&header.value))
}

fn headers_size(headers: &[Header]) -> usize
    ensures { result ≡ capped (length (headers_text headers.now)) }
{
    let mut size = 0usize;
    for header in headers {
        size = size.saturating_add(header_size(header));
    }
    size
}

/// The size of the record at this place of its batch, without its length.
#[tactic(auto, unfolding(crate::specs::Encoding::body_text))]
pub(crate) fn body_size(place: usize, record: &Record) -> usize
    ensures { result ≡ capped (length (body_text place «record».now)) }
{
    let headers = record.headers.as_slice();
    let timestamp_delta = record.timestamp_delta;
    let numbers = 1 + varlong_size(timestamp_delta) + count_size(place) + count_size(headers.len());
    numbers
        .saturating_add(optional_size(&record.key))
        .saturating_add(optional_size(&record.value))
        .saturating_add(headers_size(headers))
}

#[tactic(auto, unfolding(crate::specs::Encoding::record_text, crate::specs::Encoding::bytes_text))]
fn record_size(place: usize, record: &Record) -> usize
    ensures { result ≡ capped (length (record_text place «record».now)) }
{
    let size = body_size(place, record);
    count_size(size).saturating_add(size)
}

/// The size of all records of a batch.
pub(crate) fn records_size(records: &[Record]) -> usize
    ensures { result ≡ capped (length (records_text 0 records.now)) }
{
    let mut size = 0usize;
    for (place, record) in records.iter().enumerate() {
        size = size.saturating_add(record_size(place, record));
    }
    size
}
