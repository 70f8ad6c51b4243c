//! The lines that `kafka-get-offsets.sh` prints, TOPIC:PARTITION:OFFSET.

ghost use Rattle.std.specs.Prelude.{◌≡◌, ℕ, Ok, Err, IfOk, option_map};
ghost use Rattle.eos_manifest.specs.Lines.{end_between, end_in_line, without_return, ends_said_by};
ghost use Rattle.eos_manifest.specs.steps.Pieces.{end_of};
ghost use Rattle.eos_manifest.specs.declared.offset_line.EndsFault.TheVariants.{OutOfMemory};

use crate::divided::{after_mark, first_piece, split_at_last};
use crate::folder_name::read_name_in;
use bytes::Bytes;
use eos_base::read_offset;
use eos_evidence::End;
use std::alloc::{AllocError, AllocFailed, Global};

/// Why the ends of a file aren't known.
#[derive(Clone, Copy)]
pub enum EndsFault {
    /// The line of this number, counted from 1, is no TOPIC:PARTITION:OFFSET.
    Line(u64),
    /// A growth of memory was refused.
    OutOfMemory,
}

impl From<AllocError> for EndsFault {
    ghost from_gives = { λ _ e. e ≡ OutOfMemory };

    fn from(_e: AllocError) -> EndsFault {
        EndsFault::OutOfMemory
    }
}

impl<T: Drop> From<AllocFailed<T>> for EndsFault {
    ghost from_gives = { λ _ e. e ≡ OutOfMemory };

    fn from(_e: AllocFailed<T>) -> EndsFault {
        EndsFault::OutOfMemory
    }
}

/// The ends that the lines of a text say, in their order.
///
/// # Errors
/// `Line` for the first line that says none; `OutOfMemory`.
pub fn read_ends(alloc: Global, text: &[u8]) -> Result<Vec<End>, EndsFault>
    ensures ok { IfOk result (λ ends. ends_said_by text.now ≡ Ok ends.items) }
    ensures line { (number : ℕ) → result ≡ Err (EndsFault.Line number) → ends_said_by text.now ≡ Err number }
{
    let mut ends = Vec::new(alloc);
    let mut rest = text;
    let mut number = 1u64;
    while !rest.is_empty() {
        let (line, after) = first_piece(rest, b'\n');
        let Some(end) = read_line(alloc, line)? else {
            return Err(EndsFault::Line(number));
        };
        ends.push(end)?;
        number += 1;
        rest = after_mark(after);
    }
    Ok(ends)
}

/// The end that a line says.
fn read_line(alloc: Global, line: &[u8]) -> Result<Option<End>, AllocError>
    ensures { IfOk result (λ end. end ≡ end_in_line line.now) }
{
    let Some((topic, partition, end)) = fields_of_line(without_return(line)) else {
        return Ok(None);
    };
    let topic = Bytes::copy_from_slice(alloc, topic)?;
    Ok(Some(End {
        topic,
        partition,
        end,
    }))
}

/// A line without the carriage return that it ends in, if it does.
fn without_return(line: &[u8]) -> &[u8]
    ensures { result.now ≡ without_return line.now }
{
    if line.is_empty() || line[line.len() - 1] != b'\r' {
        return line;
    }
    &line[..line.len() - 1]
}

fn fields_of_line(line: &[u8]) -> Option<(&[u8], i32, i64)>
    ensures { option_map (λ r. end_of r.0.now r.1 r.2) result ≡ end_between line.now }
{
    let (place, offset) = split_at_last(line, b':')?;
    let (topic, partition) = split_at_last(place, b':')?;
    let (topic, partition) = read_name_in(topic, partition)?;
    let offset = read_offset(offset)?;
    Some((topic, partition, offset))
}
