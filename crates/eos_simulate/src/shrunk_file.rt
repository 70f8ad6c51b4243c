//! `shrink` on a disk: a schedule is read, made small, and written as a new file, whole or not at all.

ghost use Rattle.std.specs.Prelude.{◌≡◌, length, IfOk, OnErr, string_bytes};
ghost use Rattle.eos_disk.specs.Putting.{IsBegun};
ghost use Rattle.eos_ending.specs.Leaving.{Stays};
ghost use Rattle.eos_history_lines.specs.declared.schedule.Schedule.{Schedule};
ghost use Rattle.eos_simulate.specs.Folders.{IsScheduleAt};
ghost use Rattle.eos_simulate.specs.Shrinking.{IsShrunkText, IsShrunkFile, shrunk_line};

use crate::history_file::history_text;
use crate::schedule_file::{Unread, read_schedule};
use crate::shrinking::{ShrinkFault, Shrunk, shrink};
use eos_disk::{ChangeFault, DiskMut, FolderFault, NewFile, begin_file, drop_file};
use eos_ending::leave_file;
use eos_history_lines::{Schedule, ScheduleFault};
use eos_text::{push_text, push_value};
use eos_words::Shrink;
use std::alloc::{AllocError, Global};
use std::io::Read;
use std::thread::Threads;

/// Why no schedule is left.
#[derive(Drop)]
pub enum Unshrunk {
    /// The file can't be begun or written.
    File(ChangeFault),
    /// The schedule can't be read.
    Unread(FolderFault),
    /// A line of it is refused.
    Refused(ScheduleFault),
    /// The schedule, which has so many lines of what is done, isn't made small.
    Unfit(ShrinkFault, u64),
}

/// What is written, and what is told of it.
#[derive(Drop)]
struct Small {
    text: String,
    line: String,
}

/// Begins the file. A path names none where it is empty or ends in a slash, whatever stands there.
#[tactic(auto, using(crate::proofs::ShrunkFiles::unbegun, crate::proofs::ShrunkFiles::nothing))]
pub(crate) fn begun_at<D: DiskMut>(
    alloc: Global,
    disk: &mut D,
    path: &str,
) -> Result<NewFile<D::Held>, ChangeFault>
    ensures ok { IfOk result (λ file. (file ≡ path.now) × IsBegun (D.holds disk.old) path.now (D.holds disk.new)) }
    ensures err { OnErr result (Stays (D.holds disk.old) path.now (D.holds disk.new)) }
{
    if path.is_empty() {
        return Err(ChangeFault::NoFolder);
    }
    if path.ends_with('/') {
        return Err(ChangeFault::Refused);
    }
    begin_file(alloc, disk, path)
}

/// The line of what was done to a schedule of so many lines.
fn line_of(alloc: Global, shrunk: &Shrunk, lines: usize) -> Result<String, AllocError>
    ensures { IfOk result (λ line. string_bytes line ≡ shrunk_line (length shrunk.now.history) lines shrunk.now.runs) }
{
    let mut line = String::new(alloc);
    push_value(&mut line, "shrunk lines=", &shrunk.history.deeds().len())?;
    push_value(&mut line, " of=", &lines)?;
    push_value(&mut line, " runs=", &shrunk.runs)?;
    push_text(&mut line, "\n")?;
    Ok(line)
}

/// What is left of a schedule.
#[tactic(auto, using(crate::proofs::ShrunkFiles::shrunk_text))]
fn made<R: Threads + Sync>(
    alloc: Global,
    rt: &R,
    schedule: &Schedule,
    code: &str,
) -> Result<Small, ShrinkFault>
    ensures { IfOk result (λ small. IsShrunkText schedule.now code.now (string_bytes small.text) (string_bytes small.line)) }
{
    let shrunk = shrink(alloc, rt, schedule, code)?;
    let text = history_text(alloc, &schedule.head, &shrunk.history)?;
    let line = line_of(alloc, &shrunk, schedule.lines.len())?;
    Ok(Small { text, line })
}

/// Reads the schedule, and makes it small.
fn read_made<D: DiskMut, R: Read, T: Threads + Sync>(
    alloc: Global,
    rt: &T,
    disk: &D,
    words: &Shrink<'_>,
    input: &mut R,
) -> Result<Small, Unshrunk>
    ensures { IfOk result (λ small. (s : Schedule) × IsScheduleAt (D.holds disk.now) words.now.history.now (R.remaining input.old) (R.remaining input.new) s
        × IsShrunkText s words.now.code.now (string_bytes small.text) (string_bytes small.line)) }
{
    let schedule = match read_schedule(alloc, disk, words.history, input) {
        Ok(schedule) => schedule,
        Err(Unread::File(fault)) => return Err(Unshrunk::Unread(fault)),
        Err(Unread::Refused(fault)) => return Err(Unshrunk::Refused(fault)),
    };
    match made(alloc, rt, &schedule, words.code) {
        Ok(small) => Ok(small),
        Err(fault) => Err(Unshrunk::Unfit(fault, schedule.lines.len() as u64)),
    }
}

/// Reads a schedule from its file, or from the input where that is named `-`; leaves the smallest part of it that is found whose first
/// fault has the code that the words name, as a new file; and gives the line that tells it.
///
/// # Errors
/// At the file's path stands what stood there.
#[tactic(auto, using(crate::proofs::ShrunkFiles::shrunk_file, crate::proofs::ShrunkFiles::dropped, crate::proofs::ShrunkFiles::unplaced))]
pub fn shrink_file<D: DiskMut, R: Read, T: Threads + Sync>(
    alloc: Global,
    rt: &T,
    disk: &mut D,
    words: &Shrink<'_>,
    input: &mut R,
) -> Result<String, Unshrunk>
    ensures ok { IfOk result (λ line. IsShrunkFile words.now (R.remaining input.old) (R.remaining input.new) (D.holds disk.old) (D.holds disk.new) (string_bytes line)) }
    ensures err { OnErr result (Stays (D.holds disk.old) words.now.file.now (D.holds disk.new)) }
{
    let file = match begun_at(alloc, disk, words.file) {
        Ok(file) => file,
        Err(fault) => return Err(Unshrunk::File(fault)),
    };
    let Small { text, line } = match read_made(alloc, rt, &*disk, words, input) {
        Ok(small) => small,
        Err(why) => {
            drop_file(alloc, disk, file);
            return Err(why);
        }
    };
    match leave_file(alloc, disk, file, Some(text)) {
        Ok(()) => Ok(line),
        Err(fault) => Err(Unshrunk::File(fault)),
    }
}
