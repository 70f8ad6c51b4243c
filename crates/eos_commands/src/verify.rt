//! `fold --verify`: folds beside the logs that they were made of.

ghost use Rattle.std.specs.Prelude.{◌≡◌, Err, IfOk, OnErr};
ghost use Rattle.std.specs.Io.KnownBytes.{Appends, Keeps};
ghost use Rattle.eos_commands.specs.VerifyingLines.{found_text, status_of};
ghost use Rattle.eos_text.specs.Writing.{WritesFront};
ghost use Rattle.eos_segment.specs.Running.{IsOfReading};

use crate::{Compared, Found, found_text, status_of, verify_folds};
use eos_disk::{Cause, HostDisk};
use eos_ending::{Ending, STANDARD, Subject, end, end_unread};
use eos_segment::RunFault;
use eos_text::finish;
use std::alloc::Global;
use std::io;
use std::io::Write;

/// What is said where no fold has its log at hand.
const NONE_COMPARED: &str = "no fold in it has its log in the folders that are given";

/// Compares the folds in a folder with the logs that are at hand, says on standard output what was found, and gives the exit status.
#[inline(never)]
pub fn verify_partitions(rt: &HostRuntime, folder: &str, logs: &[&str]) -> u8 {
    let given = Compared { folder, logs };
    match verify_folds(rt.alloc(), &HostDisk { rt }, given) {
        Ok(found) => tell(rt, folder, found.as_slice()),
        Err(fault) => {
            let status = end_unread(rt, Subject::Only, &fault);
            drop(fault);
            status
        }
    }
}

fn tell(rt: &HostRuntime, folder: &str, found: &[Found]) -> u8 {
    match found_to(rt.alloc(), found, &mut io::writer(rt)) {
        Ok(2) => end(rt, Ending::Unfit(folder, NONE_COMPARED)),
        answered => end(
            rt,
            Ending::of_answer(answered, STANDARD, STANDARD, &Cause::Unknown),
        ),
    }
}

/// Writes what was found of folds, and gives the exit status: 1 where one differs from its log's, 2 where none was compared, else 0.
///
/// # Errors
/// At `Write` a front of the lines was written, at `OutOfMemory` nothing. There is no other refusal.
pub fn found_to<W: Write>(alloc: Global, found: &[Found], writer: &mut W) -> Result<u8, RunFault>
    ensures ok { IfOk result (λ status. (status ≡ status_of found.now) × Appends (W.contents writer.old) (W.contents writer.new) (found_text found.now)) }
    ensures write { result ≡ Err RunFault.Write → WritesFront (W.contents writer.old) (W.contents writer.new) (found_text found.now) }
    ensures memory { result ≡ Err RunFault.OutOfMemory → Keeps (W.contents writer.old) (W.contents writer.new) }
    ensures only { OnErr result (IsOfReading result → ⊥) }
{
    let text = found_text(alloc, found)?;
    finish(writer, text.as_bytes())?;
    Ok(status_of(found))
}
