//! `coordinator`: which partition of Kafka's own two topics names have.

ghost use Rattle.std.specs.Prelude.{◌≡◌, ◌<◌, Err, IfOk, OnOk, OnErr, map};
ghost use Rattle.std.specs.Io.KnownBytes.{Appends, Keeps};
ghost use Rattle.eos_manifest.specs.Coordinators.{coordinator_lines};
ghost use Rattle.eos_text.specs.Writing.{WritesFront};
ghost use Rattle.eos_segment.specs.Running.{IsOfReading};

use crate::init_command::refuse;
use eos_disk::Cause;
use eos_ending::{Ending, STANDARD, end};
use eos_manifest::coordinator_lines;
use eos_segment::RunFault;
use eos_text::finish;
use eos_words::Coordinator;
use std::alloc::Global;
use std::io;
use std::io::Write;

/// The greatest number of partitions that a topic may have.
const MAX_PARTITIONS: u64 = i32::MAX as u64;

/// Prints for each name that the words give which partition it has, and gives the exit status.
#[inline(never)]
pub fn print_coordinators(rt: &HostRuntime, words: &Coordinator<'_>) -> u8 {
    if words.names.is_empty() {
        return refuse(rt, "coordinator takes one NAME or several");
    }
    let partitions = words.partitions;
    if partitions == 0 || partitions > MAX_PARTITIONS {
        return refuse(
            rt,
            "coordinator --partitions takes a number from 1 to 2147483647",
        );
    }
    let names = words.names.as_slice();
    let answered = coordinators_to(rt.alloc(), partitions, names, &mut io::writer(rt));
    end(
        rt,
        Ending::of_answer(answered, STANDARD, STANDARD, &Cause::Unknown),
    )
}

/// Writes for each name a line `NAME partition=K`. The status is 0.
///
/// # Errors
/// At `Write` a front of the lines was written, at `OutOfMemory` nothing. There is no other refusal.
pub fn coordinators_to<W: Write>(
    alloc: Global,
    partitions: u64,
    names: &[&str],
    writer: &mut W,
) -> Result<u8, RunFault>
    requires { 0 < partitions }
    ensures ok { OnOk result (Appends (W.contents writer.old) (W.contents writer.new) (coordinator_lines partitions (map (λ n. n.now) names.now))) }
    ensures status { IfOk result (λ status. status ≡ 0) }
    ensures write { result ≡ Err RunFault.Write → WritesFront (W.contents writer.old) (W.contents writer.new) (coordinator_lines partitions (map (λ n. n.now) names.now)) }
    ensures memory { result ≡ Err RunFault.OutOfMemory → Keeps (W.contents writer.old) (W.contents writer.new) }
    ensures only { OnErr result (IsOfReading result → ⊥) }
{
    let text = coordinator_lines(alloc, partitions, names)?;
    finish(writer, text.as_bytes())?;
    Ok(0)
}
