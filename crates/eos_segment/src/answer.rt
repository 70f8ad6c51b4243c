//! `chain`: whether the producers of one segment kept their promises.

ghost use Rattle.std.specs.Prelude.{◌≡◌, Err, ℕ, List, IfOk, OnOk, MatchResult, string_bytes};
ghost use Rattle.std.specs.Io.KnownBytes.{Keeps};
ghost use Rattle.eos_segment.specs.ChainFaults.{IsLeastFault};
ghost use Rattle.eos_segment.specs.Good.{IsGood};
ghost use Rattle.eos_text.specs.Adding.{Adds};
ghost use Rattle.eos_segment.specs.Answer.{IsChainAnswer, good_line, fault_line};
ghost use Rattle.eos_segment.specs.Running.{Ran};

use crate::fault::RunFault;
use crate::one_segment::{Chain, chain_from};
use eos_fold::PartitionFault;
use eos_text::{finish, push_text, push_value};
use eos_verdict::push_details;
use std::alloc::{AllocError, Global};
use std::io::{Read, Write};

/// Reads a segment and writes whether its chain is kept, or the least fault. The status is 0 where it is kept, else 1.
///
/// The segment counts as a whole partition that begins at its first batch's base offset. It is read chunk by chunk: what is
/// held doesn't grow with it, but with the number of its producer ids and with its largest batch.
///
/// # Errors
/// After `Read`, `Limit` and `OutOfMemory` nothing was written, after `Write` a front of the answer.
pub fn chain_to<R: Read, W: Write>(
    alloc: Global,
    reader: &mut R,
    writer: &mut W,
) -> Result<u8, RunFault>
    ensures ran { Ran IsChainAnswer (R.remaining reader.old) (R.remaining reader.new) (W.contents writer.old) (W.contents writer.new) result }
    ensures memory { result ≡ Err RunFault.OutOfMemory → Keeps (W.contents writer.old) (W.contents writer.new) }
{
    let answer = chain_from(alloc, reader)?;
    let mut line = String::new(alloc);
    let status = push_answer(&mut line, &answer)?;
    finish(writer, line.as_bytes())?;
    Ok(status)
}

/// Adds what a segment's chain is, and gives the exit status.
fn push_answer(out: &mut String, answer: &Result<Chain, PartitionFault>) -> Result<u8, AllocError>
    ensures { IfOk result (λ status. (bytes : List ℕ) → MatchResult answer.now (IsGood bytes) (IsLeastFault bytes)
        → (text : List ℕ) × IsChainAnswer bytes text status × Adds (string_bytes out.old) (string_bytes out.new) text) }
{
    match answer {
        Ok(kept) => {
            push_good(out, kept)?;
            Ok(0)
        }
        Err(fault) => {
            push_broken(out, fault)?;
            Ok(1)
        }
    }
}

fn push_good(out: &mut String, kept: &Chain) -> Result<(), AllocError>
    ensures { OnOk result (Adds (string_bytes out.old) (string_bytes out.new) (good_line kept.now)) }
{
    push_value(out, "ok batches=", &kept.batches)?;
    push_value(out, " producers=", &kept.producers)?;
    push_text(out, "\n")?;
    Ok(())
}

fn push_broken(out: &mut String, fault: &PartitionFault) -> Result<(), AllocError>
    ensures { OnOk result (Adds (string_bytes out.old) (string_bytes out.new) (fault_line fault.now)) }
{
    push_value(out, "no 1.", &fault.kind.number())?;
    push_value(out, " ", &fault.kind.name())?;
    push_value(out, " offset=", &fault.offset)?;
    push_details(out, &fault.kind)?;
    push_text(out, "\n")?;
    Ok(())
}
