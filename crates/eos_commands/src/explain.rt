//! `explain`: what a kind of fault is.

ghost use Rattle.std.specs.Prelude.{◌≡◌, Err, IfOk, OnOk, OnErr};
ghost use Rattle.std.specs.Io.KnownBytes.{Appends, Keeps};
ghost use Rattle.eos_text.specs.Pages.{page_text};
ghost use Rattle.eos_text.specs.Writing.{WritesFront};
ghost use Rattle.eos_segment.specs.Running.{IsOfReading};

use eos_disk::Cause;
use eos_ending::{Ending, STANDARD, end};
use eos_segment::RunFault;
use eos_text::{Page, finish, page_of, page_text};
use std::alloc::Global;
use std::io;
use std::io::Write;

/// Prints the catalogue's page of the kind of fault with this code, and gives the exit status.
#[inline(never)]
pub fn explain_code(rt: &HostRuntime, code: &str) -> u8 {
    match page_of(code) {
        Some(page) => {
            let answered = page_to(rt.alloc(), page, &mut io::writer(rt));
            end(
                rt,
                Ending::of_answer(answered, STANDARD, STANDARD, &Cause::Unknown),
            )
        }
        None => end(rt, Ending::NoSuchCode(code)),
    }
}

/// Writes a page of the catalogue. The status is 0.
///
/// # Errors
/// At `Write` a front of it was written, at `OutOfMemory` nothing. There is no other refusal.
pub fn page_to<W: Write>(alloc: Global, page: &Page, writer: &mut W) -> Result<u8, RunFault>
    ensures ok { OnOk result (Appends (W.contents writer.old) (W.contents writer.new) (page_text page.now)) }
    ensures status { IfOk result (λ status. status ≡ 0) }
    ensures write { result ≡ Err RunFault.Write → WritesFront (W.contents writer.old) (W.contents writer.new) (page_text page.now) }
    ensures memory { result ≡ Err RunFault.OutOfMemory → Keeps (W.contents writer.old) (W.contents writer.new) }
    ensures only { OnErr result (IsOfReading result → ⊥) }
{
    let text = page_text(alloc, page)?;
    finish(writer, text.as_bytes())?;
    Ok(0)
}
