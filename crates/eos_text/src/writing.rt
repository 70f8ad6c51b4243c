//! Writing a text whole, or a front of it.

ghost use Rattle.std.specs.Prelude.{◌≡◌, ◌<◌, ◌≤◌, ℕ, length, take, IfOk, IfErr, OnOk, OnErr};
ghost use Rattle.std.specs.Io.KnownBytes.{Appends, Keeps};
ghost use Rattle.eos_text.specs.Writing.{WritesFront};

use std::io::{ErrorKind, Write};
use thiserror::Error;

/// A writer failed, or takes nothing more.
#[derive(Clone, Copy, Debug, Error)]
#[error("Write")]
pub struct WriteFault;

/// How often in a row an interrupted write is tried.
const TRIES: u32 = 1000;

/// Writes all bytes.
///
/// # Errors
/// The writer failed, or took nothing: a front of the bytes was written.
pub fn write_whole<W: Write>(writer: &mut W, bytes: &[u8]) -> Result<(), WriteFault>
    ensures ok { OnOk result (Appends (W.contents writer.old) (W.contents writer.new) bytes.now) }
    ensures front { OnErr result (WritesFront (W.contents writer.old) (W.contents writer.new) bytes.now) }
{
    let mut at = 0usize;
    while at < bytes.len() {
        let count = write_some(writer, &bytes[at..])?;
        at += count;
    }
    Ok(())
}

/// One write, which takes at least a byte. It is tried again where it is interrupted.
fn write_some<W: Write>(writer: &mut W, bytes: &[u8]) -> Result<usize, WriteFault>
    requires { 0 < length bytes.now }
    ensures some { IfOk result (λ count. 0 < count) }
    ensures within { IfOk result (λ count. count ≤ length bytes.now) }
    ensures ok { IfOk result (λ count. Appends (W.contents writer.old) (W.contents writer.new) (take count bytes.now)) }
    ensures err { OnErr result (Keeps (W.contents writer.old) (W.contents writer.new)) }
{
    for _ in 0..TRIES {
        match writer.write(bytes) {
            Ok(0) => return Err(WriteFault),
            Ok(count) => return Ok(count),
            Err(e) => {
                if e.kind() != ErrorKind::Interrupted {
                    return Err(WriteFault);
                }
            }
        }
    }
    Err(WriteFault)
}

/// Writes all bytes and hands them on, so that nothing is held back.
///
/// # Errors
/// The writer failed, or took nothing: a front of the bytes was written.
pub fn finish<W: Write>(writer: &mut W, bytes: &[u8]) -> Result<(), WriteFault>
    ensures ok { OnOk result (Appends (W.contents writer.old) (W.contents writer.new) bytes.now) }
    ensures front { OnErr result (WritesFront (W.contents writer.old) (W.contents writer.new) bytes.now) }
{
    write_whole(writer, bytes)?;
    writer.flush().map_err(|_| WriteFault)
}
