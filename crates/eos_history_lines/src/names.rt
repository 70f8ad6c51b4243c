//! Whether a text names each member once.

ghost use Rattle.std.specs.Prelude.{◌≡◌, ◌≢◌, Err, OnOk, IfErr, IsUtf8};
ghost use Rattle.eos_history_lines.specs.Names.{NamesOnce};
ghost use Rattle.eos_history_lines.specs.declared.fault.LineFault.TheVariants.{NotJson, OutOfMemory};

use crate::fault::LineFault;
use crate::mistake::Mistake;
use json::{Error, Scratch, Value};
use std::alloc::Global;

/// Refuses a text in which an object has two members of one name.
pub(crate) fn look_for_doubles(alloc: Global, text: &[u8]) -> Result<(), LineFault>
    ensures ok { OnOk result (NamesOnce text.now) }
    ensures json { result ≢ Err NotJson }
    ensures err { IfErr result (λ e. e ≢ OutOfMemory → IsUtf8 text.now → ¬ NamesOnce text.now) }
{
    let Ok(text) = str::from_utf8(text) else {
        return Err(LineFault::Mistaken(Mistake::Doubled));
    };
    match Value::parse_strict(alloc, text, &mut Scratch::new(alloc)) {
        Ok(_) => Ok(()),
        Err(Error::OutOfMemory | Error::TooLong) => Err(LineFault::OutOfMemory),
        Err(Error::Invalid | Error::DuplicateKey) => Err(LineFault::Mistaken(Mistake::Doubled)),
    }
}
