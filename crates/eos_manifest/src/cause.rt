//! The cause of a refusal.

ghost use Rattle.std.specs.Prelude.{◌≡◌, IfSome};

use crate::json_stop::parse;
use crate::position::line_and_column;
use crate::search::search;
use crate::words::Words;
use eos_evidence::SpecFault;
use std::alloc::Global;

/// Why a manifest is refused.
#[derive(Drop)]
pub struct SpecCause {
    /// Of which fault it is the cause.
    pub fault: SpecFault,
    /// The line of the manifest that it is about, from 1.
    pub line: usize,
    /// The character of that line, from 1.
    pub column: usize,
    /// The element, what stands there and what is wanted: a part of a sentence, without a line's end.
    pub text: String,
}

/// The cause of a manifest's refusal. There is none where memory is refused, and where the manifest isn't refused so: a cause is
/// always one of this fault.
pub fn explain_spec(alloc: Global, bytes: &[u8], fault: SpecFault) -> Option<SpecCause>
    ensures { IfSome result (λ cause. cause.fault ≡ fault) }
{
    let mut words = Words::new(alloc, bytes);
    let Err(found) = look_at(alloc, &mut words, bytes) else {
        return None;
    };
    if found == fault && found != SpecFault::OutOfMemory {
        let (text, at) = words.into_text()?;
        let (line, column) = line_and_column(bytes, at);
        Some(SpecCause {
            fault: found,
            line,
            column,
            text,
        })
    } else {
        None
    }
}

/// Finds nothing where the manifest isn't refused; else the words say why it is.
fn look_at(alloc: Global, words: &mut Words<'_>, bytes: &[u8]) -> Result<(), SpecFault> {
    let manifest = parse(alloc, words, bytes)?;
    search(alloc, words, &manifest)
}
