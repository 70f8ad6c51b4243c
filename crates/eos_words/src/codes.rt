//! The codes of kinds of faults, by their names.

use eos_text::{Page, page_of};
use std::alloc::{AllocError, Global};

/// How many phases there are at most, and of how many kinds each.
const PHASES: u64 = 9;

const KINDS: u64 = 99;

/// The code that a word means: that of the kind of fault of this name, or else the word itself.
pub(crate) fn code_meant<'a>(alloc: Global, word: &'a str) -> Result<&'a str, AllocError> {
    for phase in 1..=PHASES {
        for number in 1..=KINDS {
            if let Some(page) = page_at(alloc, phase, number)? {
                if page.name == word {
                    return Ok(page.code);
                }
            }
        }
    }
    Ok(word)
}

fn page_at(alloc: Global, phase: u64, number: u64) -> Result<Option<&'static Page>, AllocError> {
    let code = format!(in alloc; "{phase}.{number}")?;
    Ok(page_of(code.as_str()))
}
