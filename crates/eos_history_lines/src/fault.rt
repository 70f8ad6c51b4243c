//! Why a line is refused. Printed, it is a part of a sentence that says what to mend.

ghost use Rattle.std.specs.Prelude.{◌≡◌, Some};
ghost use Rattle.eos_history_lines.specs.FaultTexts.{line_fault_text};
ghost use Rattle.eos_history_lines.specs.declared.fault.LineFault.TheVariants.{OutOfMemory};

use crate::mistake::Mistake;
use std::alloc::{AllocError, AllocFailed};
use std::fmt::{Display, Formatter, Write};

/// Why a line is refused.
#[derive(Clone, Copy)]
pub enum LineFault {
    /// It is no JSON text.
    NotJson,
    /// It is JSON, and no such line.
    Mistaken(Mistake),
    /// A growth of memory was refused.
    OutOfMemory,
}

impl Display for LineFault {
    ghost output = { λ fault. Some (line_fault_text fault) };

    fn fmt<W: Write>(&self, f: &mut Formatter<W>) -> std::fmt::Result {
        match self {
            LineFault::NotJson => f.write_str("it is no JSON text"),
            LineFault::Mistaken(mistake) => write!(f, "{mistake}"),
            LineFault::OutOfMemory => f.write_str("out of memory"),
        }
    }
}

impl From<AllocError> for LineFault {
    ghost from_gives = { λ _ e. e ≡ OutOfMemory };

    fn from(_e: AllocError) -> LineFault {
        LineFault::OutOfMemory
    }
}

impl<T: Drop> From<AllocFailed<T>> for LineFault {
    ghost from_gives = { λ _ e. e ≡ OutOfMemory };

    fn from(_e: AllocFailed<T>) -> LineFault {
        LineFault::OutOfMemory
    }
}
