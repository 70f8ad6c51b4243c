//! Why a verdict was not written.

ghost use Rattle.std.specs.Prelude.{◌≡◌};
ghost use Rattle.eos_report.specs.declared.fault.ReportFault.TheVariants as faults;
ghost use Rattle.eos_report.specs.Faults.{name_of};

use eos_text::WriteFault;
use std::alloc::{AllocError, AllocFailed};
use thiserror::Error;

/// Why a verdict was not written. Its text is its name.
#[derive(Clone, Copy, Debug, Error)]
#[error("{name}", name = self.name())]
pub enum ReportFault {
    /// The writer failed: a front of the line was written.
    Write,
    /// A growth of memory was refused: nothing was written.
    OutOfMemory,
}

impl ReportFault {
    /// The fault's name.
    pub fn name(self) -> &'static str
        ensures { result.now ≡ name_of self }
    {
        match self {
            ReportFault::Write => "Write",
            ReportFault::OutOfMemory => "OutOfMemory",
        }
    }
}

impl From<WriteFault> for ReportFault {
    ghost from_gives = { λ _ e. e ≡ faults.Write };

    fn from(_e: WriteFault) -> ReportFault {
        ReportFault::Write
    }
}

impl From<AllocError> for ReportFault {
    ghost from_gives = { λ _ e. e ≡ faults.OutOfMemory };

    fn from(_e: AllocError) -> ReportFault {
        ReportFault::OutOfMemory
    }
}

impl<T: Drop> From<AllocFailed<T>> for ReportFault {
    ghost from_gives = { λ _ e. e ≡ faults.OutOfMemory };

    fn from(_e: AllocFailed<T>) -> ReportFault {
        ReportFault::OutOfMemory
    }
}
