//! Saying how a run ended.

use crate::ending::{Ending, Told};
use crate::subject::Subject;

/// The name of a standard stream, where one is asked for or said.
pub const STANDARD: &str = "-";

/// Says on standard error how the run ended, and gives the exit status. Where standard error takes nothing, the status is all
/// that is left.
pub fn end(rt: &HostRuntime, ending: Ending<'_>) -> u8 {
    end_about(rt, Subject::Only, ending)
}

/// The same of a part of the run that is about one of several folders.
pub fn end_about(rt: &HostRuntime, subject: Subject<'_>, ending: Ending<'_>) -> u8 {
    let told = Told { subject, ending };
    let _ = eprint!(rt; "{told}");
    ending.status()
}
