//! A file of lines.

ghost use Rattle.std.specs.Prelude.{◌≡◌, ◌++◌, ◌∷◌, [], Some, IfOk, IfErr, OnOk, ℕ, List};
ghost use Rattle.eos_history_lines.specs.Divided.{lines_of};
ghost use Rattle.eos_history_lines.specs.Files.{IsSchedule};
ghost use Rattle.eos_history_lines.specs.FaultTexts.{schedule_fault_text};
ghost use Rattle.eos_history_lines.specs.Refusals.{IsRefusal, IsRefusedAmong};
ghost use Rattle.eos_history_lines.specs.steps.Found.{HasFound};

use crate::divided::{after_feed, first_line};
use crate::fault::LineFault;
use crate::line::{Head, Line, Row, Tail};
use crate::mistake::Mistake;
use crate::rows::{head_of, row_of};
use eos_base::Listed;
use std::alloc::Global;
use std::fmt::{Display, Formatter, Write};

/// What a simulated cluster was, and what is to happen to it.
#[derive(Drop)]
pub struct Schedule {
    pub head: Head,
    pub lines: Listed<Line>,
    pub tail: Option<Tail>,
}

/// Why a file of lines is refused: the first line that is, counted from 1.
#[derive(Clone, Copy)]
pub struct ScheduleFault {
    pub line: u64,
    pub fault: LineFault,
}

impl Display for ScheduleFault {
    ghost output = { λ fault. Some (schedule_fault_text fault) };

    fn fmt<W: Write>(&self, f: &mut Formatter<W>) -> std::fmt::Result {
        let ScheduleFault { line, fault } = *self;
        write!(f, "line {line}: {fault}")
    }
}

/// The lines after the first, so far.
#[derive(Drop)]
struct Found {
    lines: Listed<Line>,
    tail: Option<Tail>,
}

/// What the lines of a text say: the first, those of what was done, and the last, which may be absent. No line may be empty; after
/// the last line feed none begins. The memory that is taken goes by the lines that were read.
///
/// # Errors
/// The first line that is refused, counted from 1, and why.
pub fn schedule_of(alloc: Global, text: &[u8]) -> Result<Schedule, ScheduleFault>
    ensures ok { IfOk result (λ schedule. IsSchedule (lines_of text.now) schedule) }
    ensures err { IfErr result (λ fault. IsRefusal (lines_of text.now) fault) }
{
    if text.is_empty() {
        return Err(ScheduleFault {
            line: 1,
            fault: LineFault::NotJson,
        });
    }
    let (first, after) = first_line(text);
    let head = match head_of(alloc, first) {
        Ok(head) => head,
        Err(fault) => return Err(ScheduleFault { line: 1, fault }),
    };
    let Found { lines, tail } = found_in(alloc, after_feed(after))?;
    Ok(Schedule { head, lines, tail })
}

/// What the lines after the first say.
fn found_in(alloc: Global, text: &[u8]) -> Result<Found, ScheduleFault>
    ensures ok { IfOk result (λ found. HasFound (lines_of text.now) found) }
    ensures err { IfErr result (λ fault. IsRefusedAmong (lines_of text.now) fault) }
{
    let mut found = Found {
        lines: Listed::new(Vec::new(alloc)),
        tail: None,
    };
    let mut rest = text;
    let mut number = 2u64;
    while !rest.is_empty() {
        let (line, after) = first_line(rest);
        if let Err(fault) = found.add(alloc, line) {
            return Err(ScheduleFault {
                line: number,
                fault,
            });
        }
        number = number.saturating_add(1);
        rest = after_feed(after);
    }
    Ok(found)
}

impl Found {
    ghost use Rattle.eos_history_lines.specs.steps.Found.{HasFound};
    ghost use Rattle.eos_history_lines.specs.Refusals.{IsRefusedAfter};

    /// Adds what a line says.
    fn add(&mut self, alloc: Global, text: &[u8]) -> Result<(), LineFault>
        ensures ok { (texts : List (List ℕ)) → HasFound texts self.old → OnOk result (HasFound (texts ++ text.now ∷ []) self.new) }
        ensures err { IfErr result (λ fault. IsRefusedAfter self.old.tail text.now fault) }
    {
        if self.tail.is_some() {
            return Err(LineFault::Mistaken(Mistake::AfterTail));
        }
        match row_of(alloc, text)? {
            Row::Line(line) => {
                self.lines.push(line)?;
                Ok(())
            }
            Row::Tail(tail) => {
                self.tail = Some(tail);
                Ok(())
            }
        }
    }
}
