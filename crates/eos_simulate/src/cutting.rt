//! What is left of a history where some of its lines are left out: each other line, with its session, its message and its input by the
//! numbers that they have then. A line goes with the one that made these.

ghost use Rattle.std.specs.Prelude.{◌≡◌, IfOk, IfSome, OnOk};
ghost use Rattle.eos_simulate.specs.Histories.{act_of};
ghost use Rattle.eos_simulate.specs.steps.AddedLines.{AddsLine};
ghost use Rattle.eos_simulate.specs.Parts.{IsPartOf, unnamed_deed, unnamed_deeds, unnamed_lines};

use crate::making::SimulationFault;
use crate::names::Names;
use crate::side::Side;
use eos_base::Listed;
use eos_history_lines::{Deed, Line};
use eos_machine::{Config, Event};
use std::alloc::{AllocError, Global};

/// Lines, by their places: from this one on, and before that one.
#[derive(Clone, Copy)]
pub(crate) struct Span {
    pub(crate) from: usize,
    pub(crate) to: usize,
}

/// Two clusters side by side: one does all that was done, the other what is left of it, by names of its own.
#[derive(Drop)]
struct Sides {
    whole: Side,
    part: Side,
    names: Names,
}

/// The lines that are left of what was done where a span is left out. No reply is said.
pub(crate) fn cut(
    alloc: Global,
    config: Config,
    deeds: &[eos_drive::Deed],
    span: Span,
) -> Result<Listed<Line>, SimulationFault>
    ensures { IfOk result (λ lines. IsPartOf (unnamed_lines lines) (unnamed_deeds deeds.now)) }
{
    let mut sides = Sides::new(alloc, config)?;
    let lines = lines_left(alloc, &mut sides, deeds, span);
    drop(sides);
    lines
}

/// The same of two clusters before any event.
#[tactic(auto, using(crate::proofs::ShrunkParts::all_left, crate::proofs::ShrunkParts::line_passed))]
fn lines_left(
    alloc: Global,
    sides: &mut Sides,
    deeds: &[eos_drive::Deed],
    span: Span,
) -> Result<Listed<Line>, SimulationFault>
    ensures { IfOk result (λ lines. IsPartOf (unnamed_lines lines) (unnamed_deeds deeds.now)) }
{
    let mut lines = Listed::new(Vec::new(alloc));
    for place in 0..deeds.len() {
        let is_cut = span.from <= place && place < span.to;
        let left = sides.take(&deeds[place], is_cut)?;
        add_line(&mut lines, place as u64 + 1, left)?;
    }
    Ok(lines)
}

/// Adds what is left of a line.
fn add_line(lines: &mut Listed<Line>, number: u64, left: Option<Deed>) -> Result<(), AllocError>
    ensures { OnOk result (AddsLine number left lines.old lines.new) }
{
    let Some(deed) = left else {
        return Ok(());
    };
    lines.push(Line { number, deed })
}

impl Sides {
    fn new(alloc: Global, config: Config) -> Result<Sides, SimulationFault> {
        let names = Names::new(alloc, config)?;
        let whole = Side::new(alloc, config)?;
        match Side::new(alloc, config) {
            Ok(part) => Ok(Sides { whole, part, names }),
            Err(fault) => {
                drop(whole);
                Err(fault)
            }
        }
    }

    /// Does in the whole what was done, and in the part what is left of it, which this gives.
    fn take(
        &mut self,
        deed: &eos_drive::Deed,
        is_cut: bool,
    ) -> Result<Option<Deed>, SimulationFault>
        ensures { IfOk result (λ left. IfSome left (λ d. unnamed_deed d ≡ unnamed_deed (act_of deed.now))) }
    {
        let left = self.left(deed, is_cut)?;
        match self.follow(deed, &left) {
            Ok(()) => Ok(left),
            Err(fault) => {
                drop(left);
                Err(fault)
            }
        }
    }

    /// Does in the whole what was done, and in the part what is left of it, and names what is new.
    fn follow(
        &mut self,
        deed: &eos_drive::Deed,
        left: &Option<Deed>,
    ) -> Result<(), SimulationFault> {
        let (sessions, messages) = (self.part.sessions, self.part.messages);
        let offset = self.whole.follow(deed)?;
        let now = match left {
            Some(deed) => self.part.do_said(deed)?,
            None => None,
        };
        self.name_sessions(sessions)?;
        self.name_messages(messages)?;
        self.name_input(deed, offset, now)?;
        Ok(())
    }

    /// What is left of a line.
    fn left(&self, deed: &eos_drive::Deed, is_cut: bool) -> Result<Option<Deed>, AllocError>
        ensures { IfOk result (λ left. IfSome left (λ d. unnamed_deed d ≡ unnamed_deed (act_of deed.now))) }
    {
        if is_cut {
            return Ok(None);
        }
        self.names.deed(deed, self.kept(deed))
    }

    /// How many records a leader has that is elected: all but as many as it lacks in the whole.
    fn kept(&self, deed: &eos_drive::Deed) -> u64 {
        match deed {
            eos_drive::Deed::Asked {
                event: Event::Elect {
                    topic,
                    partition,
                    kept,
                },
                ..
            } => {
                let lacked = self.whole.records(topic, *partition).saturating_sub(*kept);
                self.part.records(topic, *partition).saturating_sub(lacked)
            }
            _ => 0,
        }
    }

    /// Names the sessions that are new, where the part had so many before.
    fn name_sessions(&mut self, before: usize) -> Result<(), AllocError> {
        let mut next = before;
        for _ in self.names.sessions()..self.whole.sessions {
            if next < self.part.sessions {
                self.names.add_session(Some(next))?;
                next += 1;
            } else {
                self.names.add_session(None)?;
            }
        }
        Ok(())
    }

    /// Names the messages that are new, where the part had so many before: the next one for the same log.
    fn name_messages(&mut self, before: u64) -> Result<(), AllocError> {
        let mut next = before;
        for number in self.names.messages()..self.whole.messages {
            let name = self.part.next_alike(next, self.whole.log_of(number));
            if let Some(found) = name {
                next = found.saturating_add(1);
            }
            self.names.add_message(name)?;
        }
        Ok(())
    }

    /// Names the input that an event has appended at this offset, if it did, and in the part at that one.
    fn name_input(
        &mut self,
        deed: &eos_drive::Deed,
        offset: Option<u64>,
        now: Option<u64>,
    ) -> Result<(), AllocError> {
        let (Some(source), Some(offset)) = (self.source_of(deed), offset) else {
            return Ok(());
        };
        self.names.inputs.set(source, offset, now)
    }

    /// The source to which an event appends, if it appends to one.
    fn source_of(&self, deed: &eos_drive::Deed) -> Option<usize> {
        match deed {
            eos_drive::Deed::Asked {
                event: Event::Feed { source },
                ..
            } => Some(*source),
            eos_drive::Deed::Asked {
                event: Event::Deliver { message },
                ..
            } => self.names.inputs.source_at(self.whole.log_of(*message)),
            _ => None,
        }
    }
}
