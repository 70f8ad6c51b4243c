//! What the sessions, messages and inputs of a history are called where some of its lines are left out.

ghost use Rattle.std.specs.Prelude.{◌≡◌, IfOk, IfSome};
ghost use Rattle.eos_machine.specs.declared.event.Event.TheVariants as Event;
ghost use Rattle.eos_simulate.specs.Histories.{act_of};
ghost use Rattle.eos_simulate.specs.Parts.{unplaced, unplaced_offset, unnamed, unnamed_note, unnamed_deed};

use crate::history_file::copy;
use crate::inputs::Inputs;
use eos_history_lines::Deed;
use eos_machine::{Claim, Config, Event, Note};
use std::alloc::{AllocError, Global};

/// The names of what a history has made: by its number there, the number that it has now, or none where it isn't made.
#[derive(Drop)]
pub(crate) struct Names {
    sessions: Vec<Option<usize>>,
    messages: Vec<Option<u64>>,
    pub(crate) inputs: Inputs,
}

impl Names {
    /// Of a new cluster of these sizes.
    pub(crate) fn new(alloc: Global, config: Config) -> Result<Names, AllocError> {
        let inputs = Inputs::new(alloc, config)?;
        Ok(Names {
            sessions: Vec::new(alloc),
            messages: Vec::new(alloc),
            inputs,
        })
    }

    pub(crate) fn sessions(&self) -> usize {
        self.sessions.len()
    }

    pub(crate) fn messages(&self) -> u64 {
        self.messages.len() as u64
    }

    /// Names the next session.
    pub(crate) fn add_session(&mut self, name: Option<usize>) -> Result<(), AllocError> {
        self.sessions.push(name)?;
        Ok(())
    }

    /// Names the next message.
    pub(crate) fn add_message(&mut self, name: Option<u64>) -> Result<(), AllocError> {
        self.messages.push(name)?;
        Ok(())
    }

    fn session(&self, number: usize) -> Option<usize> {
        if number < self.sessions.len() {
            self.sessions[number]
        } else {
            None
        }
    }

    fn message(&self, number: u64) -> Option<u64> {
        if number < self.messages.len() as u64 {
            self.messages[number as usize]
        } else {
            None
        }
    }

    /// What a line is by these names, if what it names is made. A leader that it elects has so many records.
    pub(crate) fn deed(&self, deed: &eos_drive::Deed, kept: u64) -> Result<Option<Deed>, AllocError>
        ensures { IfOk result (λ left. IfSome left (λ d. unnamed_deed d ≡ unnamed_deed (act_of deed.now))) }
    {
        match deed {
            eos_drive::Deed::Asked { event, .. } => match self.event(event, kept)? {
                Some(event) => Ok(Some(Deed::Asked { event, reply: None })),
                None => Ok(None),
            },
            eos_drive::Deed::Set(switches) => Ok(Some(Deed::Set(*switches))),
            eos_drive::Deed::Noted(note) => match self.note(note)? {
                Some(note) => Ok(Some(Deed::Noted(note))),
                None => Ok(None),
            },
        }
    }

    fn note(&self, note: &Note) -> Result<Option<Note>, AllocError>
        ensures { IfOk result (λ left. IfSome left (λ n. unnamed_note n ≡ unnamed_note note.now)) }
    {
        match note {
            Note::Lost(message) => match self.message(*message) {
                Some(message) => Ok(Some(Note::Lost(message))),
                None => Ok(None),
            },
            Note::Repeated(message) => match self.message(*message) {
                Some(message) => Ok(Some(Note::Repeated(message))),
                None => Ok(None),
            },
            Note::Erred(_) => Ok(Some(note.clone()?)),
        }
    }

    fn event(&self, event: &Event, kept: u64) -> Result<Option<Event>, AllocError>
        ensures { IfOk result (λ left. IfSome left (λ e. unnamed e ≡ unnamed event.now)) }
    {
        match event {
            Event::Deliver { message } => match self.message(*message) {
                Some(message) => Ok(Some(Event::Deliver { message })),
                None => Ok(None),
            },
            Event::WriteMarker { message } => match self.message(*message) {
                Some(message) => Ok(Some(Event::WriteMarker { message })),
                None => Ok(None),
            },
            Event::Produce { session, .. }
            | Event::Commit { session, .. }
            | Event::End { session, .. }
            | Event::Resume { session }
            | Event::Fetch { session, .. }
            | Event::AddPartition { session, .. } => match self.session(*session) {
                Some(session) => self.of_session(event, session),
                None => Ok(None),
            },
            Event::Feed { .. }
            | Event::Start { .. }
            | Event::Members { .. }
            | Event::BrokerRestart { .. }
            | Event::CoordinatorRestart
            | Event::TimeOut { .. }
            | Event::Complete { .. } => Ok(Some(event.clone()?)),
            Event::Elect {
                topic,
                partition,
                ..
            } => Ok(Some(Event::Elect {
                topic: copy(topic)?,
                partition: *partition,
                kept,
            })),
        }
    }

    /// The same of the session of this number.
    fn of_session(&self, event: &Event, session: usize) -> Result<Option<Event>, AllocError>
        ensures { IfOk result (λ left. IfSome left (λ e. unnamed e ≡ unnamed event.now)) }
    {
        match event {
            Event::Produce {
                partition,
                claim,
                ..
            } => self.produce(session, *partition, claim),
            Event::Commit { source, offset, .. } => Ok(Some(Event::Commit {
                session,
                source: *source,
                offset: self.position(*source, *offset),
            })),
            Event::End { kind, .. } => Ok(Some(Event::End {
                session,
                kind: *kind,
            })),
            Event::Resume { .. } => Ok(Some(Event::Resume { session })),
            Event::Fetch { source, .. } => Ok(Some(Event::Fetch {
                session,
                source: *source,
            })),
            Event::AddPartition { partition, .. } => Ok(Some(Event::AddPartition {
                session,
                partition: *partition,
            })),
            Event::Feed { .. }
            | Event::Start { .. }
            | Event::Members { .. }
            | Event::BrokerRestart { .. }
            | Event::CoordinatorRestart
            | Event::Deliver { .. }
            | Event::WriteMarker { .. }
            | Event::TimeOut { .. }
            | Event::Complete { .. }
            | Event::Elect { .. } => Ok(None),
        }
    }

    fn produce(
        &self,
        session: usize,
        partition: usize,
        claim: &Option<Claim>,
    ) -> Result<Option<Event>, AllocError>
        ensures { IfOk result (λ left. IfSome left (λ e. unnamed e ≡ Event.Produce 0 partition (unplaced claim.now))) }
    {
        let Some(claimed) = claim else {
            return Ok(Some(Event::Produce {
                session,
                partition,
                claim: None,
            }));
        };
        let Some(offset) = self.inputs.claimed(claimed) else {
            return Ok(None);
        };
        Ok(Some(Event::Produce {
            session,
            partition,
            claim: Some(Claim {
                topic: copy(&claimed.topic)?,
                partition: claimed.partition,
                offset,
                output: claimed.output,
                of: claimed.of,
            }),
        }))
    }

    /// Up to where a source is read.
    fn position(&self, source: usize, offset: Option<i64>) -> Option<i64>
        ensures { unplaced_offset result ≡ unplaced_offset offset }
    {
        match offset {
            Some(offset) => Some(self.inputs.position(source, offset)),
            None => None,
        }
    }
}
