//! The sessions of clients.

ghost use Rattle.std.specs.Prelude.{◌≡◌, ◌∷◌, ◌++◌, ◌-◌, ◌+◌, ◌≤◌, ◌<◌, ◌^◌, [], Some, OnOk, OnErr, length, replicate, slice_get, slice_set};
ghost use Rattle.std.specs.Option.{option_map};
ghost use Rattle.std.specs.List.{All};
ghost use Rattle.eos_machine.specs.World.{with_sessions};
ghost use Rattle.eos_machine.specs.declared.state.Session.{Session};
ghost use Rattle.eos_machine.specs.Sessions.{sequence_of, after_output, after_offset, after_end, after_resume};
ghost use Rattle.eos_broker.specs.Held.{becomes};
ghost use Rattle.eos_broker.specs.Named.{IsSmall};

use super::Store;
use crate::copies::raised;
use eos_base::Listed;
use eos_batch::Kind;
use eos_machine::Session;
use std::alloc::{AllocError, Global};
use std::mem;

/// The next sequence of a session in a partition that it writes.
pub fn sequence_of(session: &Session, partition: usize) -> u32
    ensures { result ≡ sequence_of session.now partition }
{
    match session.sequences.as_slice().get(partition) {
        Some(sequence) => *sequence,
        None => 0,
    }
}

/// A session has sent data.
fn send_output(
    session: &mut Session,
    alloc: Global,
    partition: usize,
    message: u64,
) -> Result<(), AllocError>
    requires { All (λ q. q < 2 ^ 31) session.old.sequences }
    ensures ok { OnOk result (session.new ≡ after_output session.old partition message) }
    ensures err { OnErr result (session.new ≡ session.old) }
{
    session.messages.push(message)?;
    let sequences = mem::replace(&mut session.sequences, Listed::new(Vec::new(alloc)));
    session.sequences = raised(sequences, partition);
    Ok(())
}

impl Store {
    pub fn session(&self, number: usize) -> Option<&Session>
        ensures { option_map (λ s. s.now) result ≡ slice_get self.now.world.sessions number }
    {
        self.sessions.get(number)
    }

    /// The number of the next session.
    pub fn session_count(&self) -> usize
        ensures { result ≡ length self.now.world.sessions }
    {
        self.sessions.len()
    }

    pub fn add_session(&mut self, session: Session)
        requires { 1 ≤ self.old.spare }
        ensures { self.new ≡ becomes self.old (with_sessions self.old.world (self.old.world.sessions ++ session ∷ [])) 1 }
    {
        self.spare -= 1;
        let Ok(()) = self.sessions.push(session) else {
            unreachable!()
        };
    }

    /// A session has sent data.
    pub fn note_output(
        &mut self,
        number: usize,
        partition: usize,
        message: u64,
    ) -> Result<(), AllocError>
        requires { IsSmall (slice_get self.old.world.sessions number) }
        ensures ok { OnOk result ((s : Session) → slice_get self.old.world.sessions number ≡ Some s
            → self.new ≡ becomes self.old (with_sessions self.old.world (slice_set self.old.world.sessions number (after_output s partition message))) 0) }
        ensures err { OnErr result (self.new ≡ self.old) }
        ensures rest { (self.new.config ≡ self.old.config) × (self.new.spare ≡ self.old.spare) }
    {
        let alloc = self.alloc;
        if number < self.sessions.len() {
            let session = &mut self.sessions[number];
            send_output(session, alloc, partition, message)?;
        }
        Ok(())
    }

    /// A session has sent an offset.
    pub fn note_offset(&mut self, number: usize, message: u64) -> Result<(), AllocError>
        ensures ok { OnOk result ((s : Session) → slice_get self.old.world.sessions number ≡ Some s
            → self.new ≡ becomes self.old (with_sessions self.old.world (slice_set self.old.world.sessions number (after_offset s message))) 0) }
        ensures err { OnErr result (self.new ≡ self.old) }
        ensures rest { (self.new.config ≡ self.old.config) × (self.new.spare ≡ self.old.spare) }
    {
        if number < self.sessions.len() {
            let session = &mut self.sessions[number];
            session.messages.push(message)?;
        }
        Ok(())
    }

    /// A session has asked its transaction to end.
    pub fn note_end(&mut self, number: usize, kind: Kind)
        ensures session { (s : Session) → slice_get self.old.world.sessions number ≡ Some s
            → self.new ≡ becomes self.old (with_sessions self.old.world (slice_set self.old.world.sessions number (after_end s kind))) 0 }
        ensures rest { (self.new.config ≡ self.old.config) × (self.new.spare ≡ self.old.spare) }
    {
        if number < self.sessions.len() {
            let session = &mut self.sessions[number];
            session.ending = Some(kind);
        }
    }

    /// A session is active again, with sequences from 0 on.
    pub fn note_resume(&mut self, number: usize, sequences: Listed<u32>)
        requires session { IsSmall (slice_get self.old.world.sessions number) }
        requires sequences { sequences ≡ replicate self.old.config.outputs 0 }
        ensures session { (s : Session) → slice_get self.old.world.sessions number ≡ Some s
            → self.new ≡ becomes self.old (with_sessions self.old.world (slice_set self.old.world.sessions number (after_resume self.old.config s))) 0 }
        ensures rest { (self.new.config ≡ self.old.config) × (self.new.spare ≡ self.old.spare) }
    {
        let messages = Listed::new(Vec::new(self.alloc));
        if number < self.sessions.len() {
            let session = &mut self.sessions[number];
            session.epoch += 1;
            session.ending = None;
            session.sequences = sequences;
            session.messages = messages;
        }
    }
}
