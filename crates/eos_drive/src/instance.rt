//! An instance of an application: what it does next, and what it makes of a reply.

ghost use Rattle.std.specs.Prelude.{◌≡◌, false, IfSome};
ghost use Rattle.eos_drive.specs.steps.Drives.{is_election};
ghost use Rattle.eos_drive.specs.steps.Turns.{ElectsNone};

use crate::plan::Plan;
use crate::request::Request;
use eos_batch::Kind;
use eos_machine::{Event, Reply};
use std::alloc::{AllocError, Global};

/// Where an instance stands.
#[derive(Clone, Copy, PartialEq, Eq)]
enum Stage {
    /// It has no session.
    Away,
    /// It looks for inputs in its sources, from this one on.
    Reading(usize),
    /// It sends the request of this number.
    Sending(usize),
    /// It waits until all messages of its transaction were accepted.
    Waiting,
    /// It has asked for its transaction to end, by this message.
    Ending(u64),
    /// Its transaction is decided, and the end markers are on their way.
    Ended,
    /// Its application has no higher producer epoch.
    Spent,
}

/// A message of an open transaction.
#[derive(Clone, Copy)]
struct Sent {
    message: u64,
    is_accepted: bool,
}

/// What an instance does next.
#[derive(Drop)]
pub(crate) enum Turn {
    /// It asks the cluster.
    Ask(Event),
    /// It sends an earlier message again.
    Again(u64),
    /// It has nothing to do.
    Rest,
}

/// How an instance takes its turn: how many inputs it reads, and whether it gives its transaction up.
#[derive(Clone, Copy)]
pub(crate) struct Choice {
    pub(crate) inputs: u64,
    pub(crate) aborts: bool,
}

/// An instance of an application: a client with at most one session at a time.
#[derive(Drop)]
pub(crate) struct Instance {
    application: usize,
    session: usize,
    /// The generation of its group when the session began.
    generation: u64,
    stage: Stage,
    /// What its transaction asks.
    requests: Vec<Request>,
    /// What it has asked.
    sent: Vec<Sent>,
    /// Whether it found nothing to read at its last turn.
    is_idle: bool,
    /// Whether another transaction kept a partition from it when it last looked.
    is_kept_out: bool,
    /// Whether records that were acknowledged have been lost since its session began.
    is_set_back: bool,
}

impl Instance {
    pub(crate) fn new(alloc: Global, application: usize) -> Instance {
        Instance {
            application,
            session: 0,
            generation: 0,
            stage: Stage::Away,
            requests: Vec::new(alloc),
            sent: Vec::new(alloc),
            is_idle: false,
            is_kept_out: false,
            is_set_back: false,
        }
    }

    pub(crate) fn application(&self) -> usize {
        self.application
    }

    /// Its session, or the last one that it had.
    pub(crate) fn session(&self) -> usize {
        self.session
    }

    /// Whether it has no session, or none that could go on.
    pub(crate) fn is_gone(&self) -> bool {
        self.stage == Stage::Away || self.stage == Stage::Spent
    }

    /// Whether nothing is left for it to do.
    pub(crate) fn has_finished(&self) -> bool {
        self.stage == Stage::Spent || self.is_idle && !self.is_kept_out
    }

    /// Whether it does nothing before something changes.
    pub(crate) fn rests(&self) -> bool {
        self.stage == Stage::Spent || self.is_idle
    }

    // ---- what it does next

    pub(crate) fn turn(&mut self, plan: &Plan, choice: Choice) -> Turn
        ensures { ElectsNone result }
    {
        if self.is_idle {
            self.is_idle = false;
            self.is_kept_out = false;
        }
        if let Stage::Reading(from) = self.stage {
            self.look_from(plan, from);
        }
        if self.is_idle {
            return Turn::Rest;
        }
        match self.stage {
            Stage::Away => Turn::Ask(Event::Start {
                application: self.application,
            }),
            Stage::Reading(source) => Turn::Ask(Event::Fetch {
                session: self.session,
                source,
            }),
            Stage::Sending(number) => self.send_next(number),
            Stage::Waiting => self.wait_or_end(choice.aborts),
            Stage::Ending(message) => Turn::Again(message),
            Stage::Ended => Turn::Ask(Event::Resume {
                session: self.session,
            }),
            Stage::Spent => Turn::Rest,
        }
    }

    /// Goes on to the next partition that it reads; after the last one to what it has to send. Where it has read nothing,
    /// it joins the group again if the members have changed, and else rests.
    fn look_from(&mut self, plan: &Plan, from: usize) {
        self.stage = match plan.next_source(self.application, self.generation, from) {
            Some(source) => Stage::Reading(source),
            None => {
                if !self.requests.is_empty() {
                    Stage::Sending(0)
                } else if self.generation != plan.generation_of(self.application) {
                    Stage::Away
                } else {
                    self.is_idle = true;
                    Stage::Reading(0)
                }
            }
        };
    }

    /// Sends the request of this number. An offset that is deleted is so before anything else is asked, so that the one which
    /// is committed after it stands.
    fn send_next(&self, number: usize) -> Turn
        ensures { ElectsNone result }
    {
        if let Some(message) = self.undeleted(number) {
            return Turn::Again(message);
        }
        match self.requests.get(number) {
            Some(request) => Turn::Ask(request.event(self.session)),
            None => Turn::Rest,
        }
    }

    /// The message of the request before this one, where that is to delete an offset and wasn't accepted.
    fn undeleted(&self, number: usize) -> Option<u64> {
        let last = number.checked_sub(1)?;
        let sent = self.sent.get(last)?;
        match self.requests.get(last)? {
            Request::Commit { offset: None, .. } if !sent.is_accepted => Some(sent.message),
            _ => None,
        }
    }

    /// Sends the first message again that wasn't accepted; where all were, asks for the end.
    fn wait_or_end(&self, aborts: bool) -> Turn
        ensures { ElectsNone result }
    {
        if aborts {
            return self.end(Kind::Abort);
        }
        for sent in self.sent.as_slice() {
            if !sent.is_accepted {
                return Turn::Again(sent.message);
            }
        }
        self.end(Kind::Commit)
    }

    fn end(&self, kind: Kind) -> Turn
        ensures { ElectsNone result }
    {
        Turn::Ask(Event::End {
            session: self.session,
            kind,
        })
    }

    /// It adds a partition to its transaction, or without a number that of the offsets, where it has anything to send.
    pub(crate) fn adding(&self, partition: Option<usize>) -> Option<Event>
        ensures { IfSome result (λ event. is_election event ≡ false) }
    {
        match self.stage {
            Stage::Sending(_) | Stage::Waiting => Some(Event::AddPartition {
                session: self.session,
                partition,
            }),
            _ => None,
        }
    }

    // ---- what it makes of a reply

    /// Hears what was answered to the event that it asked for. The message that the event has queued, if it has.
    ///
    /// # Errors
    /// Where a growth was refused.
    pub(crate) fn hear(
        &mut self,
        plan: &mut Plan,
        choice: Choice,
        reply: Reply,
    ) -> Result<Option<u64>, AllocError> {
        match self.stage {
            Stage::Away => self.hear_start(plan, reply),
            Stage::Reading(source) => self.hear_offset(plan, choice, source, reply)?,
            Stage::Sending(number) => return self.hear_sent(number, reply),
            Stage::Waiting => return Ok(self.hear_end(reply)),
            Stage::Ended => self.hear_resume(reply),
            Stage::Ending(_) | Stage::Spent => {}
        }
        Ok(None)
    }

    /// Begins to read, for its next transaction.
    fn begin(&mut self) {
        self.requests.clear();
        self.sent.clear();
        self.is_kept_out = false;
        self.stage = Stage::Reading(0);
    }

    fn hear_start(&mut self, plan: &Plan, reply: Reply) {
        match reply {
            Reply::Done(session) => {
                self.session = session as usize;
                self.generation = plan.generation_of(self.application);
                self.is_set_back = false;
                self.begin();
            }
            Reply::EpochsSpent => self.stage = Stage::Spent,
            _ => {}
        }
    }

    fn hear_offset(
        &mut self,
        plan: &mut Plan,
        choice: Choice,
        source: usize,
        reply: Reply,
    ) -> Result<(), AllocError> {
        match reply {
            Reply::Done(offset) => {
                plan.add_requests(&mut self.requests, source, offset, choice.inputs)?;
                self.stage = Stage::Reading(source.saturating_add(1));
            }
            Reply::Busy => {
                self.is_kept_out = true;
                self.stage = Stage::Reading(source.saturating_add(1));
            }
            _ => self.stage = Stage::Away,
        }
        Ok(())
    }

    fn hear_sent(&mut self, number: usize, reply: Reply) -> Result<Option<u64>, AllocError> {
        let Reply::Done(message) = reply else {
            self.stage = Stage::Away;
            return Ok(None);
        };
        self.sent.push(Sent {
            message,
            is_accepted: false,
        })?;
        let next = number.saturating_add(1);
        self.stage = if next < self.requests.len() {
            Stage::Sending(next)
        } else {
            Stage::Waiting
        };
        Ok(Some(message))
    }

    fn hear_end(&mut self, reply: Reply) -> Option<u64> {
        let Reply::Done(message) = reply else {
            self.stage = Stage::Away;
            return None;
        };
        self.stage = Stage::Ending(message);
        Some(message)
    }

    fn hear_resume(&mut self, reply: Reply) {
        match reply {
            Reply::Done(_) => self.begin(),
            Reply::Busy => {}
            Reply::EpochsSpent => self.stage = Stage::Spent,
            _ => self.stage = Stage::Away,
        }
    }

    /// A leader was elected that lacks records: a sequence that it finds out of order may be so for good.
    pub(crate) fn set_back(&mut self) {
        self.is_set_back = true;
    }

    /// Hears what was answered where it added a partition.
    pub(crate) fn hear_added(&mut self, reply: Reply) {
        if reply == Reply::Fenced {
            self.stage = Stage::Away;
        }
    }

    // ---- what it makes of a message's arrival

    /// Hears what was answered where a message arrived, by whomever it was sent. Whether this has decided its transaction.
    pub(crate) fn hear_arrival(&mut self, message: u64, reply: Reply) -> bool {
        match self.stage {
            Stage::Sending(_) | Stage::Waiting => {
                self.hear_data(message, reply);
                false
            }
            Stage::Ending(end) => end == message && self.hear_decision(reply),
            Stage::Away | Stage::Reading(_) | Stage::Ended | Stage::Spent => false,
        }
    }

    fn hear_data(&mut self, message: u64, reply: Reply) {
        for i in 0..self.sent.len() {
            if self.sent[i].message != message {
                continue;
            }
            match reply {
                Reply::Done(_) | Reply::DuplicateKept => self.sent[i].is_accepted = true,
                Reply::Fenced | Reply::StaleGeneration => self.stage = Stage::Away,
                Reply::OutOfOrder if self.is_set_back => self.stage = Stage::Away,
                _ => {}
            }
        }
    }

    fn hear_decision(&mut self, reply: Reply) -> bool {
        match reply {
            Reply::Done(_) | Reply::DuplicateKept => {
                self.stage = Stage::Ended;
                true
            }
            Reply::Fenced | Reply::WrongState => {
                self.stage = Stage::Away;
                false
            }
            _ => false,
        }
    }
}
