//! How often what happened to a cluster.

ghost use Rattle.std.specs.Prelude.{◌≡◌, ◌+◌, ◌<◌, ◌^◌, if◌then◌else◌, IfOk};
ghost use Rattle.eos_drive.specs.Totals.{is_event, is_loss, is_repetition, IsTallyOf};

use crate::deed::Deed;
use eos_machine::{Event, Note, Reply};
use std::alloc::{AllocError, Global};

/// How often what happened in a run.
#[derive(Clone, Copy)]
pub struct Tally {
    /// The events that the cluster took.
    pub events: u64,
    /// The transactions that were decided, by a commit or an abort.
    pub transactions: u64,
    /// How often a message was lost on its way. One that was may arrive all the same, when it is sent again.
    pub lost: u64,
    /// How often the network delivered an earlier message, again or late. What a client sends again isn't counted.
    pub repeated: u64,
}

/// A session, by its number.
#[derive(Clone, Copy)]
struct Client {
    session: usize,
    application: usize,
}

/// A message that asks for the end of a transaction.
#[derive(Clone, Copy)]
struct Request {
    message: u64,
    application: usize,
}

/// What the replies tell of transactions.
#[derive(Drop)]
struct Decisions {
    clients: Vec<Client>,
    /// What was asked for and isn't decided.
    requests: Vec<Request>,
    /// The applications whose last transaction was decided, and which haven't begun another.
    settled: Vec<usize>,
    count: u64,
}

/// What is counted in a history.
pub(crate) fn tally_of(alloc: Global, deeds: &[Deed]) -> Result<Tally, AllocError>
    ensures { IfOk result (IsTallyOf deeds.now) }
{
    let mut tally = Tally {
        events: 0,
        transactions: decided(alloc, deeds)?,
        lost: 0,
        repeated: 0,
    };
    for deed in deeds {
        tally = tally.with(deed);
    }
    Ok(tally)
}

impl Tally {
    /// With one deed more, but for the transactions.
    fn with(self, deed: &Deed) -> Tally
        requires { (self.events < 2 ^ 63) × (self.lost < 2 ^ 63) × (self.repeated < 2 ^ 63) }
        ensures events { result.events ≡ self.events + (if is_event deed.now then 1 else 0) }
        ensures lost { result.lost ≡ self.lost + (if is_loss deed.now then 1 else 0) }
        ensures repeated { result.repeated ≡ self.repeated + (if is_repetition deed.now then 1 else 0) }
    {
        let mut tally = self;
        match deed {
            Deed::Asked { .. } => tally.events += 1,
            Deed::Noted(Note::Lost(_)) => tally.lost += 1,
            Deed::Noted(Note::Repeated(_)) => tally.repeated += 1,
            Deed::Noted(Note::Erred(_)) | Deed::Set(_) => {}
        }
        tally
    }
}

/// How many transactions were decided.
fn decided(alloc: Global, deeds: &[Deed]) -> Result<u64, AllocError> {
    let mut decisions = Decisions {
        clients: Vec::new(alloc),
        requests: Vec::new(alloc),
        settled: Vec::new(alloc),
        count: 0,
    };
    for deed in deeds {
        if let Deed::Asked { event, reply } = deed {
            decisions.hear(event, *reply)?;
        }
    }
    Ok(decisions.count)
}

impl Decisions {
    fn hear(&mut self, event: &Event, reply: Reply) -> Result<(), AllocError> {
        match (event, reply) {
            (Event::Start { application }, Reply::Done(session)) => {
                self.begin(*application);
                self.clients.push(Client {
                    session: session as usize,
                    application: *application,
                })?;
                Ok(())
            }
            // an open transaction is aborted; one that is ending already stays as it is
            (Event::Start { application }, Reply::Busy) => self.decide(*application),
            (Event::TimeOut { application }, Reply::Done(_)) => self.decide(*application),
            (Event::End { session, kind: _ }, Reply::Done(message)) => {
                self.ask(*session, message)
            }
            (Event::Deliver { message }, Reply::Done(_)) => self.arrive(*message),
            (Event::Resume { session }, Reply::Done(_)) => {
                if let Some(application) = self.application_of(*session) {
                    self.begin(application);
                }
                Ok(())
            }
            _ => Ok(()),
        }
    }

    fn application_of(&self, session: usize) -> Option<usize> {
        for client in self.clients.as_slice() {
            if client.session == session {
                return Some(client.application);
            }
        }
        None
    }

    /// A session has asked for the end of its transaction.
    fn ask(&mut self, session: usize, message: u64) -> Result<(), AllocError> {
        if let Some(application) = self.application_of(session) {
            self.requests.push(Request {
                message,
                application,
            })?;
        }
        Ok(())
    }

    /// A message was accepted, which may have asked for an end.
    fn arrive(&mut self, message: u64) -> Result<(), AllocError> {
        for place in 0..self.requests.len() {
            let request = self.requests[place];
            if request.message == message {
                self.requests.remove(place);
                return self.decide(request.application);
            }
        }
        Ok(())
    }

    /// The transaction of an application is decided, if it isn't yet.
    fn decide(&mut self, application: usize) -> Result<(), AllocError> {
        for it in self.settled.as_slice() {
            if *it == application {
                return Ok(());
            }
        }
        self.settled.push(application)?;
        self.count = self.count.saturating_add(1);
        Ok(())
    }

    /// A session of an application may begin a transaction.
    fn begin(&mut self, application: usize) {
        for place in 0..self.settled.len() {
            if self.settled[place] == application {
                self.settled.remove(place);
                return;
            }
        }
    }
}
