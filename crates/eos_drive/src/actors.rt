//! What acts in a simulated cluster: each word of a script becomes an event by what is known of the cluster.

ghost use Rattle.std.specs.Prelude.{◌≡◌};
ghost use Rattle.eos_drive.specs.steps.Drives.{HasAsked};

use crate::driver::Driver;
use crate::instance::{Choice, Instance, Turn};
use crate::network::Network;
use crate::plan::{Plan, remainder};
use crate::rates::{Happening, Rates, Said};
use crate::settings::Settings;
use bytes::Bytes;
use eos_cluster::Cluster;
use eos_machine::{Event, Note, Reply};
use std::alloc::{AllocError, Global};
use std::mem;

/// The applications of the groups and the network, as far as the replies tell.
#[derive(Drop)]
pub(crate) struct Actors {
    pub(crate) alloc: Global,
    rates: Rates,
    /// How many applications there are.
    pub(crate) applications: usize,
    pub(crate) plan: Plan,
    pub(crate) network: Network,
    /// The present instance of each application, and after them abandoned ones that don't know it yet.
    pub(crate) instances: Vec<Instance>,
}

/// How many abandoned instances go on at most.
const ABANDONED: usize = 4;

impl Actors {
    pub(crate) fn new(
        alloc: Global,
        cluster: &Cluster,
        settings: &Settings<'_>,
    ) -> Result<Actors, AllocError> {
        let config = cluster.config();
        let applications = config.application_count();
        let mut instances = Vec::new(alloc);
        for application in 0..applications {
            instances.push(Instance::new(alloc, application))?;
        }
        Ok(Actors {
            alloc,
            rates: settings.rates,
            applications,
            plan: Plan::new(alloc, *config, settings.mishaps)?,
            network: Network::new(alloc, settings.links),
            instances,
        })
    }

    /// A word: what it says happens.
    pub(crate) fn take_word(
        &mut self,
        cluster: &mut Cluster,
        driver: &mut Driver,
        word: u32,
    ) -> Result<(), AllocError>
        requires { driver.old.course ≡ cluster.old }
        ensures { HasAsked cluster.old driver.old cluster.new driver.new }
    {
        let Said { happening, rest } = self.rates.said(word);
        match happening {
            Happening::Feed => self.feed(cluster, driver, rest),
            Happening::Work { aborts } => self.work(cluster, driver, rest, aborts),
            Happening::WorkAbandoned => self.work_abandoned(cluster, driver, rest),
            Happening::Carry => self.carry(cluster, driver, rest / 2),
            Happening::Lose => self.lose(driver, rest / 2),
            Happening::Repeat => self.repeat(cluster, driver, rest),
            Happening::Abandon => self.abandon(rest),
            Happening::ChangeMembers => self.change_members(cluster, driver, rest),
            Happening::RestartBroker => self.restart_broker(cluster, driver, rest),
            Happening::RestartCoordinator => self.restart_coordinator(cluster, driver),
            Happening::TimeOut => self.time_out(cluster, driver, rest),
            Happening::AddPartition => self.add_partition(cluster, driver, rest),
            Happening::CompleteLate => self.complete_late(cluster, driver, rest),
            Happening::Elect => self.elect(cluster, driver, rest),
        }
    }

    // ---- inputs

    fn feed(
        &mut self,
        cluster: &mut Cluster,
        driver: &mut Driver,
        choice: u64,
    ) -> Result<(), AllocError>
        requires { driver.old.course ≡ cluster.old }
        ensures { HasAsked cluster.old driver.old cluster.new driver.new }
    {
        let source = remainder(choice, self.plan.config().inputs);
        if let Reply::Done(offset) = driver.ask(cluster, Event::Feed { source })? {
            self.plan.fed(source, offset);
        }
        Ok(())
    }

    // ---- applications

    /// The present instance of an application takes its turn.
    fn work(
        &mut self,
        cluster: &mut Cluster,
        driver: &mut Driver,
        choice: u64,
        aborts: bool,
    ) -> Result<(), AllocError>
        requires { driver.old.course ≡ cluster.old }
        ensures { HasAsked cluster.old driver.old cluster.new driver.new }
    {
        let application = remainder(choice, self.applications);
        let choice = choice / 16;
        let chosen = Choice {
            inputs: 1 + choice % 3,
            aborts,
        };
        self.take_turn(cluster, driver, application, chosen)
    }

    /// An abandoned instance takes its turn, if there is one, and is forgotten once it knows that it is abandoned.
    fn work_abandoned(
        &mut self,
        cluster: &mut Cluster,
        driver: &mut Driver,
        choice: u64,
    ) -> Result<(), AllocError>
        requires { driver.old.course ≡ cluster.old }
        ensures { HasAsked cluster.old driver.old cluster.new driver.new }
    {
        let applications = self.applications;
        if self.instances.len() <= applications {
            return Ok(());
        }
        let others = self.instances.len() - applications;
        let number = applications.saturating_add(remainder(choice, others));
        let chosen = Choice {
            inputs: 2,
            aborts: false,
        };
        self.take_turn(cluster, driver, number, chosen)?;
        if number < self.instances.len() && self.instances[number].is_gone() {
            self.instances.remove(number);
        }
        Ok(())
    }

    /// An instance takes its turn.
    pub(crate) fn take_turn(
        &mut self,
        cluster: &mut Cluster,
        driver: &mut Driver,
        number: usize,
        choice: Choice,
    ) -> Result<(), AllocError>
        requires { driver.old.course ≡ cluster.old }
        ensures { HasAsked cluster.old driver.old cluster.new driver.new }
    {
        if number >= self.instances.len() {
            return Ok(());
        }
        match self.instances[number].turn(&self.plan, choice) {
            Turn::Ask(event) => {
                let is_end = matches!(event, Event::End { .. });
                let reply = driver.ask(cluster, event)?;
                self.plan.read_outputs(cluster)?;
                if reply == Reply::Busy {
                    self.network.may_have_more();
                }
                if let Some((session, message)) = self.hear(number, choice, reply)? {
                    self.network.queued(cluster, session, message, is_end)?;
                }
                self.tell_mishaps(driver)
            }
            Turn::Again(message) => self.deliver(cluster, driver, message),
            Turn::Rest => Ok(()),
        }
    }

    /// An instance hears what was answered to the event that it asked for: its session, and the message that this has queued.
    fn hear(
        &mut self,
        number: usize,
        choice: Choice,
        reply: Reply,
    ) -> Result<Option<(usize, u64)>, AllocError> {
        if number >= self.instances.len() {
            return Ok(None);
        }
        let session = self.instances[number].session();
        match self.instances[number].hear(&mut self.plan, choice, reply)? {
            Some(message) => Ok(Some((session, message))),
            None => Ok(None),
        }
    }

    /// Tells which mistakes a transaction has made just now.
    fn tell_mishaps(&mut self, driver: &mut Driver) -> Result<(), AllocError>
        ensures { driver.new ≡ driver.old }
    {
        for place in 0..self.plan.mishap_count() {
            if let Some(chosen) = self.plan.untold(place) {
                driver.note(Note::Erred(chosen.word(self.alloc)?))?;
            }
        }
        Ok(())
    }

    // ---- messages

    /// A message arrives.
    fn deliver(
        &mut self,
        cluster: &mut Cluster,
        driver: &mut Driver,
        message: u64,
    ) -> Result<(), AllocError>
        requires { driver.old.course ≡ cluster.old }
        ensures { HasAsked cluster.old driver.old cluster.new driver.new }
    {
        let reply = driver.ask(cluster, Event::Deliver { message })?;
        self.hear_arrival(message, reply);
        Ok(())
    }

    fn hear_arrival(&mut self, message: u64, reply: Reply) {
        for i in 0..self.instances.len() {
            if self.instances[i].hear_arrival(message, reply) {
                self.network.may_have_more();
            }
        }
    }

    /// The next message arrives, in the order of its link.
    pub(crate) fn carry(
        &mut self,
        cluster: &mut Cluster,
        driver: &mut Driver,
        choice: u64,
    ) -> Result<(), AllocError>
        requires { driver.old.course ≡ cluster.old }
        ensures { HasAsked cluster.old driver.old cluster.new driver.new }
    {
        if let Some(next) = self.network.next(cluster, choice)? {
            let message = next.message;
            let reply = driver.ask(cluster, Event::Deliver { message })?;
            self.network.passed(next, is_message(reply))?;
            self.hear_arrival(message, reply);
        }
        Ok(())
    }

    /// The next message is lost.
    fn lose(&mut self, driver: &mut Driver, choice: u64) -> Result<(), AllocError>
        ensures { driver.new ≡ driver.old }
    {
        match self.network.lose(choice)? {
            Some(message) => driver.note(Note::Lost(message)),
            None => Ok(()),
        }
    }

    /// A message arrives again, or late.
    fn repeat(
        &mut self,
        cluster: &mut Cluster,
        driver: &mut Driver,
        choice: u64,
    ) -> Result<(), AllocError>
        requires { driver.old.course ≡ cluster.old }
        ensures { HasAsked cluster.old driver.old cluster.new driver.new }
    {
        match self.network.earlier(choice % 2 == 0, choice / 2) {
            Some(message) => {
                driver.note(Note::Repeated(message))?;
                self.deliver(cluster, driver, message)
            }
            None => Ok(()),
        }
    }

    // ---- disturbances

    /// A new instance of an application takes the place of the present one, which goes on until it learns of it.
    fn abandon(&mut self, choice: u64) -> Result<(), AllocError> {
        let applications = self.applications;
        let application = remainder(choice, applications);
        if application >= self.instances.len() || self.instances[application].is_gone() {
            return Ok(());
        }
        let fresh = Instance::new(self.alloc, self.instances[application].application());
        let old = mem::replace(&mut self.instances[application], fresh);
        self.instances.push(old)?;
        if self.instances.len() > applications.saturating_add(ABANDONED) {
            self.instances.remove(applications);
        }
        Ok(())
    }

    /// A new instance of an application takes the place of the one of this number, which does nothing more.
    pub(crate) fn forget(&mut self, number: usize) {
        if number < self.instances.len() {
            let application = self.instances[number].application();
            self.instances[number] = Instance::new(self.alloc, application);
        }
    }

    /// The members of an application's group change.
    fn change_members(
        &mut self,
        cluster: &mut Cluster,
        driver: &mut Driver,
        choice: u64,
    ) -> Result<(), AllocError>
        requires { driver.old.course ≡ cluster.old }
        ensures { HasAsked cluster.old driver.old cluster.new driver.new }
    {
        let application = remainder(choice, self.applications);
        let group = self.plan.config().group_of(application);
        if let Reply::Done(_) = driver.ask(cluster, Event::Members { group })? {
            self.plan.change_members(application);
        }
        Ok(())
    }

    fn restart_broker(
        &mut self,
        cluster: &mut Cluster,
        driver: &mut Driver,
        choice: u64,
    ) -> Result<(), AllocError>
        requires { driver.old.course ≡ cluster.old }
        ensures { HasAsked cluster.old driver.old cluster.new driver.new }
    {
        let config = self.plan.config();
        let topics = if config.chain { 5 } else { 4 };
        let rest = choice / topics;
        let (topic, partition) = match choice % topics {
            0 => (b"__consumer_offsets".as_slice(), 0),
            1 => (
                b"__transaction_state".as_slice(),
                remainder(rest, config.transaction_logs),
            ),
            2 => (b"in".as_slice(), remainder(rest, config.inputs)),
            3 => (b"out".as_slice(), remainder(rest, config.outputs)),
            _ => (b"fin".as_slice(), remainder(rest, config.outputs)),
        };
        driver.ask(
            cluster,
            Event::BrokerRestart {
                topic: Bytes::from_static(topic),
                partition,
            },
        )?;
        Ok(())
    }

    pub(crate) fn restart_coordinator(
        &mut self,
        cluster: &mut Cluster,
        driver: &mut Driver,
    ) -> Result<(), AllocError>
        requires { driver.old.course ≡ cluster.old }
        ensures { HasAsked cluster.old driver.old cluster.new driver.new }
    {
        driver.ask(cluster, Event::CoordinatorRestart)?;
        self.network.may_have_more();
        Ok(())
    }

    /// The transaction of an application, if one is open, has been so for too long.
    fn time_out(
        &mut self,
        cluster: &mut Cluster,
        driver: &mut Driver,
        choice: u64,
    ) -> Result<(), AllocError>
        requires { driver.old.course ≡ cluster.old }
        ensures { HasAsked cluster.old driver.old cluster.new driver.new }
    {
        let application = remainder(choice, self.applications);
        driver.ask(cluster, Event::TimeOut { application })?;
        self.network.may_have_more();
        Ok(())
    }
}

/// Whether a message of that number was there.
pub(crate) fn is_message(reply: Reply) -> bool {
    !matches!(reply, Reply::Unknown | Reply::Full)
}
