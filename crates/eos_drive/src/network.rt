//! What a run knows of the messages that are on their way: those of a link arrive in the order in which they were sent.

use crate::plan::remainder;
use eos_cluster::Cluster;
use std::alloc::{AllocError, Global};
use std::collections::{BTreeMap, VecDeque};

/// How many end markers one event queues at most: those of nine applications in all partitions that they may write.
const MOST_MARKERS: u64 = 9 * 64;

/// More than follow one another for the offsets alone: nine applications have one each.
const FOR_OFFSETS_ALONE: u64 = 16;

/// Who sends and who receives.
#[derive(Clone, Copy, PartialEq, Eq, PartialOrd, Ord)]
struct Ends {
    /// The session that sends, or else the coordinator.
    session: Option<usize>,
    /// The place of the log whose broker receives, or else the coordinator.
    log: Option<usize>,
}

/// The only link of a run that has one.
const ONLY: Ends = Ends {
    session: None,
    log: None,
};

/// That on which a coordinator sends the end markers for the offsets, whose log has the place 0.
const FOR_OFFSETS: Ends = Ends {
    session: None,
    log: Some(0),
};

/// A connection, and the messages on it.
#[derive(Drop)]
struct Link {
    ends: Ends,
    messages: VecDeque<u64>,
}

/// The next message of a link.
#[derive(Clone, Copy)]
pub(crate) struct Next {
    pub(crate) message: u64,
    /// The place of its link, which may be one with nothing on it.
    place: usize,
}

/// The messages of a cluster, as far as the replies tell.
#[derive(Drop)]
pub(crate) struct Network {
    alloc: Global,
    /// Whether each sender and receiver have a link of their own; else there is one.
    has_links: bool,
    /// The messages below this number exist.
    known: u64,
    /// Whether a coordinator may have queued further ones.
    may_have_more: bool,
    /// The links with something on them, and the place of each.
    links: Vec<Link>,
    places: BTreeMap<Ends, usize>,
    /// The messages that arrived in their turn, or were lost, in order.
    passed: Vec<u64>,
}

impl Network {
    pub(crate) fn new(alloc: Global, has_links: bool) -> Network {
        Network {
            alloc,
            has_links,
            known: 0,
            may_have_more: false,
            links: Vec::new(alloc),
            places: BTreeMap::new(alloc),
            passed: Vec::new(alloc),
        }
    }

    // ---- what is sent

    /// A session has sent a message to a broker, or to the coordinator, and so were all before it. Those that nobody was told of are
    /// end markers.
    pub(crate) fn queued(
        &mut self,
        cluster: &Cluster,
        session: usize,
        message: u64,
        is_end: bool,
    ) -> Result<(), AllocError> {
        self.add_markers(cluster, message)?;
        let log = if is_end {
            None
        } else {
            Some(cluster.log_of(message))
        };
        self.add(
            Ends {
                session: Some(session),
                log,
            },
            message,
        )
    }

    /// A coordinator may have queued end markers.
    pub(crate) fn may_have_more(&mut self) {
        self.may_have_more = true;
    }

    /// With links the end markers are looked for that nobody was told of. Their logs show them, but for the last ones if those are
    /// for the offsets: where no other follows them they look like none.
    fn look(&mut self, cluster: &Cluster) -> Result<(), AllocError> {
        if !self.has_links || !self.may_have_more {
            return Ok(());
        }
        let mut end = self.known;
        for number in self.known..self.known.saturating_add(MOST_MARKERS) {
            if cluster.log_of(number) != 0 {
                end = number.saturating_add(1);
            } else if number.saturating_sub(end) >= FOR_OFFSETS_ALONE {
                break;
            }
        }
        self.add_markers(cluster, end)
    }

    /// The end markers below this number that weren't known.
    fn add_markers(&mut self, cluster: &Cluster, end: u64) -> Result<(), AllocError> {
        for number in self.known..end {
            let log = Some(cluster.log_of(number));
            self.add(Ends { session: None, log }, number)?;
        }
        Ok(())
    }

    /// A message is the last one on its link.
    fn add(&mut self, ends: Ends, message: u64) -> Result<(), AllocError> {
        if message < self.known {
            return Ok(());
        }
        self.known = message.saturating_add(1);
        let ends = if self.has_links { ends } else { ONLY };
        let place = self.link_of(ends)?;
        if place < self.links.len() {
            self.links[place].messages.push_back(message)?;
        }
        Ok(())
    }

    /// The place of a link, which is made if there is none.
    fn link_of(&mut self, ends: Ends) -> Result<usize, AllocError> {
        if let Some(place) = self.places.get(&ends) {
            return Ok(*place);
        }
        let place = self.links.len();
        self.links.push(Link {
            ends,
            messages: VecDeque::new(self.alloc),
        })?;
        self.places.insert(ends, place)?;
        Ok(place)
    }

    // ---- what arrives, and what doesn't

    /// Whether no message may be on its way.
    pub(crate) fn is_empty(&self) -> bool {
        self.links.is_empty() && !self.may_have_more
    }

    /// The next message to arrive of one of the links, where there may be one.
    ///
    /// # Errors
    /// Where a growth was refused.
    pub(crate) fn next(
        &mut self,
        cluster: &Cluster,
        choice: u64,
    ) -> Result<Option<Next>, AllocError> {
        self.look(cluster)?;
        Ok(self.chosen(choice))
    }

    fn chosen(&self, choice: u64) -> Option<Next> {
        let last = if self.has_links { FOR_OFFSETS } else { ONLY };
        let is_last = self.may_have_more && !self.places.contains_key(&last);
        let count = self.links.len().saturating_add(usize::from(is_last));
        if count == 0 {
            return None;
        }
        let place = remainder(choice, count);
        let message = match self.links.get(place) {
            Some(link) => *link.messages.front()?,
            None => self.known,
        };
        Some(Next { message, place })
    }

    /// The next message has arrived, or there was none.
    pub(crate) fn passed(&mut self, next: Next, exists: bool) -> Result<(), AllocError> {
        if !exists {
            self.may_have_more = false;
        } else if next.place < self.links.len() {
            self.take(next.place)?;
        } else {
            self.known = next.message.saturating_add(1);
            self.passed.push(next.message)?;
        }
        Ok(())
    }

    /// The next message of one of the links is lost, where there is one: that one.
    pub(crate) fn lose(&mut self, choice: u64) -> Result<Option<u64>, AllocError> {
        let place = remainder(choice, self.links.len());
        self.take(place)
    }

    /// The first message of a link is on it no more.
    fn take(&mut self, place: usize) -> Result<Option<u64>, AllocError> {
        if place >= self.links.len() {
            return Ok(None);
        }
        let Some(message) = self.links[place].messages.pop_front() else {
            return Ok(None);
        };
        self.passed.push(message)?;
        if self.links[place].messages.is_empty() {
            let emptied = self.links.swap_remove(place);
            self.places.remove(&emptied.ends);
            if place < self.links.len() {
                let ends = self.links[place].ends;
                self.places.insert(ends, place)?;
            }
        }
        Ok(Some(message))
    }

    /// An earlier message, lost or not: one of the last eight, or any.
    pub(crate) fn earlier(&self, recent: bool, choice: u64) -> Option<u64> {
        let count = self.passed.len();
        let back = remainder(choice, if recent { count.min(8) } else { count });
        let place = count.checked_sub(back.saturating_add(1))?;
        self.passed.get(place).copied()
    }
}
