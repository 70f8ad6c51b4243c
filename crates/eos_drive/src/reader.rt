//! What a reader of committed records knows of `out`.

use eos_batch::Kind;
use eos_machine::Item;
use std::alloc::{AllocError, Global};

/// What stands at an offset.
#[derive(Clone, Copy, PartialEq, Eq)]
pub(crate) enum Fate {
    /// An end marker, or nothing that a reader is given.
    Passed,
    /// A record of an application whose transaction wasn't ended there.
    Open(usize),
    /// A record whose transaction was ended so.
    Ended(Kind),
}

/// A partition of `out`, as far as it was read.
#[derive(Drop)]
pub(crate) struct Reader {
    /// By offset.
    fates: Vec<Fate>,
    /// The offsets of the records that are open.
    open: Vec<usize>,
}

impl Reader {
    pub(crate) fn new(alloc: Global) -> Reader {
        Reader {
            fates: Vec::new(alloc),
            open: Vec::new(alloc),
        }
    }

    /// Reads what was appended to the log since it was read last.
    ///
    /// # Errors
    /// Where a growth was refused.
    pub(crate) fn read(&mut self, log: &[Item]) -> Result<(), AllocError> {
        for offset in self.fates.len()..log.len() {
            match &log[offset] {
                Item::Output { application, .. } => {
                    self.open.push(offset)?;
                    self.fates.push(Fate::Open(*application))?;
                }
                Item::Marker {
                    application,
                    kind,
                    ..
                } => {
                    self.end(*application, *kind);
                    self.fates.push(Fate::Passed)?;
                }
                Item::Fed { .. } | Item::State { .. } | Item::Offset { .. } => {
                    self.fates.push(Fate::Passed)?;
                }
            }
        }
        Ok(())
    }

    /// The transaction of an application was ended.
    fn end(&mut self, application: usize, kind: Kind) {
        for place in (0..self.open.len()).rev() {
            if place < self.open.len() {
                let offset = self.open[place];
                if offset < self.fates.len() && self.fates[offset] == Fate::Open(application) {
                    self.fates[offset] = Fate::Ended(kind);
                    self.open.remove(place);
                }
            }
        }
    }

    /// The offset after those that were read.
    pub(crate) fn end_offset(&self) -> u64 {
        self.fates.len() as u64
    }

    /// What stands at an offset: where nothing does, nothing that a reader is given.
    pub(crate) fn fate(&self, offset: u64) -> Fate {
        match self.fates.get(offset as usize) {
            Some(fate) => *fate,
            None => Fate::Passed,
        }
    }
}
