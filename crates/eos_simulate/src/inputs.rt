//! The offsets of inputs where some of the lines of a history are left out.

use eos_machine::{Claim, Config};
use std::alloc::{AllocError, Global};

/// The inputs of a source: by its offset in the history, which offset each has now, or none where it isn't there; and where the source
/// ends now.
#[derive(Drop)]
struct Source {
    offsets: Vec<Option<u64>>,
    end: u64,
}

impl Source {
    fn set(&mut self, offset: u64, now: Option<u64>) -> Result<(), AllocError> {
        if let Some(now) = now {
            self.end = now.saturating_add(1);
        }
        for _ in self.offsets.len() as u64..offset {
            self.offsets.push(None)?;
        }
        if offset < self.offsets.len() as u64 {
            self.offsets[offset as usize] = now;
            return Ok(());
        }
        self.offsets.push(now)?;
        Ok(())
    }

    /// The offset that this one is now. Those that aren't there yet follow the end.
    fn now(&self, offset: u64) -> Option<u64> {
        let length = self.offsets.len() as u64;
        if offset < length {
            self.offsets[offset as usize]
        } else {
            Some(self.end.saturating_add(offset - length))
        }
    }

    /// The offset behind all that is there of those below this one.
    fn position(&self, offset: u64) -> u64 {
        let length = self.offsets.len() as u64;
        if offset > length {
            return self.end.saturating_add(offset - length);
        }
        for place in (0..offset as usize).rev() {
            if let Some(now) = self.offsets[place] {
                return now.saturating_add(1);
            }
        }
        0
    }
}

/// The inputs of all sources: the partitions of `in`, and after them those of `out`.
#[derive(Drop)]
pub(crate) struct Inputs {
    config: Config,
    sources: Vec<Source>,
}

/// An offset as lines have it.
fn as_offset(offset: u64) -> i64 {
    offset.min(i64::MAX as u64) as i64
}

impl Inputs {
    /// Of a new cluster of these sizes.
    pub(crate) fn new(alloc: Global, config: Config) -> Result<Inputs, AllocError> {
        let mut sources = Vec::new(alloc);
        for _ in 0..config.inputs.saturating_add(config.outputs) {
            sources.push(Source {
                offsets: Vec::new(alloc),
                end: 0,
            })?;
        }
        Ok(Inputs { config, sources })
    }

    /// The source that is the log at this place among all, if it is one: they are the last.
    pub(crate) fn source_at(&self, place: usize) -> Option<usize> {
        let finals = if self.config.chain {
            self.config.outputs
        } else {
            0
        };
        let first = finals
            .saturating_add(self.config.transaction_logs)
            .saturating_add(1);
        place.checked_sub(first)
    }

    /// What stood at this offset of a source stands now here, or isn't there.
    pub(crate) fn set(
        &mut self,
        source: usize,
        offset: u64,
        now: Option<u64>,
    ) -> Result<(), AllocError> {
        if source < self.sources.len() {
            return self.sources[source].set(offset, now);
        }
        Ok(())
    }

    /// The source that a claim names.
    fn named(&self, claim: &Claim) -> Option<usize> {
        if claim.partition < 0 {
            return None;
        }
        let partition = claim.partition as usize;
        if claim.topic.as_slice() == b"in".as_slice() && partition < self.config.inputs {
            return Some(partition);
        }
        if claim.topic.as_slice() == b"out".as_slice() && partition < self.config.outputs {
            return Some(self.config.inputs.saturating_add(partition));
        }
        None
    }

    /// The offset of the input that is claimed, if it is there; of what is no input the offset that is said.
    pub(crate) fn claimed(&self, claim: &Claim) -> Option<i64> {
        let Some(source) = self.named(claim) else {
            return Some(claim.offset);
        };
        if source >= self.sources.len() || claim.offset < 0 {
            return Some(claim.offset);
        }
        match self.sources[source].now(claim.offset as u64) {
            Some(offset) => Some(as_offset(offset)),
            None => None,
        }
    }

    /// The offset up to which a source is read that was read up to this one.
    pub(crate) fn position(&self, source: usize, offset: i64) -> i64 {
        if source >= self.sources.len() || offset < 0 {
            return offset;
        }
        as_offset(self.sources[source].position(offset as u64))
    }
}
