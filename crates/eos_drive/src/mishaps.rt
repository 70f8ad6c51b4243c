//! The mishaps of a run, and the inputs at which they happen.

use crate::mishap::{ChosenMishap, Input, Mishap};
use std::alloc::{AllocError, Global};

/// The mishaps of a run.
#[derive(Drop)]
pub(crate) struct Mishaps {
    due: Vec<Due>,
}

/// A mishap, and whether a transaction has made it.
#[derive(Clone, Copy)]
struct Due {
    chosen: ChosenMishap,
    is_met: bool,
    /// Whether one has since that was told.
    is_untold: bool,
}

impl Mishaps {
    pub(crate) fn new(alloc: Global, chosen: &[ChosenMishap]) -> Result<Mishaps, AllocError> {
        let mut due = Vec::new(alloc);
        for it in chosen {
            due.push(Due {
                chosen: *it,
                is_met: false,
                is_untold: false,
            })?;
        }
        Ok(Mishaps { due })
    }

    /// Whether a transaction of the second group processes this input, which was aborted: one of its mishaps happens there, or
    /// now does.
    pub(crate) fn meet_aborted(&mut self, input: Input) -> bool {
        let Some(place) = self.first_aborted(input) else {
            return false;
        };
        if place < self.due.len() {
            self.due[place].chosen.at = Some(input);
            self.due[place].is_met = true;
            self.due[place].is_untold = true;
        }
        true
    }

    /// The place of the second group's mishap at an input, or of the first that has none.
    fn first_aborted(&self, input: Input) -> Option<usize> {
        let mut first = None;
        for place in 0..self.due.len() {
            let chosen = self.due[place].chosen;
            if !chosen.mishap.is_chained() || !chosen.mishap.suits(input.outputs()) {
                continue;
            }
            if chosen.at == Some(input) {
                return Some(place);
            }
            if chosen.at.is_none() && first.is_none() {
                first = Some(place);
            }
        }
        first
    }

    pub(crate) fn count(&self) -> usize {
        self.due.len()
    }

    /// The one at this place, if a transaction has made it since that was told, which it now is.
    pub(crate) fn untold(&mut self, place: usize) -> Option<ChosenMishap> {
        if place >= self.due.len() || !self.due[place].is_untold {
            return None;
        }
        self.due[place].is_untold = false;
        Some(self.due[place].chosen)
    }

    /// The first that no transaction has made.
    pub(crate) fn unmet(&self) -> Option<Mishap> {
        for it in self.due.as_slice() {
            if !it.is_met {
                return Some(it.chosen.mishap);
            }
        }
        None
    }

    /// Chooses inputs for those that have none, among the inputs of a partition which a transaction reads from this offset on
    /// to that one; an input takes one of them. One that writes ahead wants an input before its own in the transaction.
    pub(crate) fn choose(&mut self, source: usize, from: u64, to: u64, end: u64) {
        for offset in from..end.min(to.saturating_add(1)) {
            let input = Input { source, offset };
            if let Some(place) = self.first_for(input, from < offset, offset < to) {
                if place < self.due.len() {
                    self.due[place].chosen.at = Some(input);
                }
            }
        }
    }

    /// The place of the first without an input that this one suits.
    fn first_for(&self, input: Input, may_be_ahead: bool, may_be_beside: bool) -> Option<usize> {
        for it in self.due.as_slice() {
            if it.chosen.is_at(input) {
                return None;
            }
        }
        for place in 0..self.due.len() {
            let ChosenMishap { mishap, at } = self.due[place].chosen;
            let may_be = if mishap.is_ahead() {
                may_be_ahead
            } else {
                may_be_beside
            };
            if at.is_none()
                && !mishap.is_chained()
                && may_be
                && mishap.suits(input.outputs())
                && (mishap != Mishap::EarlyOutput || self.leaves_none(input))
            {
                return Some(place);
            }
        }
        None
    }

    /// Whether a partition may be read no further than to this input: all other mishaps have their inputs, none of them there.
    fn leaves_none(&self, input: Input) -> bool {
        for it in self.due.as_slice() {
            if it.chosen.mishap.is_chained() {
                continue;
            }
            let waits = it.chosen.at.is_none() && it.chosen.mishap != Mishap::EarlyOutput;
            if waits || it.chosen.is_from(input) {
                return false;
            }
        }
        true
    }

    /// How far a transaction reads a partition that would read it to `to`: one before an input whose outputs are written ahead
    /// ends right before it, and waits for it to come in.
    pub(crate) fn bound(&self, source: usize, from: u64, to: u64, end: u64) -> u64 {
        let mut bound = to;
        for it in self.due.as_slice() {
            if let Some(at) = it.chosen.at
                && at.source == source
                && it.chosen.is_at(at)
                && it.chosen.mishap.is_ahead()
                && (from < at.offset || it.chosen.mishap == Mishap::EarlyOutput)
            {
                bound = bound.min(at.offset);
                if bound == end {
                    bound = bound.min(at.offset.saturating_sub(1));
                }
            }
        }
        bound
    }

    /// The mishap at an input, which a transaction now makes, if it writes the input's outputs ahead or if it doesn't.
    pub(crate) fn meet(&mut self, input: Input, is_ahead: bool) -> Option<Mishap> {
        for place in 0..self.due.len() {
            let chosen = self.due[place].chosen;
            if chosen.is_at(input) {
                if chosen.mishap.is_ahead() == is_ahead {
                    self.due[place].is_met = true;
                    self.due[place].is_untold = true;
                }
                return Some(chosen.mishap);
            }
        }
        None
    }
}
