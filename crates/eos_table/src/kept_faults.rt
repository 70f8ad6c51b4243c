//! Faults as they are found: all are kept, or only the least.

ghost use Rattle.std.specs.Prelude.{◌≡◌, OnOk};
ghost use Rattle.eos_table.specs.steps.KeptFaults.{none_kept, kept_with};

use eos_base::offer;
use std::alloc::{AllocError, Global};
use std::marker::Model;

/// What is kept of the faults that are found.
#[derive(Drop)]
pub(crate) struct KeptFaults<F> {
    keeps_all: bool,
    least: Option<F>,
    all: Vec<F>,
}

impl<F> Model for KeptFaults<F> {
    ghost use Rattle.eos_table.specs.steps.KeptFaults.{Kept};

    ghost Value = { Kept F };

    ghost view = { λ f. record { keeps_all = f.keeps_all; least = f.least; all = f.all.items } };
}

impl<F: Ord + Drop> KeptFaults<F> {
    /// None was found yet. Of those to come all are kept, or the least.
    pub fn new(alloc: Global, keeps_all: bool) -> KeptFaults<F>
        ensures { result ≡ none_kept keeps_all }
    {
        KeptFaults {
            keeps_all,
            least: None,
            all: Vec::new(alloc),
        }
    }

    /// Takes up a fault.
    pub fn take(&mut self, fault: F) -> Result<(), AllocError>
        ensures { OnOk result (self.new ≡ kept_with F.cmp self.old fault) }
    {
        if self.keeps_all {
            self.all.push(fault)?;
        } else {
            offer(&mut self.least, fault);
        }
        Ok(())
    }

    /// The least, if only that was to be kept; none where none was found.
    pub fn into_least(self) -> Option<F>
        ensures { result ≡ self.least }
    {
        self.least
    }

    /// All, if they were to be kept, in the order in which they were found, one perhaps more than once.
    pub fn into_all(self) -> Vec<F>
        ensures { result.items ≡ self.all }
    {
        self.all
    }
}
