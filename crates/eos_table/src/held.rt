//! What is held of the unskipped records of the transaction log, so that later ones can be held against them.

ghost use Rattle.std.specs.Prelude.{◌≡◌, ◌∷◌, [], ◌++◌, List, drop, IfOk, OnOk};
ghost use Rattle.eos_table.specs.declared.mark.Mark.{Mark};
ghost use Rattle.eos_table.specs.declared.held.Holding.TheVariants.{Each, Apart};
ghost use Rattle.eos_table.specs.steps.Doubled.{doubled_at};
ghost use Rattle.eos_table.specs.steps.Apart.{Fits};

use crate::apart::{Homes, Owners, take_mark};
use crate::mark::Mark;
use std::alloc::{AllocError, Global};
use std::collections::BTreeMap;

/// How they are held.
#[derive(Clone, Copy)]
pub(crate) enum Holding {
    /// Each by itself.
    Each,
    /// By tables, as long as each stands apart from those before it.
    Apart,
    /// Not at all.
    Nothing,
}

/// What is held of them.
#[derive(Drop)]
pub(crate) struct Held {
    pub holding: Holding,
    pub marks: Vec<Mark>,
    pub owners: Owners,
    pub homes: Homes,
}

/// An equal mark, which shares its id's bytes.
fn copied(mark: &Mark) -> Result<Mark, AllocError>
    ensures { IfOk result (λ copy. copy ≡ mark.now) }
{
    Ok(Mark {
        partition: mark.partition,
        offset: mark.offset,
        id: mark.id.clone()?,
        producer: mark.producer,
    })
}

impl Held {
    /// No record yet, and those to come are held so.
    pub fn new(alloc: Global, holding: Holding) -> Held
        ensures holding { result.holding ≡ holding }
        ensures marks { result.marks.items ≡ [] }
        ensures tables { Fits result.owners result.homes [] }
    {
        Held {
            holding,
            marks: Vec::new(alloc),
            owners: BTreeMap::new(alloc),
            homes: BTreeMap::new(alloc),
        }
    }

    /// Takes up a record. Where it doesn't stand apart from those before, tables are given up.
    pub fn take(&mut self, mark: &Mark) -> Result<(), AllocError>
        ensures each { self.old.holding ≡ Each → OnOk result ((self.new.holding ≡ Each) × (self.new.marks.items ≡ self.old.marks.items ++ mark.now ∷ [])) }
        ensures apart { OnOk result (self.new.holding ≡ Apart → (self.old.holding ≡ Apart) × ((before : List Mark) → Fits self.old.owners self.old.homes before
            → Fits self.new.owners self.new.homes (before ++ mark.now ∷ []) × (doubled_at before mark.now ≡ []))) }
    {
        match self.holding {
            Holding::Each => Ok(self.marks.push(copied(mark)?)?),
            Holding::Apart => {
                if !take_mark(&mut self.owners, &mut self.homes, mark)? {
                    self.holding = Holding::Nothing;
                }
                Ok(())
            }
            Holding::Nothing => Ok(()),
        }
    }

    /// Those that were taken up after so many, where each is held.
    pub fn since(&self, from: usize) -> &[Mark]
        ensures { result.now ≡ drop from self.now.marks.items }
    {
        let start = from.min(self.marks.len());
        &self.marks[start..]
    }
}
