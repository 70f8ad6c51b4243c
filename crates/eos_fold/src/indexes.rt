//! Indexes in a list, kept in ascending order.

ghost use Rattle.std.specs.Prelude.{◌≡◌, ◌+◌, ◌<◌, ◌≤◌, ◌^◌, ◌∷◌, [], ◌++◌, map, length, All, IfOk, OnOk};
ghost use Rattle.std.specs.Vec.{vec_capacity};

use std::alloc::{AllocError, Global};
use std::marker::Model;

/// Indexes in a list. Contracts see the indexes, and how many it has room for.
#[derive(Drop)]
pub struct Indexes {
    items: Vec<usize>,
}

impl Model for Indexes {
    ghost use Rattle.std.specs.Vec.{vec_capacity};
    ghost use Rattle.eos_fold.specs.Indexes.{IndexesView};

    ghost Value = { IndexesView };

    ghost view = { λ p. record { list = p.items.items; room = vec_capacity p.items } };
}

impl Indexes {
    pub(crate) fn new(alloc: Global) -> Indexes
        ensures { result.list ≡ [] }
    {
        Indexes {
            items: Vec::new(alloc),
        }
    }

    /// The list of one index.
    pub(crate) fn one(alloc: Global, place: usize) -> Result<Indexes, AllocError>
        ensures { IfOk result (λ p. p.list ≡ place ∷ []) }
    {
        let mut items = Vec::new(alloc);
        items.push(place)?;
        Ok(Indexes { items })
    }

    /// How many there are.
    pub fn len(&self) -> usize
        ensures { result ≡ length self.now.list }
    {
        self.items.len()
    }

    /// The indexes, in ascending order.
    pub fn as_slice(&self) -> &[usize]
        ensures { result.now ≡ self.now.list }
    {
        self.items.as_slice()
    }

    pub(crate) fn clear(&mut self)
        ensures list { self.new.list ≡ [] }
        ensures room { self.new.room ≡ self.old.room }
    {
        self.items.clear();
    }

    /// Makes room for so many more.
    pub(crate) fn reserve(&mut self, count: usize) -> Result<(), AllocError>
        ensures list { self.new.list ≡ self.old.list }
        ensures room { OnOk result (length self.old.list + count ≤ self.new.room) }
        ensures more { self.old.room ≤ self.new.room }
    {
        self.items.reserve(count)
    }

    /// Moves each index up by so many.
    pub(crate) fn shift(&mut self, by: usize)
        requires { All (λ p. p + by < 2 ^ 64) self.old.list }
        ensures { self.new.list ≡ map (λ p. p + by) self.old.list }
    {
        for place in self.items.iter_mut() {
            *place = *place + by;
        }
    }

    /// Puts the indexes of another list behind these.
    pub(crate) fn append(&mut self, mut more: Indexes)
        requires { length self.old.list + length more.list ≤ self.old.room }
        ensures { self.new.list ≡ self.old.list ++ more.list }
    {
        let Ok(()) = self.items.append(&mut more.items) else {
            unreachable!()
        };
    }

    /// Puts the indexes of another list in the place of these, and keeps the room.
    pub(crate) fn replace(&mut self, others: Indexes)
        requires { length others.list ≤ self.old.room }
        ensures { self.new.list ≡ others.list }
    {
        self.clear();
        self.append(others);
    }
}
