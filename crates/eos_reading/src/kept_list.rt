//! Lists of what is kept of data records.

use std::alloc::{AllocError, Global};

/// What is kept of data records, one after the other, which contracts see as a list.
pub trait KeptList {
    ghost use Rattle.std.specs.Prelude.{◌≡◌, ◌++◌, ℕ, List, [], length, take, OnOk};

    /// What contracts see of one record's.
    type One;

    ghost list: { Self → List Self.One };

    // There is room for those of the second behind those of the first.
    ghost has_room: { Self → Self → Type 0 };

    /// None.
    fn new(alloc: Global) -> Self
        ensures { list result ≡ [] };

    fn len(&self) -> usize
        ensures { result ≡ length (list self.now) };

    /// Forgets all but the first of them, so many.
    fn truncate(&mut self, count: usize)
        ensures { list self.new ≡ take count (list self.old) };

    /// Makes room for those of another list behind these. Both may come to lie in memory in another form.
    ///
    /// # Errors
    /// Only want of memory.
    fn make_room(&mut self, more: &mut Self) -> Result<(), AllocError>
        ensures same { list self.new ≡ list self.old }
        ensures more { list more.new ≡ list more.old }
        ensures room { OnOk result (has_room self.new more.new) };

    /// Puts those of another list behind these, where there is room.
    fn append(&mut self, more: Self)
        requires { has_room self.old more }
        ensures { list self.new ≡ list self.old ++ list more };
}

impl<T: Drop> KeptList for Vec<T> {
    ghost use Rattle.std.specs.Prelude.{◌+◌, ◌≤◌, length};
    ghost use Rattle.std.specs.Vec.{vec_capacity};

    type One = T;

    ghost list = { λ v. v.items };

    ghost has_room = { λ v w. length v.items + length w.items ≤ vec_capacity v };

    fn new(alloc: Global) -> Vec<T> {
        Vec::new(alloc)
    }

    fn len(&self) -> usize {
        Vec::len(self)
    }

    fn truncate(&mut self, count: usize) {
        Vec::truncate(self, count);
    }

    fn make_room(&mut self, more: &mut Vec<T>) -> Result<(), AllocError> {
        self.reserve(more.len())
    }

    fn append(&mut self, mut more: Vec<T>) {
        let Ok(()) = Vec::append(self, &mut more) else {
            unreachable!()
        };
    }
}
