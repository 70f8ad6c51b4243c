//! What is kept of the records of outputs, one after the other.

ghost use Rattle.std.specs.Prelude.{◌≡◌, ◌++◌, ◌∷◌, [], ◌<◌, length, slice_get, Some, OnOk, OnErr};

use crate::kept_list::KeptList;
use crate::output::KeptOutput;
use std::alloc::{AllocError, Global};
use std::marker::Model;

/// A plain list of what is kept of the records of outputs, which contracts see as that list.
#[derive(Drop)]
pub struct KeptOutputs {
    kept: Vec<KeptOutput>,
}

impl Model for KeptOutputs {
    ghost use Rattle.std.specs.Prelude.{Vec};
    ghost use Rattle.std.proofs.Common.{Global};
    ghost use Rattle.eos_reading.specs.Outputs.{KeptOutput};

    ghost Value = { Vec KeptOutput Global };

    ghost view = { λ k. k.kept };
}

impl KeptOutputs {
    /// Of this list.
    pub fn of(kept: Vec<KeptOutput>) -> KeptOutputs
        ensures { result ≡ kept }
    {
        KeptOutputs { kept }
    }

    /// Puts one more at the end.
    ///
    /// # Errors
    /// Only want of memory; then nothing more is kept.
    pub(crate) fn push(&mut self, one: KeptOutput) -> Result<(), AllocError>
        ensures ok { OnOk result (self.new.items ≡ self.old.items ++ one ∷ []) }
        ensures err { OnErr result (self.new.items ≡ self.old.items) }
    {
        self.kept.push(one)?;
        Ok(())
    }

    /// The list.
    pub fn into_vec(self) -> Vec<KeptOutput>
        ensures { result ≡ self }
    {
        self.kept
    }

    /// What is kept of the record at this place.
    pub fn at(&self, i: usize) -> &KeptOutput
        requires { i < length self.now.items }
        ensures { slice_get self.now.items i ≡ Some result.now }
    {
        &self.kept[i]
    }

    /// Forgets all of them.
    pub fn clear(&mut self)
        ensures { self.new.items ≡ [] }
    {
        self.kept.clear();
    }

    /// The list, lent.
    pub fn as_slice(&self) -> &[KeptOutput]
        ensures { result.now ≡ self.now.items }
    {
        self.kept.as_slice()
    }
}

impl KeptList for KeptOutputs {
    ghost use Rattle.std.specs.Prelude.{◌+◌, ◌≤◌, length, vec_capacity};

    type One = KeptOutput;

    ghost list = { λ v. v.items };

    ghost has_room = { λ v w. length v.items + length w.items ≤ vec_capacity v };

    fn new(alloc: Global) -> KeptOutputs {
        KeptOutputs::of(KeptList::new(alloc))
    }

    fn len(&self) -> usize {
        self.kept.len()
    }

    fn truncate(&mut self, count: usize) {
        self.kept.truncate(count);
    }

    fn make_room(&mut self, more: &mut KeptOutputs) -> Result<(), AllocError> {
        KeptList::make_room(&mut self.kept, &mut more.kept)
    }

    fn append(&mut self, more: KeptOutputs) {
        KeptList::append(&mut self.kept, more.kept);
    }
}
