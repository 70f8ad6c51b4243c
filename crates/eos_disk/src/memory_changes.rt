//! Changes of a disk in memory.

ghost use Rattle.std.specs.Prelude.{◌≡◌, OnOk, OnErr, false};
ghost use Rattle.eos_disk.specs.Memory.{standing_in, is_there, held_in};
ghost use Rattle.eos_disk.specs.Changes.{IsPut};
ghost use Rattle.eos_disk.specs.steps.Found.{IsSet};

use crate::change::{ChangeFault, DiskMut};
use crate::memory::{Change, MemoryDisk, Standing};
use bytes::Bytes as Shared;
use std::alloc::{AllocError, Global};

impl MemoryDisk {
    /// Lets this stand at a path from now on.
    #[tactic(auto, using(crate::proofs::Changed::set_is))]
    fn change(&mut self, alloc: Global, path: &str, what: Standing) -> Result<(), AllocError>
        ensures ok { OnOk result (IsSet self.old.changes.items path.now what self.new.changes.items) }
        ensures err { OnErr result (self.new.changes.items ≡ self.old.changes.items) }
    {
        let path = String::from_str(alloc, path)?;
        self.changes.push(Change { path, what })?;
        Ok(())
    }

    /// Puts a file of these bytes where nothing stands.
    #[tactic(auto, using(crate::proofs::Changed::put_is))]
    fn put(&mut self, alloc: Global, path: &str, bytes: &[u8]) -> Result<(), AllocError>
        requires { is_there (standing_in self.now.changes.items path.now) ≡ false }
        ensures ok { OnOk result (IsPut (held_in self.old.changes.items) path.now bytes.now (held_in self.new.changes.items)) }
        ensures err { OnErr result (self.new.changes.items ≡ self.old.changes.items) }
    {
        let bytes = Shared::copy_from_slice(alloc, bytes)?;
        self.change(alloc, path, Standing::Bytes(bytes))
    }
}

#[tactic(auto, using(crate::proofs::Changed::made_is, crate::proofs::Changed::made_to, crate::proofs::Changed::none_made, crate::proofs::Changed::half_is, crate::proofs::Changed::removed_is, crate::proofs::Changed::moved_is, crate::proofs::Changed::copied_is, crate::proofs::Changed::unchanged))]
impl DiskMut for MemoryDisk {
    type Held = ();

    fn stands(&self, path: &str) -> bool {
        self.is_there(path)
    }

    fn make_folder(&mut self, alloc: Global, path: &str) -> Result<(), ChangeFault> {
        if self.fails() {
            return Err(ChangeFault::Refused);
        }
        if self.is_there(path) {
            return Err(ChangeFault::ThereAlready);
        }
        Ok(self.change(alloc, path, Standing::Folder)?)
    }

    fn make_folders(&mut self, alloc: Global, path: &str) -> Result<(), ChangeFault> {
        if self.fails() {
            return Err(ChangeFault::Refused);
        }
        match self.standing(path) {
            Some(Standing::Folder) => return Ok(()),
            Some(Standing::Bytes(_)) => return Err(ChangeFault::ThereAlready),
            Some(Standing::Nothing) | None => {}
        }
        Ok(self.change(alloc, path, Standing::Folder)?)
    }

    /// Where it is refused, half of the bytes stand there.
    fn write_new(&mut self, alloc: Global, path: &str, bytes: &[u8]) -> Result<(), ChangeFault> {
        if self.is_there(path) {
            return Err(ChangeFault::ThereAlready);
        }
        if self.fails() {
            self.put(alloc, path, &bytes[..bytes.len() / 2])?;
            return Err(ChangeFault::Refused);
        }
        Ok(self.put(alloc, path, bytes)?)
    }

    fn publish(&mut self, alloc: Global, from: &str, to: &str) -> Result<(), ChangeFault> {
        if self.fails() {
            return Err(ChangeFault::Refused);
        }
        if self.is_there(to) {
            return Err(ChangeFault::ThereAlready);
        }
        let bytes = match self.find(from) {
            Some(bytes) => bytes.clone()?,
            None => return Err(ChangeFault::Refused),
        };
        self.change(alloc, to, Standing::Bytes(bytes))?;
        match self.change(alloc, from, Standing::Nothing) {
            Ok(()) => Ok(()),
            Err(_) => Ok(()),
        }
    }

    fn remove(&mut self, alloc: Global, path: &str) -> Result<(), ChangeFault> {
        if self.fails() || self.find(path).is_none() {
            return Err(ChangeFault::Refused);
        }
        Ok(self.change(alloc, path, Standing::Nothing)?)
    }

    fn remove_stale(&mut self, alloc: Global, path: &str) -> Result<(), ChangeFault> {
        self.remove(alloc, path)
    }

    fn remove_folder(&mut self, alloc: Global, path: &str) -> Result<(), ChangeFault> {
        if self.fails() || !self.names(alloc, path)?.is_empty() {
            return Err(ChangeFault::Refused);
        }
        Ok(self.change(alloc, path, Standing::Nothing)?)
    }
}
