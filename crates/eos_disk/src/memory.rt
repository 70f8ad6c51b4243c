//! A disk in memory, of which everything is known: the changes that were made to it, of which the last at a path counts.

ghost use Rattle.std.specs.Prelude.{◌≡◌, [], bytes_eq, OnOk, IfOk, option_map, string_bytes};
ghost use Rattle.std.specs.List.{list_any};
ghost use Rattle.eos_disk.specs.Memory.{standing_in, is_there, name_below, names_in, with_name};
ghost use Rattle.eos_disk.specs.steps.Found.{known_standing, bytes_of};

use crate::disk::Disk;
use crate::fault::DiskFault;
use bytes::Bytes as Shared;
use std::alloc::{AllocError, Global};
use std::io;
use std::io::{Error, ErrorKind, Read};
use std::sync::atomic::{AtomicU64, Ordering};

/// What stands at a path.
#[derive(Drop)]
pub enum Standing {
    Nothing,
    /// A file of these bytes.
    Bytes(Shared),
    Folder,
}

/// What stands at a path from now on.
#[derive(Drop)]
pub struct Change {
    pub path: String,
    pub what: Standing,
}

/// The changes that were made to a disk that was empty. The folder of a file need not be there.
#[derive(Drop)]
pub struct MemoryDisk {
    pub changes: Vec<Change>,
    /// The call of this number, counted from 0, is refused; so a test can ask for each.
    pub fails_at: u64,
    /// How many calls there were. An opening is two: the call, and what is read.
    pub calls: AtomicU64,
    /// How many files were opened.
    pub openings: AtomicU64,
}

/// A file in memory that is read.
#[derive(Drop)]
pub struct MemoryReader {
    rest: Shared,
    fails: bool,
}

impl Read for MemoryReader {
    ghost use Rattle.std.specs.Prelude.{Some};

    ghost remaining = { λ reader. Some reader.rest };

    fn read(&mut self, buf: &mut [u8]) -> io::Result<usize> {
        if self.fails {
            return Err(Error::from(ErrorKind::PermissionDenied));
        }
        let mut rest = self.rest.as_slice();
        let count = rest.read(buf)?;
        self.rest.advance(count);
        Ok(count)
    }
}

impl MemoryDisk {
    /// An empty disk on which no call is refused.
    pub fn new(alloc: Global) -> MemoryDisk
        ensures { result.changes.items ≡ [] }
    {
        MemoryDisk {
            changes: Vec::new(alloc),
            fails_at: u64::MAX,
            calls: AtomicU64::new(0),
            openings: AtomicU64::new(0),
        }
    }

    /// Whether the next call is refused.
    pub(crate) fn fails(&self) -> bool {
        self.calls.fetch_add(1, Ordering::SeqCst) == self.fails_at
    }

    /// What stands at a path, if it was ever changed.
    pub(crate) fn standing(&self, path: &str) -> Option<&Standing>
        ensures { known_standing (option_map (λ s. s.now) result) ≡ standing_in self.now.changes.items path.now }
    {
        let mut found = None;
        for change in self.changes.as_slice() {
            if change.path.as_str() == path {
                found = Some(&change.what);
            }
        }
        found
    }

    /// The bytes of the file of this path.
    pub(crate) fn find(&self, path: &str) -> Option<&Shared>
        ensures { option_map (λ b. b.now) result ≡ bytes_of (standing_in self.now.changes.items path.now) }
    {
        match self.standing(path) {
            Some(Standing::Bytes(bytes)) => Some(bytes),
            Some(Standing::Nothing) | Some(Standing::Folder) | None => None,
        }
    }

    /// Whether something stands at a path.
    pub(crate) fn is_there(&self, path: &str) -> bool
        ensures { result ≡ is_there (standing_in self.now.changes.items path.now) }
    {
        match self.standing(path) {
            Some(Standing::Nothing) | None => false,
            Some(Standing::Bytes(_)) | Some(Standing::Folder) => true,
        }
    }

    /// The names in this folder.
    pub(crate) fn names(&self, alloc: Global, folder: &str) -> Result<Vec<Shared>, AllocError>
        ensures { IfOk result (λ names. names.items ≡ names_in self.now.changes.items folder.now) }
    {
        let mut names = Vec::new(alloc);
        for change in self.changes.as_slice() {
            let stands = self.is_there(change.path.as_str());
            let name = name_below(folder.as_bytes(), change.path.as_bytes());
            push_name(alloc, &mut names, name, stands)?;
        }
        Ok(names)
    }
}

/// The name of what stands right in this folder.
fn name_below<'a>(folder: &[u8], path: &'a [u8]) -> Option<&'a [u8]>
    ensures { option_map (λ name. name.now) result ≡ name_below folder.now path.now }
{
    let (front, rest) = path.split_at_checked(folder.len())?;
    let (slash, name) = rest.split_first()?;
    if front == folder && *slash == b'/' && !name.contains(&b'/') {
        Some(name)
    } else {
        None
    }
}

/// Adds a name at which something stands, unless it is among them.
fn push_name(
    alloc: Global,
    names: &mut Vec<Shared>,
    name: Option<&[u8]>,
    stands: bool,
) -> Result<(), AllocError>
    ensures { OnOk result (names.new.items ≡ with_name stands names.old.items (option_map (λ n. n.now) name.entry)) }
{
    if let Some(name) = name {
        if stands && !is_among(names.as_slice(), name) {
            names.push(Shared::copy_from_slice(alloc, name)?)?;
        }
    }
    Ok(())
}

fn is_among(names: &[Shared], name: &[u8]) -> bool
    ensures { result ≡ list_any (λ n. bytes_eq n name.now) names.now }
{
    names.iter().any(|n| n.as_slice() == name)
}

impl Disk for MemoryDisk {
    type File = MemoryReader;

    ghost use Rattle.eos_disk.specs.Memory.{held_in};

    ghost holds = { λ disk path. held_in disk.changes.items path };

    fn open(&self, _alloc: Global, path: &str) -> Result<MemoryReader, DiskFault> {
        if self.fails() {
            return Err(DiskFault::PermissionDenied);
        }
        match self.find(path) {
            Some(bytes) => {
                self.openings.fetch_add(1, Ordering::SeqCst);
                Ok(MemoryReader {
                    rest: bytes.clone()?,
                    fails: self.fails(),
                })
            }
            None => Err(DiskFault::NotThere),
        }
    }

    fn list(&self, alloc: Global, path: &str) -> Result<Vec<Shared>, DiskFault> {
        if self.fails() {
            return Err(DiskFault::PermissionDenied);
        }
        match self.standing(path) {
            Some(Standing::Folder) => Ok(self.names(alloc, path)?),
            Some(Standing::Bytes(_)) => Err(DiskFault::NotFolder),
            Some(Standing::Nothing) | None => Err(DiskFault::NotThere),
        }
    }
}
