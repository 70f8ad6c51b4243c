//! The disk of the system: all that names the kit's files. No contract says what stands on it, so each call is trusted for what its words
//! here say, and its clauses say nothing of a disk of which nothing is known.

use crate::change::{ChangeFault, DiskMut, synced};
use crate::disk::Disk;
use crate::fault::{DiskFault, push_listed};
use crate::paths::with_slash;
use bytes::Bytes;
use std::alloc::Global;
use std::fs::{self, File, Files, TryLockError};
use std::io::{self, BufRead, BufReader, Write};
use std::os::unix::fs::{FileTypeExt, MetadataExt};

/// The system's files, of which nothing is known. Trusted: that they stand still while they are read.
#[derive(Drop)]
pub struct HostDisk<'a> {
    pub rt: &'a HostRuntime,
}

impl<'a> HostDisk<'a> {
    /// Locks an open file, and says whether it is the one that stands at this path, and no other run has locked it. Trusted: a run that
    /// ends, however it ends, has locked nothing any more.
    fn holds_at(&self, path: &str, file: &File) -> bool {
        let is_free = !matches!(file.try_lock(), Err(TryLockError::WouldBlock));
        match (fs::symlink_metadata(self.rt, path), file.metadata()) {
            (Ok(there), Ok(own)) => is_free && there.ino() == own.ino(),
            _ => false,
        }
    }

    /// Trusted: what stands at the first path stands at the second too. No part of its caller, nor is `rename`: each path of a call takes
    /// 4 KiB of the stack.
    #[inline(never)]
    fn link(&self, from: &str, to: &str) -> io::Result<()> {
        fs::hard_link(self.rt, from, to)
    }

    /// Trusted: what stood at the first path stands at the second.
    #[inline(never)]
    fn rename(&self, from: &str, to: &str) -> io::Result<()> {
        fs::rename(self.rt, from, to)
    }
}

impl<'a> Disk for HostDisk<'a> {
    type File = File;

    ghost use Rattle.eos_disk.specs.Entries.{Unknown};

    ghost holds = { λ disk path. Unknown };

    /// Trusted: what the reader gives are the bytes of the file of this path, and after the last the end. A pipe, whose opening would wait
    /// for somebody who writes, is refused; what lies in `/dev` was opened by who named it.
    fn open(&self, alloc: Global, path: &str) -> Result<File, DiskFault> {
        let is_pipe = fs::metadata(self.rt, path).is_ok_and(|about| about.file_type().is_fifo());
        if is_pipe && !path.starts_with("/dev/") {
            return Err(DiskFault::IsPipe);
        }
        File::open(self.rt, path).map_err(|e| DiskFault::of_error(alloc, &e))
    }

    /// Trusted: these are all names in the folder of this path, each once. They are read as the system gives them, each ended by a NUL:
    /// `fs::read_dir` holds 8 KiB of them on the stack, and moves these.
    fn list(&self, alloc: Global, path: &str) -> Result<Vec<Bytes>, DiskFault> {
        let opened = self.rt.open_dir(with_slash(alloc, path)?.as_str());
        match opened.and_then(|folder| BufReader::new(alloc, folder)) {
            Err(e) => Err(DiskFault::of_listing(alloc, path, &e, !self.stands(path))),
            Ok(folder) => {
                let mut names = Vec::new(alloc);
                for name in folder.split(alloc, 0) {
                    push_listed(alloc, &mut names, name.as_ref().map(|it| it.as_slice()))?;
                }
                Ok(names)
            }
        }
    }
}

#[tactic(auto, using(crate::proofs::Unknown::made, crate::proofs::Unknown::made_to, crate::proofs::Unknown::all_made, crate::proofs::Unknown::put, crate::proofs::Unknown::part, crate::proofs::Unknown::moved, crate::proofs::Unknown::removed, crate::proofs::Unknown::same))]
impl<'a> DiskMut for HostDisk<'a> {
    type Held = File;

    /// Trusted: something stands at this path, if only a link.
    fn stands(&self, path: &str) -> bool {
        fs::symlink_metadata(self.rt, path).is_ok()
    }

    /// Trusted: a folder is there, and nothing was.
    fn make_folder(&mut self, _: Global, path: &str) -> Result<(), ChangeFault> {
        Ok(fs::create_dir(self.rt, path)?)
    }

    /// Trusted: a folder is there, and those that lead to it.
    fn make_folders(&mut self, _: Global, path: &str) -> Result<(), ChangeFault> {
        Ok(fs::create_dir_all(self.rt, path)?)
    }

    /// Trusted: all bytes are handed to the system and through it to where they are kept, and what is refused on this way is told, which at
    /// the closing wouldn't be. What can't be written is taken away.
    fn write_new(&mut self, _: Global, path: &str, bytes: &[u8]) -> Result<File, ChangeFault> {
        let mut file = File::create_new(self.rt, path)?;
        if !self.holds_at(path, &file) {
            return Err(ChangeFault::ThereAlready);
        }
        let written = file.write_all(bytes).and_then(|()| synced(file.sync_all()));
        if written.is_err() {
            let _ = fs::remove_file(self.rt, path);
        }
        Ok(written.map(|()| file)?)
    }

    /// Trusted: nothing is written over where the files' system knows second names. Where it doesn't the file is renamed.
    fn publish(&mut self, alloc: Global, from: &str, to: &str) -> Result<(), ChangeFault> {
        match self.link(from, to) {
            Ok(()) => self.remove(alloc, from).or(Ok(())),
            Err(_) if self.stands(to) => Err(ChangeFault::ThereAlready),
            Err(_) => Ok(self.rename(from, to)?),
        }
    }

    /// Trusted: the file, or the link, of this path is gone.
    fn remove(&mut self, _: Global, path: &str) -> Result<(), ChangeFault> {
        Ok(fs::remove_file(self.rt, path)?)
    }

    /// Trusted: a file that another run has locked stays.
    fn remove_stale(&mut self, alloc: Global, path: &str) -> Result<(), ChangeFault> {
        match self.open(alloc, path) {
            Ok(file) if self.holds_at(path, &file) => Ok(fs::remove_file(self.rt, path)?),
            _ => Err(ChangeFault::ThereAlready),
        }
    }

    /// Trusted: the folder of this path is gone, and held nothing.
    fn remove_folder(&mut self, _: Global, path: &str) -> Result<(), ChangeFault> {
        Ok(fs::remove_dir(self.rt, path)?)
    }
}
