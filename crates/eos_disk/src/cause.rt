//! Why a file or a folder isn't read.

ghost use Rattle.std.specs.Prelude.{◌≡◌, Some};
ghost use Rattle.eos_disk.specs.Entries.{Entry, MayLackFile};
ghost use Rattle.eos_disk.specs.declared.fault.DiskFault.TheVariants.{NotThere};
ghost use Rattle.eos_disk.specs.Causes.{cause_text, is_unknown};
ghost use Rattle.eos_disk.specs.Refusals.{IsSoAt};

use crate::{Disk, DiskFault};
use std::alloc::Global;
use std::fmt::{Display, Formatter, Write};
use std::io::Read;

/// Why a file or a folder isn't read. Printed, it is a part of a sentence, and nothing where nothing is known.
#[derive(Drop)]
pub enum Cause {
    /// It isn't known, or memory was refused to what would be said.
    Unknown,
    /// Nothing stands there, as the disk says at its opening.
    NoSuchFile,
    PermissionDenied,
    /// It is a folder, where a file is wanted.
    Folder,
    /// It is no folder, where one is wanted.
    NotFolder,
    /// What the system says, or the tests of the manifest.
    Told(String),
    /// These words.
    Words(&'static str),
    /// The file of this path has more bytes than a segment may have.
    LongFile(String),
    /// The fold in the file of this path is of a segment with more bytes than one may have.
    LongFold(String),
    /// There are more segments than evidence may have, and the file of this path is the first of those.
    ManySegments(String),
}

impl Display for Cause {
    ghost output = { λ cause. Some (cause_text cause) };

    fn fmt<W: Write>(&self, f: &mut Formatter<W>) -> std::fmt::Result {
        match self {
            Cause::Unknown => Ok(()),
            Cause::NoSuchFile => f.write_str("no such file"),
            Cause::PermissionDenied => f.write_str("permission denied"),
            Cause::Folder => f.write_str("a folder"),
            Cause::NotFolder => f.write_str("not a folder"),
            Cause::Told(words) => f.write_str(words.as_str()),
            Cause::Words(words) => f.write_str(words),
            Cause::LongFile(path) => write!(
                f,
                "{path} has more than 1073741824 bytes, as many as a segment may have"
            ),
            Cause::LongFold(path) => write!(
                f,
                "the segment of {path} has more than 1073741824 bytes, as many as a segment may have"
            ),
            Cause::ManySegments(path) => write!(
                f,
                "there are more than 65536 segments, and {path} is the first of those"
            ),
        }
    }
}

impl Cause {
    /// Whether there is nothing to be said.
    pub fn is_unknown(&self) -> bool
        ensures { result ≡ is_unknown self.now }
    {
        matches!(self, Cause::Unknown)
    }

    /// A file of this path is longer than a segment may be.
    pub fn long_file(alloc: Global, path: &str) -> Cause {
        match String::from_str(alloc, path) {
            Ok(path) => Cause::LongFile(path),
            Err(_) => Cause::Unknown,
        }
    }

    /// Why this file can't be read, by asking the disk again.
    pub fn of_file<D: Disk>(alloc: Global, disk: &D, path: &str) -> Cause
        ensures { IsSoAt (D.holds disk.now path.now) result }
    {
        match disk.open(alloc, path) {
            Ok(mut file) => Cause::of_reader(alloc, &mut file),
            Err(fault) => Cause::of_fault(fault),
        }
    }

    /// Why nothing can be read from this reader, by asking it again for a byte.
    pub fn of_reader<R: Read>(alloc: Global, reader: &mut R) -> Cause
        ensures { (e : Entry) → IsSoAt e result }
    {
        match reader.read(&mut [0u8; 1]) {
            Ok(_) => Cause::Unknown,
            Err(e) => Cause::of_open_file(DiskFault::of_error(alloc, &e)),
        }
    }

    /// What the disk says of a file that is open, and so was there.
    fn of_open_file(fault: DiskFault) -> Cause
        ensures { (e : Entry) → IsSoAt e result }
    {
        match fault {
            DiskFault::NotThere => Cause::Words("no such file"),
            fault => Cause::of_fault(fault),
        }
    }

    /// What the disk says.
    pub(crate) fn of_fault(fault: DiskFault) -> Cause
        ensures { (e : Entry) → (fault ≡ NotThere → MayLackFile e) → IsSoAt e result }
    {
        match fault {
            DiskFault::NotThere => Cause::NoSuchFile,
            DiskFault::Dangling => Cause::Words("no such file"),
            DiskFault::PermissionDenied => Cause::PermissionDenied,
            DiskFault::IsFolder => Cause::Folder,
            DiskFault::NotFolder => Cause::NotFolder,
            DiskFault::IsPipe => Cause::Words("a pipe"),
            DiskFault::Told(words) => Cause::Told(words),
            DiskFault::Untold => Cause::Unknown,
            DiskFault::OutOfMemory => Cause::Words("out of memory"),
        }
    }
}
