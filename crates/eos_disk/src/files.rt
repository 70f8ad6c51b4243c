//! Files that are read: how they are opened, and why they can't be read.

ghost use Rattle.std.specs.Prelude.{◌≡◌, ◌≤◌, length, Ok, Err, IfOk, IfErr, IfSome, string_bytes};
ghost use Rattle.eos_disk.specs.Entries.{Entry, Leaves, HasBytes, MayLackFile};
ghost use Rattle.eos_disk.specs.declared.fault.DiskFault.TheVariants.{NotThere};
ghost use Rattle.eos_disk.specs.Paths.{file_path, path_of_end, segment_path};
ghost use Rattle.eos_disk.specs.Refusals.{RefusesFile, MayRefuse, IsUnread};
ghost use Rattle.eos_disk.specs.declared.names.Form.TheVariants.{Log};

use crate::cause::Cause;
use crate::folder::FolderFault;
use crate::names::Form;
use crate::paths::{file_path, partition_path, segment_path};
use crate::{Disk, DiskFault};
use bytes::Bytes;
use eos_evidence::{End, MAX_SEGMENT_BYTES, ReadFault, Segment, read_segment};
use std::alloc::Global;
use std::io;
use std::io::Read;

/// A file that is read, with the path that a refusal of it names.
#[derive(Drop)]
pub struct NamedFile<F> {
    pub path: String,
    pub file: F,
}

impl<F: Read> Read for NamedFile<F> {
    ghost remaining = { λ named. F.remaining named.file };

    fn read(&mut self, buf: &mut [u8]) -> io::Result<usize> {
        self.file.read(buf)
    }
}

impl<F: Read + Drop> NamedFile<F> {
    /// The file of this path, as a disk answers its opening.
    pub fn of_opened(
        path: String,
        opened: Result<F, DiskFault>,
    ) -> Result<NamedFile<F>, FolderFault>
        ensures ok { IfOk result (λ named. (opened ≡ Ok named.file) × (named.path ≡ path)) }
        ensures err { IfErr result (RefusesFile (string_bytes path)) }
        ensures so { (e : Entry) → (opened ≡ Err NotThere → MayLackFile e) → IfErr result (MayRefuse e) }
    {
        match opened {
            Ok(file) => Ok(NamedFile { path, file }),
            Err(fault) => Err(unread(path, fault)),
        }
    }

    /// Its bytes, at most as many as a segment may have.
    #[tactic(auto, using(crate::proofs::WholeFiles::all_left))]
    pub fn read_whole(self, alloc: Global) -> Result<Bytes, FolderFault>
        ensures ok { IfOk result (λ bytes. IfSome (F.remaining self.file) (λ xs. bytes ≡ xs)) }
        ensures within { IfOk result (λ bytes. length bytes ≤ MAX_SEGMENT_BYTES) }
        ensures err { IfErr result (RefusesFile (string_bytes self.path)) }
        ensures so { (e : Entry) → IfErr result (MayRefuse e) }
    {
        let NamedFile { path, mut file } = self;
        match read_segment(alloc, &mut file) {
            Ok(bytes) => Ok(bytes),
            Err(why) => Err(refusal_of(alloc, path, &mut file, why)),
        }
    }
}

/// Why reading the file of this path ended so.
pub fn refusal_of<F: Read>(alloc: Global, path: String, file: &mut F, why: ReadFault) -> FolderFault
    ensures path { RefusesFile (string_bytes path) result }
    ensures so { (e : Entry) → MayRefuse e result }
{
    match why {
        ReadFault::Read => FolderFault::CannotRead(path, Cause::of_reader(alloc, file)),
        ReadFault::Limit => FolderFault::Limit(Cause::LongFile(path)),
        ReadFault::OutOfMemory => FolderFault::OutOfMemory,
    }
}

/// Opens the file of this path.
pub fn open_file<D: Disk>(
    alloc: Global,
    disk: &D,
    path: String,
) -> Result<NamedFile<D::File>, FolderFault>
    ensures ok { IfOk result (λ named. Leaves (D.holds disk.now (string_bytes path)) (D.File.remaining named.file)) }
    ensures path { IfOk result (λ named. named.path ≡ path) }
    ensures err { IfErr result (RefusesFile (string_bytes path)) }
    ensures so { IfErr result (MayRefuse (D.holds disk.now (string_bytes path))) }
{
    let opened = disk.open(alloc, path.as_str());
    NamedFile::of_opened(path, opened)
}

/// The bytes of the file of this path, at most as many as a segment may have.
#[tactic(auto, using(crate::proofs::WholeFiles::left_stands))]
pub(crate) fn read_file<D: Disk>(
    alloc: Global,
    disk: &D,
    path: String,
) -> Result<Bytes, FolderFault>
    ensures ok { IfOk result (λ bytes. HasBytes (D.holds disk.now (string_bytes path)) bytes) }
    ensures within { IfOk result (λ bytes. length bytes ≤ MAX_SEGMENT_BYTES) }
    ensures err { IfErr result (RefusesFile (string_bytes path)) }
    ensures so { IfErr result (MayRefuse (D.holds disk.now (string_bytes path))) }
{
    let named = open_file(alloc, disk, path)?;
    named.read_whole(alloc)
}

/// Why the file or folder of this path isn't read.
pub(crate) fn unread(path: String, fault: DiskFault) -> FolderFault
    ensures path { RefusesFile (string_bytes path) result }
    ensures unread { IsUnread (string_bytes path) result }
    ensures so { (e : Entry) → (fault ≡ NotThere → MayLackFile e) → MayRefuse e result }
{
    match fault {
        DiskFault::OutOfMemory => FolderFault::OutOfMemory,
        fault => FolderFault::CannotRead(path, Cause::of_fault(fault)),
    }
}

/// Opens the file of a segment, which stands in this form in a folder of evidence. Of the segment itself only the name counts: its
/// topic, partition and base.
pub fn open_segment<D: Disk>(
    alloc: Global,
    disk: &D,
    folder: &str,
    name: &Segment,
    form: Form,
) -> Result<NamedFile<D::File>, FolderFault>
    ensures ok { IfOk result (λ named. Leaves (D.holds disk.now (segment_path folder.now name.now form)) (D.File.remaining named.file)) }
    ensures path { IfOk result (λ named. string_bytes named.path ≡ segment_path folder.now name.now form) }
    ensures err { IfErr result (RefusesFile (segment_path folder.now name.now form)) }
    ensures so { IfErr result (MayRefuse (D.holds disk.now (segment_path folder.now name.now form))) }
{
    let path = segment_path(alloc, folder, name, form)?;
    open_file(alloc, disk, path)
}

/// The bytes of a partition's segment, at most as many as a segment may have.
pub fn read_segment_file<D: Disk>(
    alloc: Global,
    disk: &D,
    folder: &str,
    end: &End,
    base: i64,
) -> Result<Bytes, FolderFault>
    ensures ok { IfOk result (λ bytes. HasBytes (D.holds disk.now (file_path (path_of_end folder.now end.now) base Log)) bytes) }
    ensures within { IfOk result (λ bytes. length bytes ≤ MAX_SEGMENT_BYTES) }
    ensures err { IfErr result (RefusesFile (file_path (path_of_end folder.now end.now) base Log)) }
    ensures so { IfErr result (MayRefuse (D.holds disk.now (file_path (path_of_end folder.now end.now) base Log))) }
{
    let partition = partition_path(alloc, folder, end.topic.as_slice(), end.partition)?;
    let path = file_path(alloc, &partition, base, Form::Log)?;
    read_file(alloc, disk, path)
}
