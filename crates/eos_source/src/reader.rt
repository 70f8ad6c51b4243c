//! A segment's file, whose end is told.

ghost use Rattle.std.specs.Prelude.{◌≡◌, string_bytes};
ghost use Rattle.eos_disk.specs.Entries.{Entry};
ghost use Rattle.eos_disk.specs.Refusals.{MayRefuse, RefusesFile};

use eos_disk::{FolderFault, Watch, refusal_of};
use eos_evidence::ReadFault;
use std::alloc::Global;
use std::io;
use std::io::Read;

/// A segment's file. At its end it is told how many bytes were read, once.
#[derive(Drop)]
pub struct SegmentReader<'a, F, W> {
    file: F,
    bytes: u64,
    /// Who is told at the end; nobody after that.
    watch: Option<&'a W>,
}

impl<'a, F, W> SegmentReader<'a, F, W> {
    /// Before the first byte.
    pub(crate) fn new(file: F, watch: &'a W) -> SegmentReader<'a, F, W>
        ensures { result.file ≡ file }
    {
        SegmentReader {
            file,
            bytes: 0,
            watch: Some(watch),
        }
    }
}

impl<'a, F: Read + Drop, W> SegmentReader<'a, F, W> {
    /// Why reading it, the file of this path, ended so.
    pub(crate) fn refusal(&mut self, alloc: Global, path: String, why: ReadFault) -> FolderFault
        ensures path { RefusesFile (string_bytes path) result }
        ensures so { (e : Entry) → MayRefuse e result }
    {
        refusal_of(alloc, path, &mut self.file, why)
    }
}

impl<'a, F: Read, W: Watch> Read for SegmentReader<'a, F, W> {
    ghost remaining = { λ reader. F.remaining reader.file };

    fn read(&mut self, buf: &mut [u8]) -> io::Result<usize> {
        let count = self.file.read(buf)?;
        self.bytes = self.bytes.saturating_add(count as u64);
        if count == 0 && !buf.is_empty() {
            if let Some(watch) = self.watch.take() {
                watch.read(self.bytes);
            }
        }
        Ok(count)
    }
}
