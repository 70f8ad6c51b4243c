//! Writing evidence as a folder.

ghost use Rattle.std.specs.Prelude.{◌≡◌, OnOk};
ghost use Rattle.eos_disk.specs.Changes.{IsMade, IsPut};
ghost use Rattle.eos_disk.specs.Paths.{segment_path};
ghost use Rattle.eos_disk.specs.declared.names.Form.TheVariants.{Log};
ghost use Rattle.eos_disk.specs.Writing.{IsEvidenceWritten, IsPartitionWritten, PartitionsWritten, SegmentsWritten};
ghost use Rattle.eos_disk.specs.declared.writing.WritingFault.TheVariants.{OutOfMemory};

use crate::names::Form;
use crate::paths::{manifest_path, partition_path, segment_path};
use crate::{ChangeFault, DiskMut, put_file};
use eos_evidence::{Evidence, Partition, Segment, spec_text};
use std::alloc::{AllocError, AllocFailed, Global};

/// Why evidence wasn't written.
#[derive(Drop)]
pub enum WritingFault {
    /// This file or folder can't be written.
    CannotWrite(String),
    /// A growth of memory was refused.
    OutOfMemory,
}

impl From<AllocError> for WritingFault {
    ghost from_gives = { λ _ e. e ≡ OutOfMemory };

    fn from(_e: AllocError) -> WritingFault {
        WritingFault::OutOfMemory
    }
}

impl<T: Drop> From<AllocFailed<T>> for WritingFault {
    ghost from_gives = { λ _ e. e ≡ OutOfMemory };

    fn from(_e: AllocFailed<T>) -> WritingFault {
        WritingFault::OutOfMemory
    }
}

/// What was made for an evidence so far, in its order, so that all of it can be taken away.
#[derive(Drop)]
pub struct Written {
    folders: Vec<String>,
    files: Vec<String>,
}

impl Written {
    /// Nothing so far.
    pub fn new(alloc: Global) -> Written {
        Written {
            folders: Vec::new(alloc),
            files: Vec::new(alloc),
        }
    }

    /// Takes it away, so that nobody takes a part of evidence for the whole, without new memory. What the system doesn't let go stays.
    pub fn remove<D: DiskMut>(&self, alloc: Global, disk: &mut D) {
        for file in self.files.as_slice() {
            let _ = disk.remove(alloc, file.as_str());
        }
        for i in 0..self.folders.len() {
            let _ = disk.remove_folder(alloc, self.folders[self.folders.len() - 1 - i].as_str());
        }
    }
}

/// Makes a folder, which may not be there.
pub fn make_folder<D: DiskMut>(
    alloc: Global,
    disk: &mut D,
    written: &mut Written,
    path: &str,
) -> Result<(), WritingFault>
    ensures { OnOk result (IsMade (D.holds disk.old) path.now (D.holds disk.new)) }
{
    let own = String::from_str(alloc, path)?;
    written.folders.reserve(1)?;
    match disk.make_folder(alloc, path) {
        Ok(()) => {
            written.folders.push_reserved(own);
            Ok(())
        }
        Err(fault) => Err(unwritten(own, fault)),
    }
}

/// Writes evidence into a folder that is there and empty: for each partition a folder `TOPIC-N` with its segments, and after all of
/// them the manifest, without which no folder is evidence.
///
/// # Errors
/// Some of it may have been written: what was written so far takes it away.
pub fn write_evidence<D: DiskMut>(
    alloc: Global,
    disk: &mut D,
    written: &mut Written,
    folder: &str,
    evidence: &Evidence,
) -> Result<(), WritingFault>
    ensures { OnOk result (IsEvidenceWritten (D.holds disk.old) folder.now evidence.now (D.holds disk.new)) }
{
    let text = spec_text(alloc, evidence.spec())?;
    let path = manifest_path(alloc, folder)?;
    write_partitions(alloc, disk, written, folder, evidence.partitions())?;
    match put_file(alloc, disk, path.as_str(), text.as_slice()) {
        Ok(()) => Ok(()),
        Err(fault) => Err(unwritten(path, fault)),
    }
}

fn write_partitions<D: DiskMut>(
    alloc: Global,
    disk: &mut D,
    written: &mut Written,
    folder: &str,
    partitions: &[Partition],
) -> Result<(), WritingFault>
    ensures { OnOk result (PartitionsWritten (D.holds disk.old) folder.now partitions.now (D.holds disk.new)) }
{
    for partition in partitions {
        write_partition(alloc, disk, written, folder, partition)?;
    }
    Ok(())
}

fn write_partition<D: DiskMut>(
    alloc: Global,
    disk: &mut D,
    written: &mut Written,
    folder: &str,
    partition: &Partition,
) -> Result<(), WritingFault>
    ensures { OnOk result (IsPartitionWritten (D.holds disk.old) folder.now partition.now (D.holds disk.new)) }
{
    let end = &partition.end;
    let path = partition_path(alloc, folder, end.topic.as_slice(), end.partition)?;
    make_folder(alloc, disk, written, path.as_str())?;
    write_segments(alloc, disk, written, folder, partition.segments.as_slice())
}

fn write_segments<D: DiskMut>(
    alloc: Global,
    disk: &mut D,
    written: &mut Written,
    folder: &str,
    segments: &[Segment],
) -> Result<(), WritingFault>
    ensures { OnOk result (SegmentsWritten (D.holds disk.old) folder.now segments.now (D.holds disk.new)) }
{
    for segment in segments {
        write_segment(alloc, disk, written, folder, segment)?;
    }
    Ok(())
}

fn write_segment<D: DiskMut>(
    alloc: Global,
    disk: &mut D,
    written: &mut Written,
    folder: &str,
    segment: &Segment,
) -> Result<(), WritingFault>
    ensures { OnOk result (IsPut (D.holds disk.old) (segment_path folder.now segment.now Log) segment.now.bytes (D.holds disk.new)) }
{
    let path = segment_path(alloc, folder, segment, Form::Log)?;
    written.files.reserve(1)?;
    match disk.write_new(alloc, path.as_str(), segment.bytes.as_slice()) {
        Ok(_held) => {
            written.files.push_reserved(path);
            Ok(())
        }
        Err(fault) => Err(unwritten(path, fault)),
    }
}

/// What has become of the file or folder of this path.
fn unwritten(path: String, fault: ChangeFault) -> WritingFault {
    match fault {
        ChangeFault::OutOfMemory => WritingFault::OutOfMemory,
        _ => WritingFault::CannotWrite(path),
    }
}
