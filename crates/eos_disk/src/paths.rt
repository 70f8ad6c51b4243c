//! Where the files of evidence lie in its folder.

ghost use Rattle.std.specs.Prelude.{◌≡◌, IfOk, string_bytes};
ghost use Rattle.eos_disk.specs.Paths.{manifest_path, partition_path, file_path, segment_path};

use crate::names::Form;
use eos_evidence::Segment;
use std::alloc::{AllocError, Global};

/// The path of the manifest.
pub fn manifest_path(alloc: Global, folder: &str) -> Result<String, AllocError>
    ensures { IfOk result (λ path. string_bytes path ≡ manifest_path folder.now) }
{
    format!(in alloc; "{folder}/evidence.json")
}

/// The path of a partition's folder.
pub fn partition_path(
    alloc: Global,
    folder: &str,
    topic: &[u8],
    number: i32,
) -> Result<String, AllocError>
    ensures { IfOk result (λ path. string_bytes path ≡ partition_path folder.now topic.now number) }
{
    let topic = String::from_utf8_lossy(alloc, topic)?;
    format!(in alloc; "{folder}/{topic}-{number}")
}

/// The path of the file, in the folder of a partition, of the segment whose first offset is this.
pub(crate) fn file_path(
    alloc: Global,
    partition: &str,
    base: i64,
    form: Form,
) -> Result<String, AllocError>
    ensures { IfOk result (λ path. string_bytes path ≡ file_path partition.now base form) }
{
    let ending = form.ending();
    format!(in alloc; "{partition}/{base:020}{ending}")
}

/// The path of a segment's file. Of the segment itself only the name counts: its topic, partition and base.
pub fn segment_path(
    alloc: Global,
    folder: &str,
    name: &Segment,
    form: Form,
) -> Result<String, AllocError>
    ensures { IfOk result (λ path. string_bytes path ≡ segment_path folder.now name.now form) }
{
    let partition = partition_path(alloc, folder, name.topic.as_slice(), name.partition)?;
    file_path(alloc, &partition, name.base, form)
}

/// The path of a folder with a slash at its end, by which the system follows a link that leads to it. Where there is none it stays empty.
pub(crate) fn with_slash(alloc: Global, path: &str) -> Result<String, AllocError> {
    let mut path = String::from_str(alloc, path)?;
    if !path.is_empty() && !path.ends_with('/') {
        path.push('/')?;
    }
    Ok(path)
}
