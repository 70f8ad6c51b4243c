//! What is told of copied logs beside the manifest.

use bytes::Bytes;
use eos_base::PartitionName;
use eos_evidence::GroupId;
use eos_text::{push_escaped, push_value};
use std::alloc::{AllocError, Global};

/// What `check` will refuse in the evidence, or can't see.
#[derive(Drop)]
pub(crate) enum Note {
    /// The ends are those of the copied logs.
    EndsOfCopies,
    /// This holds of the lines of the file of this path.
    Lines(String, OfLines),
    /// The partition has an end, and no folder.
    NoFolder(PartitionName),
    /// The partition's first segment isn't named 0, but so.
    FirstSegment(PartitionName, i64),
    /// The partition's first batch is compressed.
    Compressed(PartitionName),
    /// The group commits to this partition of so many, and whether that has a folder.
    Group {
        group: GroupId,
        partition: PartitionName,
        partitions: u64,
        has_folder: bool,
    },
}

/// What may be wrong with the lines of ends.
#[derive(Drop)]
pub(crate) enum OfLines {
    /// There are none.
    None,
    /// Lines end in carriage returns, which weren't read.
    Returns,
    /// This topic has none.
    Lacks(Bytes),
}

impl OfLines {
    fn text(&self, alloc: Global, file: &str) -> Result<String, AllocError> {
        match self {
            OfLines::None => format!(in alloc; "{file} has no lines"),
            OfLines::Returns => {
                format!(in alloc; "lines of {file} end in carriage returns, which were not read")
            }
            OfLines::Lacks(topic) => {
                let topic = escaped_text(alloc, topic.as_slice())?;
                format!(in alloc; "{file} has no line of topic {topic}")
            }
        }
    }
}

/// The notes as texts of one line, each without its newline.
///
/// # Errors
/// A growth of memory was refused.
pub(crate) fn note_texts(alloc: Global, notes: &[Note]) -> Result<Vec<String>, AllocError> {
    let mut texts = Vec::new(alloc);
    for note in notes {
        texts.push(note.text(alloc)?)?;
    }
    Ok(texts)
}

impl Note {
    /// The note as a text of one line, without its newline.
    ///
    /// # Errors
    /// A growth of memory was refused.
    pub(crate) fn text(&self, alloc: Global) -> Result<String, AllocError> {
        match self {
            Note::EndsOfCopies => String::from_str(
                alloc,
                "the ends are those of the copied logs, so a copy that was cut short can't be found",
            ),
            Note::Lines(file, what) => what.text(alloc, file.as_str()),
            Note::NoFolder(name) => {
                let name = name_text(alloc, name)?;
                format!(in alloc; "{name} has no folder")
            }
            Note::FirstSegment(name, base) => {
                let name = name_text(alloc, name)?;
                let base = *base;
                format!(in alloc;
                    "{name} begins with segment {base:020}.log: its first segments are missing"
                )
            }
            Note::Compressed(name) => {
                let name = name_text(alloc, name)?;
                format!(in alloc; "{name} begins with a compressed batch")
            }
            Note::Group {
                group,
                partition,
                partitions,
                has_folder,
            } => {
                let folder = if *has_folder {
                    "whose folder is there"
                } else {
                    "which has no folder"
                };
                let group = escaped_text(alloc, group.as_bytes())?;
                let name = name_text(alloc, partition)?;
                let count = *partitions;
                format!(in alloc; "group {group} commits to {name} (of {count}), {folder}")
            }
        }
    }
}

/// A topic or a group, escaped as in a partition's name.
fn escaped_text(alloc: Global, bytes: &[u8]) -> Result<String, AllocError> {
    let mut text = String::new(alloc);
    push_escaped(alloc, &mut text, "", bytes)?;
    Ok(text)
}

/// A partition's name, TOPIC-N. Each byte of the topic that no topic may have is `%` and two hexadecimal digits.
pub fn name_text(alloc: Global, name: &PartitionName) -> Result<String, AllocError> {
    let mut text = String::new(alloc);
    push_escaped(alloc, &mut text, "", name.topic.as_slice())?;
    push_value(&mut text, "-", &name.partition)?;
    Ok(text)
}
