//! What is told of copied logs beside their manifest.

ghost use Rattle.std.specs.Prelude.{◌≡◌, ◌⊎◌, IfErr};
ghost use Rattle.eos_base.specs.Members.{Has};
ghost use Rattle.eos_disk.specs.Paths.{path_of_end};
ghost use Rattle.eos_evidence.specs.declared.ends.End.{End as AnEnd};
ghost use Rattle.eos_commands.specs.InitRefusals.{RefusesBy, RefusesCopy};
ghost use Rattle.eos_commands.specs.declared.init_fault.InitFault.TheVariants.{OutOfMemory};

use crate::copied::Logs;
use crate::init_fault::InitFault;
use crate::lines::{Said, push_of_groups, push_of_lines};
use crate::note::{Note, note_texts};
use eos_base::{PartitionName, Sorted};
use eos_disk::Disk;
use eos_evidence::{End, Spec};
use eos_manifest::is_compressed_at_head;
use std::alloc::AllocError;

/// What is seen of a partition, of which a note may be told.
#[derive(Drop)]
enum Seen {
    Nothing,
    NoFolder,
    /// Its first segment has this name, which isn't 0.
    FirstSegment(i64),
    Compressed,
}

/// What is told where the ends are those of this file, or of the copied logs.
pub(crate) fn notes_on<D: Disk>(
    logs: &Logs<'_, D>,
    file: Option<&str>,
    spec: &Spec,
    folders: &Sorted<PartitionName>,
    said: &Said,
) -> Result<Vec<String>, InitFault>
    ensures { IfErr result (λ why. (why ≡ OutOfMemory) ⊎ ((e : AnEnd) × Has spec.now.ends e × RefusesBy (RefusesCopy (D.holds logs.now.disk.now) (path_of_end logs.now.folder.now e)) why)) }
{
    let mut notes = Vec::new(logs.alloc);
    let apps = spec.apps();
    match file {
        Some(file) => push_of_lines(logs.alloc, &mut notes, file, apps.as_slice(), said)?,
        None => notes.push(Note::EndsOfCopies)?,
    }
    for end in spec.ends().as_slice() {
        push_note(logs, &mut notes, end, folders)?;
    }
    if file.is_some() {
        push_of_groups(logs.alloc, &mut notes, apps.as_slice(), said, folders)?;
    }
    Ok(note_texts(logs.alloc, notes.as_slice())?)
}

/// Adds what `check` will refuse of a partition, as far as its folder and the head of its first segment show.
fn push_note<D: Disk>(
    logs: &Logs<'_, D>,
    notes: &mut Vec<Note>,
    end: &End,
    folders: &Sorted<PartitionName>,
) -> Result<(), InitFault>
    ensures { IfErr result (RefusesBy (RefusesCopy (D.holds logs.now.disk.now) (path_of_end logs.now.folder.now end.now))) }
{
    let name = PartitionName {
        topic: end.topic.clone()?,
        partition: end.partition,
    };
    match seen_of(logs, end, folders.holds(&name)) {
        Ok(seen) => Ok(push_seen(notes, name, seen)?),
        Err(why) => {
            drop(name);
            Err(why)
        }
    }
}

/// What is seen of a partition in its folder, if it has one.
fn seen_of<D: Disk>(logs: &Logs<'_, D>, end: &End, has_folder: bool) -> Result<Seen, InitFault>
    ensures { IfErr result (RefusesBy (RefusesCopy (D.holds logs.now.disk.now) (path_of_end logs.now.folder.now end.now))) }
{
    if !has_folder {
        return Ok(if end.end > 0 {
            Seen::NoFolder
        } else {
            Seen::Nothing
        });
    }
    let bases = logs.bases(end)?;
    let Some(base) = bases.first() else {
        return Ok(Seen::Nothing);
    };
    let base = *base;
    drop(bases);
    if base != 0 {
        return Ok(Seen::FirstSegment(base));
    }
    let bytes = logs.segment(end, base)?;
    Ok(if is_compressed_at_head(bytes.as_slice()) {
        Seen::Compressed
    } else {
        Seen::Nothing
    })
}

fn push_seen(notes: &mut Vec<Note>, name: PartitionName, seen: Seen) -> Result<(), AllocError> {
    let note = match seen {
        Seen::Nothing => return Ok(()),
        Seen::NoFolder => Note::NoFolder(name),
        Seen::FirstSegment(base) => Note::FirstSegment(name, base),
        Seen::Compressed => Note::Compressed(name),
    };
    notes.push(note)?;
    Ok(())
}
