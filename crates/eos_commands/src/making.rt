//! The manifest of a folder of copied logs, made of what the words give and what is in the folder.

ghost use Rattle.std.specs.Prelude.{◌≡◌, ◌⊎◌, ℕ, List, None, Ok, Err, IfOk, IfErr, OnOk, OnErr, string_bytes};
ghost use Rattle.std.specs.Io.KnownBytes.{Appends};
ghost use Rattle.eos_base.specs.Members.{Has};
ghost use Rattle.eos_disk.specs.Putting.{IsLeft};
ghost use Rattle.eos_evidence.specs.Manifest.{spec_said_by};
ghost use Rattle.eos_evidence.specs.SpecFields.{SpecFields, accepted};
ghost use Rattle.eos_evidence.specs.declared.ends.End.{End as AnEnd};
ghost use Rattle.eos_manifest.specs.Manifests.{first_without, parts_for};
ghost use Rattle.eos_commands.specs.Copies.{AreFoldersAt, AreRequired};
ghost use Rattle.eos_disk.specs.Paths.{manifest_path, path_of_end};
ghost use Rattle.eos_commands.specs.InitRefusals.{RefusesBy, RefusesCopy, RefusesMaking, RefusesInit};
ghost use Rattle.eos_commands.specs.declared.init_fault.InitFault.TheVariants.{OutOfMemory};
ghost use Rattle.eos_commands.specs.steps.Refused.{RefusesThere, RefusesManifest};
ghost use Rattle.eos_commands.specs.Making.{IsManifestFor, IsManifestPlaced, wrote_line};
ghost use Rattle.eos_text.specs.Writing.{WritesFront};

use crate::copied::Logs;
use crate::given::{Given, ends_given, read_apps, spec_of};
use crate::init_fault::InitFault;
use crate::lines::Said;
use crate::manifest_writing::write_manifest;
use crate::noting::notes_on;
use eos_base::{PartitionName, Sorted};
use eos_disk::{Disk, DiskMut, manifest_path};
use eos_evidence::{App, Apps, Spec, spec_text};
use eos_text::{WriteFault, finish, push_text, push_value};
use std::alloc::{AllocError, Global};
use std::io::{Read, Write};

/// What is said of a manifest that was made.
#[derive(Drop)]
pub struct Made {
    /// How many partitions it has, as a line.
    pub line: String,
    /// What is to be told beside, each without its line feed.
    pub notes: Vec<String>,
}

/// The partitions of a folder of copied logs.
#[derive(Drop)]
struct There {
    /// Those that have a folder.
    folders: Sorted<PartitionName>,
    /// Those that have to have an end.
    required: Sorted<PartitionName>,
}

/// Makes the manifest of a folder, which may not have one yet. What `-` names is read from the input.
///
/// # Errors
/// The first of what stands against it, in the order: the manifest is there, a word, the folder, the transaction log, the ends,
/// a partition without an end, the parts, a log of which a note is told, the file. Nothing was written then, but where the system
/// refused it a part of the text may stand beside the manifest's place.
pub fn init<D: DiskMut, R: Read>(
    alloc: Global,
    disk: &mut D,
    given: Given<'_>,
    input: &mut R,
) -> Result<Made, InitFault>
    ensures ok { IfOk result (λ made. (spec : SpecFields) × IsManifestFor given.entry (D.holds disk.old) (R.remaining input.old) (R.remaining input.new) spec
        × IsManifestPlaced (D.holds disk.old) given.entry.folder.now spec (D.holds disk.new) × (string_bytes made.line ≡ wrote_line spec)) }
    ensures err { OnErr result ((text : List ℕ) × IsLeft (D.holds disk.old) (manifest_path given.entry.folder.now) text (D.holds disk.new)) }
    ensures refused { IfErr result (RefusesInit given.entry (D.holds disk.old) (R.remaining input.old) (R.remaining input.new)) }
{
    let path = manifest_path(alloc, given.folder)?;
    if disk.stands(path.as_str()) {
        return Err(InitFault::ThereAlready(path));
    }
    let (text, made) = text_of(alloc, &*disk, given, input)?;
    write_manifest(alloc, disk, path, text.as_slice())?;
    Ok(made)
}

/// The text of the manifest that is asked for, and what is said of it.
fn text_of<D: Disk, R: Read>(
    alloc: Global,
    disk: &D,
    given: Given<'_>,
    input: &mut R,
) -> Result<(Vec<u8>, Made), InitFault>
    ensures ok { IfOk result (λ made. (spec : SpecFields) × IsManifestFor given.entry (D.holds disk.now) (R.remaining input.old) (R.remaining input.new) spec
        × (spec_said_by made.0.items ≡ Ok spec) × (string_bytes made.1.line ≡ wrote_line spec)) }
    ensures refused { IfErr result (RefusesMaking given.entry (D.holds disk.now) (R.remaining input.old) (R.remaining input.new)) }
{
    let apps = read_apps(alloc, given.apps)?;
    let logs = Logs {
        alloc,
        disk,
        folder: given.folder,
    };
    let there = there_of(&logs, apps.as_slice())?;
    let required = there.required.as_slice();
    let said = ends_given(&logs, given.ends, required, &there.folders, input)?;
    text_by(&logs, given.ends, apps, &there, &said)
}

/// The partitions that have a folder, and those that have to have an end.
fn there_of<D: Disk>(logs: &Logs<'_, D>, apps: &[App]) -> Result<There, InitFault>
    ensures ok { IfOk result (λ there. AreFoldersAt (D.holds logs.now.disk.now) logs.now.folder.now there.folders
        × AreRequired (D.holds logs.now.disk.now) logs.now.folder.now apps.now there.folders there.required) }
    ensures refused { IfErr result (RefusesThere (D.holds logs.now.disk.now) logs.now.folder.now apps.now) }
{
    let folders = logs.folders()?;
    let required = logs.required(apps, folders.as_slice())?;
    Ok(There { folders, required })
}

/// The text of the manifest of these applications, with the ends that were said, and what is said of it.
fn text_by<D: Disk>(
    logs: &Logs<'_, D>,
    file: Option<&str>,
    apps: Apps,
    there: &There,
    said: &Said,
) -> Result<(Vec<u8>, Made), InitFault>
    ensures ok { IfOk result (λ made. (spec : SpecFields) × (first_without said.now.ends.items there.now.required ≡ None) × (accepted (parts_for apps there.now.required said.now.ends.items) ≡ Ok spec)
        × (spec_said_by made.0.items ≡ Ok spec) × (string_bytes made.1.line ≡ wrote_line spec)) }
    ensures refused { IfErr result (RefusesManifest (D.holds logs.now.disk.now) logs.now.folder.now apps there.now.required said.now.ends.items) }
{
    let spec = spec_of(logs.alloc, apps, &there.required, said.ends.as_slice())?;
    let made = text_with(logs, file, &spec, there, said);
    drop(spec);
    made
}

/// The text of this manifest, and what is said of it.
fn text_with<D: Disk>(
    logs: &Logs<'_, D>,
    file: Option<&str>,
    spec: &Spec,
    there: &There,
    said: &Said,
) -> Result<(Vec<u8>, Made), InitFault>
    ensures ok { IfOk result (λ made. (spec_said_by made.0.items ≡ Ok spec.now) × (string_bytes made.1.line ≡ wrote_line spec.now)) }
    ensures refused { IfErr result (λ why. (why ≡ OutOfMemory) ⊎ ((e : AnEnd) × Has spec.now.ends e × RefusesBy (RefusesCopy (D.holds logs.now.disk.now) (path_of_end logs.now.folder.now e)) why)) }
{
    let notes = notes_on(logs, file, spec, &there.folders, said)?;
    let line = line_of(logs.alloc, spec)?;
    let text = spec_text(logs.alloc, spec)?;
    Ok((text, Made { line, notes }))
}

fn line_of(alloc: Global, spec: &Spec) -> Result<String, AllocError>
    ensures { IfOk result (λ line. string_bytes line ≡ wrote_line spec.now) }
{
    let mut line = String::new(alloc);
    push_value(&mut line, "wrote partitions=", &spec.ends().len())?;
    push_text(&mut line, "\n")?;
    Ok(line)
}

impl Made {
    /// Writes how many partitions the manifest has.
    ///
    /// # Errors
    /// A front of the line was written.
    pub fn told_to<W: Write>(&self, writer: &mut W) -> Result<(), WriteFault>
        ensures ok { OnOk result (Appends (W.contents writer.old) (W.contents writer.new) (string_bytes self.now.line)) }
        ensures front { OnErr result (WritesFront (W.contents writer.old) (W.contents writer.new) (string_bytes self.now.line)) }
    {
        finish(writer, self.line.as_bytes())
    }
}
