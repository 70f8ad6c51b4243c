//! What is given for a manifest: the words of the applications, and the ends.

ghost use Rattle.std.specs.Prelude.{◌≡◌, ℕ, List, map, option_map, None, Some, Ok, IfOk, IfErr, IsSorted, string_bytes};
ghost use Rattle.eos_base.specs.PartitionNames.{name_cmp};
ghost use Rattle.eos_evidence.specs.SpecFields.{accepted};
ghost use Rattle.eos_manifest.specs.Lines.{ends_said_by};
ghost use Rattle.eos_manifest.specs.Manifests.{first_without, parts_for};
ghost use Rattle.eos_commands.specs.InitRefusals.{AreAskedFor, RefusesWords, RefusesEnds, RefusesParts, SaysNoEnd};
ghost use Rattle.eos_commands.specs.Making.{apps_in_words, AreEndsGiven};

use crate::copied::Logs;
use crate::init_fault::InitFault;
use crate::lines::{Said, has_returns};
use eos_base::{Listed, PartitionName, Sorted};
use eos_disk::{Disk, read_given};
use eos_evidence::{Apps, End, Spec};
use eos_manifest::{EndsFault, ManifestFault, manifest_for, read_app_word, read_ends};
use std::alloc::Global;
use std::io::Read;

/// What is given.
#[derive(Clone, Copy)]
pub struct Given<'a> {
    /// The words of the applications, which may be none.
    pub apps: &'a [&'a str],
    /// The file of the lines TOPIC:PARTITION:OFFSET, `-` for standard input; without one the ends are those of the copied logs.
    pub ends: Option<&'a str>,
    /// The folder of the copied logs.
    pub folder: &'a str,
}

/// The applications of the words, which can stand together in a manifest.
#[tactic(auto, using(crate::proofs::InitRefused::not_together, crate::proofs::InitRefused::are_together))]
pub(crate) fn read_apps(alloc: Global, words: &[&str]) -> Result<Apps, InitFault>
    ensures ok { IfOk result (AreAskedFor (map (λ w. w.now) words.now)) }
    ensures refused { IfErr result (RefusesWords (map (λ w. w.now) words.now)) }
{
    let apps = apps_of(alloc, words)?;
    match Spec::new(alloc, apps.clone()?, Listed::new(Vec::new(alloc))) {
        Ok(spec) => {
            drop(spec);
            Ok(apps)
        }
        Err(fault) => {
            drop(apps);
            Err(InitFault::Apps(fault))
        }
    }
}

fn apps_of(alloc: Global, words: &[&str]) -> Result<Apps, InitFault>
    ensures ok { IfOk result (λ apps. apps_in_words (map (λ w. w.now) words.now) ≡ Some apps) }
    ensures refused { IfErr result (RefusesWords (map (λ w. w.now) words.now)) }
{
    let mut apps = Vec::new(alloc);
    for at in 0..words.len() {
        let Some(app) = read_app_word(alloc, words[at].as_bytes())? else {
            return Err(InitFault::App(at));
        };
        apps.push(app)?;
    }
    Ok(Listed::new(apps))
}

/// The ends that are given: those that a file or the input says, or those of the copied logs.
pub(crate) fn ends_given<D: Disk, R: Read>(
    logs: &Logs<'_, D>,
    path: Option<&str>,
    required: &[PartitionName],
    folders: &Sorted<PartitionName>,
    input: &mut R,
) -> Result<Said, InitFault>
    ensures ok { IfOk result (λ said. AreEndsGiven (option_map (λ p. p.now) path.entry) (D.holds logs.now.disk.now) logs.now.folder.now folders.now required.now (R.remaining input.old) (R.remaining input.new) said.ends.items) }
    ensures refused { IfErr result (RefusesEnds (option_map (λ p. p.now) path.entry) (D.holds logs.now.disk.now) logs.now.folder.now folders.now required.now (R.remaining input.old) (R.remaining input.new)) }
{
    let Some(path) = path else {
        return Ok(Said {
            ends: logs.ends(required, folders)?,
            has_returns: false,
        });
    };
    let text = read_given(logs.alloc, logs.disk, path, input)?;
    said_by(logs.alloc, text.as_slice())
}

/// The ends that the lines of a text say.
fn said_by(alloc: Global, text: &[u8]) -> Result<Said, InitFault>
    ensures ok { IfOk result (λ said. ends_said_by text.now ≡ Ok said.ends.items) }
    ensures refused { IfErr result (SaysNoEnd text.now) }
{
    match read_ends(alloc, text) {
        Ok(ends) => Ok(Said {
            ends,
            has_returns: has_returns(text),
        }),
        Err(EndsFault::Line(number)) => Err(InitFault::Line(number)),
        Err(EndsFault::OutOfMemory) => Err(InitFault::OutOfMemory),
    }
}

/// The manifest of these applications, with the ends that it is to have.
pub(crate) fn spec_of(
    alloc: Global,
    apps: Apps,
    required: &Sorted<PartitionName>,
    ends: &[End],
) -> Result<Spec, InitFault>
    ensures ok { IfOk result (λ spec. (first_without ends.now required.now ≡ None) × (accepted (parts_for apps required.now ends.now) ≡ Ok spec)) }
    ensures refused { IfErr result (RefusesParts apps required.now ends.now) }
{
    match manifest_for(alloc, apps, required.as_slice(), ends) {
        Ok(spec) => Ok(spec),
        Err(ManifestFault::NoEnd(name)) => Err(InitFault::NoEnd(name)),
        Err(ManifestFault::Refused(fault)) => Err(InitFault::Ends(fault)),
        Err(ManifestFault::OutOfMemory) => Err(InitFault::OutOfMemory),
    }
}
