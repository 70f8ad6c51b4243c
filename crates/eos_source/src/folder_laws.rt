//! What stands in a folder whose files are known. These functions do nothing; their contracts are theorems.

ghost use Rattle.std.specs.Prelude.{◌≡◌, ◌<◌, ℕ, Bool, List, length, true, Err};
ghost use Rattle.eos_disk.specs.Entries.{Entry, HasBytes};
ghost use Rattle.eos_disk.specs.Paths.{manifest_path};
ghost use Rattle.eos_disk.specs.declared.cause.Cause.{Cause};
ghost use Rattle.eos_disk.specs.declared.folder.FolderFault.{FolderFault};
ghost use Rattle.eos_disk.specs.declared.folder.FolderFault.TheVariants.{Manifest};
ghost use Rattle.eos_evidence.specs.Manifest.{spec_said_by};
ghost use Rattle.eos_evidence.specs.declared.fault.SpecFault.{SpecFault};
ghost use Rattle.eos_source.specs.FirstRefusals.{IsFirstOfFolder};
ghost use Rattle.eos_source.specs.Named.{IsBelow, Names};
ghost use Rattle.eos_evidence.specs.Evidence.{EvidenceParts, segments_of};
ghost use Rattle.eos_disk.specs.Reading.{IsReadWhole};
ghost use Rattle.eos_disk.specs.Shapes.{AreKnown};
ghost use Rattle.eos_disk.specs.declared.names.Form.{Form};
ghost use Rattle.eos_source.specs.FolderLogs.{is_log_at};
ghost use Rattle.eos_source.specs.Saying.{known_at, StandsAs, StandsAt};
ghost use Rattle.eos_source.specs.Logs.{AreKeptLogs, AreLogsKept};
ghost use Rattle.eos_source.specs.declared.logs.KeptLogs.{KeptLogs};

/// What is kept of the logs of a folder is what is kept of those of the evidence whose segments are what their files say.
pub fn kept()
    ensures { (holds : List ℕ → Entry) (folder : List ℕ) (shape evidence : EvidenceParts) (forms : List Form) (logs : KeptLogs)
        → StandsAs holds folder forms shape evidence → AreKeptLogs (known_at holds folder (segments_of shape.partitions) forms) shape logs → AreLogsKept logs evidence }
{}

/// Where it is known what stands below a folder and all of its segments stand there as logs, one evidence does.
pub fn one_evidence()
    ensures { (holds : List ℕ → Entry) (folder : List ℕ) (evidence other : EvidenceParts) → AreKnown holds folder → (at : StandsAt holds folder evidence)
        → ((piece : ℕ) → piece < length (segments_of at.shape.partitions) → is_log_at at.forms piece ≡ true) → StandsAt holds folder other → evidence ≡ other }
{}

/// The evidence that a known folder of logs gives whoever reads all of it stands there: what `simulate` left is what `check` answers for.
pub fn read_whole()
    ensures { (holds : List ℕ → Entry) (folder : List ℕ) (evidence : EvidenceParts) → AreKnown holds folder → IsReadWhole holds folder evidence → StandsAt holds folder evidence }
{}

/// The first refusal of a folder is that of its manifest for a fault only where just this is the fault of what stands there.
pub fn manifest_refused()
    ensures { (holds : List ℕ → Entry) (folder : List ℕ) (all : Bool) (fault : SpecFault) (cause : Cause) → IsFirstOfFolder holds folder all (Manifest fault cause)
        → (text : List ℕ) × HasBytes (holds (manifest_path folder)) text × (spec_said_by text ≡ Err fault) }
{}

/// A path that the first refusal of a folder names is one below it.
pub fn named_below()
    ensures { (holds : List ℕ → Entry) (folder : List ℕ) (all : Bool) (why : FolderFault) (path : List ℕ) → IsFirstOfFolder holds folder all why → Names why path → IsBelow folder path }
{}
