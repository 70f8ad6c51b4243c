//! What notes and tables say of kept logs, they say of the logs. These functions do nothing; their contracts are theorems.
//!
//! What is kept of logs is `wanted_logs apps logs`, by the applications of the manifest.

ghost use Rattle.std.specs.Prelude.{◌≡◌, ℕ, Bool, is_some, List, Option};
ghost use Rattle.eos_commits.specs.Faults.{AreInOrder};
ghost use Rattle.eos_evidence.specs.Evidence.{EvidenceParts, IsEvidence};
ghost use Rattle.eos_evidence.specs.SpecFields.{SpecFields};
ghost use Rattle.eos_evidence.specs.declared.application.App.{App};
ghost use Rattle.eos_fold.specs.Parts.{PartLog};
ghost use Rattle.eos_commits.specs.EvidenceLogs.{AreLogsOf};
ghost use Rattle.eos_notes.specs.Lines.{IsAllNotesTextBy, IsAllNotesText};
ghost use Rattle.eos_notes.specs.Notes.{AreNotesBy, AreAllNotesBy, AreAllNotes};
ghost use Rattle.eos_notes.specs.declared.note.Note.{Note};
ghost use Rattle.eos_kept.specs.Parts.{HaveEpochs};
ghost use Rattle.eos_kept.specs.Faults.{AreFaultsIn, first_of};
ghost use Rattle.eos_reading.specs.declared.epoch.EpochEntry.{EpochEntry};
ghost use Rattle.eos_notes.specs.Counts.{AreCounted};
ghost use Rattle.eos_notes.specs.Tallies.{AreTallies};
ghost use Rattle.eos_notes.specs.TalliesByLogs.{tallies_by};
ghost use Rattle.eos_notes.specs.declared.tally.Counted.{Counted};
ghost use Rattle.eos_touch.specs.declared.fault.PartitionFault.{PartitionFault};
ghost use Rattle.eos_reading.specs.Wanted.{wanted_logs};

/// Notes by kept logs are those by the logs. All notes, with the faults of an evidence's partitions and the entries of their leader
/// epochs, are the evidence's; so is their text.
pub fn notes()
    ensures logs { (spec : SpecFields) (logs : List PartLog) (faulty : Bool) (notes : List Note)
        → AreNotesBy spec (wanted_logs spec.apps logs) faulty notes → AreNotesBy spec logs faulty notes }
    ensures all { (e : EvidenceParts) (logs : List PartLog) (faults : List (Option PartitionFault)) (epochs : List (List EpochEntry)) (notes : List Note)
        → AreLogsOf e.partitions logs → AreFaultsIn e.partitions faults → HaveEpochs e.partitions epochs
        → AreAllNotesBy e.spec (wanted_logs e.spec.apps logs) epochs (is_some (first_of faults)) notes → AreAllNotes e notes }
    ensures all_text { (e : EvidenceParts) (logs : List PartLog) (faults : List (Option PartitionFault)) (epochs : List (List EpochEntry)) (quiet : Bool) (text : List ℕ)
        → AreLogsOf e.partitions logs → AreFaultsIn e.partitions faults → HaveEpochs e.partitions epochs
        → IsAllNotesTextBy e.spec (wanted_logs e.spec.apps logs) epochs (is_some (first_of faults)) quiet text → IsAllNotesText e quiet text }
    ensures order { (e : EvidenceParts) (logs : List PartLog) → IsEvidence e → AreLogsOf e.partitions logs → AreInOrder (wanted_logs e.spec.apps logs) }
{}

/// Tables by kept logs are those by the logs, and with the faults of an evidence's partitions and what is counted of their segments
/// they are the evidence's.
pub fn tallies()
    ensures logs { (apps : List App) (logs : List PartLog) (faults : List (Option PartitionFault)) (counted : List Counted)
        → tallies_by apps (wanted_logs apps logs) faults counted ≡ tallies_by apps logs faults counted }
    ensures tallies { (e : EvidenceParts) (logs : List PartLog) (faults : List (Option PartitionFault)) (counted : List Counted)
        → AreLogsOf e.partitions logs → AreFaultsIn e.partitions faults → AreCounted e.partitions counted
        → AreTallies e (tallies_by e.spec.apps (wanted_logs e.spec.apps logs) faults counted) }
{}
