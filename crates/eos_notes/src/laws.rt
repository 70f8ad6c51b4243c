//! What notes of a manifest and logs are to an evidence. These functions do nothing; their contracts are theorems.

ghost use Rattle.std.specs.Prelude.{◌≡◌, ℕ, ℤ, Bool, is_some, List, Option, None};
ghost use Rattle.eos_batch.specs.declared.batch.Batch.{Batch};
ghost use Rattle.eos_commits.specs.Faults.{AreInOrder};
ghost use Rattle.eos_evidence.specs.Evidence.{EvidenceParts, IsEvidence};
ghost use Rattle.eos_evidence.specs.declared.segment.Segment.{Segment};
ghost use Rattle.eos_fold.specs.Fronts.{IsFront};
ghost use Rattle.eos_fold.specs.declared.stop.Stop.{Stop};
ghost use Rattle.eos_fold.specs.Parts.{PartLog};
ghost use Rattle.eos_commits.specs.EvidenceLogs.{AreLogsOf};
ghost use Rattle.eos_notes.specs.Lines.{IsAllNotesTextBy, IsAllNotesText};
ghost use Rattle.eos_notes.specs.Notes.{AreAllNotesBy, AreAllNotes};
ghost use Rattle.eos_notes.specs.declared.note.Note.{Note as NoteOf};
ghost use Rattle.eos_kept.specs.Parts.{HasEpochs, HaveEpochs};
ghost use Rattle.eos_notes.specs.ReplacedNotes.{epoch_below, epoch_before};
ghost use Rattle.eos_kept.specs.Faults.{AreFaultsIn, first_of};
ghost use Rattle.eos_reading.specs.declared.epoch.EpochEntry.{EpochEntry};
ghost use Rattle.eos_touch.specs.declared.fault.PartitionFault.{PartitionFault};

/// The logs of an evidence stand in order, and all notes by its manifest, these logs and the entries of its partitions' leader epochs,
/// with the first of its partitions' faults, are the evidence's; so is their text. By these entries the leader epoch before an offset
/// is that of the last batch of the front which begins below it.
pub fn whole()
    ensures order { (e : EvidenceParts) (logs : List PartLog) → IsEvidence e → AreLogsOf e.partitions logs → AreInOrder logs }
    ensures all { (e : EvidenceParts) (logs : List PartLog) (faults : List (Option PartitionFault)) (epochs : List (List EpochEntry)) (notes : List NoteOf)
        → AreLogsOf e.partitions logs → AreFaultsIn e.partitions faults → HaveEpochs e.partitions epochs
        → AreAllNotesBy e.spec logs epochs (is_some (first_of faults)) notes → AreAllNotes e notes }
    ensures all_text { (e : EvidenceParts) (logs : List PartLog) (faults : List (Option PartitionFault)) (epochs : List (List EpochEntry)) (quiet : Bool) (text : List ℕ)
        → AreLogsOf e.partitions logs → AreFaultsIn e.partitions faults → HaveEpochs e.partitions epochs
        → IsAllNotesTextBy e.spec logs epochs (is_some (first_of faults)) quiet text → IsAllNotesText e quiet text }
    ensures before { (segments : List Segment) (entries : List EpochEntry) (offset : ℤ) → HasEpochs segments entries
        → (batches : List Batch) × (stop : Stop) × IsFront 0 segments batches stop × (epoch_below offset None entries ≡ epoch_before offset None batches) }
{}
