//! `explain` of a folder: from the bytes of its files to the story that is written.

ghost use Rattle.std.specs.Prelude.{◌≡◌, ◌≢◌, true, IfOk, IfErr, Err};
ghost use Rattle.std.specs.Io.KnownBytes.{Keeps};
ghost use Rattle.eos_evidence.specs.Evidence.{EvidenceParts, segments_of};
ghost use Rattle.eos_disk.specs.Shapes.{AreKnown};
ghost use Rattle.eos_source.specs.FirstRefusals.{IsOfPieces, outcomes_of, pieces_of};
ghost use Rattle.eos_source.specs.Refusals.{AreOpened};
ghost use Rattle.eos_source.specs.Saying.{known_at, StandsAt};
ghost use Rattle.eos_explaining.specs.Folders.{number_of, IsExplained, IsFrontOfExplained, HoldsAsNamed, HoldsOf};
ghost use Rattle.eos_explaining.specs.Refused.{IsFirst, IsFirstAgain};
ghost use Rattle.eos_explaining.specs.steps.Tellings.{IsAnswer, Tells, TellsFront};
ghost use Rattle.eos_explaining.specs.declared.folder.Unexplained.TheVariants.{CannotWrite};

use crate::answer::{Answer, Asked, explain};
use eos_base::Workers;
use eos_disk::{Disk, FolderFault, HostDisk, Shape, Watch, read_shape};
use eos_ending::{
    Ending, Meter, Progress, STANDARD, Subject, end, end_fewer, end_unread, say_notes,
};
use eos_source::{Folder, FolderSource};
use eos_source_check::{Pieces, refusal_of};
use eos_text::{WriteFault, finish};
use eos_words::Explain;
use std::alloc::Global;
use std::io;
use std::io::Write;
use std::thread::Threads;

/// Which fault of a folder is explained.
#[derive(Clone, Copy)]
pub struct Which {
    pub workers: Workers,
    /// Its number in the list of all, from 1 on; where none is said the first, or the line of a yes.
    pub fault: Option<u64>,
}

/// What became of a folder that was read.
#[derive(Drop)]
pub enum Explained {
    /// The line of a yes was written: status 0. These are the lines of the notes.
    Yes(String),
    /// The story was written: status 1.
    Story,
    /// There are only so many faults, and nothing was written.
    Fewer(u64),
}

/// Why a folder isn't explained.
#[derive(Drop)]
pub enum Unexplained {
    /// It is no evidence, or can't be read; or memory was refused. Nothing was written.
    Refused(FolderFault),
    /// The writer failed. A front of the answer was written.
    CannotWrite,
}

/// Reads the segments of a folder of this shape, and answers.
fn answer_shape<D: Disk, T: Watch, R: Threads + Sync>(
    alloc: Global,
    threads: &R,
    folder: Folder<'_, D, T>,
    shape: &Shape,
    which: &Which,
) -> Result<Answer, FolderFault>
    ensures answer { IfOk result (λ answer. HoldsAsNamed (known_at (D.holds folder.entry.disk.now) folder.entry.path.now (segments_of shape.now.evidence.partitions) shape.now.forms.items) shape.now.evidence
        (λ e. IsAnswer folder.entry.path.now e (number_of which.now.fault) answer)) }
    ensures opened { IfOk result (λ answer. AreOpened (outcomes_of (D.holds folder.entry.disk.now) folder.entry.path.now shape.now.evidence shape.now.forms.items) (pieces_of shape.now.evidence)) }
    ensures refused { IfErr result (IsOfPieces (outcomes_of (D.holds folder.entry.disk.now) folder.entry.path.now shape.now.evidence shape.now.forms.items) (pieces_of shape.now.evidence) true) }
{
    let source = FolderSource { folder, shape };
    let pieces = Pieces {
        source: &source,
        shape: &shape.evidence,
    };
    let asked = Asked {
        folder: source.folder.path,
        workers: which.workers,
        number: which.fault.unwrap_or(1),
    };
    match explain(alloc, threads, pieces, &asked) {
        Ok(answer) => Ok(answer),
        Err(why) => Err(refusal_of(alloc, &source, why)),
    }
}

/// Reads a folder, and answers. No more of it is held than the verdict wants, and the partitions that the story names.
fn answer_folder<D: Disk, T: Watch, R: Threads + Sync>(
    alloc: Global,
    threads: &R,
    folder: Folder<'_, D, T>,
    which: &Which,
) -> Result<Answer, FolderFault>
    ensures answer { IfOk result (λ answer. HoldsOf (D.holds folder.entry.disk.now) folder.entry.path.now (λ e. IsAnswer folder.entry.path.now e (number_of which.now.fault) answer)) }
    ensures first { IfErr result (IsFirstAgain (D.holds folder.entry.disk.now) folder.entry.path.now) }
{
    let shape = read_shape(alloc, folder.disk, folder.path, folder.watch)?;
    match answer_shape(alloc, threads, folder, &shape, which) {
        Ok(answer) => {
            drop(shape.evidence);
            drop(shape.forms);
            shape.listed?;
            Ok(answer)
        }
        Err(fault) => {
            drop(shape);
            Err(fault)
        }
    }
}

/// Writes the text of an answer, if it has one.
#[tactic(auto, using(crate::proofs::Tellings::yes_told, crate::proofs::Tellings::yes_front, crate::proofs::Tellings::yes_fewer, crate::proofs::Tellings::story_told, crate::proofs::Tellings::story_front, crate::proofs::Tellings::fewer_told))]
fn told<W: Write>(
    writer: &mut W,
    fault: Option<u64>,
    answer: Answer,
) -> Result<Explained, WriteFault>
    ensures ok { IfOk result (Tells fault answer (W.contents writer.old) (W.contents writer.new)) }
    ensures front { IfErr result (λ _. TellsFront fault answer (W.contents writer.old) (W.contents writer.new)) }
{
    match answer {
        Answer::Yes { line, notes } => match fault {
            Some(_) => Ok(Explained::Fewer(0)),
            None => {
                finish(writer, line.as_bytes())?;
                Ok(Explained::Yes(notes))
            }
        },
        Answer::Story(text) => {
            finish(writer, text.as_bytes())?;
            Ok(Explained::Story)
        }
        Answer::Fewer(count) => Ok(Explained::Fewer(count)),
    }
}

/// Writes the story of a fault of the evidence in a folder of a disk, of this number in the list of all; or where it has none and no
/// number is said, the line of a yes. The evidence is read by at most so many threads, and then of the partitions that the story names,
/// once more, what it needs: their folds, and the batches of its rows.
///
/// # Errors
/// At `CannotWrite` a front of the text was written. Before all is read and judged nothing is: `Refused` says which file or folder is no
/// evidence or can't be read, or that memory ran out. It is the first refusal: that of the manifest, or of the first segment that is listed
/// and isn't read, or, where each was opened, of the listing, or of a segment that is read again, as where it is a fold.
pub fn explain_folder_to<D: Disk, T: Watch, R: Threads + Sync, W: Write>(
    alloc: Global,
    threads: &R,
    folder: Folder<'_, D, T>,
    which: &Which,
    writer: &mut W,
) -> Result<Explained, Unexplained>
    ensures some { IfOk result (λ told. HoldsOf (D.holds folder.entry.disk.now) folder.entry.path.now (λ e. IsExplained folder.entry.path.now e which.now.fault (W.contents writer.old) (W.contents writer.new) told)) }
    ensures known { (e : EvidenceParts) → AreKnown (D.holds folder.entry.disk.now) folder.entry.path.now → StandsAt (D.holds folder.entry.disk.now) folder.entry.path.now e
        → IfOk result (IsExplained folder.entry.path.now e which.now.fault (W.contents writer.old) (W.contents writer.new)) }
    ensures unread { IfErr result (λ why. why ≢ CannotWrite → Keeps (W.contents writer.old) (W.contents writer.new)) }
    ensures first { IfErr result (IsFirst (D.holds folder.entry.disk.now) folder.entry.path.now) }
    ensures front { result ≡ Err CannotWrite → HoldsOf (D.holds folder.entry.disk.now) folder.entry.path.now (λ e. IsFrontOfExplained folder.entry.path.now e which.now.fault (W.contents writer.old) (W.contents writer.new)) }
    ensures known_front { (e : EvidenceParts) → AreKnown (D.holds folder.entry.disk.now) folder.entry.path.now → StandsAt (D.holds folder.entry.disk.now) folder.entry.path.now e
        → result ≡ Err CannotWrite → IsFrontOfExplained folder.entry.path.now e which.now.fault (W.contents writer.old) (W.contents writer.new) }
{
    match answer_folder(alloc, threads, folder, which) {
        Ok(answer) => match told(writer, which.fault, answer) {
            Ok(told) => Ok(told),
            Err(_) => Err(Unexplained::CannotWrite),
        },
        Err(fault) => Err(Unexplained::Refused(fault)),
    }
}

/// Prints the story of a fault of the evidence in a folder, and gives the exit status, that of `check`.
#[inline(never)]
pub fn explain_folder(
    rt: &HostRuntime,
    threads: &(impl Threads + Sync),
    words: &Explain<'_>,
) -> u8 {
    let meter = Meter::start(rt, false, false);
    let progress = Progress::begin(&meter, Subject::Only);
    let disk = HostDisk { rt };
    let folder = Folder {
        disk: &disk,
        path: words.folder,
        watch: &progress,
    };
    let which = Which {
        workers: words.workers,
        fault: words.fault,
    };
    match explain_folder_to(rt.alloc(), threads, folder, &which, &mut io::writer(rt)) {
        Ok(Explained::Yes(notes)) => {
            say_notes(rt, Subject::Only, notes.as_str());
            0
        }
        Ok(Explained::Story) => 1,
        Ok(Explained::Fewer(count)) => end_fewer(rt, count),
        Err(Unexplained::CannotWrite) => end(rt, Ending::CannotWrite(STANDARD)),
        Err(Unexplained::Refused(fault)) => {
            let status = end_unread(rt, Subject::Only, &fault);
            drop(fault);
            status
        }
    }
}
