//! `simulate` on a disk: the folder of a simulated cluster's evidence and the files of its history and its labels, all whole, or none; and
//! then the printed line.

ghost use Rattle.std.specs.Prelude.{◌≡◌, ◌≢◌, Err, IfOk, IfErr, OnOk, option_map, string_bytes};
ghost use Rattle.std.specs.Io.KnownBytes.{Appends, Keeps};
ghost use Rattle.eos_disk.specs.Changes.{IsMade};
ghost use Rattle.eos_disk.specs.Reading.{IsReadWhole};
ghost use Rattle.eos_disk.specs.Shapes.{AreKnown};
ghost use Rattle.eos_disk.specs.Writing.{IsEvidenceWritten};
ghost use Rattle.eos_disk.specs.Written.{IsEmptyAt, HasListings};
ghost use Rattle.eos_evidence.specs.Evidence.{EvidenceParts};
ghost use Rattle.eos_text.specs.Writing.{WritesFront};
ghost use Rattle.eos_simulate.specs.Folders.{IsBegunIf, IsEndedIf, IsOfWords, IsOfLines, IsRun, IsRunBy, IsSimulated, wanted_by};
ghost use Rattle.eos_simulate.specs.Simulated.{wrote_line};
ghost use Rattle.eos_simulate.specs.declared.leaving.Unsimulated.TheVariants.{CannotPrint};

use crate::collecting::collected;
use crate::course::Course;
use crate::made::{Made, WantedTexts, by_lines, by_script};
use crate::making::{SimulationFault, told_to};
use crate::mistake::mistakes_of;
use crate::replaying::ReplayFault;
use crate::schedule_file::{Unread, read_schedule};
use crate::shrunk_file::begun_at;
use eos_disk::{
    ChangeFault, DiskMut, FolderFault, NewFile, WritingFault, Written, drop_file, make_folder,
    write_whole,
};
use eos_ending::leave_file;
use eos_evidence::Evidence;
use eos_history_lines::{Schedule, ScheduleFault};
use eos_segment::RunFault;
use eos_words::Simulation;
use std::alloc::Global;
use std::io::{Read, Write};

/// Why nothing is left of a simulated cluster.
#[derive(Drop)]
pub enum Unleft {
    /// The history's file can't be begun or written.
    History(ChangeFault),
    /// The labels' file can't be.
    Labels(ChangeFault),
    /// The schedule can't be read.
    Unread(FolderFault),
    /// A line of the schedule is refused.
    Refused(ScheduleFault),
    /// The schedule, which has so many lines of what is done, leaves no evidence.
    Unreplayed(ReplayFault, u64),
    /// The words leave no evidence.
    Unmade(SimulationFault),
    /// Something stands at the folder's place.
    ThereAlready,
    /// The folder, or a file in it, can't be written; or memory was refused.
    Unwritten(WritingFault),
}

/// Why a simulated cluster isn't left, or isn't told of.
#[derive(Drop)]
pub enum Unsimulated {
    /// Nothing is left, and nothing was printed.
    Unleft(Unleft),
    /// All is left, and a front of the line was written.
    CannotPrint,
}

// ---- the folder and the run

/// Makes the folder in which the evidence is to stand.
fn begin_folder<D: DiskMut>(
    alloc: Global,
    disk: &mut D,
    folder: &str,
    written: &mut Written,
) -> Result<(), Unleft>
    ensures { OnOk result (IsMade (D.holds disk.old) folder.now (D.holds disk.new)) }
{
    match make_folder(alloc, disk, written, folder) {
        Ok(()) => Ok(()),
        Err(WritingFault::CannotWrite(_)) if disk.stands(folder) => Err(Unleft::ThereAlready),
        Err(fault) => Err(Unleft::Unwritten(fault)),
    }
}

/// Which texts the words want.
fn keeps_of(words: &Simulation<'_>) -> WantedTexts
    ensures { result ≡ wanted_by words.now }
{
    WantedTexts {
        history: words.history.is_some(),
        labels: words.labels.is_some(),
    }
}

/// Makes the folder, and runs what the words say. Words that don't fit leave no folder.
#[tactic(auto, using(crate::proofs::LeftFolders::of_words))]
fn make_by_words<D: DiskMut>(
    alloc: Global,
    disk: &mut D,
    words: &Simulation<'_>,
    written: &mut Written,
) -> Result<Made, Unleft>
    ensures run { IfOk result (λ made. IsOfWords words.now made.evidence (option_map string_bytes made.history, option_map string_bytes made.labels)) }
    ensures folder { OnOk result (IsMade (D.holds disk.old) words.now.folder.now (D.holds disk.new)) }
{
    let course = match Course::of_words(alloc, words) {
        Ok(course) => course,
        Err(fault) => return Err(Unleft::Unmade(fault)),
    };
    if let Err(why) = begin_folder(alloc, disk, words.folder, written) {
        return Err(why);
    }
    match by_script(alloc, &course, keeps_of(words)) {
        Ok(made) => Ok(made),
        Err(fault) => Err(Unleft::Unmade(fault)),
    }
}

/// Makes the folder, and runs what a schedule says.
#[tactic(auto, using(crate::proofs::LeftFolders::of_lines))]
fn make_by_lines<D: DiskMut>(
    alloc: Global,
    disk: &mut D,
    words: &Simulation<'_>,
    schedule: &Schedule,
    written: &mut Written,
) -> Result<Made, Unleft>
    ensures run { IfOk result (λ made. IsOfLines schedule.now words.now.stop_anywhere (wanted_by words.now) made.evidence (option_map string_bytes made.history, option_map string_bytes made.labels)) }
    ensures folder { OnOk result (IsMade (D.holds disk.old) words.now.folder.now (D.holds disk.new)) }
{
    if let Err(why) = begin_folder(alloc, disk, words.folder, written) {
        return Err(why);
    }
    match by_lines(alloc, schedule, keeps_of(words), words.stop_anywhere) {
        Ok(made) => Ok(made),
        Err(fault) => Err(Unleft::Unreplayed(fault, schedule.lines.len() as u64)),
    }
}

/// Makes the folder, and runs what is asked for.
fn make_asked<D: DiskMut, R: Read>(
    alloc: Global,
    disk: &mut D,
    words: &Simulation<'_>,
    input: &mut R,
    written: &mut Written,
) -> Result<Made, Unleft>
    ensures run { IfOk result (λ made. IsRunBy words.now.schedule words.now (D.holds disk.old) (R.remaining input.old) (R.remaining input.new) made.evidence (option_map string_bytes made.history, option_map string_bytes made.labels)) }
    ensures folder { OnOk result (IsMade (D.holds disk.old) words.now.folder.now (D.holds disk.new)) }
{
    let Some(path) = words.schedule else {
        return make_by_words(alloc, disk, words, written);
    };
    match read_schedule(alloc, &*disk, path, input) {
        Ok(schedule) => make_by_lines(alloc, disk, words, &schedule, written),
        Err(Unread::File(fault)) => Err(Unleft::Unread(fault)),
        Err(Unread::Refused(fault)) => Err(Unleft::Refused(fault)),
    }
}

/// Makes the folder, runs what is asked for, and makes the mistakes of who copies its logs.
#[tactic(auto, using(crate::proofs::CollectedRuns::collected_run))]
fn make<D: DiskMut, R: Read>(
    alloc: Global,
    disk: &mut D,
    words: &Simulation<'_>,
    input: &mut R,
    written: &mut Written,
) -> Result<Made, Unleft>
    ensures run { IfOk result (λ made. IsRun words.now (D.holds disk.old) (R.remaining input.old) (R.remaining input.new) made.evidence (option_map string_bytes made.history, option_map string_bytes made.labels)) }
    ensures folder { OnOk result (IsMade (D.holds disk.old) words.now.folder.now (D.holds disk.new)) }
{
    let mistakes = match mistakes_of(alloc, words.mistakes.as_slice()) {
        Ok(mistakes) => mistakes,
        Err(fault) => return Err(Unleft::Unmade(fault)),
    };
    let made = match make_asked(alloc, disk, words, input, written) {
        Ok(made) => made,
        Err(why) => return Err(why),
    };
    match collected(alloc, made, mistakes.as_slice()) {
        Ok(made) => Ok(made),
        Err(fault) => Err(Unleft::Unmade(fault)),
    }
}

// ---- the history and the evidence

/// Begins the file of the history, or of the labels, if one is wanted.
fn begun<D: DiskMut>(
    alloc: Global,
    disk: &mut D,
    path: Option<&str>,
) -> Result<Option<NewFile<D::Held>>, ChangeFault>
    ensures { IfOk result (λ file. IsBegunIf path.entry file (D.holds disk.old) (D.holds disk.new)) }
{
    let Some(path) = path else {
        return Ok(None);
    };
    match begun_at(alloc, disk, path) {
        Ok(file) => Ok(Some(file)),
        Err(fault) => Err(fault),
    }
}

/// Ends the file that was begun by this text, or drops it where there is none.
fn ended<D: DiskMut>(
    alloc: Global,
    disk: &mut D,
    file: Option<NewFile<D::Held>>,
    text: Option<String>,
) -> Result<(), ChangeFault>
    ensures { OnOk result (IsEndedIf file (option_map string_bytes text) (D.holds disk.old) (D.holds disk.new)) }
{
    match file {
        Some(file) => leave_file(alloc, disk, file, text),
        None => Ok(()),
    }
}

/// Takes a file away that was written.
fn take_away<D: DiskMut>(alloc: Global, disk: &mut D, path: Option<&str>) {
    if let Some(path) = path {
        let _ = disk.remove(alloc, path);
    }
}

/// Drops the file that was begun.
fn dropped<D: DiskMut>(alloc: Global, disk: &mut D, file: Option<NewFile<D::Held>>) {
    if let Some(file) = file {
        drop_file(alloc, disk, file);
    }
}

/// Writes the evidence into its folder. Where it can't be written, the history and the labels that were go too.
fn write_last<D: DiskMut>(
    alloc: Global,
    disk: &mut D,
    words: &Simulation<'_>,
    evidence: &Evidence,
    written: &mut Written,
) -> Result<(), Unleft>
    ensures written { OnOk result (IsEvidenceWritten (D.holds disk.old) words.now.folder.now evidence.now (D.holds disk.new)) }
    ensures back { IsEmptyAt (D.holds disk.old) words.now.folder.now → AreKnown (D.holds disk.new) words.now.folder.now → HasListings (D.holds disk.new)
        → OnOk result (IsReadWhole (D.holds disk.new) words.now.folder.now evidence.now) }
{
    match write_whole(alloc, disk, written, words.folder, evidence) {
        Ok(()) => Ok(()),
        Err(fault) => {
            take_away(alloc, disk, words.history);
            take_away(alloc, disk, words.labels);
            Err(Unleft::Unwritten(fault))
        }
    }
}

/// Runs what is asked for, and leaves its evidence and its history.
///
/// # Errors
/// Of the evidence some may have been written, which is among what was written.
fn leave<D: DiskMut, R: Read>(
    alloc: Global,
    disk: &mut D,
    words: &Simulation<'_>,
    input: &mut R,
    written: &mut Written,
) -> Result<Evidence, Unleft>
    ensures { IfOk result (IsSimulated words.now (R.remaining input.old) (R.remaining input.new) (D.holds disk.old) (D.holds disk.new)) }
{
    let file = match begun(alloc, disk, words.history) {
        Ok(file) => file,
        Err(fault) => return Err(Unleft::History(fault)),
    };
    let other = match begun(alloc, disk, words.labels) {
        Ok(other) => other,
        Err(fault) => {
            dropped(alloc, disk, file);
            return Err(Unleft::Labels(fault));
        }
    };
    let made = match make(alloc, disk, words, input, written) {
        Ok(made) => made,
        Err(why) => {
            dropped(alloc, disk, other);
            dropped(alloc, disk, file);
            return Err(why);
        }
    };
    if let Err(fault) = ended(alloc, disk, other, made.labels) {
        dropped(alloc, disk, file);
        drop(made.evidence);
        return Err(Unleft::Labels(fault));
    }
    if let Err(fault) = ended(alloc, disk, file, made.history) {
        take_away(alloc, disk, words.labels);
        return Err(Unleft::History(fault));
    }
    match write_last(alloc, disk, words, &made.evidence, written) {
        Ok(()) => Ok(made.evidence),
        Err(why) => {
            drop(made.evidence);
            Err(why)
        }
    }
}

// ---- the line

/// Prints how many partitions the evidence has.
fn tell<W: Write>(alloc: Global, evidence: &Evidence, writer: &mut W) -> Result<u8, Unsimulated>
    ensures ok { IfOk result (λ status. (status ≡ 0) × Appends (W.contents writer.old) (W.contents writer.new) (wrote_line evidence.now)) }
    ensures front { result ≡ Err CannotPrint → WritesFront (W.contents writer.old) (W.contents writer.new) (wrote_line evidence.now) }
    ensures unprinted { IfErr result (λ why. why ≢ CannotPrint → Keeps (W.contents writer.old) (W.contents writer.new)) }
{
    match told_to(alloc, evidence, writer) {
        Ok(status) => Ok(status),
        Err(RunFault::Write) => Err(Unsimulated::CannotPrint),
        Err(RunFault::OutOfMemory) => Err(Unsimulated::Unleft(Unleft::Unwritten(
            WritingFault::OutOfMemory,
        ))),
        Err(RunFault::Read) => unreachable!(),
        Err(RunFault::Limit) => unreachable!(),
    }
}

/// Runs a simulated cluster as the words say, leaves its evidence as a new folder, and its history and its labels as new files, if they are
/// wanted, and prints how many partitions the evidence has. A schedule is read from its file, or from the input where that is named `-`.
///
/// These files are begun before the schedule is read, and the folder is made after that. Where nothing stood below the folder,
/// and the files don't lie there, just the evidence's files do then, and from a disk that is known it is read back.
///
/// # Errors
/// Where the line can't be printed, or no memory is left for it, the folder, the history and the labels stay, whole. Else what was written was taken away,
/// as far as the disk let it go. But for `CannotPrint` nothing was printed.
pub fn simulate_to<D: DiskMut, R: Read, W: Write>(
    alloc: Global,
    disk: &mut D,
    words: &Simulation<'_>,
    input: &mut R,
    writer: &mut W,
) -> Result<u8, Unsimulated>
    ensures ok { IfOk result (λ status. (e : EvidenceParts) × IsSimulated words.now (R.remaining input.old) (R.remaining input.new) (D.holds disk.old) (D.holds disk.new) e
        × (status ≡ 0) × Appends (W.contents writer.old) (W.contents writer.new) (wrote_line e)) }
    ensures front { result ≡ Err CannotPrint → (e : EvidenceParts) × IsSimulated words.now (R.remaining input.old) (R.remaining input.new) (D.holds disk.old) (D.holds disk.new) e
        × WritesFront (W.contents writer.old) (W.contents writer.new) (wrote_line e) }
    ensures unprinted { IfErr result (λ why. why ≢ CannotPrint → Keeps (W.contents writer.old) (W.contents writer.new)) }
{
    let mut written = Written::new(alloc);
    let evidence = match leave(alloc, disk, words, input, &mut written) {
        Ok(evidence) => evidence,
        Err(why) => {
            written.remove(alloc, disk);
            return Err(Unsimulated::Unleft(why));
        }
    };
    let told = tell(alloc, &evidence, writer);
    drop(evidence);
    told
}
