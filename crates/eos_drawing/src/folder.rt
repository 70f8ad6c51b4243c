//! `draw` of a folder: from the bytes of its files to the new file and the printed line.

ghost use Rattle.std.specs.Prelude.{◌≡◌, ◌≢◌, ℕ, IfOk, IfErr, OnErr, Err};
ghost use Rattle.std.specs.Io.KnownBytes.{Keeps};
ghost use Rattle.eos_disk.specs.Putting.{IsBegun};
ghost use Rattle.eos_drawing.specs.Drawings.{AreTooFew};
ghost use Rattle.eos_drawing.specs.Folders.{is_later, HoldsOf, HoldsAt, IsDrawn, IsHalfDrawn, IsUntouched};
ghost use Rattle.eos_drawing.specs.Refused.{IsFirst, IsFirstOfDrawing};
ghost use Rattle.eos_drawing.specs.steps.Answers.{IsAnswer};
ghost use Rattle.eos_drawing.specs.steps.Undrawn.{IsUndrawnOf};
ghost use Rattle.eos_drawing.specs.declared.folder.Undrawn.TheVariants.{CannotPrint, TooFew};
ghost use Rattle.eos_evidence.specs.Evidence.{EvidenceParts, segments_of};
ghost use Rattle.eos_disk.specs.Shapes.{AreKnown};
ghost use Rattle.eos_source.specs.FirstRefusals.{outcomes_of, pieces_of};
ghost use Rattle.eos_source.specs.Refusals.{AreOpened};
ghost use Rattle.eos_source.specs.Saying.{known_at, StandsAt};
ghost use Rattle.eos_source_check.specs.Folders.{HoldsAsRead};

use crate::answer::{Answer, Wanted, answer_source};
use eos_disk::{
    ChangeFault, Disk, DiskMut, FolderFault, NewFile, Shape, Watch, begin_file, drop_file,
    end_file, read_shape,
};
use eos_source::{Folder, FolderSource};
use eos_source_check::{Pieces, refusal_of};
use eos_text::finish;
use std::alloc::Global;
use std::io::Write;
use std::thread::Threads;

/// A folder of a disk, and which picture of it is wanted.
#[derive(Clone, Copy)]
pub struct Asked<'a, D, T> {
    pub disk: &'a D,
    /// The folder of the evidence.
    pub folder: &'a str,
    /// The file that is made.
    pub file: &'a str,
    /// Around which fault of all, from 1 on; where none is said around the verdict's, or of a yes.
    pub fault: Option<u64>,
    /// How many transactions are shown on each side.
    pub around: Option<u64>,
    /// Who is told how far the reading is.
    pub watch: &'a T,
}

/// Why there is no picture, or nothing is printed of it.
#[derive(Drop)]
pub enum Undrawn {
    /// The file can't be made.
    Unwritten(ChangeFault),
    /// The folder is no evidence, or can't be read; or memory was refused.
    Refused(FolderFault),
    /// There are only so many faults.
    TooFew(usize),
    /// The picture stands, and a front of the line on its size was written.
    CannotPrint,
}

/// Reads the segments of a folder of this shape, and draws.
fn answer_shape<D: Disk, T: Watch, R: Threads + Sync>(
    alloc: Global,
    threads: &R,
    asked: &Asked<'_, D, T>,
    shape: &Shape,
) -> Result<Answer, FolderFault>
    ensures answer { IfOk result (λ answer. HoldsAsRead (known_at (D.holds asked.now.disk.now) asked.now.folder.now (segments_of shape.now.evidence.partitions) shape.now.forms.items) shape.now.evidence (is_later asked.now.fault)
        (IsAnswer asked.now.fault asked.now.around answer (known_at (D.holds asked.now.disk.now) asked.now.folder.now (segments_of shape.now.evidence.partitions) shape.now.forms.items) shape.now.evidence.partitions)) }
    ensures opened { IfOk result (λ answer. AreOpened (outcomes_of (D.holds asked.now.disk.now) asked.now.folder.now shape.now.evidence shape.now.forms.items) (pieces_of shape.now.evidence)) }
    ensures refused { IfErr result (IsUndrawnOf (outcomes_of (D.holds asked.now.disk.now) asked.now.folder.now shape.now.evidence shape.now.forms.items) (pieces_of shape.now.evidence) (is_later asked.now.fault)) }
{
    let folder = Folder {
        disk: asked.disk,
        path: asked.folder,
        watch: asked.watch,
    };
    let source = FolderSource { folder, shape };
    let pieces = Pieces {
        source: &source,
        shape: &shape.evidence,
    };
    let wanted = Wanted {
        fault: asked.fault,
        around: asked.around,
    };
    match answer_source(alloc, threads, pieces, wanted) {
        Ok(answer) => Ok(answer),
        Err(why) => Err(refusal_of(alloc, &source, why)),
    }
}

/// Reads a folder, and draws. No more of it is held than the verdict wants.
#[tactic(auto, using(eos_source_check::proofs::FoldersRead::in_folder))]
fn answer_folder<D: Disk, T: Watch, R: Threads + Sync>(
    alloc: Global,
    threads: &R,
    asked: &Asked<'_, D, T>,
) -> Result<Answer, FolderFault>
    ensures answer { IfOk result (λ answer. HoldsOf (D.holds asked.now.disk.now) asked.now.folder.now (is_later asked.now.fault) (IsAnswer asked.now.fault asked.now.around answer)) }
    ensures first { IfErr result (IsFirstOfDrawing (D.holds asked.now.disk.now) asked.now.folder.now (is_later asked.now.fault)) }
{
    let shape = read_shape(alloc, asked.disk, asked.folder, asked.watch)?;
    match answer_shape(alloc, threads, asked, &shape) {
        Ok(answer) => {
            drop(shape.evidence);
            shape.listed?;
            Ok(answer)
        }
        Err(fault) => {
            drop(shape);
            Err(fault)
        }
    }
}

/// Begins the file of a picture. A path names no file where it is empty or ends in a slash, whatever stands there.
#[tactic(auto, using(crate::proofs::Placed::nothing_left, crate::proofs::Placed::untouched))]
fn begun<E: DiskMut>(
    alloc: Global,
    disk: &mut E,
    path: &str,
) -> Result<NewFile<E::Held>, ChangeFault>
    ensures ok { IfOk result (λ file. (file ≡ path.now) × IsBegun (E.holds disk.old) path.now (E.holds disk.new)) }
    ensures err { OnErr result (IsUntouched path.now (E.holds disk.old) (E.holds disk.new)) }
{
    if path.is_empty() {
        return Err(ChangeFault::NoFolder);
    }
    if path.ends_with('/') {
        return Err(ChangeFault::Refused);
    }
    begin_file(alloc, disk, path)
}

/// Draws the picture that is asked for into a new file, and prints how large it is. The file is made, beside its place, before the folder
/// is read, and stands there whole or not at all.
///
/// The folder is read from one disk and the file is put on another: of one and the same it isn't said what a new file is to those that
/// are read meanwhile.
///
/// # Errors
/// But for `CannotPrint` no file came and nothing was printed. `Refused` is the first refusal of the folder: that of the manifest, or of the
/// first segment that is listed and isn't read, or, where each was opened, of the listing, or of a segment that is read again: for the times
/// of its records, or where a later fault is wanted.
pub fn draw_folder_to<D: Disk, E: DiskMut, T: Watch, R: Threads + Sync, W: Write>(
    alloc: Global,
    threads: &R,
    asked: &Asked<'_, D, T>,
    disk: &mut E,
    writer: &mut W,
) -> Result<u8, Undrawn>
    ensures some { IfOk result (λ status. HoldsOf (D.holds asked.now.disk.now) asked.now.folder.now (is_later asked.now.fault)
        (IsDrawn asked.now.fault asked.now.around asked.now.file.now (E.holds disk.old) (E.holds disk.new) (W.contents writer.old) (W.contents writer.new) status)) }
    ensures known { (e : EvidenceParts) → AreKnown (D.holds asked.now.disk.now) asked.now.folder.now → (at : StandsAt (D.holds asked.now.disk.now) asked.now.folder.now e)
        → IfOk result (λ status. HoldsAt (D.holds asked.now.disk.now) asked.now.folder.now e at
        (IsDrawn asked.now.fault asked.now.around asked.now.file.now (E.holds disk.old) (E.holds disk.new) (W.contents writer.old) (W.contents writer.new) status)) }
    ensures untouched { IfErr result (λ why. why ≢ CannotPrint → IsUntouched asked.now.file.now (E.holds disk.old) (E.holds disk.new)) }
    ensures unprinted { IfErr result (λ why. why ≢ CannotPrint → Keeps (W.contents writer.old) (W.contents writer.new)) }
    ensures first { IfErr result (IsFirst (D.holds asked.now.disk.now) asked.now.folder.now (is_later asked.now.fault)) }
    ensures few { (count : ℕ) → result ≡ Err (TooFew count) → HoldsOf (D.holds asked.now.disk.now) asked.now.folder.now (is_later asked.now.fault) (λ _ _ e. AreTooFew e asked.now.fault count) }
    ensures known_few { (e : EvidenceParts) → AreKnown (D.holds asked.now.disk.now) asked.now.folder.now → StandsAt (D.holds asked.now.disk.now) asked.now.folder.now e → (count : ℕ) → result ≡ Err (TooFew count) → AreTooFew e asked.now.fault count }
    ensures front { result ≡ Err CannotPrint → HoldsOf (D.holds asked.now.disk.now) asked.now.folder.now (is_later asked.now.fault)
        (IsHalfDrawn asked.now.fault asked.now.around asked.now.file.now (E.holds disk.old) (E.holds disk.new) (W.contents writer.old) (W.contents writer.new)) }
    ensures known_front { (e : EvidenceParts) → AreKnown (D.holds asked.now.disk.now) asked.now.folder.now → (at : StandsAt (D.holds asked.now.disk.now) asked.now.folder.now e)
        → result ≡ Err CannotPrint → HoldsAt (D.holds asked.now.disk.now) asked.now.folder.now e at
        (IsHalfDrawn asked.now.fault asked.now.around asked.now.file.now (E.holds disk.old) (E.holds disk.new) (W.contents writer.old) (W.contents writer.new)) }
{
    let file = match begun(alloc, disk, asked.file) {
        Ok(file) => file,
        Err(fault) => return Err(Undrawn::Unwritten(fault)),
    };
    match answer_folder(alloc, threads, asked) {
        Ok(Answer::Drawn(drawn)) => match end_file(alloc, disk, file, drawn.text.as_bytes()) {
            Ok(()) => match finish(writer, drawn.line.as_bytes()) {
                Ok(()) => Ok(drawn.status),
                Err(_) => Err(Undrawn::CannotPrint),
            },
            Err(fault) => Err(Undrawn::Unwritten(fault)),
        },
        Ok(Answer::TooFew(count)) => {
            drop_file(alloc, disk, file);
            Err(Undrawn::TooFew(count))
        }
        Err(fault) => {
            drop_file(alloc, disk, file);
            Err(Undrawn::Refused(fault))
        }
    }
}
