//! What a picture promises of kept logs, it promises of the logs; and what is so of the text of each drawing. These functions do nothing;
//! their contracts are theorems.
//!
//! In the first two `apps` are any applications and `logs` any logs; what is kept of these is `wanted_logs apps logs`.

ghost use Rattle.std.specs.Prelude.{◌↔◌, ℕ, List, Option};
ghost use Rattle.eos_verdict.specs.declared.verdict.Fault.{Fault};
ghost use Rattle.eos_evidence.specs.declared.application.App.{App};
ghost use Rattle.eos_fold.specs.Parts.{PartLog};
ghost use Rattle.eos_picture.specs.Marks.{HasTrueRows};
ghost use Rattle.eos_picture.specs.Transactions.{AreColumns};
ghost use Rattle.eos_picture.specs.Whole.{HasWholeRows};
ghost use Rattle.eos_picture.specs.Window.{IsWindow};
ghost use Rattle.eos_picture.specs.declared.mark.Column.{Column};
ghost use Rattle.eos_picture.specs.declared.mark.Picture.{Picture};
ghost use Rattle.eos_picture.specs.declared.mark.Row.{Row};
ghost use Rattle.eos_reading.specs.Wanted.{wanted_logs};
ghost use Rattle.eos_picture.specs.Escaping.{xml_text};
ghost use Rattle.eos_picture.specs.CharacterData.{IsCharacterData};

/// Rows are true of kept logs exactly where they are true of the logs, and leave nothing of them out exactly where they leave nothing
/// of the logs out.
pub fn rows()
    ensures so { (apps : List App) (logs : List PartLog) (columns : List Column) (rows : List Row)
        → HasTrueRows (wanted_logs apps logs) columns rows ↔ HasTrueRows logs columns rows }
    ensures whole { (apps : List App) (logs : List PartLog) (columns : List Column) (rows : List Row)
        → HasWholeRows (wanted_logs apps logs) columns rows ↔ HasWholeRows logs columns rows }
{}

/// The transactions of kept logs are those of the logs; and a picture that shows the right ones of the kept logs shows the right ones
/// of the logs.
pub fn window()
    ensures columns { (apps : List App) (logs : List PartLog) (columns : List Column)
        → AreColumns (wanted_logs apps logs) columns ↔ AreColumns logs columns }
    ensures window { (apps : List App) (logs : List PartLog) (fault : Option Fault) (around : ℕ) (picture : Picture)
        → IsWindow (wanted_logs apps logs) fault around picture → IsWindow logs fault around picture }
{}

/// Whatever bytes a text has, it is written as character data: it ends no tag and no attribute, and has only characters that XML
/// 1.0 allows.
pub fn texts_stay_texts()
    ensures { (bytes : List ℕ) → IsCharacterData (xml_text bytes) }
{}
