//! Notes as members of a JSON object, and read from them.

ghost use Rattle.std.specs.Prelude.{◌≡◌, IfOk, OnOk, codes, option_map};
ghost use Rattle.serde_json.specs.View.{view};
ghost use Rattle.eos_manifest.specs.Objects.{held};
ghost use Rattle.eos_history_lines.specs.Lines.{with_note};
ghost use Rattle.eos_history_lines.specs.steps.Reading.{count_in, text_in, note_called, note_said};
ghost use Rattle.eos_machine.specs.declared.event.Note.TheVariants as notes;

use crate::members::{count_in, text_in};
use crate::words::note_word;
use bytes::Bytes;
use eos_machine::Note;
use eos_manifest::Object;
use serde_json::Value;
use std::alloc::{AllocError, Global};

#[tactic(auto, unfolding(crate::specs::Lines::with_note, crate::specs::Lines::with_subject))]
pub(crate) fn put_note(out: &mut Object, note: &Note) -> Result<(), AllocError>
    ensures { OnOk result (held out.new ≡ with_note note.now (held out.old)) }
{
    out.put_str("note", note_word(note))?;
    match note {
        Note::Lost(message) | Note::Repeated(message) => out.put_count("message", *message),
        Note::Erred(mishap) => out.put_text("mishap", mishap.as_slice()),
    }
}

/// The note that an object says, where this member names it; nothing where it says none.
pub(crate) fn read_note(
    alloc: Global,
    said: &Value,
    value: &Value,
) -> Result<Option<Note>, AllocError>
    ensures { IfOk result (λ note. note ≡ note_said (view said.now) (view value.now)) }
{
    match said.as_str() {
        Some(word) => read_called(alloc, word, value),
        None => Ok(None),
    }
}

fn read_called(alloc: Global, word: &str, value: &Value) -> Result<Option<Note>, AllocError>
    ensures { IfOk result (λ note. note ≡ note_called word.now (view value.now)) }
{
    match word {
        "lost" => Ok(lost_in(value)),
        "repeated" => Ok(repeated_in(value)),
        "mishap" => read_mishap(alloc, value),
        _ => Ok(None),
    }
}

fn lost_in(value: &Value) -> Option<Note>
    ensures { result ≡ option_map (λ m. notes.Lost m) (count_in (codes "message") (view value.now)) }
{
    let message = count_in(value, "message")?;
    Some(Note::Lost(message))
}

fn repeated_in(value: &Value) -> Option<Note>
    ensures { result ≡ option_map (λ m. notes.Repeated m) (count_in (codes "message") (view value.now)) }
{
    let message = count_in(value, "message")?;
    Some(Note::Repeated(message))
}

fn read_mishap(alloc: Global, value: &Value) -> Result<Option<Note>, AllocError>
    ensures { IfOk result (λ note. note ≡ option_map (λ t. notes.Erred t) (text_in (codes "mishap") (view value.now))) }
{
    match text_in(value, "mishap") {
        Some(mishap) => Ok(Some(Note::Erred(Bytes::copy_from_slice(alloc, mishap.as_bytes())?))),
        None => Ok(None),
    }
}
