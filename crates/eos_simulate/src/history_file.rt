//! The text of a history's file.

ghost use Rattle.std.specs.Prelude.{◌≡◌, ◌++◌, IfOk, OnOk, string_bytes};
ghost use Rattle.eos_simulate.specs.Histories.{FitsTotals};
ghost use Rattle.eos_simulate.specs.HistoryTexts.{IsHistoryText, deed_said, line_bytes, lines_bytes};

use bytes::Bytes;
use eos_drive::History;
use eos_history_lines::{Deed, Head, Line, Tail, head_text, line_text, tail_text};
use std::alloc::{AllocError, Global};

/// The lines of a history that began with a new cluster: what it was, what was done to it, and the totals.
pub(crate) fn history_text(
    alloc: Global,
    head: &Head,
    history: &History,
) -> Result<String, AllocError>
    ensures { IfOk result (λ text. IsHistoryText head.now history.now (string_bytes text)) }
{
    let mut text = head_text(alloc, head)?;
    push_lines(alloc, &mut text, history.deeds())?;
    let tail = totals(alloc, history)?;
    text.push_str(tail_text(alloc, &tail)?.as_str())?;
    Ok(text)
}

/// Adds a line for each of these, numbered from 1.
fn push_lines(alloc: Global, text: &mut String, deeds: &[eos_drive::Deed]) -> Result<(), AllocError>
    ensures { OnOk result (string_bytes text.new ≡ string_bytes text.old ++ lines_bytes 1 deeds.now) }
{
    for place in 0..deeds.len() {
        let line = line_of(alloc, place as u64 + 1, &deeds[place])?;
        text.push_str(line.as_str())?;
    }
    Ok(())
}

/// The line of this number, of what was done.
fn line_of(alloc: Global, number: u64, deed: &eos_drive::Deed) -> Result<String, AllocError>
    ensures { IfOk result (λ text. string_bytes text ≡ line_bytes (record { number = number; deed = deed_said deed.now })) }
{
    let line = Line {
        number,
        deed: said(deed)?,
    };
    let text = line_text(alloc, &line);
    drop(line);
    text
}

/// The totals of a history.
pub(crate) fn totals(alloc: Global, history: &History) -> Result<Tail, AllocError>
    ensures { IfOk result (FitsTotals history.now) }
{
    let tally = history.tally(alloc)?;
    Ok(Tail {
        events: tally.events,
        transactions: tally.transactions,
        lost: tally.lost,
        repeated: tally.repeated,
    })
}

/// What a line says of what was done.
fn said(deed: &eos_drive::Deed) -> Result<Deed, AllocError>
    ensures { IfOk result (λ said. said ≡ deed_said deed.now) }
{
    match deed {
        eos_drive::Deed::Asked { event, reply } => Ok(Deed::Asked {
            event: event.clone()?,
            reply: Some(*reply),
        }),
        eos_drive::Deed::Set(switches) => Ok(Deed::Set(*switches)),
        eos_drive::Deed::Noted(note) => Ok(Deed::Noted(note.clone()?)),
    }
}

pub(crate) fn copy(bytes: &Bytes) -> Result<Bytes, AllocError>
    ensures { IfOk result (λ copied. copied ≡ bytes.now) }
{
    bytes.clone()
}
