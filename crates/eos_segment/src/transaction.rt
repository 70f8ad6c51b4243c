//! What a record of `__transaction_state` says.

ghost use Rattle.std.specs.Prelude.{◌≡◌, OnOk, string_bytes};
ghost use Rattle.eos_text.specs.Adding.{Adds};
ghost use Rattle.eos_text.specs.Escaping.{escaped};
ghost use Rattle.eos_segment.specs.Decoding.{said_of_id, said_under_id, id_under};
ghost use Rattle.eos_segment.specs.DecodedLines.{transaction_line, forgotten_line};
ghost use Rattle.eos_segment.specs.Names.{status_name as status_text};

use crate::name::{push_names, push_unread};
use bytes::Bytes;
use eos_base::RecordFault;
use eos_text::{push_escaped, push_text, push_value};
use eos_txnlog::{Status, TxnValue, read_id, read_state};
use std::alloc::{AllocError, Global};

fn status_name(status: Status) -> &'static str
    ensures { result.now ≡ status_text status }
{
    match status {
        Status::Empty => "Empty",
        Status::Ongoing => "Ongoing",
        Status::PrepareCommit => "PrepareCommit",
        Status::PrepareAbort => "PrepareAbort",
        Status::CompleteCommit => "CompleteCommit",
        Status::CompleteAbort => "CompleteAbort",
        Status::Dead => "Dead",
        Status::PrepareEpochFence => "PrepareEpochFence",
    }
}

fn push_state(
    alloc: Global,
    out: &mut String,
    id: &[u8],
    state: &TxnValue,
) -> Result<(), AllocError>
    ensures { OnOk result (Adds (string_bytes out.old) (string_bytes out.new) (transaction_line id.now state.now)) }
{
    push_escaped(alloc, out, "  transaction id=", id)?;
    push_value(out, " producer=", &state.producer)?;
    push_value(out, " epoch=", &state.epoch)?;
    push_value(out, " status=", &status_name(state.status))?;
    push_text(out, " partitions=")?;
    push_names(alloc, out, state.partitions.as_slice())?;
    push_text(out, "\n")?;
    Ok(())
}

fn push_forgotten(alloc: Global, out: &mut String, id: &[u8]) -> Result<(), AllocError>
    ensures { OnOk result (Adds (string_bytes out.old) (string_bytes out.new) (forgotten_line id.now)) }
{
    push_escaped(alloc, out, "  transaction id=", id)?;
    push_text(out, " tombstone\n")?;
    Ok(())
}

fn push_of_id(
    alloc: Global,
    out: &mut String,
    id: &[u8],
    value: &Option<Bytes>,
) -> Result<(), AllocError>
    ensures { OnOk result (Adds (string_bytes out.old) (string_bytes out.new) (said_of_id id.now value.now)) }
{
    let Some(value) = value else {
        return push_forgotten(alloc, out, id);
    };
    match read_state(alloc, value)? {
        Ok(state) => push_state(alloc, out, id, &state),
        Err(fault) => push_unread(out, fault.name()),
    }
}

/// Adds what a record of this key and value says.
pub(crate) fn push_transaction(
    alloc: Global,
    out: &mut String,
    key: &Option<Bytes>,
    value: &Option<Bytes>,
) -> Result<(), AllocError>
    ensures { OnOk result (Adds (string_bytes out.old) (string_bytes out.new) (said_under_id (id_under key.now) value.now)) }
{
    let Some(key) = key else {
        return push_unread(out, RecordFault::Short.name());
    };
    match read_id(alloc, key)? {
        Ok(Some(id)) => push_of_id(alloc, out, id.as_slice(), value),
        Ok(None) => push_text(out, "  skipped key\n"),
        Err(fault) => push_unread(out, fault.name()),
    }
}
