//! What a record of `__consumer_offsets` says.

ghost use Rattle.std.specs.Prelude.{◌≡◌, ◌++◌, OnOk, string_bytes};
ghost use Rattle.eos_offsets.specs.Views.{plain_key};
ghost use Rattle.eos_text.specs.Adding.{Adds};
ghost use Rattle.eos_segment.specs.Decoding.{said_of_key, said_under_key, commit_key_under};
ghost use Rattle.eos_segment.specs.DecodedLines.{commit_head, commit_line, deleted_line};

use crate::name::push_unread;
use bytes::Bytes;
use eos_base::RecordFault;
use eos_offsets::{KeyRef, view_key, view_value};
use eos_text::{push_escaped, push_text};
use eos_verdict::push_name;
use std::alloc::{AllocError, Global};

fn push_head(alloc: Global, out: &mut String, key: &KeyRef<'_>) -> Result<(), AllocError>
    ensures { OnOk result (Adds (string_bytes out.old) (string_bytes out.new) (commit_head (plain_key key.now))) }
{
    push_escaped(alloc, out, "  commit group=", key.group)?;
    push_name(alloc, out, " ", key.topic, &key.partition)?;
    Ok(())
}

#[tactic(auto, unfolding(crate::specs::DecodedLines::commit_line))]
fn push_committed(
    alloc: Global,
    out: &mut String,
    key: &KeyRef<'_>,
    offset: &i64,
) -> Result<(), AllocError>
    ensures { OnOk result (Adds (string_bytes out.old) (string_bytes out.new) (commit_line (plain_key key.now) offset.now)) }
{
    push_head(alloc, out, key)?;
    write!(out, "={offset}\n")
}

fn push_deleted(alloc: Global, out: &mut String, key: &KeyRef<'_>) -> Result<(), AllocError>
    ensures { OnOk result (Adds (string_bytes out.old) (string_bytes out.new) (deleted_line (plain_key key.now))) }
{
    push_head(alloc, out, key)?;
    push_text(out, " tombstone\n")?;
    Ok(())
}

fn push_of_key(
    alloc: Global,
    out: &mut String,
    key: &KeyRef<'_>,
    value: &Option<Bytes>,
) -> Result<(), AllocError>
    ensures { OnOk result (Adds (string_bytes out.old) (string_bytes out.new) (said_of_key (plain_key key.now) value.now)) }
{
    let Some(value) = value else {
        return push_deleted(alloc, out, key);
    };
    match view_value(value.as_slice()) {
        Ok(offset) => push_committed(alloc, out, key, &offset),
        Err(fault) => push_unread(out, fault.name()),
    }
}

/// Adds what a record of this key and value says.
pub(crate) fn push_commit(
    alloc: Global,
    out: &mut String,
    key: &Option<Bytes>,
    value: &Option<Bytes>,
) -> Result<(), AllocError>
    ensures { OnOk result (Adds (string_bytes out.old) (string_bytes out.new) (said_under_key (commit_key_under key.now) value.now)) }
{
    let Some(key) = key else {
        return push_unread(out, RecordFault::Short.name());
    };
    match view_key(key.as_slice()) {
        Ok(Some(key)) => push_of_key(alloc, out, &key, value),
        Ok(None) => push_text(out, "  skipped key\n"),
        Err(fault) => push_unread(out, fault.name()),
    }
}
