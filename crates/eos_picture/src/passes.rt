//! Which offsets of its sources a transaction's commits passed.

use crate::growing::put;
use crate::mark::Column;
use crate::window::column_of;
use eos_commits::is_visible;
use eos_fold::Fate;
use eos_kept::{ItemRef, Part};
use eos_offsets::{KeyRef, view_key, view_value};
use eos_sought::is_of_offsets_log;
use std::alloc::{AllocError, Global};
use std::collections::BTreeMap;

/// A group's partition.
#[derive(Clone, Copy, PartialEq, Eq, PartialOrd, Ord)]
struct Source<'a> {
    group: &'a [u8],
    topic: &'a [u8],
    partition: i32,
}

/// A commit in a transaction: it set a group's offset of this partition from one to another.
#[derive(Clone, Copy)]
pub(crate) struct Pass<'a> {
    pub topic: &'a [u8],
    pub partition: i32,
    /// The place of the transaction.
    pub column: usize,
    pub fate: Fate,
    pub from: i64,
    pub to: i64,
}

/// What a record of the offsets log commits, if it does.
pub(crate) fn commit_of<'a>(item: &ItemRef<'a>) -> Option<(KeyRef<'a>, i64)> {
    let Ok(Some(key)) = view_key(item.key()?) else {
        return None;
    };
    match view_value(item.value()?) {
        Ok(offset) => Some((key, offset)),
        Err(_) => None,
    }
}

fn take_commit<'a>(
    passes: &mut Vec<Pass<'a>>,
    last: &mut BTreeMap<Source<'a>, i64>,
    columns: &[Column],
    item: &ItemRef<'a>,
) -> Result<(), AllocError> {
    let Some((key, to)) = commit_of(item) else {
        return Ok(());
    };
    let source = Source {
        group: key.group,
        topic: key.topic,
        partition: key.partition,
    };
    let from = last.get(&source).copied().unwrap_or(0);
    if let Some(writer) = item.writer() {
        if let Some(column) = column_of(columns, writer) {
            let pass = Pass {
                topic: key.topic,
                partition: key.partition,
                column,
                fate: item.fate(),
                from,
                to,
            };
            put(passes, pass)?;
        }
    }
    if is_visible(item.fate()) {
        last.insert(source, to)?;
    }
    Ok(())
}

fn take_commits<'a>(
    alloc: Global,
    passes: &mut Vec<Pass<'a>>,
    columns: &[Column],
    part: &'a Part,
) -> Result<(), AllocError> {
    let mut last = BTreeMap::new(alloc);
    let mut items = part.items().cursor();
    while let Some(item) = items.next() {
        take_commit(passes, &mut last, columns, &item)?;
    }
    Ok(())
}

/// What the commits of these transactions passed, in the order of the offsets log: of each commit from the group's last visible one
/// of the same partition before it, or from 0.
///
/// # Errors
/// Only want of memory.
pub(crate) fn passes_of<'a>(
    alloc: Global,
    columns: &[Column],
    logs: &'a [Part],
) -> Result<Vec<Pass<'a>>, AllocError> {
    let mut passes = Vec::new(alloc);
    for part in logs {
        if is_of_offsets_log(part) {
            take_commits(alloc, &mut passes, columns, part)?;
        }
    }
    Ok(passes)
}
