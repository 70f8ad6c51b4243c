//! The committed offset of each partition, and how far each transaction committed.

ghost use Rattle.std.specs.Prelude.{◌≡◌, ◌++◌, ◌∷◌, [], List, map, option_map, IfOk, OnOk};
ghost use Rattle.std.specs.BTreeMap.{get};
ghost use Rattle.eos_claims.specs.Outputs.{Commit};
ghost use Rattle.eos_commits.specs.Plain.{plain_commit};
ghost use Rattle.eos_faults.specs.steps.Plain.{name_at, by_name};
ghost use Rattle.eos_faults.specs.steps.Tables.{AreOffsets, AreReached, by_pass, further, key_by, pass_view};

use crate::lent::LentName;
use eos_commits::CommitRef;
use std::alloc::{AllocError, Global};
use std::collections::BTreeMap;

/// The offset of a commit.
#[derive(Clone, Copy)]
pub(crate) struct Offset {
    pub offset: i64,
}

/// A transaction's producer id and epoch, and a partition.
#[derive(Clone, Copy, PartialEq, Eq, PartialOrd, Ord)]
pub(crate) struct PassKey<'a> {
    pub producer: i64,
    pub epoch: i16,
    pub partition: LentName<'a>,
}

/// The last offset that is committed of each partition.
pub(crate) type Offsets<'a> = BTreeMap<LentName<'a>, Offset>;

/// The greatest offset that each transaction commits of each partition.
pub(crate) type Reached<'a> = BTreeMap<PassKey<'a>, Offset>;

fn name_of<'a>(commit: &CommitRef<'a>) -> LentName<'a>
    ensures { name_at result ≡ (plain_commit commit.entry.now).partition }
{
    LentName {
        topic: commit.topic,
        partition: commit.partition,
    }
}

/// The last offset of a partition.
pub(crate) fn offset_in<'a>(offsets: &Offsets<'a>, name: &LentName<'a>) -> Option<Offset>
    ensures { result ≡ get by_name offsets.now name.now }
{
    offsets.get(name).copied()
}

fn take_offset<'a>(offsets: &mut Offsets<'a>, commit: &CommitRef<'a>) -> Result<(), AllocError>
    ensures { (before : List Commit) → AreOffsets offsets.old before → OnOk result (AreOffsets offsets.new (before ++ plain_commit commit.now ∷ [])) }
{
    offsets.insert(name_of(commit), offset_of(commit))?;
    Ok(())
}

/// The last offset that these commits have of each partition.
pub(crate) fn offsets_of<'a>(
    alloc: Global,
    commits: &[CommitRef<'a>],
) -> Result<Offsets<'a>, AllocError>
    ensures { IfOk result (λ offsets. AreOffsets offsets (map plain_commit commits.now)) }
{
    let mut offsets = BTreeMap::new(alloc);
    for commit in commits {
        take_offset(&mut offsets, commit)?;
    }
    Ok(offsets)
}

fn offset_of(commit: &CommitRef<'_>) -> Offset
    ensures { result.offset ≡ (plain_commit commit.now).offset }
{
    Offset {
        offset: commit.offset,
    }
}

fn further(known: Option<Offset>, next: Offset) -> Offset
    ensures { result.offset ≡ further (option_map (λ o. o.offset) known) next.offset }
{
    match known {
        None => next,
        Some(known) => {
            if known.offset < next.offset {
                next
            } else {
                known
            }
        }
    }
}

/// The key of a transaction and a partition, where there is a transaction.
pub(crate) fn pass_key<'a>(
    writer: Option<(i64, i16)>,
    partition: LentName<'a>,
) -> Option<PassKey<'a>>
    ensures { option_map pass_view result ≡ key_by writer (name_at partition.entry) }
{
    let (producer, epoch) = writer?;
    Some(PassKey {
        producer,
        epoch,
        partition,
    })
}

/// The greatest offset that a transaction commits of a partition.
pub(crate) fn reach_in<'a>(reached: &Reached<'a>, key: &PassKey<'a>) -> Option<Offset>
    ensures { result ≡ get by_pass reached.now key.now }
{
    reached.get(key).copied()
}

fn take_reach<'a>(reached: &mut Reached<'a>, commit: &CommitRef<'a>) -> Result<(), AllocError>
    ensures { (before : List Commit) → AreReached reached.old before → OnOk result (AreReached reached.new (before ++ plain_commit commit.now ∷ [])) }
{
    let Some(key) = pass_key(commit.writer, name_of(commit)) else {
        return Ok(());
    };
    let reach = further(reach_in(reached, &key), offset_of(commit));
    reached.insert(key, reach)?;
    Ok(())
}

/// The greatest offset that each transaction of these commits has of each partition.
pub(crate) fn reached_by<'a>(
    alloc: Global,
    commits: &[CommitRef<'a>],
) -> Result<Reached<'a>, AllocError>
    ensures { IfOk result (λ reached. AreReached reached (map plain_commit commits.now)) }
{
    let mut reached = BTreeMap::new(alloc);
    for commit in commits {
        take_reach(&mut reached, commit)?;
    }
    Ok(reached)
}
