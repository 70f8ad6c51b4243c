//! The unskipped records of the transaction log against those before: an id in two partitions, two ids of one producer id.

ghost use Rattle.std.specs.Prelude.{◌≡◌, List, ◌∷◌, [], ◌++◌, fold, IfOk, OnOk};
ghost use Rattle.std.specs.Option.{option_copied};
ghost use Rattle.eos_table.specs.TransactionLog.{same_id};
ghost use Rattle.eos_table.specs.declared.mark.Mark.{Mark};
ghost use Rattle.eos_table.specs.steps.LogCandidates.{taken};
ghost use Rattle.eos_table.specs.steps.Doubled.{AreHomes, AreIds, home_in, lesser_home, with_id, split_at, shared_if, shared_at, doubled_after};

use crate::log_faults::{LogFaults, take_at};
use crate::mark::{Mark, Place};
use bytes::Bytes;
use eos_verdict::LogFaultKind;
use std::alloc::{AllocError, Global};
use std::collections::BTreeMap;

/// The transactional ids of a producer id.
#[derive(Drop)]
pub(crate) struct Ids {
    pub first: Bytes,
    /// There was another one.
    pub is_shared: bool,
}

/// The least partition of each transactional id.
type Homes = BTreeMap<Bytes, i32>;

/// The transactional ids of each producer id.
type Producers = BTreeMap<u64, Ids>;

fn place_of(mark: &Mark) -> Place
    ensures partition { result.partition ≡ mark.now.partition }
    ensures offset { result.offset ≡ mark.now.offset }
{
    Place {
        partition: mark.partition,
        offset: mark.offset,
    }
}

fn lesser_home(home: Option<i32>, partition: i32) -> i32
    ensures { result ≡ lesser_home home partition }
{
    match home {
        None => partition,
        Some(home) => { if home < partition { home } else { partition } }
    }
}

fn push_split(faults: &mut LogFaults, mark: &Mark, home: Option<i32>) -> Result<(), AllocError>
    ensures { OnOk result (faults.new ≡ fold taken faults.old (split_at mark.now home)) }
{
    let Some(home) = home else {
        return Ok(());
    };
    if home < mark.partition {
        let kind = LogFaultKind::SplitId {
            id: mark.id.clone()?,
        };
        return take_at(faults, place_of(mark), kind);
    }
    Ok(())
}

/// The record's id in a lesser partition.
fn take_home(faults: &mut LogFaults, homes: &mut Homes, mark: &Mark) -> Result<(), AllocError>
    ensures faults { (before : List Mark) → AreHomes homes.old before → OnOk result (faults.new ≡ fold taken faults.old (split_at mark.now (home_in before mark.now.id))) }
    ensures homes { (before : List Mark) → AreHomes homes.old before → OnOk result (AreHomes homes.new (before ++ mark.now ∷ [])) }
{
    let home = homes.get(&mark.id).copied();
    push_split(faults, mark, home)?;
    let key = mark.id.clone()?;
    homes.insert(key, lesser_home(home, mark.partition))?;
    Ok(())
}

fn is_same(id: &Bytes, other: &Bytes) -> bool
    ensures { result ≡ same_id id.now other.now }
{
    *id == *other
}

fn with_id(known: Option<&Ids>, id: &Bytes) -> Result<Ids, AllocError>
    ensures { IfOk result (λ ids. ids ≡ with_id (option_copied known.entry) id.now) }
{
    match known {
        None => Ok(Ids {
            first: id.clone()?,
            is_shared: false,
        }),
        Some(ids) => Ok(Ids {
            first: ids.first.clone()?,
            is_shared: ids.is_shared || !is_same(&ids.first, id),
        }),
    }
}

fn push_shared(faults: &mut LogFaults, mark: &Mark, is_shared: bool) -> Result<(), AllocError>
    ensures { OnOk result (faults.new ≡ fold taken faults.old (shared_if mark.now is_shared)) }
{
    if is_shared {
        let kind = LogFaultKind::SharedProducer {
            id: mark.id.clone()?,
        };
        return take_at(faults, place_of(mark), kind);
    }
    Ok(())
}

/// The record's producer id under another id.
fn take_producer(
    faults: &mut LogFaults,
    producers: &mut Producers,
    mark: &Mark,
) -> Result<(), AllocError>
    ensures faults { (before : List Mark) → AreIds producers.old before → OnOk result (faults.new ≡ fold taken faults.old (shared_at before mark.now mark.now.producer)) }
    ensures producers { (before : List Mark) → AreIds producers.old before → OnOk result (AreIds producers.new (before ++ mark.now ∷ [])) }
{
    let Some(producer) = mark.producer else {
        return Ok(());
    };
    let ids = with_id(producers.get(&producer), &mark.id)?;
    let is_shared = ids.is_shared;
    producers.insert(producer, ids)?;
    push_shared(faults, mark, is_shared)?;
    Ok(())
}

/// Takes up what the records show against those before them.
pub(crate) fn push_doubled(
    alloc: Global,
    faults: &mut LogFaults,
    marks: &[Mark],
) -> Result<(), AllocError>
    ensures { OnOk result (faults.new ≡ fold taken faults.old (doubled_after [] marks.now)) }
{
    let mut homes = BTreeMap::new(alloc);
    let mut producers = BTreeMap::new(alloc);
    for mark in marks {
        take_home(faults, &mut homes, mark)?;
        take_producer(faults, &mut producers, mark)?;
    }
    Ok(())
}
