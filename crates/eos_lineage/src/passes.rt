//! Which transactions committed past which records.

ghost use Rattle.std.specs.Prelude.{◌≡◌, ◌++◌, true, map, flat_map, option_map, IfOk, OnOk, IsPermutation, IsSorted};
ghost use Rattle.std.specs.List.{list_any};
ghost use Rattle.eos_claims.specs.Plain.{plain_source};
ghost use Rattle.eos_commits.specs.Plain.{plain_commit};
ghost use Rattle.eos_lineage.specs.steps.Tables.{plain_key, plain_pass, by_pass, last_below as last_offset_below, pass_of as pass_of_commit, passes_of, reaches, is_reached};

use crate::sorting::sorted;
use eos_base::Workers;
use eos_claims::SourceRef;
use eos_commits::CommitRef;
use std::alloc::{AllocError, Global};
use std::marker::Model;
use std::thread::Threads;

/// A transaction's producer id and epoch, and a partition.
#[derive(Clone, Copy, PartialEq, Eq, PartialOrd, Ord)]
struct PassKey<'a> {
    producer: i64,
    epoch: i16,
    topic: &'a [u8],
    partition: i32,
}

/// The transaction committed past the record of the partition at the offset `last`, and by this commit past none later.
#[derive(Clone, Copy, PartialEq, Eq, PartialOrd, Ord)]
struct Pass<'a> {
    key: PassKey<'a>,
    last: u64,
}

/// How many producers have a mark of their own.
const MARKS: usize = 16;

/// So far from a mark on a pass is looked for before it is searched. A producer's transactions mostly come one after the other,
/// and so do what they passed.
const NEAR: usize = 4;

/// Where the last look-ups of each producer ended. The answers don't depend on these numbers.
#[derive(Clone, Copy)]
pub(crate) struct PassMarks {
    places: [usize; MARKS],
}

impl PassMarks {
    /// Nothing was looked up yet.
    pub(crate) fn new() -> PassMarks {
        PassMarks { places: [0; MARKS] }
    }
}

/// What transactions passed, in order, which contracts see as a list.
#[derive(Drop)]
pub(crate) struct PassTable<'a> {
    passes: Vec<Pass<'a>>,
}

impl<'a> Model for PassTable<'a> {
    ghost use Rattle.std.specs.Prelude.{List, map, IsSorted};
    ghost use Rattle.eos_lineage.specs.steps.Tables.{Passed, plain_pass, by_pass};

    ghost Value = { List Passed };

    ghost view = { λ t. map plain_pass t.passes.items };

    ghost invariant = { λ t. IsSorted by_pass t.passes.items };
}

/// The last offset below a committed one, if there is one.
fn last_below(offset: i64) -> Option<u64>
    ensures { result ≡ last_offset_below offset }
{
    if offset > 0 {
        Some(offset.unsigned_abs() - 1)
    } else {
        None
    }
}

/// Whether the keys are one. Numbers are compared first; `==` of short topics is faster than their order.
fn is_same_key(a: &PassKey<'_>, b: &PassKey<'_>) -> bool
    ensures { result ≡ true → plain_key a.now ≡ plain_key b.now }
{
    a.producer == b.producer
        && a.epoch == b.epoch
        && a.partition == b.partition
        && a.topic == b.topic
}

/// What a commit passes: nothing where it is of no transaction or commits offset 0.
fn pass_of<'a>(commit: &CommitRef<'a>) -> Option<Pass<'a>>
    ensures { option_map plain_pass result ≡ pass_of_commit (plain_commit commit.entry.now) }
{
    let (producer, epoch) = commit.writer?;
    let last = last_below(commit.offset)?;
    Some(Pass {
        key: PassKey {
            producer,
            epoch,
            topic: commit.topic,
            partition: commit.partition,
        },
        last,
    })
}

/// Puts at the end what a commit passes.
fn push_pass<'a>(all: &mut Vec<Pass<'a>>, commit: &CommitRef<'a>) -> Result<(), AllocError>
    ensures { OnOk result (map plain_pass all.new.items ≡ map plain_pass all.old.items ++ passes_of (plain_commit commit.now)) }
{
    if let Some(pass) = pass_of(commit) {
        all.push(pass)?;
    }
    Ok(())
}

fn all_passes<'a>(alloc: Global, commits: &[CommitRef<'a>]) -> Result<Vec<Pass<'a>>, AllocError>
    ensures { IfOk result (λ all. map plain_pass all.items ≡ flat_map passes_of (map plain_commit commits.now)) }
{
    let mut all = Vec::new(alloc);
    for commit in commits {
        push_pass(&mut all, commit)?;
    }
    Ok(all)
}

impl<'a> PassTable<'a> {
    /// What these commits pass, sorted by so many threads at most.
    pub(crate) fn of(
        alloc: Global,
        rt: &(impl Threads + Sync),
        workers: Workers,
        commits: &[CommitRef<'a>],
    ) -> Result<PassTable<'a>, AllocError>
        ensures { IfOk result (λ table. IsPermutation (flat_map passes_of (map plain_commit commits.now)) table) }
    {
        let all = all_passes(alloc, commits)?;
        Ok(PassTable {
            passes: sorted(rt, workers, all),
        })
    }

    /// Whether one of them has this key, and an offset of at least its: a binary search, to whose end the mark goes.
    fn reaches(&self, mark: &mut usize, wanted: &Pass<'_>) -> bool
        ensures { result ≡ list_any (reaches (plain_pass wanted.now)) self.now }
    {
        match self.passes.binary_search(wanted) {
            Ok(place) => {
                *mark = place;
                true
            }
            Err(place) => {
                *mark = place;
                match self.passes.get(place) {
                    None => false,
                    Some(pass) => pass.key.cmp(&wanted.key).is_eq(),
                }
            }
        }
    }

    /// Whether the one at this place has this key, and an offset of at least its.
    fn reaches_at(&self, place: usize, wanted: &Pass<'_>) -> bool
        ensures { result ≡ true → list_any (reaches (plain_pass wanted.now)) self.now ≡ true }
    {
        match self.passes.get(place) {
            None => false,
            Some(pass) => wanted.last <= pass.last && is_same_key(&pass.key, &wanted.key),
        }
    }

    /// Whether one of them has this key, and an offset of at least its: looked for first from where the last one stood.
    fn reaches_near(&self, mark: &mut usize, wanted: &Pass<'_>) -> bool
        ensures { result ≡ list_any (reaches (plain_pass wanted.now)) self.now }
    {
        let first = *mark;
        for place in first..first.saturating_add(NEAR) {
            if self.reaches_at(place, wanted) {
                *mark = place;
                return true;
            }
        }
        self.reaches(mark, wanted)
    }

    /// Whether a transaction of this writer committed past the record. The marks are where the last such look-ups ended; they
    /// may be any.
    pub(crate) fn is_passed(
        &self,
        marks: &mut PassMarks,
        writer: Option<(i64, i16)>,
        source: &SourceRef<'_>,
    ) -> bool
        ensures { result ≡ is_reached self.now writer (plain_source source.now) }
    {
        let Some((producer, epoch)) = writer else {
            return false;
        };
        let wanted = Pass {
            key: PassKey {
                producer,
                epoch,
                topic: source.topic,
                partition: source.partition,
            },
            last: source.offset,
        };
        let slot = (producer.unsigned_abs() % 16) as usize;
        let mut mark = marks.places[slot];
        let is_passed = self.reaches_near(&mut mark, &wanted);
        marks.places[slot] = mark;
        is_passed
    }
}
