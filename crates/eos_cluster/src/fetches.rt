//! What a session fetches: the offset that its group has committed for a source.

ghost use Rattle.std.specs.Prelude.{◌≡◌, ◌∷◌, ◌<◌, true, List, None, length, replicate, slice_get, slice_index_or, vec_len, IfOk};
ghost use Rattle.eos_machine.specs.declared.item.Item.{Item};
ghost use Rattle.eos_machine.specs.LogIndexes.{application_count, offsets_index};
ghost use Rattle.eos_machine.specs.World.{log_at};
ghost use Rattle.eos_machine.specs.Logs.{begins_at};
ghost use Rattle.eos_machine.specs.Sessions.{fetch};
ghost use Rattle.eos_cluster.specs.steps.Fetching.{AreEnds, IsFetched, IsSettled};
ghost use Rattle.eos_broker.specs.Named.{IsFrom};

use eos_batch::Kind;
use eos_broker::Store;
use eos_broker::log_indexes::{OFFSETS_INDEX, is_source};
use eos_machine::{Item, Reply};
use std::alloc::{AllocError, Global};

/// What the log of the offsets says of a source.
#[derive(Clone, Copy)]
struct Fetched {
    /// Whether an open transaction holds a commit for it.
    is_open: bool,
    /// Where the group begins after the last commit.
    committed: Option<u64>,
}

/// No application has a marker.
fn no_ends(alloc: Global, applications: usize) -> Result<Vec<Option<Kind>>, AllocError>
    ensures { IfOk result (λ v. v.items ≡ replicate applications None) }
{
    let mut ends = Vec::new(alloc);
    for _ in 0..applications {
        ends.push(None)?;
    }
    Ok(ends)
}

/// The kind of an application's next marker.
fn next_end(ends: &[Option<Kind>], application: usize) -> Option<Kind>
    ensures { result ≡ slice_index_or ends.now application None }
{
    match ends.get(application) {
        Some(end) => *end,
        None => None,
    }
}

/// Goes back by one item, which may be the next marker of its application.
fn note_marker(ends: &mut Vec<Option<Kind>>, item: &Item)
    ensures kept { (xs : List Item) → AreEnds ends.old.items xs → AreEnds ends.new.items (item.now ∷ xs) }
    ensures len { vec_len ends.new ≡ vec_len ends.old }
{
    match item {
        Item::Marker {
            application,
            kind,
            ..
        } => {
            if *application < ends.len() {
                ends[*application] = Some(*kind);
            }
        }
        Item::Fed { .. } | Item::State { .. } | Item::Output { .. } | Item::Offset { .. } => {}
    }
}

/// Where a group begins after a commit: at 0 where that deletes its offset.
fn begins_at(offset: Option<u64>) -> u64
    ensures { result ≡ begins_at offset }
{
    offset.unwrap_or(0)
}

/// Goes back by one item, which may be a commit for this source.
fn note_commit(fetched: Fetched, item: &Item, source: usize, ends: &[Option<Kind>]) -> Fetched
    ensures { (xs : List Item) → IsFrom (length ends.now) item.now → AreEnds ends.now xs → IsFetched source fetched xs → IsFetched source result (item.now ∷ xs) }
{
    match item {
        Item::Offset {
            application,
            source: other,
            offset,
            ..
        } => {
            if *other != source {
                return fetched;
            }
            match next_end(ends, *application) {
                None => Fetched {
                    is_open: true,
                    committed: fetched.committed,
                },
                Some(Kind::Commit) => Fetched {
                    is_open: fetched.is_open,
                    committed: Some(fetched.committed.unwrap_or(begins_at(*offset))),
                },
                Some(Kind::Abort) => fetched,
            }
        }
        Item::Fed { .. } | Item::State { .. } | Item::Output { .. } | Item::Marker { .. } =>
            fetched,
    }
}

/// Whether nothing further back can change what was found: a commit was, and the next marker of each application that has
/// any data there.
fn is_settled(store: &Store, fetched: Fetched, ends: &[Option<Kind>]) -> bool
    ensures { result ≡ true → IsSettled (application_count store.now.config) store.now.world fetched ends.now }
{
    if fetched.committed.is_none() {
        return false;
    }
    for application in 0..store.config().application_count() {
        if next_end(ends, application).is_none()
            && store.producer(application, OFFSETS_INDEX).last.is_some()
        {
            return false;
        }
    }
    true
}

/// What the log of the offsets says of a source, read from its end as far as anything there can matter.
fn read_back(store: &Store, source: usize) -> Result<Fetched, AllocError>
    ensures { IfOk result (λ f. IsFetched source f (log_at store.now.world offsets_index)) }
{
    let log = store.log(OFFSETS_INDEX);
    let mut ends = no_ends(store.alloc(), store.config().application_count())?;
    let mut fetched = Fetched {
        is_open: false,
        committed: None,
    };
    for i in (0..log.len()).rev() {
        if is_settled(store, fetched, ends.as_slice()) {
            return Ok(fetched);
        }
        let item = &log[i];
        fetched = note_commit(fetched, item, source, ends.as_slice());
        note_marker(&mut ends, item);
    }
    Ok(fetched)
}

/// A session asks for the committed offset of a source of its group.
#[tactic(auto, unfolding(eos_machine::specs::Answers::when))]
pub fn fetch(store: &Store, number: usize, source: usize) -> Result<Reply, AllocError>
    ensures { IfOk result (λ r. (store.now.world, r) ≡ fetch store.now.config store.now.world source (slice_get store.now.world.sessions number)) }
{
    let Some(session) = store.session(number) else {
        return Ok(Reply::Unknown);
    };
    if !is_source(store.config(), session.application, source) {
        return Ok(Reply::Unknown);
    }
    if session.generation != store.generation_of(session.application) {
        return Ok(Reply::StaleGeneration);
    }
    let fetched = read_back(store, source)?;
    if fetched.is_open {
        return Ok(Reply::Busy);
    }
    Ok(Reply::Done(fetched.committed.unwrap_or(0)))
}
