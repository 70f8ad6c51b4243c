//! What a session asks: its requests become messages.

ghost use Rattle.std.specs.Prelude.{◌≡◌, ℤ, ◌==◌, nat_lt, not, ◌||◌, ◌&&◌, ◌∷◌, ◌+◌, ◌-◌, ◌≤◌, ◌<◌, [], length, slice_get, OnErr, IfOk};
ghost use Rattle.std.specs.List.{list_any};
ghost use Rattle.eos_machine.specs.World.{coord_at};
ghost use Rattle.eos_machine.specs.Tests.{is_active, is_commit, is_prepare, is_complete};
ghost use Rattle.eos_machine.specs.Sessions.{claimed_topic, produce, commit_offset, commit, is_missing, end_session, resume};
ghost use Rattle.eos_broker.specs.Named.{IsSmall};

use crate::starts::LAST_EPOCH;
use eos_batch::Kind;
use eos_broker::answers::{is_commit, is_complete, is_next, is_prepare};
use eos_broker::log_indexes::is_source;
use eos_broker::{Store, copies, sequence_of};
use eos_machine::{Claim, Config, Message, Reply, Session};
use std::alloc::AllocError;

/// The most bytes that a topic's name has.
const MAX_TOPIC_BYTES: usize = 249;

/// How many bytes the topic has that a record's claim names.
fn topic_len(claim: &Option<Claim>) -> usize
    ensures { result ≡ length (claimed_topic claim.now) }
{
    match claim {
        Some(claim) => claim.topic.len(),
        None => 0,
    }
}

/// Whether data names no partition, or a topic that there can't be.
fn names_nothing(config: Config, partition: usize, claim: &Option<Claim>) -> bool
    ensures { result ≡ (not (nat_lt partition config.outputs) || nat_lt 249 (length (claimed_topic claim.now))) }
{
    partition >= config.outputs || topic_len(claim) > MAX_TOPIC_BYTES
}

pub(crate) fn is_active(session: &Session) -> bool
    ensures { result ≡ is_active session.now.ending }
{
    session.ending.is_none()
}

/// Whether a broker hasn't accepted one of these messages.
fn misses_one(store: &Store, messages: &[u64]) -> bool
    ensures { result ≡ list_any (is_missing store.now.world) messages.now }
{
    for message in messages {
        if !store.is_accepted(*message) {
            return true;
        }
    }
    false
}

/// Whether a session may not ask its transaction to end so.
fn is_end_refused(store: &Store, session: &Session, kind: Kind) -> bool
    ensures { result ≡ (not (is_active session.now.ending) || (is_commit kind && list_any (is_missing store.now.world) session.now.messages)) }
{
    if !is_active(session) {
        return true;
    }
    is_commit(kind) && misses_one(store, session.messages.as_slice())
}

/// A session sends a record to a partition of the topic that its group writes.
#[tactic(auto, unfolding(eos_machine::specs::Answers::when))]
pub fn produce(
    store: &mut Store,
    number: usize,
    partition: usize,
    claim: Option<Claim>,
) -> Result<Reply, AllocError>
    requires { IsSmall (slice_get store.old.world.sessions number) }
    ensures ok { IfOk result (λ r. (store.new.world, r) ≡ produce store.old.config store.old.world number partition claim (slice_get store.old.world.sessions number)) }
    ensures err { OnErr result (store.new.world ≡ store.old.world) }
    ensures config { store.new.config ≡ store.old.config }
{
    let Some(session) = store.session(number) else {
        drop(claim);
        return Ok(Reply::Unknown);
    };
    if names_nothing(store.config(), partition, &claim) {
        drop(claim);
        return Ok(Reply::Unknown);
    }
    if !is_active(session) {
        drop(claim);
        return Ok(Reply::WrongState);
    }
    let message = Message::Output {
        application: session.application,
        epoch: session.epoch,
        partition,
        sequence: sequence_of(session, partition),
        claim,
        value: store.events(),
    };
    let place = store.message_count();
    store.make_room(1)?;
    store.note_output(number, partition, place)?;
    store.queue(message);
    Ok(Reply::Done(place))
}

#[tactic(auto, unfolding(eos_machine::specs::Answers::when))]
fn commit_offset(
    store: &mut Store,
    number: usize,
    source: usize,
    offset: Option<u64>,
) -> Result<Reply, AllocError>
    ensures ok { IfOk result (λ r. (store.new.world, r) ≡ commit_offset store.old.config store.old.world number source offset (slice_get store.old.world.sessions number)) }
    ensures err { OnErr result (store.new.world ≡ store.old.world) }
    ensures config { store.new.config ≡ store.old.config }
{
    let Some(session) = store.session(number) else {
        return Ok(Reply::Unknown);
    };
    if !is_source(store.config(), session.application, source) {
        return Ok(Reply::Unknown);
    }
    if !is_active(session) {
        return Ok(Reply::WrongState);
    }
    let application = session.application;
    let epoch = session.epoch;
    let generation = session.generation;
    let place = store.message_count();
    store.make_room(1)?;
    store.note_offset(number, place)?;
    store.queue(Message::Offset {
        application,
        epoch,
        generation,
        source,
        offset,
    });
    Ok(Reply::Done(place))
}

/// A session sends an offset of a source of its group, or that it is to be deleted.
pub fn commit(
    store: &mut Store,
    number: usize,
    source: usize,
    offset: Option<i64>,
) -> Result<Reply, AllocError>
    ensures ok { IfOk result (λ r. (store.new.world, r) ≡ commit store.old.config store.old.world number source offset) }
    ensures err { OnErr result (store.new.world ≡ store.old.world) }
    ensures config { store.new.config ≡ store.old.config }
{
    match offset {
        None => commit_offset(store, number, source, None),
        Some(offset) if offset < 0 => Ok(Reply::Unknown),
        Some(offset) => commit_offset(store, number, source, Some(offset as u64)),
    }
}

/// A session asks its transaction to end.
#[tactic(auto, unfolding(eos_machine::specs::Answers::when))]
pub fn end(store: &mut Store, number: usize, kind: Kind) -> Result<Reply, AllocError>
    ensures ok { IfOk result (λ r. (store.new.world, r) ≡ end_session store.old.world number kind (slice_get store.old.world.sessions number)) }
    ensures err { OnErr result (store.new.world ≡ store.old.world) }
    ensures config { store.new.config ≡ store.old.config }
{
    let Some(session) = store.session(number) else {
        return Ok(Reply::Unknown);
    };
    if is_end_refused(store, session, kind) {
        return Ok(Reply::WrongState);
    }
    let application = session.application;
    let epoch = session.epoch;
    let place = store.message_count();
    store.make_room(1)?;
    store.note_end(number, kind);
    store.queue(Message::End {
        application,
        epoch,
        kind,
    });
    Ok(Reply::Done(place))
}

/// A session whose transaction has ended begins the next one.
#[tactic(auto, unfolding(eos_machine::specs::Answers::when))]
pub fn resume(store: &mut Store, number: usize) -> Result<Reply, AllocError>
    requires { IsSmall (slice_get store.old.world.sessions number) }
    ensures ok { IfOk result (λ r. (store.new.world, r) ≡ resume store.old.config store.old.world number (slice_get store.old.world.sessions number)) }
    ensures err { OnErr result (store.new.world ≡ store.old.world) }
    ensures config { store.new.config ≡ store.old.config }
{
    let Some(session) = store.session(number) else {
        return Ok(Reply::Unknown);
    };
    let application = session.application;
    let epoch = session.epoch;
    let Some(kind) = session.ending else {
        return Ok(Reply::WrongState);
    };
    let status = store.status(application);
    let now = store.epoch(application);
    if is_prepare(status) || now == epoch {
        return Ok(Reply::Busy);
    }
    if !(is_next(now, epoch) && is_complete(status, kind)) {
        return Ok(Reply::Fenced);
    }
    if epoch >= LAST_EPOCH {
        return Ok(Reply::EpochsSpent);
    }
    let config = store.config();
    let sequences = copies::zeros(store.alloc(), config.outputs)?;
    store.note_resume(number, sequences);
    Ok(Reply::Done(u64::from(now)))
}
