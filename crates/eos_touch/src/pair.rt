//! Whether a batch may follow the one of its producer id before it: the rule that a broker keeps when it appends, and
//! that a log shows afterwards. Each kind of fault is a test of its own, and the least kind that stands is the answer.

ghost use Rattle.std.specs.Prelude.{◌≡◌, OnOk, IfErr};
ghost use Rattle.eos_touch.specs.Pair.{pair_verdict, sequence_at, first_sequence, sequence, epoch_of, is_plain, is_open, zombie_epoch, epoch_while_open, no_bump, mixed_producer, marker_kind, stands, NoneStands, IsLeast, number_of, name_of};

use crate::touch::Touch;
use thiserror::Error;

/// Sequences count modulo this: after 2147483647 comes 0.
const SEQUENCES: i64 = 2147483648;

/// Why a touch may not follow the touch of its producer id before it, least first. The text of a fault is its name.
#[derive(Clone, Copy, Debug, PartialEq, Eq, Error)]
#[error("{name}", name = self.name())]
pub enum PairFault {
    /// The first data of an epoch has another base sequence than 0.
    FirstSequence,
    /// Data after data of its epoch has another base sequence than the next one: a record is repeated or missing.
    Sequence,
    /// The epoch is below that of the touch before.
    ZombieEpoch,
    /// Transactional data follows transactional data of a lower epoch, with no marker between them.
    EpochWhileOpen,
    /// A marker carries the epoch of the data before it.
    NoBump,
    /// One of the two is non-transactional data, and the other isn't.
    MixedProducer,
    /// Two markers of one epoch, one COMMIT and one ABORT.
    MarkerKind,
}

impl PairFault {
    /// The kind's number among the faults of a partition, from 3 to 9.
    pub fn number(self) -> u8
        ensures { result ≡ number_of self }
    {
        match self {
            PairFault::FirstSequence => 3,
            PairFault::Sequence => 4,
            PairFault::ZombieEpoch => 5,
            PairFault::EpochWhileOpen => 6,
            PairFault::NoBump => 7,
            PairFault::MixedProducer => 8,
            PairFault::MarkerKind => 9,
        }
    }

    /// The kind's name, as a verdict prints it.
    pub fn name(self) -> &'static str
        ensures { result.now ≡ name_of self }
    {
        match self {
            PairFault::FirstSequence => "FirstSequence",
            PairFault::Sequence => "Sequence",
            PairFault::ZombieEpoch => "ZombieEpoch",
            PairFault::EpochWhileOpen => "EpochWhileOpen",
            PairFault::NoBump => "NoBump",
            PairFault::MixedProducer => "MixedProducer",
            PairFault::MarkerKind => "MarkerKind",
        }
    }
}

/// The sequence that comes so many records after a base sequence.
fn sequence_after(base: i32, count: u32) -> i32
    ensures { result ≡ sequence_at base count }
{
    let sum = i64::from(base) + i64::from(count);
    sum.rem_euclid(SEQUENCES) as i32
}

fn epoch_of(touch: Touch) -> i16
    ensures { result ≡ epoch_of touch }
{
    match touch {
        Touch::Data { epoch, .. } => epoch,
        Touch::End { epoch, .. } => epoch,
    }
}

/// Data of no transaction.
fn is_plain(touch: Touch) -> bool
    ensures { result ≡ is_plain touch }
{
    match touch {
        Touch::Data { transactional, .. } => !transactional,
        Touch::End { .. } => false,
    }
}

/// Whether it is data of a transaction, which a marker has still to end.
pub fn is_open(touch: Touch) -> bool
    ensures { result ≡ is_open touch }
{
    match touch {
        Touch::Data { transactional, .. } => transactional,
        Touch::End { .. } => false,
    }
}

fn is_first_sequence(before: Option<Touch>, next: Touch) -> bool
    ensures { result ≡ first_sequence before next }
{
    match (before, next) {
        (None, Touch::Data { sequence, .. }) => sequence != 0,
        (
            Some(Touch::Data { epoch: last, .. }),
            Touch::Data {
                epoch,
                sequence,
                ..
            },
        ) => last < epoch && sequence != 0,
        (
            Some(Touch::End { epoch: last, .. }),
            Touch::Data {
                epoch,
                sequence,
                ..
            },
        ) => last <= epoch && sequence != 0,
        (_, Touch::End { .. }) => false,
    }
}

fn is_sequence(before: Option<Touch>, next: Touch) -> bool
    ensures { result ≡ sequence before next }
{
    match (before, next) {
        (
            Some(
                Touch::Data {
                    epoch: last,
                    sequence: base,
                    count,
                    ..
                },
            ),
            Touch::Data {
                epoch,
                sequence,
                ..
            },
        ) => last == epoch && sequence != sequence_after(base, count),
        _ => false,
    }
}

fn is_zombie_epoch(before: Option<Touch>, next: Touch) -> bool
    ensures { result ≡ zombie_epoch before next }
{
    match before {
        None => false,
        Some(before) => epoch_of(next) < epoch_of(before),
    }
}

fn is_epoch_while_open(before: Option<Touch>, next: Touch) -> bool
    ensures { result ≡ epoch_while_open before next }
{
    match before {
        None => false,
        Some(before) => is_open(before) && is_open(next) && epoch_of(before) < epoch_of(next),
    }
}

fn is_no_bump(before: Option<Touch>, next: Touch) -> bool
    ensures { result ≡ no_bump before next }
{
    match (before, next) {
        (Some(Touch::Data { epoch: last, .. }), Touch::End { epoch, .. }) => last == epoch,
        _ => false,
    }
}

fn is_mixed_producer(before: Option<Touch>, next: Touch) -> bool
    ensures { result ≡ mixed_producer before next }
{
    match before {
        None => false,
        Some(before) => is_plain(before) != is_plain(next),
    }
}

fn is_marker_kind(before: Option<Touch>, next: Touch) -> bool
    ensures { result ≡ marker_kind before next }
{
    match (before, next) {
        (
            Some(
                Touch::End {
                    epoch: last,
                    kind: was,
                },
            ),
            Touch::End { epoch, kind },
        ) => last == epoch && was != kind,
        _ => false,
    }
}

/// Whether a fault of this kind stands at `next`, after the touch of its producer id before it, each kind by itself. Sequences are
/// looked at only where they are checked. `pair_ok` answers the least kind that stands.
pub fn stands(is_sequenced: bool, before: Option<Touch>, next: Touch, kind: PairFault) -> bool
    ensures { result ≡ stands is_sequenced before next kind }
{
    match kind {
        PairFault::FirstSequence => is_sequenced && is_first_sequence(before, next),
        PairFault::Sequence => is_sequenced && is_sequence(before, next),
        PairFault::ZombieEpoch => is_zombie_epoch(before, next),
        PairFault::EpochWhileOpen => is_epoch_while_open(before, next),
        PairFault::NoBump => is_no_bump(before, next),
        PairFault::MixedProducer => is_mixed_producer(before, next),
        PairFault::MarkerKind => is_marker_kind(before, next),
    }
}

/// Whether `next` may follow `prev`, the touch of its producer id before it in the partition (`None`: there is none).
/// Sequences are looked at only where `sequenced` is true. Where several kinds stand, the least is answered.
#[tactic(auto, unfolding(crate::specs::Pair::pair_verdict))]
pub fn pair_ok(prev: Option<Touch>, next: Touch, sequenced: bool) -> Result<(), PairFault>
    ensures ok { OnOk result (NoneStands sequenced prev next) }
    ensures least { IfErr result (IsLeast sequenced prev next) }
    ensures table { result ≡ pair_verdict prev next sequenced }
{
    if sequenced && is_first_sequence(prev, next) {
        return Err(PairFault::FirstSequence);
    }
    if sequenced && is_sequence(prev, next) {
        return Err(PairFault::Sequence);
    }
    if is_zombie_epoch(prev, next) {
        return Err(PairFault::ZombieEpoch);
    }
    if is_epoch_while_open(prev, next) {
        return Err(PairFault::EpochWhileOpen);
    }
    if is_no_bump(prev, next) {
        return Err(PairFault::NoBump);
    }
    if is_mixed_producer(prev, next) {
        return Err(PairFault::MixedProducer);
    }
    if is_marker_kind(prev, next) {
        return Err(PairFault::MarkerKind);
    }
    Ok(())
}
