//! Which data records are sought.

ghost use Rattle.std.specs.Prelude.{◌≡◌, ◌&&◌, ◌==◌, not, IfOk, Some};
ghost use Rattle.std.specs.Option.{option_map, option_copied};
ghost use Rattle.eos_claims.specs.Slots.{plain_claim};
ghost use Rattle.eos_claims.specs.Headers.{claim_of};
ghost use Rattle.eos_commits.specs.Visible.{is_visible as is_visible_fate};
ghost use Rattle.eos_sought.specs.States.{id_in, state_in};
ghost use Rattle.eos_sought.specs.Sought.{is_at, is_before, is_state, is_id, is_one_of, is_marked, claims, meets as is_met};
ghost use Rattle.eos_sought.specs.Alike.{is_alike as is_alike_to};
ghost use Rattle.eos_sought.specs.steps.Such.{is_such};
ghost use Rattle.eos_sought.specs.Passing.{is_of_group, passes, is_passed};

use crate::alike::is_alike;
use crate::commits::{is_of_group, is_passed, is_up_to, passes};
use crate::reading::{id_of, is_named, is_of, is_same, state_of};
use bytes::Bytes;
use eos_claims::{ClaimRef, Place};
use eos_commits::is_visible;
use eos_kept::{ItemRef, Part};
use eos_txnlog::TxnValue;
use std::alloc::{AllocError, Global};

/// The epochs of a producer id from one to another, both of them included.
#[derive(Clone, Copy)]
pub struct Epochs {
    pub producer: i64,
    pub from: i16,
    pub to: i16,
}

/// Which data records of the logs are sought.
#[derive(Drop)]
pub enum Sought {
    /// The one of this place.
    At(Place),
    /// The visible ones whose headers claim this input.
    Claiming(Place),
    /// Those whose headers claim this input, and that no reader of committed records is given.
    Hidden(Place),
    /// The visible ones whose headers claim this output of this input, but in another layout: a number with its bytes in the other
    /// order, or the topic with a NUL behind it or in quotes.
    Alike { place: Place, output: u32 },
    /// The states of this transactional id.
    OfId(Bytes),
    /// The states of this transactional id that stand before this place in its partition.
    Before { id: Bytes, place: Place },
    /// The states of this producer id.
    OfProducer(i64),
    /// The states of this producer id and these epochs.
    Within(Epochs),
    /// The decisions whose markers have this producer id and epoch.
    Deciding { producer: i64, epoch: i16 },
    /// The commits of this group.
    OfGroup(Bytes),
    /// The commits of this group that go past this input.
    Passing { group: Bytes, place: Place },
    /// The commits of this group, of the input's partition, that don't go past the input.
    UpTo { group: Bytes, place: Place },
    /// The commits of any group that go past this input.
    Passed(Place),
}

fn is_at(place: &Place, part: &Part, item: &ItemRef<'_>) -> bool
    ensures { result ≡ is_at place.now part.now item.now }
{
    is_named(part, &place.partition) && item.offset() == place.offset
}

fn is_before(place: &Place, part: &Part, item: &ItemRef<'_>) -> bool
    ensures { result ≡ is_before place.now part.now item.now }
{
    is_named(part, &place.partition) && item.offset() < place.offset
}

fn claims(place: &Place, claim: Option<ClaimRef<'_>>) -> bool
    ensures { result ≡ claims place.now (option_map plain_claim claim.entry) }
{
    match claim {
        None => false,
        Some(claim) => {
            claim.offset == place.offset
                && claim.partition == place.partition.partition
                && is_same(claim.topic, place.partition.topic.as_slice())
        }
    }
}

fn is_claiming(place: &Place, item: ItemRef<'_>) -> bool
    ensures { result ≡ (is_visible_fate item.entry.fate && claims place.now (claim_of item.entry.headers)) }
{
    is_visible(item.fate()) && claims(place, item.into_claim())
}

fn is_like_claim(place: &Place, output: u32, item: ItemRef<'_>) -> bool
    ensures { result ≡ (is_visible_fate item.entry.fate && is_alike_to place.now output (claim_of item.entry.headers)) }
{
    is_visible(item.fate()) && is_alike(place, output, item.into_claim())
}

fn is_hidden(place: &Place, item: ItemRef<'_>) -> bool
    ensures { result ≡ (not (is_visible_fate item.entry.fate) && claims place.now (claim_of item.entry.headers)) }
{
    !is_visible(item.fate()) && claims(place, item.into_claim())
}

fn is_one_of(epochs: &Epochs, state: &TxnValue) -> bool
    ensures { result ≡ is_one_of epochs.now state.now }
{
    let epoch = state.epoch;
    state.producer == epochs.producer && epochs.from <= epoch && epoch <= epochs.to
}

fn is_marked(producer: i64, epoch: i16, state: &TxnValue) -> bool
    ensures { result ≡ is_marked producer epoch state.now }
{
    state.producer == producer && state.epoch == epoch
}

/// Whether a state is one of those that are sought by what they say.
fn is_such(sought: &Sought, state: &TxnValue) -> bool
    ensures { result ≡ is_such sought.now (Some state.now) }
{
    match sought {
        Sought::OfProducer(producer) => state.producer == *producer,
        Sought::Within(epochs) => is_one_of(epochs, state),
        Sought::Deciding { producer, epoch } => {
            state.status.is_prepare() && is_marked(*producer, *epoch, state)
        }
        _ => false,
    }
}

pub(crate) fn is_state(part: &Part) -> bool
    ensures { result ≡ is_state part.now }
{
    is_of(part, b"__transaction_state".as_slice())
}

fn is_of_id(alloc: Global, id: &[u8], part: &Part, item: &ItemRef<'_>) -> Result<bool, AllocError>
    ensures { IfOk result (λ met. met ≡ (is_state part.now && is_id id.now (id_in item.now.key))) }
{
    if !is_state(part) {
        return Ok(false);
    }
    match id_of(alloc, item.key())? {
        None => Ok(false),
        Some(found) => Ok(is_same(found.as_slice(), id)),
    }
}

fn is_of_id_before(
    alloc: Global,
    id: &[u8],
    place: &Place,
    part: &Part,
    item: &ItemRef<'_>,
) -> Result<bool, AllocError>
    ensures { IfOk result (λ met. met ≡ (is_before place.now part.now item.now && (is_state part.now && is_id id.now (id_in item.now.key)))) }
{
    if !is_before(place, part, item) {
        return Ok(false);
    }
    is_of_id(alloc, id, part, item)
}

fn is_of_state(
    alloc: Global,
    sought: &Sought,
    part: &Part,
    item: &ItemRef<'_>,
) -> Result<bool, AllocError>
    ensures { IfOk result (λ met. met ≡ (is_state part.now && is_such sought.now (state_in item.now.value))) }
{
    if !is_state(part) {
        return Ok(false);
    }
    match state_of(alloc, item.value())? {
        None => Ok(false),
        Some(state) => Ok(is_such(sought, &state)),
    }
}

/// Whether a record of a partition's log is one of those that are sought.
///
/// # Errors
/// Only want of memory.
pub(crate) fn meets(
    alloc: Global,
    sought: &Sought,
    part: &Part,
    item: ItemRef<'_>,
) -> Result<bool, AllocError>
    ensures { IfOk result (λ met. met ≡ is_met sought.now part.now item.entry) }
{
    match sought {
        Sought::At(place) => Ok(is_at(place, part, &item)),
        Sought::Claiming(place) => Ok(is_claiming(place, item)),
        Sought::Hidden(place) => Ok(is_hidden(place, item)),
        Sought::Alike { place, output } => Ok(is_like_claim(place, *output, item)),
        Sought::OfId(id) => is_of_id(alloc, id.as_slice(), part, &item),
        Sought::Before { id, place } => is_of_id_before(alloc, id.as_slice(), place, part, &item),
        Sought::OfProducer(_) => is_of_state(alloc, sought, part, &item),
        Sought::Within(_) => is_of_state(alloc, sought, part, &item),
        Sought::Deciding { .. } => is_of_state(alloc, sought, part, &item),
        Sought::OfGroup(group) => Ok(is_of_group(group.as_slice(), part, &item)),
        Sought::Passing { group, place } => Ok(passes(group.as_slice(), place, part, &item)),
        Sought::UpTo { group, place } => Ok(is_up_to(group.as_slice(), place, part, &item)),
        Sought::Passed(place) => Ok(is_passed(place, part, &item)),
    }
}
