//! Records that are of one transaction, or say that one is complete.

ghost use Rattle.std.specs.Prelude.{◌≡◌, IfOk};
ghost use Rattle.eos_claims.specs.Headers.{claim_of};
ghost use Rattle.eos_sought.specs.States.{state_in};
ghost use Rattle.eos_story.specs.GroupCommits.{is_same_writer};
ghost use Rattle.eos_story.specs.Signs.{is_same_claim, is_same_place, is_twin_of, is_complete, is_completed, is_of_states, completes};
ghost use Rattle.std.specs.Prelude.{Some};

use bytes::Bytes;
use eos_batch::Header;
use eos_claims::{Claim, read_claim};
use eos_commits::is_visible;
use eos_sought::{Find, is_same, state_of};
use eos_txnlog::{Status, TxnValue};
use std::alloc::{AllocError, Global};

fn is_same_claim(a: &Option<Claim>, b: &Option<Claim>) -> bool
    ensures { result ≡ is_same_claim a.now b.now }
{
    match (a, b) {
        (Some(a), Some(b)) => {
            is_same(a.topic.as_slice(), b.topic.as_slice())
                && a.partition == b.partition
                && a.offset == b.offset
                && a.output == b.output
        }
        _ => false,
    }
}

fn claim_alike(alloc: Global, a: &[Header], b: &[Header]) -> Result<bool, AllocError>
    ensures { IfOk result (λ is. is ≡ is_same_claim (claim_of a.now) (claim_of b.now)) }
{
    let a = read_claim(alloc, a)?;
    let b = read_claim(alloc, b)?;
    Ok(is_same_claim(&a, &b))
}

/// Whether both are of one transaction.
pub(crate) fn is_same_writer(a: Option<(i64, i16)>, b: Option<(i64, i16)>) -> bool
    ensures { result ≡ is_same_writer a b }
{
    match (a, b) {
        (Some(a), Some(b)) => a.0 == b.0 && a.1 == b.1,
        _ => false,
    }
}

fn is_same_place(a: &Find, b: &Find) -> bool
    ensures { result ≡ is_same_place a.now b.now }
{
    is_same(a.partition.topic.as_slice(), b.partition.topic.as_slice())
        && a.partition.partition == b.partition.partition
        && a.item.offset == b.item.offset
}

/// Whether the second is another visible record, of the transaction of the first, that claims the same output of the same input.
pub(crate) fn is_twin_of(alloc: Global, a: &Find, b: &Find) -> Result<bool, AllocError>
    ensures { IfOk result (λ is. is ≡ is_twin_of a.now b.now) }
{
    if is_same_place(a, b) || !is_visible(b.item.fate) {
        return Ok(false);
    }
    if !is_same_writer(a.item.writer, b.item.writer) {
        return Ok(false);
    }
    claim_alike(alloc, a.item.headers.as_slice(), b.item.headers.as_slice())
}

fn is_complete(status: Status) -> bool
    ensures { result ≡ is_complete status }
{
    matches!(status, Status::CompleteCommit | Status::CompleteAbort)
}

fn is_completed(producer: i64, epoch: i16, state: &TxnValue) -> bool
    ensures { result ≡ is_completed producer epoch (Some state.now) }
{
    state.producer == producer && state.epoch == epoch && is_complete(state.status)
}

fn is_completed_by(
    alloc: Global,
    producer: i64,
    epoch: i16,
    value: &[u8],
) -> Result<bool, AllocError>
    ensures { IfOk result (λ is. is ≡ is_completed producer epoch (state_in (Some value.now))) }
{
    match state_of(alloc, Some(value))? {
        None => Ok(false),
        Some(state) => Ok(is_completed(producer, epoch, &state)),
    }
}

fn is_completed_in(
    alloc: Global,
    producer: i64,
    epoch: i16,
    value: &Option<Bytes>,
) -> Result<bool, AllocError>
    ensures { IfOk result (λ is. is ≡ is_completed producer epoch (state_in value.now)) }
{
    match value {
        None => Ok(false),
        Some(value) => is_completed_by(alloc, producer, epoch, value.as_slice()),
    }
}

fn is_of_states(find: &Find) -> bool
    ensures { result ≡ is_of_states find.now }
{
    is_same(
        find.partition.topic.as_slice(),
        b"__transaction_state".as_slice(),
    )
}

/// Whether a record says that the transaction is complete whose end markers have this producer id and epoch.
pub(crate) fn completes(
    alloc: Global,
    producer: i64,
    epoch: i16,
    find: &Find,
) -> Result<bool, AllocError>
    ensures { IfOk result (λ is. is ≡ completes producer epoch find.now) }
{
    if !is_of_states(find) {
        return Ok(false);
    }
    is_completed_in(alloc, producer, epoch, &find.item.value)
}
