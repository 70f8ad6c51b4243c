//! A record arrives at a broker, and its transaction at the coordinator.

ghost use Rattle.std.specs.Prelude.{◌≡◌, ℕ, ◌<◌, Option, IfOk};
ghost use Rattle.eos_machine.specs.LogIndexes.{application_count};
ghost use Rattle.eos_machine.specs.declared.item.Item.TheVariants.{Output};
ghost use Rattle.eos_machine.specs.declared.item.Claim.{Claim};
ghost use Rattle.eos_machine.specs.declared.state.Producer.{Producer};
ghost use Rattle.eos_machine.specs.Rules.{is_repeated, is_out_of_order};
ghost use Rattle.eos_machine.specs.Deliveries.{deliver_output};
ghost use Rattle.eos_cluster.specs.steps.Taken.{judged, taken, IsFromIf};

use crate::accept::{Arrival, Request, admit, fence};
use eos_broker::{Store, is_epoch, next_sequence};
use eos_machine::{Claim, Item, Producer, Reply, Switches};
use std::alloc::AllocError;

/// A record as a session sends it, but for what it claims.
#[derive(Clone, Copy)]
pub struct SentRecord {
    pub sequence: u32,
    pub value: u64,
}

impl SentRecord {
    pub(crate) fn new(sequence: u32, value: u64) -> SentRecord
        ensures { result ≡ record { sequence = sequence; value = value } }
    {
        SentRecord { sequence, value }
    }
}

/// Whether a sequence is refused as one that the epoch has already.
fn is_repeated(switches: Switches, producer: Producer, epoch: u16, sequence: u32) -> bool
    ensures { result ≡ is_repeated switches producer epoch sequence }
{
    if switches.keep_duplicates {
        return false;
    }
    is_epoch(producer, epoch) && u64::from(sequence) < producer.count
}

/// Whether a sequence is refused as one that isn't the next.
fn is_out_of_order(switches: Switches, producer: Producer, epoch: u16, sequence: u32) -> bool
    ensures { result ≡ is_out_of_order switches producer epoch sequence }
{
    let sequence = u64::from(sequence);
    let next = next_sequence(producer, epoch);
    if switches.keep_duplicates {
        return sequence > next;
    }
    sequence != next
}

/// What a broker and the coordinator make of a record: whether the transaction lists its partition, or the refusal.
#[tactic(auto, unfolding(eos_machine::specs::Answers::when))]
pub(crate) fn judge_output(
    store: &Store,
    switches: Switches,
    request: Request,
    sequence: u32,
) -> Result<bool, Reply>
    requires { request.application < application_count store.now.config }
    ensures { (x : Option Claim) (v : ℕ) → deliver_output switches store.now.config store.now.world request.number request.application request.epoch request.place sequence x v
        ≡ judged switches store.now.config store.now.world request (Output request.application request.epoch sequence x v store.now.world.events) result }
{
    let Request {
        application,
        epoch,
        place,
        ..
    } = request;
    let producer = store.producer(application, place);
    if epoch < producer.high {
        return fence(switches);
    }
    if is_repeated(switches, producer, epoch, sequence) {
        return Err(Reply::DuplicateKept);
    }
    if is_out_of_order(switches, producer, epoch, sequence) {
        return Err(Reply::OutOfOrder);
    }
    admit(store, switches, application, epoch)
}

/// What becomes of a record: the batch that is appended, or the refusal.
pub(crate) fn output_arrival(
    store: &Store,
    switches: Switches,
    request: Request,
    sent: SentRecord,
    claim: &Option<Claim>,
) -> Result<Result<Arrival, Reply>, AllocError>
    requires { request.application < application_count store.now.config }
    ensures from { IfOk result (λ r. IfOk r (IsFromIf (application_count store.now.config))) }
    ensures answer { IfOk result (λ r. deliver_output switches store.now.config store.now.world request.number request.application request.epoch request.place sent.sequence claim.now sent.value
        ≡ taken switches store.now.config store.now.world request r) }
{
    let is_listed = match judge_output(store, switches, request, sent.sequence) {
        Ok(is_listed) => is_listed,
        Err(refusal) => return Ok(Err(refusal)),
    };
    let item = Item::Output {
        application: request.application,
        epoch: request.epoch,
        sequence: sent.sequence,
        claim: claim.clone()?,
        value: sent.value,
        event: store.events(),
    };
    Ok(Ok(Arrival { item, is_listed }))
}
