//! An offset arrives at the broker of the offsets, and its transaction at the coordinator.

ghost use Rattle.std.specs.Prelude.{◌≡◌, ℕ, ◌<◌, Option, IfOk};
ghost use Rattle.eos_machine.specs.LogIndexes.{application_count, offsets_index};
ghost use Rattle.eos_machine.specs.declared.item.Item.TheVariants.{Offset};
ghost use Rattle.eos_machine.specs.Rules.{is_stale};
ghost use Rattle.eos_machine.specs.Deliveries.{deliver_offset};
ghost use Rattle.eos_cluster.specs.steps.Taken.{judged, taken, IsFromIf};

use crate::accept::{Arrival, Request, admit, fence};
use eos_broker::Store;
use eos_broker::log_indexes::OFFSETS_INDEX;
use eos_machine::{Item, Reply, Switches};

/// An offset that is to be committed for a source of the group, or deleted where it is none, at a generation of the group.
#[derive(Clone, Copy)]
pub struct OffsetCommit {
    pub generation: u64,
    pub source: usize,
    pub offset: Option<u64>,
}

impl OffsetCommit {
    pub(crate) fn new(generation: u64, source: usize, offset: Option<u64>) -> OffsetCommit
        ensures { result ≡ record { generation = generation; source = source; offset = offset } }
    {
        OffsetCommit {
            generation,
            source,
            offset,
        }
    }
}

/// Whether an offset is refused as one of another generation of the group.
fn is_stale(switches: Switches, generation: u64, now: u64) -> bool
    ensures { result ≡ is_stale switches generation now }
{
    !switches.ignore_generation && generation != now
}

/// What the broker and the coordinator make of an offset: whether the transaction lists its partition, or the refusal.
#[tactic(auto, unfolding(eos_machine::specs::Answers::when))]
pub(crate) fn judge_offset(
    store: &Store,
    switches: Switches,
    request: Request,
    generation: u64,
) -> Result<bool, Reply>
    requires application { request.application < application_count store.now.config }
    requires place { request.place ≡ offsets_index }
    ensures { (q : ℕ) (v : Option ℕ) → deliver_offset switches store.now.config store.now.world request.number request.application request.epoch generation q v
        ≡ judged switches store.now.config store.now.world request (Offset request.application request.epoch q v store.now.world.events) result }
{
    let Request {
        number,
        application,
        epoch,
        ..
    } = request;
    if store.is_accepted(number) {
        return Err(Reply::DuplicateKept);
    }
    if is_stale(switches, generation, store.generation_of(application)) {
        return Err(Reply::StaleGeneration);
    }
    if epoch < store.producer(application, OFFSETS_INDEX).high {
        return fence(switches);
    }
    admit(store, switches, application, epoch)
}

/// What becomes of an offset: the batch that is appended, or the refusal.
pub(crate) fn offset_arrival(
    store: &Store,
    switches: Switches,
    request: Request,
    commit: OffsetCommit,
) -> Result<Arrival, Reply>
    requires application { request.application < application_count store.now.config }
    requires place { request.place ≡ offsets_index }
    ensures from { IfOk result (IsFromIf (application_count store.now.config)) }
    ensures answer { deliver_offset switches store.now.config store.now.world request.number request.application request.epoch commit.generation commit.source commit.offset
        ≡ taken switches store.now.config store.now.world request result }
{
    let is_listed = judge_offset(store, switches, request, commit.generation)?;
    let item = Item::Offset {
        application: request.application,
        epoch: request.epoch,
        source: commit.source,
        offset: commit.offset,
        event: store.events(),
    };
    Ok(Arrival { item, is_listed })
}
