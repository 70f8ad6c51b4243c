//! Data that a broker appends: to its transaction, or alone.

ghost use Rattle.std.specs.Prelude.{◌≡◌, ◌+◌, ◌≤◌, OnOk, OnErr, IfOk};
ghost use Rattle.eos_machine.specs.LogIndexes.{application_count};
ghost use Rattle.eos_machine.specs.World.{coord_at};
ghost use Rattle.eos_machine.specs.Deliveries.{with_partition};
ghost use Rattle.eos_cluster.specs.steps.Taken.{admitted, fence, taken, IsFromIf};

use eos_broker::answers::{is_ongoing, is_prepare};
use eos_broker::{Store, copies};
use eos_machine::{Item, Reply, Status, Switches};
use std::alloc::AllocError;

/// Data on its way: the number of its message, by which application and at which producer epoch it was sent, and the place
/// of the partition that it goes to.
#[derive(Clone, Copy)]
pub struct Request {
    pub number: u64,
    pub application: usize,
    pub epoch: u16,
    pub place: usize,
}

impl Request {
    pub(crate) fn new(number: u64, application: usize, epoch: u16, place: usize) -> Request
        ensures { result ≡ record { number = number; application = application; epoch = epoch; place = place } }
    {
        Request {
            number,
            application,
            epoch,
            place,
        }
    }
}

/// A batch that a broker appends, and whether the transaction lists its partition.
#[derive(Drop)]
pub struct Arrival {
    pub item: Item,
    pub is_listed: bool,
}

/// Data of an old epoch: it is refused, or its broker appends it alone.
pub(crate) fn fence(switches: Switches) -> Result<bool, Reply>
    ensures { result ≡ fence switches }
{
    if switches.no_fence {
        return Ok(false);
    }
    Err(Reply::Fenced)
}

/// What the coordinator makes of data: whether its transaction lists their partition, or the refusal.
pub(crate) fn admit(
    store: &Store,
    switches: Switches,
    application: usize,
    epoch: u16,
) -> Result<bool, Reply>
    ensures { result ≡ admitted switches (coord_at store.now.world application) epoch }
{
    if !store.is_current(application, epoch) {
        return fence(switches);
    }
    if is_prepare(store.status(application)) {
        return Err(Reply::Busy);
    }
    Ok(true)
}

/// The partition at a place belongs to the transaction.
pub(crate) fn include(
    store: &mut Store,
    switches: Switches,
    application: usize,
    place: usize,
) -> Result<(), AllocError>
    requires { 1 ≤ store.old.spare }
    ensures ok { OnOk result (store.new.world ≡ with_partition switches store.old.config store.old.world application place) }
    ensures err { OnErr result (store.new.world ≡ store.old.world) }
    ensures config { store.new.config ≡ store.old.config }
    ensures spare { store.old.spare ≤ store.new.spare + 1 }
{
    if is_ongoing(store.status(application)) && store.has_partition(application, place) {
        return Ok(());
    }
    let partitions = store.ongoing_partitions(application)?;
    let listed = copies::listed(store.alloc(), place, partitions.as_slice())?;
    let step = store.step_of(switches, Status::Ongoing, store.epoch(application), listed)?;
    store.write(application, step);
    Ok(())
}

/// Appends what was not refused.
pub(crate) fn take_in(
    store: &mut Store,
    switches: Switches,
    request: Request,
    arrival: Result<Arrival, Reply>,
) -> Result<Reply, AllocError>
    requires { IfOk arrival (IsFromIf (application_count store.old.config)) }
    ensures ok { IfOk result (λ r. (store.new.world, r) ≡ taken switches store.old.config store.old.world request arrival) }
    ensures err { OnErr result (store.new.world ≡ store.old.world) }
    ensures config { store.new.config ≡ store.old.config }
{
    let arrival = match arrival {
        Ok(arrival) => arrival,
        Err(refusal) => return Ok(refusal),
    };
    let Arrival { item, is_listed } = arrival;
    let offset = store.log(request.place).len() as u64;
    store.make_room(2)?;
    if is_listed {
        include(store, switches, request.application, request.place)?;
    }
    store.put(request.place, item);
    store.note_accepted(request.number);
    Ok(Reply::Done(offset))
}
