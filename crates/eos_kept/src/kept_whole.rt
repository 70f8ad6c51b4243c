//! The front of all segments of a partition, begun at 0, and its least fault.

ghost use Rattle.std.specs.Prelude.{◌≡◌, [], List, ℤ};
ghost use Rattle.eos_batch.specs.declared.batch.Batch.{Batch};
ghost use Rattle.eos_evidence.specs.declared.segment.Segment.{Segment};
ghost use Rattle.eos_fold.specs.Standing.{IsPartitionFault, AreOf};
ghost use Rattle.eos_kept.specs.Kept.{KeepsFront};
ghost use Rattle.eos_kept.specs.Passing.{HoldsEach};
ghost use Rattle.eos_reading.specs.declared.wanted.Wanted.{Wanted};
ghost use Rattle.eos_kept.specs.steps.Fronts.{AreRead, AreEach, AreWhole, IsWholeFront, IsChecked};
ghost use Rattle.eos_kept.specs.Records.{records_in, ReadBack, SayClaims};

use crate::records::Records;
use crate::{Front, Run};
use bytes::Bytes;
use eos_evidence::End;
use eos_fold::{Stop, fault_of, is_checked, kind_at_stop, pair_kind};
use eos_touch::PartitionFault;
use std::alloc::Global;

/// An empty front, begun at 0, that ends for this reason.
fn nothing(alloc: Global, topic: &[u8], stop: Stop) -> Front
    ensures begin { result.begin ≡ 0 }
    ensures stop { result.stop ≡ stop }
    ensures sequenced { IsChecked topic.now result }
    ensures keeps { KeepsFront [] result }
    ensures epochs { result.epochs.items ≡ [] }
{
    Front {
        begin: 0,
        next: 0,
        stop,
        batches: 0,
        markers: Vec::new(alloc),
        epochs: Vec::new(alloc),
        run: Run::new(alloc, is_checked(topic)),
    }
}

/// A front as that of the whole list of a partition's segments: the first of them has to be named 0, else no record is taken.
pub(crate) fn of_all(alloc: Global, topic: &[u8], front: Option<Front>, kept: &mut Records) -> Front
    requires { ReadBack kept.old }
    ensures whole { (w : Wanted) (segments : List Segment) → AreRead w segments front kept.old → AreWhole w segments result kept.new }
    ensures sequenced { (w : Wanted) (segments : List Segment) (number : ℤ) → AreRead w segments front kept.old → AreOf topic.now number segments → IsChecked topic.now result }
    ensures each { AreEach front (records_in kept.old) → HoldsEach result (records_in kept.new) }
    ensures claims { ReadBack kept.new }
    ensures said { SayClaims (records_in kept.old) → SayClaims (records_in kept.new) }
{
    let Some(front) = front else {
        return nothing(alloc, topic, Stop::AtEnd);
    };
    if front.begin == 0 {
        return front;
    }
    kept.clear();
    let stop = Stop::Elsewhere { found: front.begin };
    nothing(alloc, topic, stop)
}

/// The least fault of a whole log, whose topic is this.
pub(crate) fn least_fault(front: &Front, topic: Bytes, end: &End) -> Option<PartitionFault>
    ensures { (segments : List Segment) (batches : List Batch) → IsWholeFront segments batches front.now → IsChecked topic front.now
        → IsPartitionFault topic end.now.partition end.now.end batches front.now.stop result }
{
    if let Some(fault) = front.run.whole_fault() {
        return Some(fault_of(topic, end.partition, fault.offset, pair_kind(fault)));
    }
    let left = front.run.least_open();
    match kind_at_stop(front.stop, front.next, end.end, left) {
        None => None,
        Some(kind) => Some(fault_of(topic, end.partition, front.next, kind)),
    }
}
