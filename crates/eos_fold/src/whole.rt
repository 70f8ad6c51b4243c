//! What stands where the front of a partition's log ends, and the partition's fault of it.

ghost use Rattle.std.specs.Prelude.{◌≡◌, pos};
ghost use Rattle.std.specs.Ordering.{int_eq};
ghost use Rattle.eos_touch.specs.declared.fault.PartitionFaultKind.TheVariants.{Pair};
ghost use Rattle.eos_fold.specs.Stops.{kind_at_stop};

use crate::Fault;
use crate::stop::Stop;
use bytes::Bytes;
use eos_touch::{PartitionFault, PartitionFaultKind};

/// Whether a front ends where its log was declared to end.
pub fn is_declared(next: u64, end: i64) -> bool
    ensures { result ≡ int_eq (pos next) end }
{
    end >= 0 && end.unsigned_abs() == next
}

/// What stands where a front ends, if its log has no fault before: behind it comes the offset `next`, the log was declared to end at
/// `end`, and `left` is the least producer id that was left open.
pub fn kind_at_stop(
    stop: Stop,
    next: u64,
    end: i64,
    left: Option<i64>,
) -> Option<PartitionFaultKind>
    ensures { result ≡ kind_at_stop stop next end left }
{
    match stop {
        Stop::NoBatch {
            segment,
            byte,
            fault,
        } => Some(PartitionFaultKind::BadBatch {
            segment,
            byte,
            batch: fault,
        }),
        Stop::Elsewhere { found } => Some(PartitionFaultKind::Gap { found }),
        Stop::AtEnd => {
            if !is_declared(next, end) {
                let end = end.unsigned_abs();
                return Some(PartitionFaultKind::End { end });
            }
            let producer = left?;
            Some(PartitionFaultKind::OpenAtEnd { producer })
        }
    }
}

/// The fault of this partition.
pub fn fault_of(
    topic: Bytes,
    partition: i32,
    offset: u64,
    kind: PartitionFaultKind,
) -> PartitionFault
    ensures topic { result.topic ≡ topic }
    ensures partition { result.partition ≡ partition }
    ensures offset { result.offset ≡ offset }
    ensures kind { result.kind ≡ kind }
{
    PartitionFault {
        topic,
        partition,
        offset,
        kind,
    }
}

/// The kind that a fault of two touches is.
pub fn pair_kind(fault: Fault) -> PartitionFaultKind
    ensures { result ≡ Pair fault.kind fault.producer }
{
    PartitionFaultKind::Pair {
        fault: fault.kind,
        producer: fault.producer,
    }
}
