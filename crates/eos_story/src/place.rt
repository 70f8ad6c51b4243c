//! The place of a fault.

ghost use Rattle.std.specs.Prelude.{◌≡◌, IfOk};
ghost use Rattle.eos_story.specs.PlaceOfFault.{place_of as place_of_fault};

use bytes::Bytes;
use eos_base::PartitionName;
use eos_claims::Place;
use eos_verdict::{Fault, LineageFault};
use std::alloc::{AllocError, Global};

fn place_at(topic: Bytes, partition: i32, offset: u64) -> Place
    ensures { result ≡ record { partition = record { topic = topic; partition = partition }; offset = offset } }
{
    Place {
        partition: PartitionName { topic, partition },
        offset,
    }
}

/// Where a fault stands; none where it is between a decision and the logs, or lacks a record.
///
/// # Errors
/// Only want of memory.
pub fn place_of(alloc: Global, fault: &Fault) -> Result<Option<Place>, AllocError>
    ensures { IfOk result (λ place. place ≡ place_of_fault fault.now) }
{
    match fault {
        Fault::Partition(fault) => {
            let topic = fault.topic.clone()?;
            Ok(Some(place_at(topic, fault.partition, fault.offset)))
        }
        Fault::Log(fault) => {
            let topic = Bytes::copy_from_slice(alloc, b"__transaction_state".as_slice())?;
            Ok(Some(place_at(topic, fault.partition, fault.offset)))
        }
        Fault::Match(_) => Ok(None),
        Fault::Lineage(LineageFault::Record(fault)) => {
            let topic = fault.partition.topic.clone()?;
            Ok(Some(place_at(topic, fault.partition.partition, fault.offset)))
        }
        Fault::Lineage(LineageFault::Output { fault, .. }) => fault.at.clone(),
    }
}
