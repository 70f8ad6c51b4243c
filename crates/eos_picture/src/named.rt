//! Names of partitions, and the one that a fault names.

ghost use Rattle.std.specs.Prelude.{◌≡◌, ◌≢◌, Some, true, false, codes, IfOk};
ghost use Rattle.std.specs.Option.{option_copied};
ghost use Rattle.eos_fold.specs.Parts.{part_name};
ghost use Rattle.eos_picture.specs.Order.{is_of_name};
ghost use Rattle.eos_picture.specs.Window.{named_by};

use bytes::Bytes;
use eos_base::PartitionName;
use eos_fold::PartitionFault;
use eos_kept::Part;
use eos_sought::is_same;
use eos_verdict::{Fault, LineageFault};
use std::alloc::{AllocError, Global};

pub(crate) fn transaction_log(alloc: Global, partition: i32) -> Result<PartitionName, AllocError>
    ensures { IfOk result (λ name. name ≡ record { topic = codes "__transaction_state"; partition = partition }) }
{
    Ok(PartitionName {
        topic: Bytes::copy_from_slice(alloc, b"__transaction_state".as_slice())?,
        partition,
    })
}

/// The name of the fault's partition.
pub(crate) fn name_in(fault: &PartitionFault) -> Result<PartitionName, AllocError>
    ensures { IfOk result (λ name. name ≡ record { topic = fault.now.topic; partition = fault.now.partition }) }
{
    Ok(PartitionName {
        topic: fault.topic.clone()?,
        partition: fault.partition,
    })
}

/// Whether it is the partition of this topic and number.
fn is_at(part: &Part, topic: &[u8], partition: i32) -> bool
    ensures { result ≡ is_of_name (Some (record { topic = topic.now; partition = partition })) part.now }
{
    is_same(part.topic().as_slice(), topic) && part.partition() == partition
}

/// Whether this is the partition's name.
pub(crate) fn is_named(part: &Part, name: &PartitionName) -> bool
    ensures is { result ≡ is_of_name (Some name.now) part.now }
    ensures yes { result ≡ true → part_name part.now ≡ name.now }
    ensures no { result ≡ false → part_name part.now ≢ name.now }
{
    is_at(part, name.topic.as_slice(), name.partition)
}

/// Whether it is the partition that the fault's line names, if there is a fault and that names one.
pub(crate) fn is_named_by(fault: Option<&Fault>, part: &Part) -> bool
    ensures { result ≡ is_of_name (named_by (option_copied fault.entry)) part.now }
{
    let Some(fault) = fault else {
        return false;
    };
    match fault {
        Fault::Partition(fault) => is_at(part, fault.topic.as_slice(), fault.partition),
        Fault::Log(fault) => is_at(part, b"__transaction_state".as_slice(), fault.partition),
        Fault::Match(fault) => match &fault.partition {
            None => false,
            Some(name) => is_named(part, name),
        },
        Fault::Lineage(LineageFault::Record(fault)) => is_named(part, &fault.partition),
        Fault::Lineage(LineageFault::Output { fault, .. }) => match &fault.at {
            None => false,
            Some(at) => is_named(part, &at.partition),
        },
    }
}
