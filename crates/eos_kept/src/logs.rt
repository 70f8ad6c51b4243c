//! The logs of an evidence's partitions, with what was found in each by itself.

ghost use Rattle.std.specs.Prelude.{◌≡◌};
ghost use Rattle.std.specs.Option.{option_map};
ghost use Rattle.eos_kept.specs.Faults.{first_of};

use crate::Part;
use eos_touch::PartitionFault;

/// The logs of partitions, in order, and beside each the least fault of its segments, if one stands there.
#[derive(Drop)]
pub struct Logs {
    pub parts: Vec<Part>,
    pub faults: Vec<Option<PartitionFault>>,
}

impl Logs {
    /// The fault of the first partition that has one. With partitions in order it is the least of all.
    pub fn first_fault(&self) -> Option<&PartitionFault>
        ensures { option_map (λ f. f.now) result ≡ first_of self.now.faults.items }
    {
        first_in(self.faults.as_slice())
    }
}

/// The first of these faults.
fn first_in(faults: &[Option<PartitionFault>]) -> Option<&PartitionFault>
    ensures { option_map (λ f. f.now) result ≡ first_of faults.now }
{
    for fault in faults {
        if fault.is_some() {
            return fault.as_ref();
        }
    }
    None
}
