//! The name of a partition.

ghost use Rattle.std.specs.Prelude.{◌≡◌};
ghost use Rattle.std.specs.declared.cmp.Ordering.TheVariants.{Equal};
ghost use Rattle.eos_base.specs.PartitionNames.{name_cmp};

use bytes::Bytes;
use std::cmp::Ordering;

/// A partition's name: its topic and its number there. Names are ordered by topic bytes, then number.
#[derive(Clone, PartialEq, Eq, PartialOrd, Ord, Drop)]
pub struct PartitionName {
    pub topic: Bytes,
    pub partition: i32,
}

impl PartitionName {
    /// How this name stands to another in the order of names, in which only equal names are tied.
    pub fn order(&self, other: &PartitionName) -> Ordering
        ensures order { result ≡ name_cmp self.now other.now }
        ensures exact { result ≡ Equal → self.now ≡ other.now }
    {
        self.cmp(other)
    }
}
