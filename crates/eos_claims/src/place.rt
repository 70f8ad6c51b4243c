//! Where a record stands.

ghost use Rattle.std.specs.Prelude.{◌≡◌};
ghost use Rattle.eos_claims.specs.Plain.{plain_place, plain_source};

use eos_base::PartitionName;

/// A record's place: its partition and its offset there. Places are ordered by the partition's name, then the offset.
#[derive(Clone, PartialEq, Eq, PartialOrd, Ord, Drop)]
pub struct Place {
    pub partition: PartitionName,
    pub offset: u64,
}

/// A place whose name is borrowed, in the order of places.
#[derive(Clone, Copy, PartialEq, Eq, PartialOrd, Ord)]
pub struct PlaceRef<'a> {
    pub partition: &'a PartitionName,
    pub offset: u64,
}

/// A place whose topic is lent, as a claim names it: no partition of that name needs to be there. In the order of places.
#[derive(Clone, Copy, PartialEq, Eq, PartialOrd, Ord)]
pub struct SourceRef<'a> {
    pub topic: &'a [u8],
    pub partition: i32,
    pub offset: u64,
}

/// The same place.
pub fn source_at<'a>(place: PlaceRef<'a>) -> SourceRef<'a>
    ensures { plain_source result ≡ plain_place place.entry }
{
    SourceRef {
        topic: place.partition.topic.as_slice(),
        partition: place.partition.partition,
        offset: place.offset,
    }
}
