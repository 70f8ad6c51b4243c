//! Places, claims and faults whose names are lent from the logs.

use eos_claims::OutputKind;

/// A partition's name. Names are ordered by the topic's bytes, then the number.
#[derive(Clone, Copy, PartialEq, Eq, PartialOrd, Ord)]
pub(crate) struct LentName<'a> {
    pub topic: &'a [u8],
    pub partition: i32,
}

/// A place, in the order of places. No partition of its name needs to be there.
#[derive(Clone, Copy, PartialEq, Eq, PartialOrd, Ord)]
pub(crate) struct LentPlace<'a> {
    pub partition: LentName<'a>,
    pub offset: u64,
}

/// A visible record of an output topic, as it claims to be an output. Claims are ordered by source, output number and place.
#[derive(Clone, Copy, PartialEq, Eq, PartialOrd, Ord)]
pub(crate) struct VisibleClaim<'a> {
    pub source: LentPlace<'a>,
    pub output: u32,
    /// Where the claim stands.
    pub at: LentPlace<'a>,
    pub of: u32,
    /// The producer id and epoch of its transaction, if it is of one.
    pub writer: Option<(i64, i16)>,
}

/// A fault of the outputs, with the fields of an `OutputFault` and in their order.
#[derive(Clone, Copy, PartialEq, Eq, PartialOrd, Ord)]
pub(crate) struct LentFault<'a> {
    pub source: LentPlace<'a>,
    pub output: u32,
    pub kind: OutputKind,
    pub at: Option<LentPlace<'a>>,
}
