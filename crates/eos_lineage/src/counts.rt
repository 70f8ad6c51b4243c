//! How much was found of all applications.

/// How much was found, where no fault of the lineage stands.
#[derive(Clone, Copy)]
pub struct LineageCounts {
    /// The inputs below their committed offsets, once for each application that reads them.
    pub inputs: u64,
    /// The visible claims that are no notes.
    pub outputs: u64,
}
