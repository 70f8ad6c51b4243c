//! What a story is told of.

use eos_batch::Header;
use eos_claims::Place;
use eos_evidence::App;
use eos_kept::Part;
use eos_sought::Folded;
use std::alloc::Global;

/// The applications, the partitions as the folds of their segments, and the logs as the verdict sees them. Folds hold no bytes, so the
/// headers that a story tells of, those of the record at the fault's own place, are read before it is asked for.
#[derive(Clone, Copy)]
pub struct Scene<'a> {
    pub alloc: Global,
    pub apps: &'a [App],
    pub partitions: &'a [Folded],
    pub logs: &'a [Part],
    /// The fault's own place, if it has one.
    pub place: Option<&'a Place>,
    /// The headers of the record there; none where no such record reads.
    pub headers: &'a [Header],
}
