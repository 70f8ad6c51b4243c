//! What an application's outputs are held against.

use crate::passes::PassTable;
use eos_commits::{Names, TopicSet};
use eos_kept::Part;

/// The logs, and what an application reads and commits there.
#[derive(Clone, Copy)]
pub(crate) struct Books<'n, 's, 'o, 'p, 'l, 'a> {
    /// The partitions' names.
    pub(crate) names: &'n Names<'a>,
    /// The topics that it reads.
    pub(crate) sources: &'s TopicSet<'a>,
    /// The committed offset of each partition, in the order of the names.
    pub(crate) offsets: &'o [i64],
    /// What its group's transactions committed past.
    pub(crate) passes: &'p PassTable<'a>,
    /// The logs, in the order of the names.
    pub(crate) parts: &'l [Part],
}
