//! The threads that look for faults.

use eos_base::Workers;
use std::alloc::Global;

/// Threads, of which so many at most take part, the caller's among them, and the memory that they share.
#[derive(Clone, Copy)]
pub struct Crew<'r, R> {
    pub alloc: Global,
    pub rt: &'r R,
    pub workers: Workers,
}
