//! What a report says of the run.

/// What was checked, by what, as a report says it.
#[derive(Clone, Copy)]
pub struct About<'a> {
    /// The version of the program.
    pub version: &'a str,
    /// The folder, as it was named.
    pub folder: &'a str,
    /// The number of worker threads that were asked for.
    pub workers: u64,
    /// How many of the folder's segments stand in it as their folds, and are judged by these.
    pub folds: u64,
}

/// How many milliseconds each stage of a check took.
#[derive(Clone, Copy)]
pub struct Times {
    /// Reading the files.
    pub read: u64,
    /// Folding the segments.
    pub folded: u64,
    /// Judging the whole.
    pub judged: u64,
}
