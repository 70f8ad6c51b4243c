//! What is found of a fold that is compared with its log.

/// How the file of a fold is to the log of its segment.
#[derive(Clone, Copy)]
pub enum Likeness {
    /// It is the log's fold.
    Right,
    /// It is the fold of a front of the log, which was written on since.
    Stale,
    /// It is neither.
    Forged,
}

/// What is found of a fold.
#[derive(Drop)]
pub struct Found {
    /// The path of its file.
    pub path: String,
    /// How it is to its log, if that is at hand.
    pub how: Option<Likeness>,
}
