//! What the rows of a story may show, and what it means then.

/// What may hold of the rows of a story.
#[derive(Clone, Copy)]
pub enum Sign {
    /// The output at the fault's place, and another claim of its number, are of one producer and epoch.
    OneTransaction,
    /// The output at the fault's place is of no transaction.
    OutsideTransactions,
    /// The record at the fault's place is of no producer.
    NoProducer,
    /// No commit of the group goes past the input, and one of another group does.
    OtherGroup,
    /// A visible commit of the group that doesn't go past the input stands behind one that does.
    MovedBack,
    /// The output's own transaction committed exactly the input's offset.
    LastForNext,
    /// The output's own transaction lists a partition of the offsets log that holds no commit of it.
    LostCommit,
    /// A claim names the output of the input in another layout.
    OtherLayout,
    /// A commit of the group that goes past the input is of no transaction.
    PlainCommit,
    /// An end marker's epoch is above the one after its data's.
    AnothersMarker,
    /// A transaction is said to be complete, and a partition that it lists lacks its end marker.
    LostMarker,
    /// The log goes on behind its declared end.
    EndsLater,
    /// The log ends before its declared end.
    EndsEarlier,
    /// The partition has no segment.
    NoSegment,
    /// A segment has the name that is due, and something in it, and another offset.
    Renamed,
    /// The first segment's name is above 0.
    BeginsLater,
}

/// What a kind of fault means where its rows show a sign. Texts are lines of at most 78 columns, without a last line's end.
#[derive(Clone, Copy)]
pub struct Case {
    pub sign: Sign,
    /// The sign in words.
    pub when: &'static str,
    /// What follows from it.
    pub means: &'static str,
    /// What to look at next.
    pub next: &'static str,
}
