//! How the transaction of a data batch ended.

use eos_batch::Kind;

/// How the transaction of a data batch ended, as far as it is known.
#[derive(Clone, Copy)]
pub enum Ending {
    /// The batch is of no transaction.
    Plain,
    /// The next end marker of its producer id is of this kind, and carries this producer epoch.
    Ended { epoch: i16, kind: Kind },
    /// No end marker of this producer id follows.
    Waiting { producer: i64 },
}
