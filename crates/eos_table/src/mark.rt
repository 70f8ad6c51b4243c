//! What is kept of the unskipped records of the transaction log.

ghost use Rattle.std.specs.Prelude.{◌≡◌};
ghost use Rattle.std.specs.Option.{option_copied};
ghost use Rattle.eos_table.specs.steps.LogCandidates.{natural, producer_of};

use crate::value::SharedValue;
use bytes::Bytes;

/// A place in the log.
#[derive(Clone, Copy)]
pub(crate) struct Place {
    pub partition: i32,
    pub offset: u64,
}

/// An unskipped record, as later ones are held against it.
#[derive(Drop)]
pub(crate) struct Mark {
    /// The number of its partition.
    pub partition: i32,
    pub offset: u64,
    /// Its transactional id.
    pub id: Bytes,
    /// Its producer id, where it has one of 0 or more.
    pub producer: Option<u64>,
}

fn natural(producer: i64) -> Option<u64>
    ensures { result ≡ natural producer }
{
    if producer < 0 {
        return None;
    }
    Some(producer.unsigned_abs())
}

/// The producer id of a record, where it has one of 0 or more.
pub(crate) fn producer_of(value: Option<&SharedValue>) -> Option<u64>
    ensures { result ≡ producer_of (option_copied value.entry) }
{
    match value {
        None => None,
        Some(value) => natural(value.producer()),
    }
}
