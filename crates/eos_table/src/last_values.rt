//! What a pass over a partition of the transaction log holds of the records before.

ghost use Rattle.std.specs.Prelude.{◌≡◌};
ghost use Rattle.std.specs.Option.{option_copied, option_map};
ghost use Rattle.std.specs.BTreeMap.{get};
ghost use Rattle.std.specs.Ordering.{nat_cmp};
ghost use Rattle.std.specs.Cmp.Lexicographic.{slice_cmp};
ghost use Rattle.eos_table.specs.TransactionLog.{state_of, kind_of_status, is_transaction_part};

use bytes::Bytes;
use eos_batch::Kind;
use eos_kept::Part;
use eos_txnlog::{Status, TxnValue};
use std::collections::BTreeMap;

/// The value of the last unskipped record of each transactional id of a partition; none is a tombstone.
pub type LastValues = BTreeMap<Bytes, Option<TxnValue>>;

/// The last value of this transactional id; none where it has none yet.
pub fn last_value<'a>(last: &'a LastValues, id: &Bytes) -> Option<Option<&'a TxnValue>>
    ensures { option_map option_copied result ≡ state_of last.entry.now id.now }
{
    match last.get(id) {
        None => None,
        Some(value) => Some(value.as_ref()),
    }
}

/// What a record of this status decides: a Prepare record alone decides.
pub fn kind_of_status(status: Status) -> Option<Kind>
    ensures { result ≡ kind_of_status status }
{
    match status {
        Status::PrepareCommit => Some(Kind::Commit),
        Status::PrepareAbort => Some(Kind::Abort),
        Status::Empty
        | Status::Ongoing
        | Status::CompleteCommit
        | Status::CompleteAbort
        | Status::Dead
        | Status::PrepareEpochFence => None,
    }
}

/// Whether it is a partition of the transaction log.
pub fn is_of_transaction_log(part: &Part) -> bool
    ensures { result ≡ is_transaction_part part.now }
{
    part.topic().as_slice() == b"__transaction_state".as_slice()
}
