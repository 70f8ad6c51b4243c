//! Whether the end of a partition of the transaction log leaves nothing unfinished, by one walk over its transactional ids.

ghost use Rattle.std.specs.Prelude.{◌≡◌, true, false};
ghost use Rattle.eos_table.specs.TransactionLog.{Id, flat, state_of, is_unfinished};

use crate::value::{SharedValue, SharedValues};
use bytes::Bytes;

fn is_unfinished(value: &Option<SharedValue>) -> bool
    ensures { result ≡ is_unfinished value.now }
{
    match value {
        None => false,
        Some(value) => value.status().is_open(),
    }
}

/// Whether no transaction goes on, and the end of each is written.
pub(crate) fn are_settled(last: &SharedValues) -> bool
    ensures { result ≡ true → (id : Id) → is_unfinished (flat (state_of last.now id)) ≡ false }
{
    let mut rest = last.iter();
    while let Some((_, value)) = rest.next() {
        if is_unfinished(value) {
            return false;
        }
    }
    true
}

/// Whether a transaction of this id goes on, or its end isn't written.
pub(crate) fn is_open(last: &SharedValues, id: &Bytes) -> bool
    ensures { result ≡ is_unfinished (flat (state_of last.now id.now)) }
{
    match last.get(id) {
        Some(Some(value)) => value.status().is_open(),
        _ => false,
    }
}
