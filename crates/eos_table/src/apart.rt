//! Whether the unskipped records of the transaction log stand apart: each transactional id in one partition, each producer id with one
//! transactional id. In a log that keeps its rule they do, and one look-up for a record tells it.

ghost use Rattle.std.specs.Prelude.{◌≡◌, ℕ, List, ◌∷◌, [], ◌++◌, true, Some, None, cond, IfOk, OnOk};
ghost use Rattle.std.specs.Ordering.{nat_cmp, is_eq};
ghost use Rattle.eos_table.specs.declared.mark.Mark.{Mark};
ghost use Rattle.eos_table.specs.steps.Doubled.{doubled_at};
ghost use Rattle.eos_table.specs.steps.Apart.{owner_at, owner_of, IsHome, Fits};

use crate::mark::Mark;
use bytes::Bytes;
use std::alloc::AllocError;
use std::collections::BTreeMap;

/// The transactional id of a producer id, and its partition.
#[derive(Drop)]
pub(crate) struct Owner {
    pub id: Bytes,
    pub partition: i32,
}

/// The transactional id of each producer id.
pub(crate) type Owners = BTreeMap<u64, Owner>;

/// The partition of each transactional id.
pub(crate) type Homes = BTreeMap<Bytes, i32>;

fn is_of(owner: &Owner, mark: &Mark) -> bool
    ensures id { result ≡ true → owner.now.id ≡ mark.now.id }
    ensures partition { result ≡ true → owner.now.partition ≡ mark.now.partition }
{
    owner.partition == mark.partition && owner.id == mark.id
}

fn is_in(home: &i32, mark: &Mark) -> bool
    ensures { result ≡ true → home.now ≡ mark.now.partition }
{
    *home == mark.partition
}

/// Whether the record is in the partition of its id, which is this one where it has none yet.
fn is_at_home(homes: &mut Homes, mark: &Mark) -> Result<bool, AllocError>
    ensures { IfOk result (λ yes. yes ≡ true → IsHome homes.old homes.new mark.now) }
{
    match homes.get(&mark.id) {
        Some(home) => Ok(is_in(home, mark)),
        None => {
            let key = mark.id.clone()?;
            homes.insert(key, mark.partition)?;
            Ok(true)
        }
    }
}

/// Puts down that the producer id is that of the record's id.
fn add_owner(owners: &mut Owners, producer: u64, mark: &Mark) -> Result<(), AllocError>
    ensures { OnOk result ((p : ℕ) → owner_at owners.new p ≡ cond (is_eq (nat_cmp producer p)) (Some (owner_of mark.now)) (owner_at owners.old p)) }
{
    let owner = Owner {
        id: mark.id.clone()?,
        partition: mark.partition,
    };
    owners.insert(producer, owner)?;
    Ok(())
}

/// Takes up the first record of this producer id, and tells whether it stands apart from those before.
fn take_first(
    owners: &mut Owners,
    homes: &mut Homes,
    producer: u64,
    mark: &Mark,
) -> Result<bool, AllocError>
    ensures { (before : List Mark) → mark.now.producer ≡ Some producer → owner_at owners.old producer ≡ None → Fits owners.old homes.old before
        → IfOk result (λ yes. yes ≡ true → Fits owners.new homes.new (before ++ mark.now ∷ []) × (doubled_at before mark.now ≡ [])) }
{
    if !is_at_home(homes, mark)? {
        return Ok(false);
    }
    add_owner(owners, producer, mark)?;
    Ok(true)
}

/// Takes up a record of this producer id, and tells whether it stands apart from those before.
fn take_owned(
    owners: &mut Owners,
    homes: &mut Homes,
    producer: u64,
    mark: &Mark,
) -> Result<bool, AllocError>
    ensures { (before : List Mark) → mark.now.producer ≡ Some producer → Fits owners.old homes.old before
        → IfOk result (λ yes. yes ≡ true → Fits owners.new homes.new (before ++ mark.now ∷ []) × (doubled_at before mark.now ≡ [])) }
{
    match owners.get(&producer) {
        Some(owner) => Ok(is_of(owner, mark)),
        None => take_first(owners, homes, producer, mark),
    }
}

/// Takes up a record, and tells whether it stands apart from those before.
pub(crate) fn take_mark(
    owners: &mut Owners,
    homes: &mut Homes,
    mark: &Mark,
) -> Result<bool, AllocError>
    ensures { (before : List Mark) → Fits owners.old homes.old before
        → IfOk result (λ yes. yes ≡ true → Fits owners.new homes.new (before ++ mark.now ∷ []) × (doubled_at before mark.now ≡ [])) }
{
    match mark.producer {
        None => is_at_home(homes, mark),
        Some(producer) => take_owned(owners, homes, producer, mark),
    }
}
