//! What a visible record shows, each kind of fault by itself.

ghost use Rattle.std.specs.Prelude.{◌≡◌, is_none, option_map, IfOk, OnOk};
ghost use Rattle.eos_offsets.specs.Reading.{read_value};
ghost use Rattle.eos_claims.specs.Headers.{claim_of};
ghost use Rattle.eos_commits.specs.Commits.{key_at};
ghost use Rattle.eos_commits.specs.steps.Gathered.{role_in, nothing, refused, by_value, by_key, homes_by_key, by_commit, homes_by_commit};
ghost use Rattle.eos_commits.specs.steps.Lent.{homes_of};

use crate::homes::{Homes, enter};
use crate::roles::Roles;
use crate::visible::is_of_offsets;
use eos_base::RecordFault;
use eos_kept::{ItemRef, Part};
use eos_offsets::{view_key, view_value};
use std::alloc::AllocError;

/// What is asked of a partition's records.
#[derive(Clone, Copy)]
pub(crate) struct Role {
    /// It is of an output topic.
    pub is_output: bool,
    /// It is of the offsets log.
    pub is_offsets: bool,
    pub number: i32,
}

/// What a record of the offsets log shows.
#[derive(Clone, Copy)]
pub(crate) struct Shown {
    /// Why its key doesn't read, or its value under a key of a group and a source topic.
    pub refusal: Option<RecordFault>,
    /// Its group has a record in a lesser partition.
    pub is_split: bool,
    /// Its value is null under such a key.
    pub is_deleted: bool,
}

pub(crate) fn role_of(roles: &Roles<'_>, part: &Part) -> Role
    ensures { result ≡ role_in roles.now.outputs part.now }
{
    Role {
        is_output: roles.is_output(part.topic().as_slice()),
        is_offsets: is_of_offsets(part),
        number: part.partition(),
    }
}

fn nothing() -> Shown
    ensures { result ≡ nothing }
{
    Shown {
        refusal: None,
        is_split: false,
        is_deleted: false,
    }
}

fn refused(fault: RecordFault) -> Shown
    ensures { result ≡ refused fault }
{
    Shown {
        refusal: Some(fault),
        is_split: false,
        is_deleted: false,
    }
}

/// Under a key of a group and a source topic.
fn by_value(value: Option<&[u8]>, is_split: bool) -> Shown
    ensures { result ≡ by_value (option_map read_value (option_map (λ s. s.now) value.entry)) is_split }
{
    let Some(value) = value else {
        return Shown {
            refusal: None,
            is_split,
            is_deleted: true,
        };
    };
    Shown {
        refusal: view_value(value).err(),
        is_split,
        is_deleted: false,
    }
}

fn by_key<'a>(
    roles: &Roles<'_>,
    homes: &mut Homes<'a>,
    number: i32,
    key: Option<&'a [u8]>,
    value: Option<&[u8]>,
) -> Result<Shown, AllocError>
    ensures shown { IfOk result (λ shown. shown ≡ by_key roles.now.sources (homes_of homes.old) number (key_at (option_map (λ s. s.now) key.entry)) (option_map read_value (option_map (λ s. s.now) value.entry))) }
    ensures homes { OnOk result (homes_of homes.new ≡ homes_by_key roles.now.sources (homes_of homes.old) number (key_at (option_map (λ s. s.now) key.entry))) }
{
    let Some(key) = key else {
        return Ok(refused(RecordFault::Short));
    };
    let key = match view_key(key) {
        Err(record) => return Ok(refused(record)),
        Ok(None) => return Ok(nothing()),
        Ok(Some(key)) => key,
    };
    if !roles.is_source(key.group, key.topic) {
        return Ok(nothing());
    }
    let is_split = enter(homes, key.group, number)?;
    Ok(by_value(value, is_split))
}

/// What a visible record shows where it has to be a commit.
pub(crate) fn by_commit<'a>(
    roles: &Roles<'_>,
    homes: &mut Homes<'a>,
    role: Role,
    item: &ItemRef<'a>,
) -> Result<Shown, AllocError>
    ensures shown { IfOk result (λ shown. shown ≡ by_commit roles.now.sources role (homes_of homes.old) item.now) }
    ensures homes { OnOk result (homes_of homes.new ≡ homes_by_commit roles.now.sources role (homes_of homes.old) item.now) }
{
    if role.is_offsets {
        return by_key(roles, homes, role.number, item.key(), item.value());
    }
    Ok(nothing())
}

/// Whether the record's headers are no claim.
pub(crate) fn is_unclaimed(item: ItemRef<'_>) -> bool
    ensures { result ≡ is_none (claim_of item.entry.headers) }
{
    item.into_claim().is_none()
}
