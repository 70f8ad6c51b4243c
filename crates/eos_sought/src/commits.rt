//! The commits of groups.

ghost use Rattle.std.specs.Prelude.{◌≡◌, IfOk};
ghost use Rattle.std.specs.Option.{option_map};
ghost use Rattle.eos_offsets.specs.Views.{plain_key};
ghost use Rattle.eos_sought.specs.Passing.{is_commit, group_in, is_key_of, names_place, is_key_past, goes_past, is_of_group, is_passed, is_up_to, passes};

use crate::reading::{is_of, is_same};
use bytes::Bytes;
use eos_claims::Place;
use eos_kept::{ItemRef, Part};
use eos_offsets::{KeyRef, view_key, view_value};
use std::alloc::{AllocError, Global};

/// The group of a key of a commit, if it is one.
///
/// # Errors
/// Only want of memory.
pub fn group_of(alloc: Global, key: Option<&[u8]>) -> Result<Option<Bytes>, AllocError>
    ensures { IfOk result (λ group. group ≡ group_in (option_map (λ s. s.now) key.entry)) }
{
    let Some(key) = key else {
        return Ok(None);
    };
    match view_key(key) {
        Ok(Some(key)) => Ok(Some(Bytes::copy_from_slice(alloc, key.group)?)),
        Ok(None) => Ok(None),
        Err(_) => Ok(None),
    }
}

/// Whether a partition is of the offsets log.
pub fn is_of_offsets_log(part: &Part) -> bool
    ensures { result ≡ is_commit part.now }
{
    is_of(part, b"__consumer_offsets".as_slice())
}

fn is_key_of(group: &[u8], key: Option<&[u8]>) -> bool
    ensures { result ≡ is_key_of group.now (option_map (λ s. s.now) key.entry) }
{
    let Some(key) = key else {
        return false;
    };
    match view_key(key) {
        Ok(Some(key)) => is_same(key.group, group),
        Ok(None) => false,
        Err(_) => false,
    }
}

fn names_place(place: &Place, key: &KeyRef<'_>) -> bool
    ensures { result ≡ names_place place.now (plain_key key.now) }
{
    let name = &place.partition;
    is_same(key.topic, name.topic.as_slice()) && key.partition == name.partition
}

fn is_key_past(place: &Place, key: Option<&[u8]>) -> bool
    ensures { result ≡ is_key_past place.now (option_map (λ s. s.now) key.entry) }
{
    let Some(key) = key else {
        return false;
    };
    match view_key(key) {
        Ok(Some(key)) => names_place(place, &key),
        Ok(None) => false,
        Err(_) => false,
    }
}

fn goes_past(place: &Place, value: Option<&[u8]>) -> bool
    ensures { result ≡ goes_past place.now (option_map (λ s. s.now) value.entry) }
{
    let Some(value) = value else {
        return false;
    };
    match view_value(value) {
        Ok(offset) => offset > 0 && offset.unsigned_abs() > place.offset,
        Err(_) => false,
    }
}

/// Whether a record is a commit of this group.
pub(crate) fn is_of_group(group: &[u8], part: &Part, item: &ItemRef<'_>) -> bool
    ensures { result ≡ is_of_group group.now part.now item.now }
{
    is_of_offsets_log(part) && is_key_of(group, item.key())
}

/// Whether a record is a commit of any group that goes past an input.
pub(crate) fn is_passed(place: &Place, part: &Part, item: &ItemRef<'_>) -> bool
    ensures { result ≡ is_passed place.now part.now item.now }
{
    is_of_offsets_log(part) && is_key_past(place, item.key()) && goes_past(place, item.value())
}

/// Whether a record is a commit of this group that goes past an input.
pub fn passes(group: &[u8], place: &Place, part: &Part, item: &ItemRef<'_>) -> bool
    ensures { result ≡ passes group.now place.now part.now item.now }
{
    is_of_group(group, part, item) && is_passed(place, part, item)
}

/// Whether a record is a commit of this group, of the input's partition, that doesn't go past the input.
pub(crate) fn is_up_to(group: &[u8], place: &Place, part: &Part, item: &ItemRef<'_>) -> bool
    ensures { result ≡ is_up_to group.now place.now part.now item.now }
{
    is_of_group(group, part, item)
        && is_key_past(place, item.key())
        && !goes_past(place, item.value())
}
