//! Equal values, which share the bytes.

ghost use Rattle.std.specs.Prelude.{◌≡◌, IfOk};

use bytes::Bytes;
use eos_base::PartitionName;
use eos_claims::Place;
use eos_fold::Item;
use eos_sought::{Find, Sought};
use std::alloc::AllocError;

pub(crate) fn copy_bytes(bytes: &Bytes) -> Result<Bytes, AllocError>
    ensures { IfOk result (λ copy. copy ≡ bytes.now) }
{
    bytes.clone()
}

pub(crate) fn copy_name(name: &PartitionName) -> Result<PartitionName, AllocError>
    ensures { IfOk result (λ copy. copy ≡ name.now) }
{
    name.clone()
}

pub(crate) fn copy_place(place: &Place) -> Result<Place, AllocError>
    ensures { IfOk result (λ copy. copy ≡ place.now) }
{
    place.clone()
}

fn copy_item(item: &Item) -> Result<Item, AllocError>
    ensures { IfOk result (λ copy. copy ≡ item.now) }
{
    Ok(Item {
        offset: item.offset,
        fate: item.fate,
        writer: item.writer,
        key: item.key.clone()?,
        value: item.value.clone()?,
        headers: item.headers.clone()?,
    })
}

pub(crate) fn copy_find(find: &Find) -> Result<Find, AllocError>
    ensures { IfOk result (λ copy. copy ≡ find.now) }
{
    Ok(Find {
        partition: copy_name(&find.partition)?,
        item: copy_item(&find.item)?,
    })
}

pub(crate) fn copy_sought(sought: &Sought) -> Result<Sought, AllocError>
    ensures { IfOk result (λ copy. copy ≡ sought.now) }
{
    match sought {
        Sought::At(place) => Ok(Sought::At(copy_place(place)?)),
        Sought::Claiming(place) => Ok(Sought::Claiming(copy_place(place)?)),
        Sought::Hidden(place) => Ok(Sought::Hidden(copy_place(place)?)),
        Sought::Alike { place, output } => Ok(Sought::Alike {
            place: copy_place(place)?,
            output: *output,
        }),
        Sought::OfId(id) => Ok(Sought::OfId(id.clone()?)),
        Sought::Before { id, place } => Ok(Sought::Before {
            id: id.clone()?,
            place: copy_place(place)?,
        }),
        Sought::OfProducer(producer) => Ok(Sought::OfProducer(*producer)),
        Sought::Within(epochs) => Ok(Sought::Within(*epochs)),
        Sought::Deciding { producer, epoch } => Ok(Sought::Deciding {
            producer: *producer,
            epoch: *epoch,
        }),
        Sought::OfGroup(group) => Ok(Sought::OfGroup(group.clone()?)),
        Sought::Passing { group, place } => Ok(Sought::Passing {
            group: group.clone()?,
            place: copy_place(place)?,
        }),
        Sought::UpTo { group, place } => Ok(Sought::UpTo {
            group: group.clone()?,
            place: copy_place(place)?,
        }),
        Sought::Passed(place) => Ok(Sought::Passed(copy_place(place)?)),
    }
}
