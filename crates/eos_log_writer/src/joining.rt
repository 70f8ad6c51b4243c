//! Which records stand in one batch.

ghost use Rattle.std.specs.Prelude.{◌≡◌, ◌+◌};
ghost use Rattle.eos_machine.specs.Grouping.{is_fed, is_output, is_offset, goes_on, joining};

use eos_machine::Item;

fn is_fed(item: &Item) -> bool
    ensures { result ≡ is_fed item.now }
{
    match item {
        Item::Fed { .. } => true,
        _ => false,
    }
}

/// Whether an item is the output of an application that comes after the one of this sequence.
fn follows_output(of: usize, in_epoch: u16, after: u32, item: &Item) -> bool
    ensures { result ≡ is_output of in_epoch (after + 1) item.now }
{
    match item {
        Item::Output {
            application,
            epoch,
            sequence,
            ..
        } => *application == of && (*epoch == in_epoch && after.checked_add(1) == Some(*sequence)),
        _ => false,
    }
}

/// Whether an item is an offset that the application commits in this epoch.
fn is_offset(of: usize, in_epoch: u16, item: &Item) -> bool
    ensures { result ≡ is_offset of in_epoch item.now }
{
    match item {
        Item::Offset {
            application,
            epoch,
            ..
        } => *application == of && *epoch == in_epoch,
        _ => false,
    }
}

/// Whether an item may stand in a batch behind another.
fn goes_on(before: &Item, item: &Item) -> bool
    ensures { result ≡ goes_on before.now item.now }
{
    match before {
        Item::Fed { .. } => is_fed(item),
        Item::State { .. } => false,
        Item::Output {
            application,
            epoch,
            sequence,
            ..
        } => follows_output(*application, *epoch, *sequence, item),
        Item::Offset {
            application,
            epoch,
            ..
        } => is_offset(*application, *epoch, item),
        Item::Marker { .. } => false,
    }
}

/// How many of these stand in a batch behind the one before them, where so many more may.
pub(crate) fn joining(room: usize, first: &Item, more: &[Item]) -> usize
    ensures { result ≡ joining room first.now more.now }
{
    let mut last = first;
    for i in 0..more.len() {
        if i == room || !goes_on(last, &more[i]) {
            return i;
        }
        last = &more[i];
    }
    more.len()
}
