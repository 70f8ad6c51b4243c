//! The folds of the partitions that a story names, which are read again for them: each once, those that rows name by threads.

ghost use Rattle.std.specs.Prelude.{◌≡◌, ℕ, None, List, false, option_map, length, IfOk, IfErr, OnOk};
ghost use Rattle.std.specs.Option.{option_copied};
ghost use Rattle.eos_base.specs.declared.partition_name.PartitionName.{PartitionName as AName};
ghost use Rattle.eos_claims.specs.declared.place.Place.{Place as At};
ghost use Rattle.eos_evidence.specs.Evidence.{segments_of};
ghost use Rattle.eos_evidence.specs.declared.partition.Partition.{Partition};
ghost use Rattle.eos_sought.specs.Folded.{AreFolded};
ghost use Rattle.eos_sought.specs.Partitions.{partition_named};
ghost use Rattle.eos_source.specs.Said.{Known, known_by};
ghost use Rattle.eos_source_check.specs.Again.{AreFoldsNamed};
ghost use Rattle.eos_source_check.specs.Refusals.{IsUnread};
ghost use Rattle.eos_explaining.specs.steps.Again.{IsCovered, AreAbsent, AreNamedCovered, AreFoldsAt, ReadsMore, SettledIf};

use crate::named::names_left;
use eos_base::PartitionName;
use eos_claims::Place;
use eos_faults::Crew;
use eos_sought::{Folded, folded_named};
use eos_source::Source;
use eos_source_check::{Pieces, Unlisted, folds_again};
use eos_story::Row;
use std::alloc::{AllocError, Global};
use std::thread;
use std::thread::Threads;

/// Adds what was read of a partition, if it is there. Whether it is.
fn push_folds(read: &mut Vec<Folded>, folds: Option<Folded>) -> Result<bool, AllocError>
    ensures more { (known : ℕ → Known) (shapes : List Partition) (name : AName) → AreFoldsNamed known shapes name folds → OnOk result (ReadsMore known shapes read.old.items read.new.items) }
    ensures covered { (known : ℕ → Known) (shapes : List Partition) (name : AName) → AreFoldsNamed known shapes name folds → ((ps : List Partition) → AreFolded ps read.old.items → partition_named name ps ≡ None) → OnOk result (IsCovered shapes read.new.items name) }
    ensures absent { (known : ℕ → Known) (shapes : List Partition) (name : AName) → AreFoldsNamed known shapes name folds → IfOk result (λ more. more ≡ false → (read.new.items ≡ read.old.items) × (partition_named name shapes ≡ None)) }
{
    match folds {
        None => Ok(false),
        Some(folded) => {
            read.push(folded)?;
            Ok(true)
        }
    }
}

/// Reads the partition of this name, unless it was read before or there is none. Whether it was read now.
pub(crate) fn read_name<S: Source>(
    alloc: Global,
    pieces: &Pieces<'_, S>,
    read: &mut Vec<Folded>,
    name: &PartitionName,
) -> Result<bool, Unlisted<S::Fault>>
    ensures more { OnOk result (ReadsMore (known_by (S.said pieces.now.source.now) (S.is_log pieces.now.source.now)) pieces.now.shape.now.partitions read.old.items read.new.items) }
    ensures same { IfOk result (λ more. more ≡ false → read.new.items ≡ read.old.items) }
    ensures covered { OnOk result (IsCovered pieces.now.shape.now.partitions read.new.items name.now) }
    ensures unread { IfErr result (IsUnread (S.outcomes pieces.now.source.now) (length (segments_of pieces.now.shape.now.partitions))) }
{
    match folded_named(read.as_slice(), name) {
        Some(_folded) => Ok(false),
        None => {
            let folds = folds_again(alloc, pieces.source, pieces.shape, name)?;
            Ok(push_folds(read, folds)?)
        }
    }
}

/// The folds of the partition of this number among those named, as they are read now.
fn folds_at<S: Source>(
    alloc: Global,
    pieces: &Pieces<'_, S>,
    names: &[PartitionName],
    number: usize,
) -> Result<Option<Folded>, Unlisted<S::Fault>>
    ensures read { IfOk result (AreFoldsAt (known_by (S.said pieces.now.source.now) (S.is_log pieces.now.source.now)) pieces.now.shape.now.partitions names.now number) }
    ensures unread { IfErr result (IsUnread (S.outcomes pieces.now.source.now) (length (segments_of pieces.now.shape.now.partitions))) }
{
    match names.get(number) {
        None => Ok(None),
        Some(name) => folds_again(alloc, pieces.source, pieces.shape, name),
    }
}

/// Reads the partitions of these names, those that there are. Each may have a thread of its own. Whether one was read.
fn read_each<S: Source, R: Threads + Sync>(
    crew: &Crew<'_, R>,
    pieces: &Pieces<'_, S>,
    read: &mut Vec<Folded>,
    names: &[PartitionName],
) -> Result<bool, Unlisted<S::Fault>>
    ensures more { OnOk result (ReadsMore (known_by (S.said pieces.now.source.now) (S.is_log pieces.now.source.now)) pieces.now.shape.now.partitions read.old.items read.new.items) }
    ensures absent { IfOk result (λ more. more ≡ false → AreAbsent pieces.now.shape.now.partitions read.old.items read.new.items names.now) }
    ensures unread { IfErr result (IsUnread (S.outcomes pieces.now.source.now) (length (segments_of pieces.now.shape.now.partitions))) }
{
    let alloc = crew.alloc;
    let fetched = thread::map_indices(
        crew.rt,
        alloc,
        names.len(),
        &|number|
            ensures read { IfOk result (AreFoldsAt (known_by (S.said pieces.entry.now.source.now) (S.is_log pieces.entry.now.source.now)) pieces.entry.now.shape.now.partitions names.entry.now number) }
            ensures unread { IfErr result (IsUnread (S.outcomes pieces.entry.now.source.now) (length (segments_of pieces.entry.now.shape.now.partitions))) }
        { folds_at(alloc, pieces, names, number) },
    )?;
    let mut more = false;
    for folds in fetched {
        let one = push_folds(read, folds?)?;
        more = more || one;
    }
    Ok(more)
}

/// The partition in which a fault stands, if it stands in one.
fn own_name(place: Option<&Place>) -> Option<&PartitionName>
    ensures { option_copied result ≡ option_map (λ (p : At). p.partition) (option_copied place.entry) }
{
    match place {
        None => None,
        Some(place) => Some(&place.partition),
    }
}

/// Reads the partitions that a fault and these rows name, but for those that were read, as many at a time as there are threads. Whether one
/// was read.
pub(crate) fn read_named<S: Source, R: Threads + Sync>(
    crew: &Crew<'_, R>,
    pieces: &Pieces<'_, S>,
    read: &mut Vec<Folded>,
    place: Option<&Place>,
    rows: &[Row],
) -> Result<bool, Unlisted<S::Fault>>
    ensures more { OnOk result (ReadsMore (known_by (S.said pieces.now.source.now) (S.is_log pieces.now.source.now)) pieces.now.shape.now.partitions read.old.items read.new.items) }
    ensures covered { IfOk result (SettledIf read.old.items read.new.items (λ all. AreNamedCovered pieces.now.shape.now.partitions all (option_copied place.entry) rows.now)) }
    ensures unread { IfErr result (IsUnread (S.outcomes pieces.now.source.now) (length (segments_of pieces.now.shape.now.partitions))) }
{
    let names = names_left(crew.alloc, read.as_slice(), own_name(place), rows)?;
    let names = names.as_slice();
    let mut more = false;
    let mut first = 0;
    while first < names.len() {
        let count = (crew.workers.get() as usize).min(names.len() - first);
        let one = read_each(crew, pieces, read, &names[first..first + count])?;
        more = more || one;
        first += count;
    }
    Ok(more)
}
