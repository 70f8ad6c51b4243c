//! Rows of decisions: what was decided of a transaction, and which of its partitions have its marker and its data.

ghost use Rattle.std.specs.Prelude.{◌≡◌, ◌<◌, ◌++◌, ◌∷◌, [], IfOk, OnOk, length, map, slice_get, take};
ghost use Rattle.std.specs.Option.{option_map};
ghost use Rattle.eos_sought.specs.Finds.{all_of};
ghost use Rattle.eos_story.specs.Listings.{names_of, names_in, listed_by, epoch_after, epoch_before};
ghost use Rattle.eos_base.specs.declared.partition_name.PartitionName.{PartitionName as Name};
ghost use Rattle.eos_story.specs.Questions.{FirstBatch, rest_listed, in_each, listing, last_of, listed_open, lister, markers_of, decision};
ghost use Rattle.eos_story.specs.Rows.{AreListed};
ghost use Rattle.eos_story.specs.steps.Telling.{TellsEach};
ghost use Rattle.std.specs.Prelude.{Some};

use crate::batches::push_first;
use crate::records::{first_found, push_records};
use crate::row::{Row, add_row};
use crate::scene::Scene;
use crate::slices::from_on;
use bytes::Bytes;
use eos_base::PartitionName;
use eos_sought::{Find, Sought, Wanted, find_records, state_of};
use eos_txnlog::{TopicPartitions, TxnValue};
use std::alloc::{AllocError, Global};

/// How many partitions of a transaction are told of.
const MOST: usize = 6;

/// The epoch of the end markers behind data of this epoch; the greatest has none after it.
pub fn epoch_after(epoch: i16) -> i16
    ensures { result ≡ epoch_after epoch }
{
    if epoch < 32767 { epoch + 1 } else { epoch }
}

/// The epoch of data before end markers of this epoch; the least has none before it.
pub(crate) fn epoch_before(epoch: i16) -> i16
    ensures { result ≡ epoch_before epoch }
{
    if epoch > -32768 { epoch - 1 } else { epoch }
}

fn push_topic(names: &mut Vec<PartitionName>, topic: &TopicPartitions) -> Result<(), AllocError>
    ensures { OnOk result (names.new.items ≡ names.old.items ++ names_of topic.now) }
{
    let numbers = topic.numbers.as_slice();
    for number in numbers {
        names.push(PartitionName {
            topic: topic.topic.clone()?,
            partition: *number,
        })?;
    }
    Ok(())
}

fn names_in(alloc: Global, state: &TxnValue) -> Result<Vec<PartitionName>, AllocError>
    ensures { IfOk result (λ names. names.items ≡ names_in (Some state.now)) }
{
    let mut names = Vec::new(alloc);
    let topics = state.partitions.as_slice();
    for topic in topics {
        push_topic(&mut names, topic)?;
    }
    Ok(names)
}

pub(crate) fn bytes_of(value: &Option<Bytes>) -> Option<&[u8]>
    ensures { option_map (λ s. s.now) result ≡ value.now }
{
    match value {
        None => None,
        Some(bytes) => Some(bytes.as_slice()),
    }
}

pub(crate) fn listed_by(alloc: Global, find: &Find) -> Result<Vec<PartitionName>, AllocError>
    ensures { IfOk result (λ names. names.items ≡ listed_by (Some find.now)) }
{
    match state_of(alloc, bytes_of(&find.item.value))? {
        None => Ok(Vec::new(alloc)),
        Some(state) => names_in(alloc, &state),
    }
}

/// The partitions that the first of these records lists.
fn listed(alloc: Global, finds: &[Find]) -> Result<Vec<PartitionName>, AllocError>
    ensures { IfOk result (λ names. names.items ≡ listed_by (slice_get finds.now 0)) }
{
    if finds.is_empty() {
        return Ok(Vec::new(alloc));
    }
    listed_by(alloc, &finds[0])
}

/// Of each of these partitions, six at most, the first batch that is wanted.
pub(crate) fn push_each(
    scene: &Scene<'_>,
    rows: &mut Vec<Row>,
    names: &[PartitionName],
    wanted: Wanted,
) -> Result<(), AllocError>
    ensures { OnOk result (TellsEach scene.now rows.old.items rows.new.items (map (λ (name : Name). FirstBatch name wanted) (take 6 names.now))) }
{
    let first = &names[..MOST.min(names.len())];
    for name in first {
        push_first(scene, rows, name, wanted)?;
    }
    Ok(())
}

/// How many partitions the record that is sought lists, where there are more than are told of.
fn push_rest(
    scene: &Scene<'_>,
    rows: &mut Vec<Row>,
    sought: Sought,
    all: usize,
) -> Result<(), AllocError>
    requires { 6 < all → AreListed scene.now.logs.now sought all }
    ensures { OnOk result (TellsEach scene.now rows.old.items rows.new.items (rest_listed sought all)) }
{
    if all <= MOST {
        drop(sought);
        return Ok(());
    }
    add_row(
        scene,
        rows,
        Row::MorePartitions {
            shown: MOST as u64,
            all: all as u64,
            sought,
        },
    )?;
    Ok(())
}

/// Of each of these partitions, which the record that is sought lists, the first batch that is wanted, and how many more there are.
fn push_listed(
    scene: &Scene<'_>,
    rows: &mut Vec<Row>,
    sought: Sought,
    names: &[PartitionName],
    wanted: Wanted,
) -> Result<(), AllocError>
    requires { 6 < length names.now → AreListed scene.now.logs.now sought (length names.now) }
    ensures { OnOk result (TellsEach scene.now rows.old.items rows.new.items (in_each sought wanted names.now)) }
{
    match push_each(scene, rows, names, wanted) {
        Ok(()) => {
            push_rest(scene, rows, sought, names.len())?;
            Ok(())
        }
        Err(fault) => {
            drop(sought);
            Err(fault)
        }
    }
}

/// The decision whose markers have this producer id and epoch, if there is one.
fn decision_of(scene: &Scene<'_>, producer: i64, epoch: i16) -> Result<Vec<Find>, AllocError>
    ensures { IfOk result (λ found. slice_get found.items 0 ≡ decision producer epoch scene.now.logs.now) }
{
    first_found(scene, Sought::Deciding { producer, epoch })
}

/// The partitions that it lists.
pub(crate) fn decided_names(
    scene: &Scene<'_>,
    producer: i64,
    epoch: i16,
) -> Result<Vec<PartitionName>, AllocError>
    ensures { IfOk result (λ names. names.items ≡ listed_by (decision producer epoch scene.now.logs.now)) }
{
    let found = decision_of(scene, producer, epoch)?;
    listed(scene.alloc, found.as_slice())
}

/// Adds the decision whose markers have this producer id and epoch, and of each partition that it lists the marker, or that there
/// is none, and the first data of the epoch before; of both, how many more partitions there are.
pub(crate) fn push_listing(
    scene: &Scene<'_>,
    rows: &mut Vec<Row>,
    producer: i64,
    epoch: i16,
) -> Result<(), AllocError>
    ensures { OnOk result (TellsEach scene.now rows.old.items rows.new.items (listing scene.now.logs.now producer epoch)) }
{
    push_records(scene, rows, Sought::Deciding { producer, epoch }, 1)?;
    let names = decided_names(scene, producer, epoch)?;
    let marking = Wanted::Marking { producer, epoch };
    let decided = Sought::Deciding { producer, epoch };
    push_listed(scene, rows, decided, names.as_slice(), marking)?;
    let data = Wanted::Data {
        producer,
        epoch: epoch_before(epoch),
    };
    let decided = Sought::Deciding { producer, epoch };
    push_listed(scene, rows, decided, names.as_slice(), data)?;
    Ok(())
}

/// The partitions that the last of the records that are sought lists.
fn listed_last(scene: &Scene<'_>, sought: &Sought) -> Result<Vec<PartitionName>, AllocError>
    ensures { IfOk result (λ names. names.items ≡ listed_by (last_of sought.now scene.now.logs.now)) }
{
    let count = find_records(scene.alloc, scene.logs, sought, 0)?.count;
    let finds = find_records(scene.alloc, scene.logs, sought, count)?;
    let states = finds.first.as_slice();
    let before = states.len().saturating_sub(1);
    listed(scene.alloc, from_on(states, before))
}

/// The partitions that the last state of a producer id lists.
fn last_listed(scene: &Scene<'_>, producer: i64) -> Result<Vec<PartitionName>, AllocError>
    ensures { IfOk result (λ names. names.items ≡ listed_open scene.now.logs.now producer Rattle.std.specs.Prelude.None) }
{
    let states = Sought::OfProducer(producer);
    let names = listed_last(scene, &states);
    drop(states);
    names
}

/// The partitions that the decision lists, or else those that the last state of the producer id lists.
fn listed_open(
    scene: &Scene<'_>,
    producer: i64,
    found: &[Find],
) -> Result<Vec<PartitionName>, AllocError>
    ensures { IfOk result (λ names. names.items ≡ listed_open scene.now.logs.now producer (slice_get found.now 0)) }
{
    if found.is_empty() {
        return last_listed(scene, producer);
    }
    listed_by(scene.alloc, &found[0])
}

/// The records by which the partitions of a transaction are known: the decision, or else the states of the producer id.
fn lister(producer: i64, epoch: i16, found: &[Find]) -> Sought
    ensures { result ≡ lister producer epoch (slice_get found.now 0) }
{
    if found.is_empty() {
        return Sought::OfProducer(producer);
    }
    Sought::Deciding { producer, epoch }
}

/// The records by which the partitions of the transaction are known whose end markers have this producer id and epoch, and these.
fn names_open(
    scene: &Scene<'_>,
    producer: i64,
    epoch: i16,
) -> Result<(Sought, Vec<PartitionName>), AllocError>
    ensures sought { IfOk result (λ known. known.0 ≡ lister producer epoch (decision producer epoch scene.now.logs.now)) }
    ensures names { IfOk result (λ known. known.1.items ≡ listed_open scene.now.logs.now producer (decision producer epoch scene.now.logs.now)) }
{
    let found = decision_of(scene, producer, epoch)?;
    let names = listed_open(scene, producer, found.as_slice())?;
    Ok((lister(producer, epoch, found.as_slice()), names))
}

/// Adds the decision whose markers have this producer id and epoch, and of each partition that is listed for the transaction the
/// marker, or that there is none; and how many more partitions there are.
pub(crate) fn push_markers(
    scene: &Scene<'_>,
    rows: &mut Vec<Row>,
    producer: i64,
    epoch: i16,
) -> Result<(), AllocError>
    ensures { OnOk result (TellsEach scene.now rows.old.items rows.new.items (markers_of scene.now.logs.now producer epoch)) }
{
    push_records(scene, rows, Sought::Deciding { producer, epoch }, 1)?;
    let (sought, names) = names_open(scene, producer, epoch)?;
    let marking = Wanted::Marking { producer, epoch };
    push_listed(scene, rows, sought, names.as_slice(), marking)?;
    Ok(())
}
