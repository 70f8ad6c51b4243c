//! The times of the records at many places, read together: each segment of a partition in which such a place lies is read once.

ghost use Rattle.std.specs.Prelude.{◌≡◌, ◌<◌, ◌≤◌, ◌∷◌, ℕ, ℤ, List, true, length, option_map, IfOk, OnOk, IfSome};
ghost use Rattle.std.specs.List.{All, Contains};
ghost use Rattle.std.specs.BTreeMap.{get};
ghost use Rattle.std.specs.Ordering.{nat_cmp};
ghost use Rattle.std.specs.declared.cmp.Ordering.TheVariants.{Equal};
ghost use Rattle.eos_claims.specs.Plain.{plain_source};
ghost use Rattle.eos_evidence.specs.declared.partition.Partition.{Partition};
ghost use Rattle.eos_source.specs.Said.{Known, known_by};
ghost use Rattle.eos_checking.specs.Dates.{IsTimeOf};
ghost use Rattle.eos_checking.specs.steps.Tables.{IsIndex, IsTable};

use crate::dates::{claim_of, name_of, record_of};
use eos_base::{PartitionName, Sorted, distinct_in_order};
use eos_check::Fault;
use eos_claims::SourceRef;
use eos_source::Source;
use eos_source_check::{Pieces, Unlisted, times_each};
use std::alloc::{AllocError, Global};
use std::cmp::Ordering;
use std::collections::BTreeMap;

/// When a record was written, in milliseconds since 1970-01-01T00:00Z.
#[derive(Clone, Copy)]
struct Moment {
    time: i64,
}

/// The times of a partition's records at some offsets, as its segments say them where they are read again.
#[derive(Drop)]
pub(crate) struct Table {
    name: PartitionName,
    offsets: Sorted<u64>,
    times: BTreeMap<u64, Moment>,
}

/// The places of the records that faults name, in their order, each once.
fn all_named<'a>(alloc: Global, faults: &'a [Fault]) -> Result<Vec<SourceRef<'a>>, AllocError> {
    let mut places = Vec::new(alloc);
    for fault in faults {
        if let Some(place) = record_of(fault) {
            places.push(place)?;
        }
        if let Some(place) = claim_of(fault) {
            places.push(place)?;
        }
    }
    Ok(distinct_in_order(places))
}

fn is_beside(one: &SourceRef<'_>, other: &SourceRef<'_>) -> bool {
    one.partition == other.partition && one.topic == other.topic
}

/// The end of the places of one partition that begin here.
fn end_of_name(places: &[SourceRef<'_>], begin: usize) -> usize
    requires { begin < length places.now }
    ensures further { begin < result }
    ensures within { result ≤ length places.now }
{
    let mut end = begin + 1;
    while end < places.len() && is_beside(&places[begin], &places[end]) {
        end += 1;
    }
    end
}

/// The offsets of these places, in order.
fn offsets_of(alloc: Global, places: &[SourceRef<'_>]) -> Result<Sorted<u64>, AllocError> {
    let mut offsets = Vec::new(alloc);
    for place in places {
        offsets.push(place.offset)?;
    }
    Ok(Sorted::of(offsets))
}

fn moment_of(time: &(u64, i64)) -> Moment
    ensures { result.time ≡ time.now.1 }
{
    Moment { time: time.1 }
}

/// Puts a time in that stands before those that are there.
fn put_time(index: &mut BTreeMap<u64, Moment>, time: &(u64, i64)) -> Result<(), AllocError>
    ensures { (behind : List (ℕ × ℤ)) → IsIndex index.old behind → OnOk result (IsIndex index.new (time.now ∷ behind)) }
{
    index.insert(time.0, moment_of(time))?;
    Ok(())
}

/// The first of these times at each offset.
fn index_of(alloc: Global, times: &[(u64, i64)]) -> Result<BTreeMap<u64, Moment>, AllocError>
    ensures { IfOk result (λ index. IsIndex index times.now) }
{
    let mut made = BTreeMap::new(alloc);
    for i in (0..times.len()).rev() {
        put_time(&mut made, &times[i])?;
    }
    Ok(made)
}

/// The times at the offsets of these places, which are of one partition.
fn table_of<S: Source>(
    alloc: Global,
    pieces: &Pieces<'_, S>,
    places: &[SourceRef<'_>],
) -> Result<Table, Unlisted<S::Fault>>
    requires { 0 < length places.now }
    ensures { IfOk result (IsTable (known_by (S.said pieces.now.source.now) (S.is_log pieces.now.source.now)) pieces.now.shape.now.partitions) }
{
    let name = name_of(alloc, places[0])?;
    let offsets = offsets_of(alloc, places)?;
    let times = times_each(alloc, pieces.source, pieces.shape, &name, &offsets)?;
    let times = index_of(alloc, times.as_slice())?;
    Ok(Table {
        name,
        offsets,
        times,
    })
}

fn tables_at<S: Source>(
    alloc: Global,
    pieces: &Pieces<'_, S>,
    places: &[SourceRef<'_>],
) -> Result<Vec<Table>, Unlisted<S::Fault>>
    ensures { IfOk result (λ tables. All (IsTable (known_by (S.said pieces.now.source.now) (S.is_log pieces.now.source.now)) pieces.now.shape.now.partitions) tables.items) }
{
    let mut tables = Vec::new(alloc);
    let mut begin = 0;
    while begin < places.len() {
        let end = end_of_name(places, begin);
        tables.push(table_of(alloc, pieces, &places[begin..end])?)?;
        begin = end;
    }
    Ok(tables)
}

/// The times of the records that faults name, by partition, in the order of names. Where one fault alone is told nothing is read together.
pub(crate) fn tables_of<S: Source>(
    alloc: Global,
    pieces: &Pieces<'_, S>,
    faults: &[Fault],
) -> Result<Vec<Table>, Unlisted<S::Fault>>
    ensures { IfOk result (λ tables. All (IsTable (known_by (S.said pieces.now.source.now) (S.is_log pieces.now.source.now)) pieces.now.shape.now.partitions) tables.items) }
{
    if faults.len() < 2 {
        return Ok(Vec::new(alloc));
    }
    let places = all_named(alloc, faults)?;
    tables_at(alloc, pieces, places.as_slice())
}

// ---- looked up

#[tactic(auto, using(crate::proofs::TablesRead::same_name))]
fn order(table: &Table, place: SourceRef<'_>) -> Ordering
    ensures { result ≡ Equal → table.now.name ≡ (plain_source place.entry).partition }
{
    table
        .name
        .topic
        .as_slice()
        .cmp(place.topic)
        .then(table.name.partition.cmp(&place.partition))
}

/// A table of the place's partition, which is found by halving.
fn table_named<'a>(tables: &'a [Table], place: SourceRef<'_>) -> Option<&'a Table>
    ensures { IfSome result (λ table. Contains tables.now table.now × (table.now.name ≡ (plain_source place.entry).partition)) }
{
    let mut low = 0;
    let mut high = tables.len();
    while low < high {
        let middle = low + (high - low) / 2;
        let table = &tables[middle];
        match order(table, place) {
            Ordering::Equal => return Some(table),
            Ordering::Less => low = middle + 1,
            Ordering::Greater => high = middle,
        }
    }
    None
}

fn is_among(offsets: &[u64], offset: u64) -> bool
    ensures { result ≡ true → Contains offsets.now offset }
{
    offsets.binary_search(&offset).is_ok()
}

fn moment_in(times: &BTreeMap<u64, Moment>, offset: u64) -> Option<Moment>
    ensures { result ≡ get nat_cmp times.now offset }
{
    times.get(&offset).copied()
}

fn time_in(times: &BTreeMap<u64, Moment>, offset: u64) -> Option<i64>
    ensures { result ≡ option_map (λ m. m.time) (get nat_cmp times.now offset) }
{
    match moment_in(times, offset) {
        None => None,
        Some(moment) => Some(moment.time),
    }
}

/// The time of the record at this place, if it was read with others.
pub(crate) fn time_told(tables: &[Table], place: SourceRef<'_>) -> Option<Option<i64>>
    ensures { (known : ℕ → Known) (partitions : List Partition) → All (IsTable known partitions) tables.now → IfSome result (IsTimeOf known partitions (plain_source place.entry)) }
{
    let Some(table) = table_named(tables, place) else {
        return None;
    };
    if !is_among(table.offsets.as_slice(), place.offset) {
        return None;
    }
    Some(time_in(&table.times, place.offset))
}
