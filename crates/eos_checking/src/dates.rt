//! When the records were written that the faults of a report name. Of what is kept of a log no times are left, so the segments in which
//! they lie are read a second time.

ghost use Rattle.std.specs.Prelude.{◌≡◌, [], false, IfOk, option_map};
ghost use Rattle.std.specs.List.{All, Contains};
ghost use Rattle.eos_claims.specs.Plain.{plain_source};
ghost use Rattle.eos_source.specs.Said.{known_by};
ghost use Rattle.eos_checking.specs.Dates.{record_of, claim_of, time_at, IsTimeOf, IsTimeIf, AreTimesOfFault, AreTimesOfFaults, AreDates};
ghost use Rattle.eos_checking.specs.steps.Tables.{IsTable};

use crate::check::Wanted;
use crate::tables::{Table, tables_of, time_told};
use bytes::Bytes;
use eos_base::{Listed, PartitionName, Sorted};
use eos_check::Fault;
use eos_claims::{Place, SourceRef};
use eos_report::{Dates, Timestamps};
use eos_source::Source;
use eos_source_check::{Pieces, Unlisted, times_each};
use eos_verdict::LineageFault;
use std::alloc::{AllocError, Global};

/// The same place, with its name lent.
fn lent(place: &Place) -> SourceRef<'_>
    ensures { plain_source result ≡ place.now }
{
    SourceRef {
        topic: place.partition.topic.as_slice(),
        partition: place.partition.partition,
        offset: place.offset,
    }
}

/// The place at which a fault stands, or of the input that it speaks of.
pub(crate) fn record_of(fault: &Fault) -> Option<SourceRef<'_>>
    ensures { option_map plain_source result ≡ record_of fault.now }
{
    match fault {
        Fault::Partition(fault) => Some(SourceRef {
            topic: fault.topic.as_slice(),
            partition: fault.partition,
            offset: fault.offset,
        }),
        Fault::Log(fault) => Some(SourceRef {
            topic: b"__transaction_state".as_slice(),
            partition: fault.partition,
            offset: fault.offset,
        }),
        Fault::Match(_) => None,
        Fault::Lineage(LineageFault::Record(fault)) => Some(SourceRef {
            topic: fault.partition.topic.as_slice(),
            partition: fault.partition.partition,
            offset: fault.offset,
        }),
        Fault::Lineage(LineageFault::Output { fault, .. }) => Some(lent(&fault.source)),
    }
}

/// The place of the record that has a fault's claim.
pub(crate) fn claim_of(fault: &Fault) -> Option<SourceRef<'_>>
    ensures { option_map plain_source result ≡ claim_of fault.now }
{
    match fault {
        Fault::Lineage(LineageFault::Output { fault, .. }) => match &fault.at {
            None => None,
            Some(place) => Some(lent(place)),
        },
        Fault::Lineage(LineageFault::Record(_)) => None,
        Fault::Partition(_) => None,
        Fault::Log(_) => None,
        Fault::Match(_) => None,
    }
}

/// The first of these times at this offset.
fn time_at(times: &[(u64, i64)], offset: u64) -> Option<i64>
    ensures { result ≡ time_at offset times.now }
{
    for time in times {
        if time.0 == offset {
            return Some(time.1);
        }
    }
    None
}

pub(crate) fn name_of(alloc: Global, place: SourceRef<'_>) -> Result<PartitionName, AllocError>
    ensures { IfOk result (λ name. name ≡ (plain_source place.entry).partition) }
{
    let topic = Bytes::copy_from_slice(alloc, place.topic)?;
    Ok(PartitionName {
        topic,
        partition: place.partition,
    })
}

#[tactic(auto, using(crate::proofs::TablesRead::alone))]
fn alone(alloc: Global, offset: u64) -> Result<Sorted<u64>, AllocError>
    ensures { IfOk result (λ offsets. Contains offsets offset) }
{
    let mut offsets = Vec::new(alloc);
    offsets.push(offset)?;
    Ok(Sorted::of(offsets))
}

/// When the record at a place was written, by a walk for it alone.
fn time_alone<S: Source>(
    alloc: Global,
    pieces: &Pieces<'_, S>,
    place: SourceRef<'_>,
) -> Result<Option<i64>, Unlisted<S::Fault>>
    ensures { IfOk result (IsTimeOf (known_by (S.said pieces.now.source.now) (S.is_log pieces.now.source.now)) pieces.now.shape.now.partitions (plain_source place.entry)) }
{
    let name = name_of(alloc, place)?;
    let offsets = alone(alloc, place.offset)?;
    let times = times_each(alloc, pieces.source, pieces.shape, &name, &offsets)?;
    Ok(time_at(times.as_slice(), place.offset))
}

/// The same, looked up where it was read with others.
fn time_of<S: Source>(
    alloc: Global,
    pieces: &Pieces<'_, S>,
    tables: &[Table],
    place: SourceRef<'_>,
) -> Result<Option<i64>, Unlisted<S::Fault>>
    requires { All (IsTable (known_by (S.said pieces.now.source.now) (S.is_log pieces.now.source.now)) pieces.now.shape.now.partitions) tables.now }
    ensures { IfOk result (IsTimeOf (known_by (S.said pieces.now.source.now) (S.is_log pieces.now.source.now)) pieces.now.shape.now.partitions (plain_source place.entry)) }
{
    match time_told(tables, place) {
        Some(time) => Ok(time),
        None => time_alone(alloc, pieces, place),
    }
}

fn time_if<S: Source>(
    alloc: Global,
    pieces: &Pieces<'_, S>,
    tables: &[Table],
    place: Option<SourceRef<'_>>,
) -> Result<Option<i64>, Unlisted<S::Fault>>
    requires { All (IsTable (known_by (S.said pieces.now.source.now) (S.is_log pieces.now.source.now)) pieces.now.shape.now.partitions) tables.now }
    ensures { IfOk result (IsTimeIf (known_by (S.said pieces.now.source.now) (S.is_log pieces.now.source.now)) pieces.now.shape.now.partitions (option_map plain_source place.entry)) }
{
    match place {
        None => Ok(None),
        Some(place) => time_of(alloc, pieces, tables, place),
    }
}

fn times_of_fault<S: Source>(
    alloc: Global,
    pieces: &Pieces<'_, S>,
    tables: &[Table],
    fault: &Fault,
) -> Result<Timestamps, Unlisted<S::Fault>>
    requires { All (IsTable (known_by (S.said pieces.now.source.now) (S.is_log pieces.now.source.now)) pieces.now.shape.now.partitions) tables.now }
    ensures { IfOk result (AreTimesOfFault (known_by (S.said pieces.now.source.now) (S.is_log pieces.now.source.now)) pieces.now.shape.now.partitions fault.now) }
{
    let own = time_if(alloc, pieces, tables, record_of(fault))?;
    let claim = time_if(alloc, pieces, tables, claim_of(fault))?;
    Ok(Timestamps { own, claim })
}

/// The times of the records that these faults name, which are read together and then told fault by fault.
fn times_of_faults<S: Source>(
    alloc: Global,
    pieces: &Pieces<'_, S>,
    faults: &[Fault],
) -> Result<Vec<Timestamps>, Unlisted<S::Fault>>
    ensures { IfOk result (λ times. AreTimesOfFaults (known_by (S.said pieces.now.source.now) (S.is_log pieces.now.source.now)) pieces.now.shape.now.partitions faults.now times.items) }
{
    let tables = tables_of(alloc, pieces, faults)?;
    let tables = tables.as_slice();
    let mut times = Vec::new(alloc);
    for fault in faults {
        times.push(times_of_fault(alloc, pieces, tables, fault)?)?;
    }
    Ok(times)
}

fn unread(alloc: Global) -> Dates
    ensures read { result.read ≡ false }
    ensures none { result.of_faults ≡ [] }
{
    Dates {
        of_faults: Listed::new(Vec::new(alloc)),
        read: false,
    }
}

/// The times of the records that these faults name, or that they can't be read.
#[tactic(auto, using(crate::proofs::Dated::are_read, crate::proofs::Dated::are_unread))]
fn dates_of<S: Source>(
    alloc: Global,
    pieces: &Pieces<'_, S>,
    faults: &[Fault],
) -> Result<Dates, AllocError>
    ensures { IfOk result (AreDates (known_by (S.said pieces.now.source.now) (S.is_log pieces.now.source.now)) pieces.now.shape.now.partitions faults.now) }
{
    match times_of_faults(alloc, pieces, faults) {
        Ok(times) => Ok(Dates {
            of_faults: Listed::new(times),
            read: true,
        }),
        Err(Unlisted::OutOfMemory) => Err(AllocError),
        Err(_) => Ok(unread(alloc)),
    }
}

/// The same where a report is wanted; else nothing is read.
#[tactic(auto, using(crate::proofs::Dated::are_unread))]
pub(crate) fn dates_if<S: Source>(
    alloc: Global,
    pieces: &Pieces<'_, S>,
    faults: &[Fault],
    wanted: Option<Wanted<'_>>,
) -> Result<Dates, AllocError>
    ensures { IfOk result (AreDates (known_by (S.said pieces.now.source.now) (S.is_log pieces.now.source.now)) pieces.now.shape.now.partitions faults.now) }
{
    match wanted {
        Some(wanted) if wanted.report => dates_of(alloc, pieces, faults),
        _ => Ok(unread(alloc)),
    }
}
