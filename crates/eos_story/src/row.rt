//! A row of a story.

ghost use Rattle.std.specs.Option.{option_copied};
ghost use Rattle.std.specs.Prelude.{◌≡◌, OnOk};
ghost use Rattle.eos_story.specs.Names.{name_in};
ghost use Rattle.eos_story.specs.Rows.{IsTrue};
ghost use Rattle.eos_story.specs.steps.Seen.{AreTrue, OfAllSeen};
ghost use Rattle.eos_story.specs.steps.Telling.{IsNext};

use crate::headers::HeaderName;
use crate::scene::Scene;
use bytes::Bytes;
use eos_base::{Listed, PartitionName};
use eos_claims::Place;
use eos_sought::{Find, Placed, Sought, Wanted};
use std::alloc::AllocError;

/// A place in the logs and its role, or that nothing has it.
#[derive(Drop)]
pub enum Row {
    /// A data record that is sought, and the batch that holds it.
    Record {
        sought: Sought,
        find: Find,
        spot: Option<Placed>,
    },
    /// No data record is sought so.
    NoRecord {
        sought: Sought,
    },
    /// There are so many data records that are sought so, of which these are shown.
    MoreRecords {
        shown: u64,
        all: u64,
        sought: Sought,
    },
    /// A batch of this partition that is wanted.
    Batch {
        partition: PartitionName,
        wanted: Wanted,
        placed: Placed,
    },
    /// The first batch of this partition that is wanted, or that there is none.
    First {
        partition: PartitionName,
        wanted: Wanted,
        placed: Option<Placed>,
    },
    /// There are so many batches of this partition that are wanted, of which these are shown.
    MoreBatches {
        partition: PartitionName,
        wanted: Wanted,
        shown: u64,
        all: u64,
    },
    /// The record that is sought lists so many partitions, of which these are shown.
    MorePartitions {
        shown: u64,
        all: u64,
        sought: Sought,
    },
    /// A segment of this partition: its name and its size.
    Segment {
        partition: PartitionName,
        base: u64,
        size: u64,
    },
    /// This partition has so many segments, of which these are shown.
    MoreSegments {
        partition: PartitionName,
        shown: u64,
        all: u64,
    },
    /// Where this partition is declared to end.
    End {
        partition: PartitionName,
        end: i64,
    },
    /// The values under a name in the headers of the record of this place.
    Header {
        place: Place,
        name: HeaderName,
        values: Listed<Option<Bytes>>,
    },
}

/// The partition that a row names, in which what it says is looked up; none where it is of no partition.
pub fn name_in(row: &Row) -> Option<&PartitionName>
    ensures { option_copied result ≡ name_in row.now }
{
    match row {
        Row::Record { find, .. } => Some(&find.partition),
        Row::Batch { partition, .. }
        | Row::First { partition, .. }
        | Row::MoreBatches { partition, .. }
        | Row::Segment { partition, .. }
        | Row::MoreSegments { partition, .. }
        | Row::End { partition, .. } => Some(partition),
        Row::Header { place, .. } => Some(&place.partition),
        Row::NoRecord { .. } | Row::MoreRecords { .. } | Row::MorePartitions { .. } => None,
    }
}

/// Puts a row at the end that says what is so.
pub(crate) fn add_row(scene: &Scene<'_>, rows: &mut Vec<Row>, row: Row) -> Result<(), AllocError>
    requires { OfAllSeen scene.now (λ ps. IsTrue ps scene.now.logs.now row) }
    ensures are { AreTrue scene.now rows.old.items → OnOk result (AreTrue scene.now rows.new.items) }
    ensures next { OnOk result (IsNext rows.old.items row rows.new.items) }
{
    rows.push(row)?;
    Ok(())
}
