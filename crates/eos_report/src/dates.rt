//! When the records were written that faults name, in the JSON objects of these.

ghost use Rattle.std.specs.Prelude.{◌≡◌, OnOk, drop};
ghost use Rattle.eos_manifest.specs.Objects.{held};
ghost use Rattle.eos_report.specs.DatedValues.{with_timestamp, with_timestamps, first_timestamps};

use eos_base::Listed;
use eos_manifest::Object;
use eos_verdict::{Fault, LineageFault};
use std::alloc::AllocError;

/// The times of the records that a fault names, in milliseconds since 1970-01-01T00:00Z, as their batches say them: clocks lie. A record
/// whose time isn't known has none.
#[derive(Clone, Copy)]
pub struct Timestamps {
    /// Of the record at the fault's offset; of an output's fault, of the input that is its source.
    pub own: Option<i64>,
    /// Of the record that has the claim.
    pub claim: Option<i64>,
}

/// The times that a report has beside its faults' places.
#[derive(Drop)]
pub struct Dates {
    /// Those of each fault, in their order; one that stands behind the last of them has none.
    pub of_faults: Listed<Timestamps>,
    /// Whether they could be read; none else.
    pub read: bool,
}

/// Puts the times of the records in that a fault names.
#[tactic(auto, unfolding(crate::specs::DatedValues::with_timestamps))]
pub(crate) fn put_timestamps(
    out: &mut Object,
    fault: &Fault,
    times: Timestamps,
) -> Result<(), AllocError>
    ensures { OnOk result (held out.new ≡ with_timestamps fault.now times (held out.old)) }
{
    match fault {
        Fault::Partition(_) => put_timestamp(out, "timestamp", times.own),
        Fault::Log(_) => put_timestamp(out, "timestamp", times.own),
        Fault::Match(_) => Ok(()),
        Fault::Lineage(LineageFault::Record(_)) => put_timestamp(out, "timestamp", times.own),
        Fault::Lineage(LineageFault::Output { .. }) => {
            put_timestamp(out, "source_timestamp", times.own)?;
            put_timestamp(out, "at_timestamp", times.claim)
        }
    }
}

#[tactic(auto, unfolding(crate::specs::DatedValues::with_timestamp))]
fn put_timestamp(out: &mut Object, name: &str, time: Option<i64>) -> Result<(), AllocError>
    ensures { OnOk result (held out.new ≡ with_timestamp name.now time (held out.old)) }
{
    match time {
        None => Ok(()),
        Some(time) => out.put_integer(name, time),
    }
}

/// The times of the first of the faults that are left.
pub(crate) fn first_of(all: &[Timestamps]) -> Timestamps
    ensures { result ≡ first_timestamps all.now }
{
    match all.first() {
        None => Timestamps {
            own: None,
            claim: None,
        },
        Some(times) => *times,
    }
}

/// The times of the others.
pub(crate) fn rest_of(all: &[Timestamps]) -> &[Timestamps]
    ensures { result.now ≡ drop 1 all.now }
{
    if all.is_empty() {
        return all;
    }
    &all[1..]
}
