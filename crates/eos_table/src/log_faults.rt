//! The faults of the transaction log, each at a place.

ghost use Rattle.std.specs.Prelude.{◌≡◌, OnOk};
ghost use Rattle.eos_table.specs.steps.LogCandidates.{fault_at, taken};

use crate::kept_faults::KeptFaults;
use crate::mark::Place;
use eos_verdict::{LogFault, LogFaultKind};
use std::alloc::AllocError;

/// What is kept of the log's faults.
pub(crate) type LogFaults = KeptFaults<LogFault>;

/// Takes up a fault at a place.
pub(crate) fn take_at(
    faults: &mut LogFaults,
    place: Place,
    kind: LogFaultKind,
) -> Result<(), AllocError>
    ensures { OnOk result (faults.new ≡ taken faults.old (fault_at place.partition place.offset kind)) }
{
    faults.take(LogFault {
        partition: place.partition,
        offset: place.offset,
        kind,
    })
}
