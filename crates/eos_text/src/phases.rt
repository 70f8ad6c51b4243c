//! The pages of each phase.

ghost use Rattle.eos_text.specs.Catalogue.{partition_codes, transaction_log_codes, decision_codes, record_codes, output_codes};
ghost use Rattle.eos_text.specs.steps.Found.{ArePages};

use crate::outputs::OUTPUTS;
use crate::page::Page;
use crate::partitions::PARTITIONS;
use crate::records::RECORDS;
use crate::transactions::{DECISIONS, TRANSACTION_LOG};

/// Phase 1: a partition's log by itself.
pub(crate) fn of_partitions() -> &'static [Page]
    ensures { ArePages partition_codes result.now }
{
    PARTITIONS.as_slice()
}

/// Phase 2: the transaction log.
pub(crate) fn of_transaction_log() -> &'static [Page]
    ensures { ArePages transaction_log_codes result.now }
{
    TRANSACTION_LOG.as_slice()
}

/// Phase 3: its decisions against the logs.
pub(crate) fn of_decisions() -> &'static [Page]
    ensures { ArePages decision_codes result.now }
{
    DECISIONS.as_slice()
}

/// Phase 4: single visible records.
pub(crate) fn of_records() -> &'static [Page]
    ensures { ArePages record_codes result.now }
{
    RECORDS.as_slice()
}

/// Phase 5: the outputs.
pub(crate) fn of_outputs() -> &'static [Page]
    ensures { ArePages output_codes result.now }
{
    OUTPUTS.as_slice()
}
