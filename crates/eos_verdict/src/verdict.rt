//! What the checker answers.

ghost use Rattle.std.specs.Prelude.{◌≡◌};
ghost use Rattle.eos_verdict.specs.VerdictNames.{phase_of, number_of, name_of};

use crate::lineage_fault::LineageFault;
use crate::log_fault::LogFault;
use crate::match_fault::MatchFault;
use eos_touch::PartitionFault;

/// How much was checked.
#[derive(Clone, Copy, PartialEq, Eq)]
pub struct Counts {
    /// The transactions, committed or aborted.
    pub transactions: u64,
    /// The inputs below their committed offsets, once for each application that reads them.
    pub inputs: u64,
    /// The visible outputs. A note, which says that its input has none, is no output.
    pub outputs: u64,
}

/// The first fault. Its phases are looked at one after the other; a phase counts only where those before it have no fault.
#[derive(PartialEq, Eq, Drop)]
pub enum Fault {
    /// Phase 1: a partition's log by itself.
    Partition(PartitionFault),
    /// Phase 2: the transaction log.
    Log(LogFault),
    /// Phase 3: the decisions of the transaction log against the partitions' logs.
    Match(MatchFault),
    /// Phases 4 and 5: single records, and the outputs of the applications.
    Lineage(LineageFault),
}

impl Fault {
    /// The number of its phase, from 1 to 5.
    pub fn phase(&self) -> u8
        ensures { result ≡ phase_of self.now }
    {
        match self {
            Fault::Partition(_) => 1,
            Fault::Log(_) => 2,
            Fault::Match(_) => 3,
            Fault::Lineage(fault) => fault.phase(),
        }
    }

    /// The number of its kind in its phase.
    pub fn number(&self) -> u8
        ensures { result ≡ number_of self.now }
    {
        match self {
            Fault::Partition(fault) => fault.kind.number(),
            Fault::Log(fault) => fault.kind.number(),
            Fault::Match(fault) => fault.kind.number(),
            Fault::Lineage(fault) => fault.number(),
        }
    }

    /// The name of its kind.
    pub fn name(&self) -> &'static str
        ensures { result.now ≡ name_of self.now }
    {
        match self {
            Fault::Partition(fault) => fault.kind.name(),
            Fault::Log(fault) => fault.kind.name(),
            Fault::Match(fault) => fault.kind.name(),
            Fault::Lineage(fault) => fault.name(),
        }
    }
}

/// Was the promise of exactly once kept?
#[derive(PartialEq, Eq, Drop)]
pub enum Verdict {
    Yes(Counts),
    No(Fault),
}
