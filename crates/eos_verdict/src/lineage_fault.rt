//! What is wrong with the lineage of outputs.

ghost use Rattle.std.specs.Prelude.{◌≡◌};
ghost use Rattle.eos_verdict.specs.LineageNames.{phase_of, number_of, name_of};

use crate::visible_fault::VisibleFault;
use eos_claims::OutputFault;
use eos_evidence::GroupId;

/// A fault of the lineage. Of those that stand, the least counts: those of single records first, by partition and offset;
/// then those of outputs, by the application's place among the applications, the input, the output's number, the kind
/// and the place of the claim.
#[derive(PartialEq, Eq, Drop)]
pub enum LineageFault {
    /// A visible record can't be read for what it has to be.
    Record(VisibleFault),
    /// The outputs of an application aren't exact. Its group is named where there is more than one application.
    Output {
        group: Option<GroupId>,
        fault: OutputFault,
    },
}

impl LineageFault {
    /// The phase of the check that it belongs to: 4 for records, 5 for outputs.
    pub fn phase(&self) -> u8
        ensures { result ≡ phase_of self.now }
    {
        match self {
            LineageFault::Record(_) => 4,
            LineageFault::Output { .. } => 5,
        }
    }

    /// The kind's number in its phase: 1 to 4 for records, 5 to 12 for outputs.
    pub fn number(&self) -> u8
        ensures { result ≡ number_of self.now }
    {
        match self {
            LineageFault::Record(fault) => fault.kind.number(),
            LineageFault::Output { fault, .. } => fault.kind.number(),
        }
    }

    /// The kind's name, as a verdict prints it.
    pub fn name(&self) -> &'static str
        ensures { result.now ≡ name_of self.now }
    {
        match self {
            LineageFault::Record(fault) => fault.kind.name(),
            LineageFault::Output { fault, .. } => fault.kind.name(),
        }
    }
}
