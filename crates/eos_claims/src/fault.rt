//! What is wrong with the outputs of an application.

ghost use Rattle.std.specs.Prelude.{◌≡◌};
ghost use Rattle.eos_claims.specs.Faults.{number_of, name_of};

use crate::place::Place;

/// What is wrong, in the order of their numbers.
#[derive(Clone, Copy, PartialEq, Eq, PartialOrd, Ord)]
pub enum OutputKind {
    /// A claim on a record of a topic that the application doesn't read.
    ForeignSource,
    /// A claim on a place of a source topic where no visible record stands.
    NoSuchInput,
    /// A claim on an input that isn't below its committed offset.
    Early,
    /// Two claims on one input that name different numbers of outputs.
    CountDisagrees,
    /// An output number that isn't in 1 to the number of outputs, nor a note's 0 of 0.
    NumberRange,
    /// A second output of one number.
    Repeated,
    /// An input below its committed offset lacks an output.
    Missing,
    /// An output from another transaction than one that committed past its input.
    OtherTransaction,
}

impl OutputKind {
    /// The kind's number among the faults of the outputs, from 5 to 12, by which kinds are ordered.
    pub fn number(self) -> u8
        ensures { result ≡ number_of self }
    {
        match self {
            OutputKind::ForeignSource => 5,
            OutputKind::NoSuchInput => 6,
            OutputKind::Early => 7,
            OutputKind::CountDisagrees => 8,
            OutputKind::NumberRange => 9,
            OutputKind::Repeated => 10,
            OutputKind::Missing => 11,
            OutputKind::OtherTransaction => 12,
        }
    }

    /// The kind's name, as a verdict prints it.
    pub fn name(self) -> &'static str
        ensures { result.now ≡ name_of self }
    {
        match self {
            OutputKind::ForeignSource => "ForeignSource",
            OutputKind::NoSuchInput => "NoSuchInput",
            OutputKind::Early => "Early",
            OutputKind::CountDisagrees => "CountDisagrees",
            OutputKind::NumberRange => "NumberRange",
            OutputKind::Repeated => "Repeated",
            OutputKind::Missing => "Missing",
            OutputKind::OtherTransaction => "OtherTransaction",
        }
    }
}

/// A fault of the outputs. Of those that stand, the least counts: by input, output number, kind and place of the claim, as the
/// fields stand here.
#[derive(Clone, PartialEq, Eq, PartialOrd, Ord, Drop)]
pub struct OutputFault {
    /// The input that is claimed, or that lacks an output.
    pub source: Place,
    /// The number of the output.
    pub output: u32,
    pub kind: OutputKind,
    /// Where the claim stands; none for an output that is missing.
    pub at: Option<Place>,
}
