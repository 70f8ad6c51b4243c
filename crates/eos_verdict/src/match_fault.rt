//! Where the decisions of the transaction log and the partitions' logs disagree.

ghost use Rattle.std.specs.Prelude.{◌≡◌};
ghost use Rattle.eos_verdict.specs.MatchNames.{number_of, name_of};

use eos_base::PartitionName;

/// A fault of one transaction. Of those that stand, the least counts: by producer id, epoch, kind and partition, as the
/// fields stand here.
#[derive(PartialEq, Eq, PartialOrd, Ord, Drop)]
pub struct MatchFault {
    pub producer: i64,
    /// The epoch of the transaction's data; for a marker without decision, the marker's.
    pub epoch: i16,
    pub kind: MatchFaultKind,
    /// Where it is; none where two decisions disagree.
    pub partition: Option<PartitionName>,
}

/// The kind of a fault between decisions and logs, in the order of their numbers.
#[derive(Clone, Copy, PartialEq, Eq, PartialOrd, Ord)]
pub enum MatchFaultKind {
    /// Two decisions have this producer id and data epoch.
    TwiceDecided,
    /// Transactional data of which there is no decision.
    Undecided,
    /// Transactional data that ended by a marker of another epoch or kind than was decided.
    WrongKind,
    /// Transactional data in a partition that its decision doesn't list.
    NotListed,
    /// A marker of which there is no decision that lists its partition.
    StrayMarker,
    /// A decision lists a partition that is no evidence.
    AbsentPartition,
    /// A listed partition doesn't have the decision's marker.
    MissingMarker,
}

impl MatchFaultKind {
    /// The kind's number, from 1 to 7, by which kinds are ordered.
    pub fn number(self) -> u8
        ensures { result ≡ number_of self }
    {
        match self {
            MatchFaultKind::TwiceDecided => 1,
            MatchFaultKind::Undecided => 2,
            MatchFaultKind::WrongKind => 3,
            MatchFaultKind::NotListed => 4,
            MatchFaultKind::StrayMarker => 5,
            MatchFaultKind::AbsentPartition => 6,
            MatchFaultKind::MissingMarker => 7,
        }
    }

    /// The kind's name, as a verdict prints it.
    pub fn name(self) -> &'static str
        ensures { result.now ≡ name_of self }
    {
        match self {
            MatchFaultKind::TwiceDecided => "TwiceDecided",
            MatchFaultKind::Undecided => "Undecided",
            MatchFaultKind::WrongKind => "WrongKind",
            MatchFaultKind::NotListed => "NotListed",
            MatchFaultKind::StrayMarker => "StrayMarker",
            MatchFaultKind::AbsentPartition => "AbsentPartition",
            MatchFaultKind::MissingMarker => "MissingMarker",
        }
    }
}
