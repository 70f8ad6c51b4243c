//! Where a transactional id stands.

ghost use Rattle.std.specs.Prelude.{◌≡◌, IfSome};
ghost use Rattle.eos_txnlog.specs.Status.{status_number, status_of, is_open, is_prepare};
ghost use Rattle.eos_txnlog.specs.Skips.{means_nothing};

/// The state of a transactional id, in the order of Kafka's numbers, from 0.
#[derive(Clone, Copy)]
pub enum Status {
    Empty,
    Ongoing,
    PrepareCommit,
    PrepareAbort,
    CompleteCommit,
    CompleteAbort,
    /// The id has expired. It means nothing here.
    Dead,
    /// An epoch is being fenced. It means nothing here.
    PrepareEpochFence,
}

impl Status {
    /// Whether a record of this status decides a transaction.
    pub fn is_prepare(self) -> bool
        ensures { result ≡ is_prepare self }
    {
        matches!(self, Status::PrepareCommit | Status::PrepareAbort)
    }

    /// Whether a transaction is left unfinished by a record of this status: it goes on, or its end isn't written yet.
    pub fn is_open(self) -> bool
        ensures { result ≡ is_open self }
    {
        self == Status::Ongoing || self.is_prepare()
    }

    /// Whether a record of this status means nothing here.
    pub fn means_nothing(self) -> bool
        ensures { result ≡ means_nothing self }
    {
        matches!(self, Status::Dead | Status::PrepareEpochFence)
    }

    /// The status of a number, where it has one.
    pub fn from_number(number: i8) -> Option<Status>
        ensures status { result ≡ status_of number }
        ensures number { IfSome result (λ status. status_number status ≡ number) }
    {
        match number {
            0 => Some(Status::Empty),
            1 => Some(Status::Ongoing),
            2 => Some(Status::PrepareCommit),
            3 => Some(Status::PrepareAbort),
            4 => Some(Status::CompleteCommit),
            5 => Some(Status::CompleteAbort),
            6 => Some(Status::Dead),
            7 => Some(Status::PrepareEpochFence),
            _ => None,
        }
    }

    /// Its number.
    pub(crate) fn number(self) -> i8
        ensures { result ≡ status_number self }
    {
        match self {
            Status::Empty => 0,
            Status::Ongoing => 1,
            Status::PrepareCommit => 2,
            Status::PrepareAbort => 3,
            Status::CompleteCommit => 4,
            Status::CompleteAbort => 5,
            Status::Dead => 6,
            Status::PrepareEpochFence => 7,
        }
    }
}
