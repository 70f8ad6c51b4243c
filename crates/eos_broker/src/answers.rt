//! The questions that a coordinator asks before it answers.

ghost use Rattle.std.specs.Prelude.{◌≡◌, ◌+◌, ◌==◌, ◌&&◌};
ghost use Rattle.eos_machine.specs.Tests.{is_ongoing, is_prepare, is_commit, is_decided, is_complete, waits_for};

use eos_batch::Kind;
use eos_machine::Status;

pub fn is_ongoing(status: Status) -> bool
    ensures { result ≡ is_ongoing status }
{
    matches!(status, Status::Ongoing)
}

pub fn is_prepare(status: Status) -> bool
    ensures { result ≡ is_prepare status }
{
    matches!(status, Status::Prepare(_))
}

pub fn is_commit(kind: Kind) -> bool
    ensures { result ≡ is_commit kind }
{
    kind == Kind::Commit
}

/// Whether an end of this kind was decided already.
pub fn is_decided(status: Status, kind: Kind) -> bool
    ensures { result ≡ is_decided status kind }
{
    match status {
        Status::Prepare(other) | Status::Complete(other) => other == kind,
        Status::Empty | Status::Ongoing => false,
    }
}

/// Whether the end markers of a transaction of this kind were all written.
pub fn is_complete(status: Status, kind: Kind) -> bool
    ensures { result ≡ is_complete status kind }
{
    match status {
        Status::Complete(other) => other == kind,
        Status::Empty | Status::Ongoing | Status::Prepare(_) => false,
    }
}

/// Whether an epoch is the one after another.
pub fn is_next(epoch: u16, before: u16) -> bool
    ensures { result ≡ (epoch == before + 1) }
{
    u32::from(epoch) == u32::from(before) + 1
}

/// Whether the coordinator waits for markers of this epoch and kind.
pub fn waits_for(status: Status, now: u16, epoch: u16, kind: Kind) -> bool
    ensures { result ≡ waits_for status now epoch kind }
{
    match status {
        Status::Prepare(other) => epoch == now && kind == other,
        Status::Empty | Status::Ongoing | Status::Complete(_) => false,
    }
}
