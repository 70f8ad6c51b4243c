//! What a transaction asks of the cluster.

ghost use Rattle.std.specs.Prelude.{◌≡◌, false};
ghost use Rattle.eos_drive.specs.steps.Drives.{is_election};

use bytes::Bytes;
use eos_machine::{Claim, Event};

/// What a transaction asks of the cluster.
#[derive(Clone, Copy)]
pub(crate) enum Request {
    /// A record, with headers if it says where it comes from.
    Write {
        partition: usize,
        output: Option<Output>,
    },
    /// The offset after the inputs that were read, or that the group's offset is deleted.
    Commit {
        source: usize,
        offset: Option<u64>,
    },
}

/// The topic that an output names.
#[derive(Clone, Copy)]
pub(crate) enum Topic {
    In,
    Out,
    /// One that isn't read.
    Foreign,
}

/// What an output says of its input; number 0 is the note that an input has none.
#[derive(Clone, Copy)]
pub(crate) struct Output {
    pub(crate) topic: Topic,
    pub(crate) source: usize,
    pub(crate) offset: u64,
    pub(crate) output: u64,
    pub(crate) of: u64,
}

impl Request {
    /// The event by which a session asks.
    pub(crate) fn event(self, session: usize) -> Event
        ensures { is_election result ≡ false }
    {
        match self {
            Request::Write { partition, output } => Event::Produce {
                session,
                partition,
                claim: claim_of(output),
            },
            Request::Commit { source, offset } => Event::Commit {
                session,
                source,
                offset: offset_of(offset),
            },
        }
    }
}

fn claim_of(output: Option<Output>) -> Option<Claim> {
    match output {
        Some(output) => Some(Claim {
            topic: Bytes::from_static(output.topic.name()),
            partition: as_i32(output.source as u64),
            offset: as_i64(output.offset),
            output: as_i32(output.output),
            of: as_i32(output.of),
        }),
        None => None,
    }
}

fn offset_of(offset: Option<u64>) -> Option<i64> {
    match offset {
        Some(offset) => Some(as_i64(offset)),
        None => None,
    }
}

impl Topic {
    fn name(self) -> &'static [u8] {
        match self {
            Topic::In => b"in".as_slice(),
            Topic::Out => b"out".as_slice(),
            Topic::Foreign => b"foreign".as_slice(),
        }
    }
}

/// The number, or the greatest that there is.
pub(crate) fn as_i64(number: u64) -> i64 {
    if number > i64::MAX as u64 {
        return i64::MAX;
    }
    number as i64
}

fn as_i32(number: u64) -> i32 {
    if number > i32::MAX as u64 {
        return i32::MAX;
    }
    number as i32
}
