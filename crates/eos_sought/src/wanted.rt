//! Which batches are wanted.

ghost use Rattle.std.specs.Prelude.{◌≡◌};
ghost use Rattle.eos_sought.specs.Wanted.{is_wanted};

use eos_batch::BatchHead;

/// A batch of a segment, and the byte at which it begins.
#[derive(Clone, Copy)]
pub struct Standing {
    pub byte: usize,
    pub head: BatchHead,
}

/// Which batches are wanted.
#[derive(Clone, Copy)]
pub enum Wanted {
    /// The one that holds the record of this offset.
    Holding { offset: u64 },
    /// Those that begin at one of these offsets, the last of them left out.
    Between { from: u64, to: u64 },
    /// Those of a producer id, its end markers too.
    Of { producer: i64 },
    /// The end markers of a producer id, from this offset on.
    Ending { producer: i64, from: u64 },
    /// The end markers of a producer id and epoch.
    Marking { producer: i64, epoch: i16 },
    /// The transactional data of a producer id and epoch.
    Data { producer: i64, epoch: i16 },
    /// The transactional data of a producer id, from this offset on.
    Open { producer: i64, from: u64 },
}

impl Wanted {
    /// Whether a batch of this head is wanted.
    pub fn is_met(self, head: BatchHead) -> bool
        ensures { result ≡ is_wanted self head }
    {
        match self {
            Wanted::Holding { offset } => {
                head.offset <= offset && offset - head.offset < u64::from(head.count)
            }
            Wanted::Between { from, to } => from <= head.offset && head.offset < to,
            Wanted::Of { producer } => head.producer == producer,
            Wanted::Ending { producer, from } => {
                head.is_control && head.producer == producer && from <= head.offset
            }
            Wanted::Marking { producer, epoch } => {
                head.is_control && head.producer == producer && head.epoch == epoch
            }
            Wanted::Data { producer, epoch } => {
                head.is_transactional
                    && !head.is_control
                    && head.producer == producer
                    && head.epoch == epoch
            }
            Wanted::Open { producer, from } => {
                head.is_transactional
                    && !head.is_control
                    && head.producer == producer
                    && from <= head.offset
            }
        }
    }
}
