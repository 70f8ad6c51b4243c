//! The records that are kept of a log, in one list.

ghost use Rattle.std.specs.Prelude.{◌≡◌, ◌<◌, [], length, slice_get, Some};
ghost use Rattle.eos_kept.specs.Records.{records_in, ReadBack};

use bytes::Bytes;
use eos_reading::{KeptList, KeptOutputs, KeptRecord, KeptTexts};

/// What is kept of a log's data records, in order.
#[derive(Drop)]
pub(crate) enum Records {
    /// That they are there.
    Presence(Vec<()>),
    /// Their claims, and the topics that were asked for when they were kept.
    Claims {
        topics: Vec<Bytes>,
        kept: KeptOutputs,
    },
    /// Their keys, values and claims.
    Texts(KeptTexts),
}

impl Records {
    pub(crate) fn len(&self) -> usize
        ensures { result ≡ length (records_in self.now) }
    {
        match self {
            Records::Presence(kept) => kept.len(),
            Records::Claims { kept, .. } => kept.len(),
            Records::Texts(kept) => kept.len(),
        }
    }

    /// What is kept of the record at this place, lent.
    pub(crate) fn view(&self, i: usize) -> KeptRecord<'_>
        requires inside { i < length (records_in self.now) }
        requires claims { ReadBack self.now }
        ensures { slice_get (records_in self.now) i ≡ Some result }
    {
        match self {
            Records::Presence(_) => KeptRecord::present(),
            Records::Claims { topics, kept } => {
                KeptRecord::of_claim(kept.at(i).claim(topics.as_slice()))
            }
            Records::Texts(kept) => kept.view(i),
        }
    }

    /// Forgets all of them.
    pub(crate) fn clear(&mut self)
        ensures none { records_in self.new ≡ [] }
        ensures claims { ReadBack self.new }
    {
        match self {
            Records::Presence(kept) => kept.clear(),
            Records::Claims { kept, .. } => kept.clear(),
            Records::Texts(kept) => kept.clear(),
        }
    }
}
