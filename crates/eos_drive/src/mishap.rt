//! Mistakes that an application makes, each once, at one input.

ghost use Rattle.std.specs.Prelude.{◌≡◌, None, IfSome};
ghost use Rattle.eos_drive.specs.Mishaps.{mishap_name, is_chained, name_in};

use bytes::Bytes;
use std::alloc::{AllocError, Global};

/// A mistake of an application at one input: the outputs are not those that it should have, or its offset is lost.
#[derive(Clone, Copy)]
pub enum Mishap {
    /// Its last output is never written.
    LostOutput,
    /// Its first output is written twice.
    RepeatedOutput,
    /// Its outputs are written, but its partition is neither committed past it nor read on.
    EarlyOutput,
    /// Its second output says that there are three.
    WrongCount,
    /// An output is written beside them whose number is above their count.
    WrongNumber,
    /// An output is written beside them that names a topic which isn't read.
    ForeignSource,
    /// Its outputs are written in the transaction before the one that commits past it.
    OtherTransaction,
    /// An output is written beside them that has no headers.
    NoHeaders,
    /// The offset of its partition is deleted before the one after it is committed.
    OffsetDeleted,
    /// It is a record of `out` that was aborted, and the second group processes it all the same.
    AbortedInput,
}

/// All of them, the second group's last.
pub const MISHAPS: [Mishap; 10] = [
    Mishap::LostOutput,
    Mishap::RepeatedOutput,
    Mishap::EarlyOutput,
    Mishap::WrongCount,
    Mishap::WrongNumber,
    Mishap::ForeignSource,
    Mishap::OtherTransaction,
    Mishap::NoHeaders,
    Mishap::OffsetDeleted,
    Mishap::AbortedInput,
];

impl Mishap {
    /// The mishap's name, as a program's words have it.
    pub fn name(self) -> &'static str
        ensures { result.now ≡ mishap_name self }
    {
        match self {
            Mishap::LostOutput => "lost-output",
            Mishap::RepeatedOutput => "repeated-output",
            Mishap::EarlyOutput => "early-output",
            Mishap::WrongCount => "wrong-count",
            Mishap::WrongNumber => "wrong-number",
            Mishap::ForeignSource => "foreign-source",
            Mishap::OtherTransaction => "other-transaction",
            Mishap::NoHeaders => "no-headers",
            Mishap::OffsetDeleted => "offset-deleted",
            Mishap::AbortedInput => "aborted-input",
        }
    }

    /// The mishap of this name, if there is one.
    fn named(name: &str) -> Option<Mishap>
        ensures { IfSome result (λ mishap. mishap_name mishap ≡ name.now) }
    {
        for mishap in MISHAPS {
            if mishap.name() == name {
                return Some(mishap);
            }
        }
        None
    }

    /// Whether the outputs are written in the transaction before.
    pub(crate) fn is_ahead(self) -> bool {
        self == Mishap::EarlyOutput || self == Mishap::OtherTransaction
    }

    /// Whether it is a mistake of the second group.
    pub fn is_chained(self) -> bool
        ensures { result ≡ is_chained self }
    {
        matches!(self, Mishap::AbortedInput)
    }

    /// Whether it can happen at an input with so many outputs.
    pub(crate) fn suits(self, outputs: u64) -> bool {
        let least = match self {
            Mishap::WrongCount => 2,
            Mishap::OffsetDeleted => 0,
            _ => 1,
        };
        outputs >= least
    }
}

/// An input, by its partition of the topic that its group reads and its offset.
#[derive(Clone, Copy, PartialEq, Eq)]
pub struct Input {
    pub source: usize,
    pub offset: u64,
}

impl Input {
    /// How many outputs it has: its offset modulo 3; where that is 0 it has a note.
    pub(crate) fn outputs(self) -> u64 {
        self.offset % 3
    }

    /// The input that a text `in-N:O` names, or one `out-N:O` of the second group, if it names one.
    fn from_text(text: &str, is_chained: bool) -> Option<Input> {
        let topic = if is_chained { "out-" } else { "in-" };
        let (source, offset) = text.strip_prefix(topic)?.split_once(':')?;
        Some(Input {
            source: number_in(source)? as usize,
            offset: number_in(offset)?,
        })
    }
}

/// The number that a text of digits is, without a needless 0.
fn number_in(text: &str) -> Option<u64> {
    if text.starts_with('+') || (text.starts_with('0') && text != "0") {
        return None;
    }
    text.parse::<u64>().ok()
}

/// A mishap, and the input at which it happens; where none is chosen, the first that suits it.
#[derive(Clone, Copy)]
pub struct ChosenMishap {
    pub mishap: Mishap,
    pub at: Option<Input>,
}

impl ChosenMishap {
    /// What a word says: `NAME`, or `NAME@in-N:O`, or `NAME@out-N:O` of the second group. `None` where it is neither.
    pub fn from_word(word: &str) -> Option<ChosenMishap>
        ensures named { IfSome result (λ chosen. mishap_name chosen.mishap ≡ name_in word.now) }
        ensures plain { IfSome result (λ chosen. name_in word.now ≡ word.now → chosen.at ≡ None) }
    {
        match word.split_once('@') {
            Some((name, place)) => {
                let mishap = Mishap::named(name)?;
                Some(ChosenMishap {
                    mishap,
                    at: Some(Input::from_text(place, mishap.is_chained())?),
                })
            }
            None => Some(ChosenMishap {
                mishap: Mishap::named(word)?,
                at: None,
            }),
        }
    }

    /// The word that chooses it.
    ///
    /// # Errors
    /// Where a growth was refused.
    pub fn text(self, alloc: Global) -> Result<String, AllocError> {
        let name = self.mishap.name();
        let Some(Input { source, offset }) = self.at else {
            return String::from_str(alloc, name);
        };
        let topic = if self.mishap.is_chained() {
            "out"
        } else {
            "in"
        };
        Ok(format!(in alloc; "{name}@{topic}-{source}:{offset}")?)
    }

    /// The same as bytes.
    pub(crate) fn word(self, alloc: Global) -> Result<Bytes, AllocError> {
        let text = self.text(alloc)?;
        Bytes::copy_from_slice(alloc, text.as_bytes())
    }

    /// Whether it happens at this input of the first group.
    pub(crate) fn is_at(self, input: Input) -> bool {
        self.at == Some(input) && !self.mishap.is_chained() && self.mishap.suits(input.outputs())
    }

    /// Whether it happens at this input, or after it in its partition.
    pub(crate) fn is_from(self, input: Input) -> bool {
        match self.at {
            Some(at) => at.source == input.source && at.offset >= input.offset,
            None => false,
        }
    }
}
