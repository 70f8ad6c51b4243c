//! Mistakes of somebody who copies the logs of a cluster and reads their ends, as words say them.

ghost use Rattle.std.specs.Prelude.{◌≡◌, ◌++◌, IfSome, IfOk, OnOk, codes, map, string_bytes};
ghost use Rattle.std.specs.Fmt.{signed_decimal};
ghost use Rattle.eos_text.specs.Adding.{Adds};
ghost use Rattle.eos_simulate.specs.MistakeTexts.{what_name, turned_text, places_text, mistake_word};

use crate::making::SimulationFault;
use eos_text::push_value;
use std::alloc::{AllocError, Global};

/// A byte of a file, by the file's name, and what stands there then.
#[derive(Clone, Copy)]
pub struct Turned {
    pub base: i64,
    pub at: usize,
    pub value: u8,
}

/// What is done wrong with the files and the end of a partition. A file is called by its name, the offset of its first record.
#[derive(Clone, Copy)]
pub enum What {
    /// This file isn't copied.
    LostSegment(i64),
    /// This file is copied without its last byte.
    CutSegment(i64),
    /// This file gets another name.
    RenamedSegment(i64, i64),
    /// A byte of this file is another.
    TurnedByte(Turned),
    /// A byte of this file is another, and the checksum is made anew.
    RewrittenByte(Turned),
    /// The first file is that of another replica, which has all records in it.
    TwoReplicas,
    /// Kafka's log cleaner has been over the log.
    Compacted,
    /// The end is another.
    WrongEnd(i64),
    /// The partition is forgotten.
    Forgotten,
    /// The partition is there under another number too.
    Doubled(i32),
}

/// A mistake, and the partition in which it is made.
#[derive(Clone, Copy)]
pub struct Mistake<'a> {
    pub what: What,
    pub topic: &'a str,
    pub partition: i32,
}

impl What {
    /// Its name, as a program's words have it.
    #[tactic(auto, unfolding(crate::specs::MistakeTexts::what_name))]
    pub(crate) fn name(self) -> &'static str
        ensures { result.now ≡ what_name self }
    {
        match self {
            What::LostSegment(_) => "lost-segment",
            What::CutSegment(_) => "cut-segment",
            What::RenamedSegment(_, _) => "renamed-segment",
            What::TurnedByte(_) => "turned-byte",
            What::RewrittenByte(_) => "rewritten-byte",
            What::TwoReplicas => "two-replicas",
            What::Compacted => "compacted",
            What::WrongEnd(_) => "wrong-end",
            What::Forgotten => "forgotten",
            What::Doubled(_) => "doubled",
        }
    }

    /// What this name and these places say, if they say something.
    fn from_words(name: &str, places: &str) -> Option<What> {
        match name {
            "two-replicas" => Some(What::TwoReplicas),
            "compacted" => Some(What::Compacted),
            "forgotten" => Some(What::Forgotten),
            "doubled" => Some(What::Doubled(i32_in(places)?)),
            "wrong-end" => Some(What::WrongEnd(i64_in(places)?)),
            "lost-segment" => Some(What::LostSegment(i64_in(places)?)),
            "cut-segment" => Some(What::CutSegment(i64_in(places)?)),
            "renamed-segment" => {
                let (base, name) = places.split_once(':')?;
                Some(What::RenamedSegment(i64_in(base)?, i64_in(name)?))
            }
            "turned-byte" => Some(What::TurnedByte(turned_in(places)?)),
            "rewritten-byte" => Some(What::RewrittenByte(turned_in(places)?)),
            _ => None,
        }
    }
}

impl<'a> Mistake<'a> {
    /// What a word says: `NAME@TOPIC-N`, and behind it what else it needs, each after a colon. `None` where it isn't the word of a mistake.
    pub(crate) fn from_word(alloc: Global, word: &'a str) -> Result<Option<Mistake<'a>>, AllocError>
        ensures { IfOk result (λ found. IfSome found (λ mistake. mistake_word mistake ≡ word.now)) }
    {
        let Some(mistake) = Mistake::near(word) else {
            return Ok(None);
        };
        let text = mistake.word(alloc)?;
        if text.as_str() == word {
            return Ok(Some(mistake));
        }
        Ok(None)
    }

    /// The mistake that a word says, but for needless zeros and the like.
    fn near(word: &'a str) -> Option<Mistake<'a>> {
        let (name, place) = word.split_once('@')?;
        let (partition, places) = match place.split_once(':') {
            Some((partition, places)) => (partition, places),
            None => (place, ""),
        };
        let (topic, number) = partition.rsplit_once('-')?;
        Some(Mistake {
            what: What::from_words(name, places)?,
            topic,
            partition: i32_in(number)?,
        })
    }

    /// Its word.
    pub(crate) fn word(&self, alloc: Global) -> Result<String, AllocError>
        ensures { IfOk result (λ word. string_bytes word ≡ mistake_word self.now) }
    {
        let mut text = String::new(alloc);
        self.push_word(&mut text)?;
        Ok(text)
    }

    /// Adds its word.
    fn push_word(&self, out: &mut String) -> Result<(), AllocError>
        ensures { OnOk result (Adds (string_bytes out.old) (string_bytes out.new) (mistake_word self.now)) }
    {
        push_value(out, "", &self.what.name())?;
        push_value(out, "@", &self.topic)?;
        push_value(out, "-", &self.partition)?;
        push_behind(out, self.what)
    }
}

/// Adds what stands behind the partition.
fn push_behind(out: &mut String, what: What) -> Result<(), AllocError>
    ensures { OnOk result (Adds (string_bytes out.old) (string_bytes out.new) (places_text what)) }
{
    match what {
        What::LostSegment(base) => push_offset(out, base),
        What::CutSegment(base) => push_offset(out, base),
        What::RenamedSegment(base, name) => {
            push_offset(out, base)?;
            push_offset(out, name)
        }
        What::TurnedByte(turned) => push_turned(out, turned),
        What::RewrittenByte(turned) => push_turned(out, turned),
        What::TwoReplicas => Ok(()),
        What::Compacted => Ok(()),
        What::WrongEnd(end) => push_offset(out, end),
        What::Forgotten => Ok(()),
        What::Doubled(number) => push_number(out, number),
    }
}

fn push_offset(out: &mut String, offset: i64) -> Result<(), AllocError>
    ensures { OnOk result (Adds (string_bytes out.old) (string_bytes out.new) (codes ":" ++ signed_decimal offset)) }
{
    push_value(out, ":", &offset)
}

fn push_number(out: &mut String, number: i32) -> Result<(), AllocError>
    ensures { OnOk result (Adds (string_bytes out.old) (string_bytes out.new) (codes ":" ++ signed_decimal number)) }
{
    push_value(out, ":", &number)
}

fn push_turned(out: &mut String, turned: Turned) -> Result<(), AllocError>
    ensures { OnOk result (Adds (string_bytes out.old) (string_bytes out.new) (turned_text turned)) }
{
    push_offset(out, turned.base)?;
    push_value(out, ":", &turned.at)?;
    push_value(out, ":", &turned.value)
}

fn i64_in(text: &str) -> Option<i64> {
    let number = text.parse::<u64>().ok()?;
    if number > i64::MAX as u64 {
        return None;
    }
    Some(number as i64)
}

fn i32_in(text: &str) -> Option<i32> {
    let number = text.parse::<u64>().ok()?;
    if number > i32::MAX as u64 {
        return None;
    }
    Some(number as i32)
}

fn turned_in(places: &str) -> Option<Turned> {
    let (base, rest) = places.split_once(':')?;
    let (at, value) = rest.split_once(':')?;
    let value = value.parse::<u64>().ok()?;
    if value > u8::MAX as u64 {
        return None;
    }
    Some(Turned {
        base: i64_in(base)?,
        at: at.parse::<u64>().ok()? as usize,
        value: value as u8,
    })
}

/// The mistakes that these words say.
pub(crate) fn mistakes_of<'a>(
    alloc: Global,
    words: &'a [&'a str],
) -> Result<Vec<Mistake<'a>>, SimulationFault>
    ensures { IfOk result (λ mistakes. map mistake_word mistakes.items ≡ map (λ word. word.now) words.now) }
{
    let mut mistakes = Vec::new(alloc);
    for word in words {
        match Mistake::from_word(alloc, word)? {
            Some(mistake) => mistakes.push(mistake)?,
            None => {
                return Err(SimulationFault::Unfit(
                    "--collect",
                    "no mistake, or not NAME@TOPIC-N[:..]",
                ));
            }
        }
    }
    Ok(mistakes)
}
