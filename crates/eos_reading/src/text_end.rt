//! Where a record's key and value lie among those of others.

ghost use Rattle.std.specs.Prelude.{◌≡◌, ◌+◌, ◌<◌, ◌^◌, IfSome};
ghost use Rattle.eos_reading.specs.steps.TextEnds.{key_in, value_in, moved};

use std::marker::Model;

/// One more than the greatest number of 32 bits.
const SPAN: usize = 4_294_967_296;

/// One more than the greatest number of 40 bits.
pub(crate) const LIMIT: usize = 1_099_511_627_776;

/// Which of the two there is.
#[derive(Clone, Copy)]
enum Present {
    Neither,
    Key,
    Value,
    Both,
}

/// Where a record's bytes end among those of others, and how many of them are its key's. A log has many, so it is small.
#[derive(Drop)]
pub(crate) struct TextEnd {
    /// The end is a number of 40 bits.
    low: u32,
    key: u16,
    high: u8,
    present: Present,
}

const _: () = prove!(size_of::<TextEnd>() <= 8);

impl Model for TextEnd {
    ghost use Rattle.std.specs.Prelude.{◌+◌, ◌*◌, ◌^◌};
    ghost use Rattle.eos_reading.specs.steps.TextEnds.{EndView, key_in, value_in};

    ghost Value = { EndView };

    ghost view = { λ p. record { end = p.high * 2 ^ 32 + p.low; key = p.key; has_key = key_in p.present; has_value = value_in p.present } };
}

/// Which of the two there is.
fn which_of(key: bool, value: bool) -> Present
    ensures key { key_in result ≡ key }
    ensures value { value_in result ≡ value }
{
    if key {
        if value { Present::Both } else { Present::Key }
    } else if value {
        Present::Value
    } else {
        Present::Neither
    }
}

/// Of these numbers.
fn at(end: usize, key: u16, present: Present) -> TextEnd
    requires { end < 2 ^ 40 }
    ensures { result ≡ record { end = end; key = key; has_key = key_in present; has_value = value_in present } }
{
    TextEnd {
        low: (end % SPAN) as u32,
        key,
        high: (end / SPAN) as u8,
        present,
    }
}

impl TextEnd {
    /// Of a record that has these and whose bytes end here, unless a number is too great: an end of 2^40, or a key of 2^16 bytes.
    pub(crate) fn new(end: usize, key: usize, has_key: bool, has_value: bool) -> Option<TextEnd>
        ensures { IfSome result (λ text. text ≡ record { end = end; key = key; has_key = has_key; has_value = has_value }) }
    {
        if end >= LIMIT {
            return None;
        }
        let key = u16::try_from(key).ok()?;
        Some(at(end, key, which_of(has_key, has_value)))
    }

    pub(crate) fn end(&self) -> usize
        ensures { result ≡ self.now.end }
    {
        self.high as usize * SPAN + self.low as usize
    }

    pub(crate) fn key(&self) -> usize
        ensures { result ≡ self.now.key }
    {
        usize::from(self.key)
    }

    pub(crate) fn has_key(&self) -> bool
        ensures { result ≡ self.now.has_key }
    {
        match self.present {
            Present::Neither => false,
            Present::Key => true,
            Present::Value => false,
            Present::Both => true,
        }
    }

    pub(crate) fn has_value(&self) -> bool
        ensures { result ≡ self.now.has_value }
    {
        match self.present {
            Present::Neither => false,
            Present::Key => false,
            Present::Value => true,
            Present::Both => true,
        }
    }

    /// The same, further back by so many bytes.
    pub(crate) fn moved(&self, by: usize) -> TextEnd
        requires { by + self.now.end < 2 ^ 40 }
        ensures { result ≡ moved by self.now }
    {
        at(by + self.end(), self.key, self.present)
    }
}
