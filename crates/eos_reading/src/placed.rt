//! A data record where it stands.

ghost use Rattle.std.specs.Prelude.{◌≡◌};

use eos_batch::RecordRef;
use std::marker::Model;

/// A data record in the bytes of a log, which contracts see as the `Record`. It was read over once: its headers are read again
/// as they are asked for.
#[derive(Drop)]
pub struct Placed<'a> {
    record: RecordRef<'a>,
}

impl<'a> Model for Placed<'a> {
    ghost use Rattle.eos_batch.specs.declared.record.Record.{Record};

    ghost Value = { Record };

    ghost view = { λ p. p.record };
}

impl<'a> Placed<'a> {
    #[inline(always)]
    pub(crate) fn new(lent: RecordRef<'a>) -> Placed<'a>
        ensures { result ≡ lent.entry }
    {
        Placed { record: lent }
    }

    /// Its fields, lent.
    #[inline(always)]
    pub fn view(&self) -> RecordRef<'a>
        ensures { result ≡ self.now }
    {
        self.record.fork()
    }
}
