//! A shard of the producer ids.

ghost use Rattle.std.specs.Prelude.{◌≡◌, ◌<◌};
ghost use Rattle.eos_table.specs.steps.Keys.{mine};

use std::marker::Model;

/// One of so many shards, by its number from 0: of the producer ids it has those whose remainder by the number of shards,
/// which is never negative, is its own number.
#[derive(Clone, Copy)]
pub(crate) struct Shard {
    number: u32,
    of: u32,
}

impl Model for Shard {
    ghost use Rattle.std.specs.Prelude.{◌<◌};
    ghost use Rattle.eos_table.specs.steps.OneShard.{OneShard};

    ghost Value = { OneShard };

    ghost view = { λ s. record { number = s.number; of = s.of } };

    ghost invariant = { λ s. s.number < s.of };

    ghost inverse = { λ v. record { number = v.number; of = v.of } };
}

impl Shard {
    /// The shard of this number, of so many.
    pub fn new(number: u32, of: u32) -> Shard
        requires { number < of }
        ensures { result ≡ record { number = number; of = of } }
    {
        Shard { number, of }
    }

    /// The only one, which has all producer ids.
    pub fn only() -> Shard
        ensures { result ≡ record { number = 0; of = 1 } }
    {
        Shard { number: 0, of: 1 }
    }

    /// Is the producer id of the shard?
    pub fn has(self, producer: i64) -> bool
        ensures { result ≡ mine self.of self.number producer }
    {
        producer.rem_euclid(i64::from(self.of)) == i64::from(self.number)
    }
}
