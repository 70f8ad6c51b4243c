//! Scripts: words that say what happens in a run.

ghost use Rattle.std.specs.Prelude.{◌≡◌, IfOk};
ghost use Rattle.eos_drive.specs.Words.{words_from, seeded, on_stream};

use rand_core::SeedableRng;
use rand_core::utils::NextWord;
use rand_pcg::Lcg64Xsh32;
use std::alloc::{AllocError, Global};
use std::marker::Model;

/// A list of words of 32 bits, which contracts see as that list.
#[derive(Drop)]
pub struct Script {
    words: Vec<u32>,
}

impl Model for Script {
    ghost use Rattle.std.specs.Prelude.{ℕ, List};

    ghost Value = { List ℕ };

    ghost view = { λ s. s.words.items };
}

impl Script {
    /// The first `length` words of the generator PCG XSH RR 64/32 (`Lcg64Xsh32` of `rand_pcg`) that `seed` gives: the same on
    /// every machine.
    ///
    /// # Errors
    /// Where a growth was refused.
    pub fn from_seed(alloc: Global, seed: u64, length: u64) -> Result<Script, AllocError>
        ensures { IfOk result (λ s. s ≡ words_from length (seeded seed)) }
    {
        drawn(alloc, Lcg64Xsh32::seed_from_u64(seed), length)
    }

    /// The first `length` words that this generator gives from the seed's state on this stream.
    ///
    /// # Errors
    /// Where a growth was refused.
    pub fn on_stream(
        alloc: Global,
        seed: u64,
        stream: u64,
        length: u64,
    ) -> Result<Script, AllocError>
        ensures { IfOk result (λ s. s ≡ words_from length (on_stream seed stream)) }
    {
        let generator = Lcg64Xsh32::seed_from_u64(seed);
        drawn(
            alloc,
            Lcg64Xsh32::from_state(generator.state(), stream),
            length,
        )
    }

    /// These words.
    ///
    /// # Errors
    /// Where a growth was refused.
    pub fn of_words(alloc: Global, words: &[u32]) -> Result<Script, AllocError>
        ensures { IfOk result (λ s. s ≡ words.now) }
    {
        Ok(Script {
            words: words.to_vec(alloc)?,
        })
    }

    /// Its words, in order.
    pub fn words(&self) -> &[u32]
        ensures { result.now ≡ self.now }
    {
        self.words.as_slice()
    }
}

/// The next words of a generator, so many of them.
#[tactic(auto, using(crate::proofs::Drawing::words_more, crate::proofs::Drawing::after_more))]
fn drawn(alloc: Global, mut generator: Lcg64Xsh32, length: u64) -> Result<Script, AllocError>
    ensures { IfOk result (λ s. s ≡ words_from length generator) }
{
    let mut words = Vec::new(alloc);
    for _ in 0..length {
        words.push(generator.next_word())?;
    }
    Ok(Script { words })
}
