//! The records of Kafka's own logs, of which keys and values are wanted.

use crate::kept_texts::KeptTexts;
use crate::{Placed, Reading};
use eos_claims::view_claim;
use std::alloc::{AllocError, Global};

/// Keeps a record's key and value, and the claim in its headers, where there is one.
#[derive(Clone, Copy)]
pub struct Texts;

impl Reading for Texts {
    type Kept = KeptTexts;

    ghost use Rattle.eos_reading.specs.Records.{wanted_record};
    ghost use Rattle.eos_reading.specs.declared.wanted.Wanted.{Wanted};
    ghost use Rattle.eos_reading.specs.declared.wanted.Wanted.TheVariants as wants;

    ghost kept = { λ s offset r. wanted_record wants.Texts r };

    fn keep(
        &self,
        alloc: Global,
        to: &mut KeptTexts,
        _offset: u64,
        placed: Placed<'_>,
    ) -> Result<(), AllocError> {
        let record = placed.view();
        let key = record.key();
        let value = record.value();
        to.push(alloc, key, value, view_claim(record.into_headers()))
    }
}
