//! The records of an output, of which the claims are wanted.

use crate::kept_outputs::KeptOutputs;
use crate::output::KeptOutput;
use crate::{Placed, Reading};
use bytes::Bytes;
use eos_claims::view_claim;
use std::alloc::{AllocError, Global};

/// Keeps the claim in a record's headers, where there is one.
#[derive(Clone, Copy)]
pub struct Outputs<'a> {
    /// The topics that are asked for.
    pub topics: &'a [Bytes],
}

impl<'a> Reading for Outputs<'a> {
    type Kept = KeptOutputs;

    ghost use Rattle.eos_claims.specs.Headers.{claim_of};
    ghost use Rattle.eos_reading.specs.Outputs.{kept_output};

    ghost kept = { λ s offset r. kept_output s.topics.now (claim_of r.headers) };

    fn keep(
        &self,
        alloc: Global,
        to: &mut KeptOutputs,
        _offset: u64,
        placed: Placed<'_>,
    ) -> Result<(), AllocError> {
        let headers = placed.view().into_headers();
        let output = KeptOutput::of(alloc, self.topics, view_claim(headers))?;
        to.push(output)
    }
}
