//! A claim that is kept whole.

ghost use Rattle.std.specs.Prelude.{◌≡◌, IfOk};
ghost use Rattle.eos_claims.specs.Slots.{plain_claim};

use bytes::Bytes;
use eos_claims::{Claim, ClaimRef};
use std::alloc::{AllocError, Global};
use std::marker::Model;

/// A claim with a copy of its topic, in a box: one pointer.
#[derive(Drop)]
pub struct BoxedClaim {
    claim: Box<Claim>,
}

impl Model for BoxedClaim {
    ghost use Rattle.eos_claims.specs.declared.claim.Claim.{Claim};

    ghost Value = { Claim };

    ghost view = { λ b. b.claim.value };
}

impl BoxedClaim {
    /// A copy of a claim that is lent.
    ///
    /// # Errors
    /// Only want of memory.
    pub fn new(alloc: Global, claim: &ClaimRef<'_>) -> Result<BoxedClaim, AllocError>
        ensures { IfOk result (λ boxed. boxed ≡ plain_claim claim.entry.now) }
    {
        let claim = Claim {
            topic: Bytes::copy_from_slice(alloc, claim.topic)?,
            partition: claim.partition,
            offset: claim.offset,
            output: claim.output,
            of: claim.of,
        };
        let claim = Box::new(alloc, claim)?;
        Ok(BoxedClaim { claim })
    }

    /// The claim, lent.
    pub fn view(&self) -> ClaimRef<'_>
        ensures { plain_claim result ≡ self.now }
    {
        let claim = &*self.claim;
        ClaimRef {
            topic: claim.topic.as_slice(),
            partition: claim.partition,
            offset: claim.offset,
            output: claim.output,
            of: claim.of,
        }
    }
}
