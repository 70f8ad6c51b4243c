//! What is kept of a data record, lent.

ghost use Rattle.std.specs.Prelude.{◌≡◌, None, option_map};
ghost use Rattle.eos_claims.specs.Headers.{claim_of};
ghost use Rattle.eos_claims.specs.Slots.{plain_claim};
ghost use Rattle.eos_reading.specs.Records.{record_of, ReadsBack};

use eos_claims::ClaimRef;
use std::marker::Model;

/// What is kept of a data record, lent, which contracts see as a `Record` that has no more than that.
#[derive(Drop)]
pub struct KeptRecord<'a> {
    key: Option<&'a [u8]>,
    value: Option<&'a [u8]>,
    claim: Option<ClaimRef<'a>>,
}

impl<'a> Model for KeptRecord<'a> {
    ghost use Rattle.std.specs.Prelude.{option_map};
    ghost use Rattle.eos_batch.specs.declared.record.Record.{Record};
    ghost use Rattle.eos_claims.specs.Slots.{plain_claim};
    ghost use Rattle.eos_reading.specs.Records.{record_of, ReadsBack};

    ghost Value = { Record };

    ghost view = { λ r. record_of (option_map (λ s. s.now) r.key) (option_map (λ s. s.now) r.value) (option_map plain_claim r.claim) };

    ghost invariant = { λ r. ReadsBack (option_map plain_claim r.claim) };
}

impl<'a> KeptRecord<'a> {
    /// Of a record of which it is kept that it is there.
    pub fn present() -> KeptRecord<'a>
        ensures { result ≡ record_of None None None }
    {
        KeptRecord {
            key: None,
            value: None,
            claim: None,
        }
    }

    /// Of a record with this claim, or with none.
    pub fn of_claim(claim: Option<ClaimRef<'a>>) -> KeptRecord<'a>
        requires { ReadsBack (option_map plain_claim claim) }
        ensures { result ≡ record_of None None (option_map plain_claim claim.entry) }
    {
        KeptRecord {
            key: None,
            value: None,
            claim,
        }
    }

    /// Of a record with this key, this value and this claim.
    pub(crate) fn of_text(
        key: Option<&'a [u8]>,
        value: Option<&'a [u8]>,
        claim: Option<ClaimRef<'a>>,
    ) -> KeptRecord<'a>
        requires { ReadsBack (option_map plain_claim claim) }
        ensures { result ≡ record_of (option_map (λ s. s.now) key.entry) (option_map (λ s. s.now) value.entry) (option_map plain_claim claim.entry) }
    {
        KeptRecord { key, value, claim }
    }

    /// The bytes of its key, where they are kept.
    pub fn key(&self) -> Option<&'a [u8]>
        ensures { option_map (λ s. s.now) result ≡ self.now.key }
    {
        self.key
    }

    /// The bytes of its value, where they are kept.
    pub fn value(&self) -> Option<&'a [u8]>
        ensures { option_map (λ s. s.now) result ≡ self.now.value }
    {
        self.value
    }

    /// The claim in its headers, where it is kept.
    pub fn claim(&self) -> Option<ClaimRef<'a>>
        ensures { option_map plain_claim result ≡ claim_of self.now.headers }
    {
        self.claim
    }
}
