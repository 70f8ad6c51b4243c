//! The records of Kafka's own logs in a fold, one after the other.

ghost use Rattle.std.specs.Prelude.{◌≡◌, ◌++◌, ◌∷◌, ◌<◌, ◌≤◌, [], List, All, None, Some, true, length, map, get_or, option_map, slice_get, OnOk};
ghost use Rattle.eos_batch.specs.declared.record.Record.{Record};
ghost use Rattle.eos_claims.specs.Slots.{plain_claim};
ghost use Rattle.eos_reading.specs.Records.{ReadsBack};
ghost use Rattle.eos_fold_file.specs.Folds.{fold_text_of};
ghost use Rattle.eos_fold_file.specs.steps.Kept.{text_record};
ghost use Rattle.eos_fold_file.specs.steps.TextLists.{plain_text, texts_of, IsBare, IsUnsaid};

use crate::claims::is_said;
use eos_claims::ClaimRef;
use eos_reading::{BoxedClaim, KeptList, KeptTexts, lent_claim};
use std::alloc::{AllocError, Global};
use std::marker::Model;

/// What a fold keeps of a record of Kafka's own logs, lent: its key, its value and the claim in its headers, where there is one.
#[derive(Clone, Copy)]
pub(crate) struct TextRef<'a> {
    pub(crate) key: Option<&'a [u8]>,
    pub(crate) value: Option<&'a [u8]>,
    pub(crate) claim: Option<ClaimRef<'a>>,
}

/// What a fold keeps of the records of Kafka's own logs, which contracts see as a list. It lies in memory as reading a log keeps it, and
/// is handed over as that.
#[derive(Drop)]
pub struct FoldTexts {
    texts: KeptTexts,
    /// Of the first records the claims that no headers say, which only a forged fold has.
    unsaid: Vec<Option<BoxedClaim>>,
}

impl Model for FoldTexts {
    ghost use Rattle.std.specs.Prelude.{List};
    ghost use Rattle.eos_fold_file.specs.Records.{FoldText};
    ghost use Rattle.eos_fold_file.specs.steps.TextLists.{texts_of, AreTexts};

    ghost Value = { List FoldText };

    ghost view = { λ t. texts_of t.texts.list t.unsaid.items };

    ghost invariant = { λ t. AreTexts t.texts.list t.unsaid.items };
}

/// The claim at this place, lent, where there is one.
fn claim_at(claims: &[Option<BoxedClaim>], i: usize) -> Option<ClaimRef<'_>>
    ensures { option_map plain_claim result ≡ get_or claims.now i None }
{
    if i < claims.len() {
        return lent_claim(&claims[i]);
    }
    None
}

/// Gives so many records a place for a claim, where they have none.
fn pad(claims: &mut Vec<Option<BoxedClaim>>, count: usize) -> Result<(), AllocError>
    requires { length claims.old.items ≤ count }
    ensures same { (rs : List Record) → length rs ≡ count → texts_of rs claims.new.items ≡ texts_of rs claims.old.items }
    ensures unsaid { All IsUnsaid claims.old.items → All IsUnsaid claims.new.items }
    ensures few { length claims.new.items ≤ count }
    ensures ok { OnOk result (length claims.new.items ≡ count) }
{
    while claims.len() < count {
        claims.push(None)?;
    }
    Ok(())
}

/// Whether there is no claim.
fn are_none(claims: &[Option<BoxedClaim>]) -> bool
    ensures yes { result ≡ true → All (λ c. c ≡ None) claims.now }
    ensures no { All (λ c. c ≡ None) claims.now → result ≡ true }
{
    for claim in claims {
        if claim.is_some() {
            return false;
        }
    }
    true
}

impl FoldTexts {
    /// These, which have no more than what is wanted of them.
    pub(crate) fn of(alloc: Global, texts: KeptTexts) -> FoldTexts
        requires { All IsBare texts.list }
        ensures { result ≡ map fold_text_of texts.list }
    {
        FoldTexts {
            texts,
            unsaid: Vec::new(alloc),
        }
    }

    /// Puts copies of a record's key and value, and its claim, at the end.
    #[tactic(auto, using(crate::proofs::TextsListed::push_said, crate::proofs::TextsListed::said_kept, crate::proofs::TextsListed::push_unsaid, crate::proofs::TextsListed::unsaid_kept, crate::proofs::TextsListed::pad_kept, crate::proofs::ClaimLimits::none_back))]
    pub(crate) fn push(
        &mut self,
        alloc: Global,
        key: Option<&[u8]>,
        value: Option<&[u8]>,
        claim: Option<BoxedClaim>,
    ) -> Result<(), AllocError>
        ensures { OnOk result (self.new ≡ self.old ++ record { key = option_map (λ s. s.now) key.entry; value = option_map (λ s. s.now) value.entry; claim = claim } ∷ []) }
    {
        let said = lent_claim(&claim);
        if is_said(said) {
            self.texts.push(alloc, key, value, said)?;
            return Ok(());
        }
        pad(&mut self.unsaid, self.texts.len())?;
        self.texts.push(alloc, key, value, None)?;
        self.unsaid.push(claim)?;
        Ok(())
    }

    pub(crate) fn len(&self) -> usize
        ensures { result ≡ length self.now }
    {
        self.texts.len()
    }

    /// The record at this place, lent.
    pub(crate) fn view(&self, i: usize) -> TextRef<'_>
        requires { i < length self.now }
        ensures { slice_get self.now i ≡ Some (plain_text result) }
    {
        let record = self.texts.view(i);
        let claim = claim_at(self.unsaid.as_slice(), i).or(record.claim());
        TextRef {
            key: record.key(),
            value: record.value(),
            claim,
        }
    }

    /// Whether there are headers that say each claim.
    pub(crate) fn are_said(&self) -> bool
        ensures yes { result ≡ true → All (λ text. ReadsBack text.claim) self.now }
        ensures no { All (λ text. ReadsBack text.claim) self.now → result ≡ true }
    {
        are_none(self.unsaid.as_slice())
    }

    /// The same, as reading a log keeps them.
    pub(crate) fn into_texts(self) -> KeptTexts
        requires { All (λ text. ReadsBack text.claim) self }
        ensures { result.list ≡ map text_record self }
    {
        self.texts
    }
}
