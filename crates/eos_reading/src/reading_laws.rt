//! What is wanted of a log says as much as the log does. These functions do nothing; their contracts are theorems.

ghost use Rattle.std.specs.Prelude.{◌≡◌, ◌↔◌, ℕ, List, Some};
ghost use Rattle.eos_base.specs.Members.{Has};
ghost use Rattle.eos_batch.specs.declared.record.Header.{Header};
ghost use Rattle.eos_claims.specs.declared.claim.Claim.{Claim};
ghost use Rattle.eos_claims.specs.Headers.{values_of, claim_of};
ghost use Rattle.eos_fold.specs.Parts.{PartLog, Rises};
ghost use Rattle.eos_fold.specs.declared.item.Item.{Item};
ghost use Rattle.eos_reading.specs.Named.{claim_names, named_headers, AreTexts};
ghost use Rattle.eos_reading.specs.Wanted.{claim_headers, wanted_headers, wanted_item, wanted_log};
ghost use Rattle.eos_reading.specs.declared.wanted.Wanted.{Wanted};
ghost use Rattle.eos_reading.specs.declared.wanted.Wanted.TheVariants.{Presence, Claims, Texts};

/// A record stays at its offset, with its fate and its writer, whatever is wanted of it.
pub fn places()
    ensures offset { (w : Wanted) (x : Item) → (wanted_item w x).offset ≡ x.offset }
    ensures fate { (w : Wanted) (x : Item) → (wanted_item w x).fate ≡ x.fate }
    ensures writer { (w : Wanted) (x : Item) → (wanted_item w x).writer ≡ x.writer }
{}

/// The headers that say a record's claim have that claim, so it is kept where it is wanted.
pub fn claims()
    ensures headers { (headers : List Header) → claim_of (wanted_headers (claim_of headers)) ≡ claim_of headers }
    ensures claims { (x : Item) → claim_of (wanted_item Claims x).headers ≡ claim_of x.headers }
    ensures texts { (x : Item) → claim_of (wanted_item Texts x).headers ≡ claim_of x.headers }
{}

/// The headers that stand under one of the five names of a claim say what all headers say of it, a claim or not; where they say
/// one, they are the five that say it.
pub fn named()
    ensures values { (headers : List Header) (name : List ℕ) → Has claim_names name → values_of name (named_headers headers) ≡ values_of name headers }
    ensures claim { (headers : List Header) → claim_of (named_headers headers) ≡ claim_of headers }
    ensures said { (headers : List Header) (claim : Claim) → AreTexts headers → claim_of headers ≡ Some claim → named_headers headers ≡ claim_headers claim }
    ensures twice { (headers : List Header) → named_headers (named_headers headers) ≡ named_headers headers }
{}

/// The key and the value are kept where they are wanted.
pub fn texts()
    ensures key { (x : Item) → (wanted_item Texts x).key ≡ x.key }
    ensures value { (x : Item) → (wanted_item Texts x).value ≡ x.value }
{}

/// Nothing more is left out where the same is wanted twice.
pub fn twice()
    ensures item { (w : Wanted) (x : Item) → wanted_item w (wanted_item w x) ≡ wanted_item w x }
    ensures log { (w : Wanted) (p : PartLog) → wanted_log w (wanted_log w p) ≡ wanted_log w p }
{}

/// The offsets rise as they did.
pub fn order()
    ensures { (w : Wanted) (p : PartLog) → Rises (wanted_log w p).items ↔ Rises p.items }
{}
