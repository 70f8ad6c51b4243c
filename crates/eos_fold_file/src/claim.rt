//! What is kept of a record of an output, and of the headers of a record of Kafka's own logs.
//!
//! | Field | Form | Meaning |
//! |---|---|---|
//! | of an output: kind | kind | 0 no claim; 1 a claim of a topic that was asked for; 2 a claim of another topic |
//! | at 1: topic | unsigned number | the topic's place among those that were asked for |
//! | at 2: topic | text | its name |
//! | at 1 and 2: partition, offset, output, of | number, unsigned numbers | the claim, as its headers say it |
//! | of Kafka's own logs: claim | kind | 0 none; 1 a claim: topic (text), partition, offset, output, of |

ghost use Rattle.std.specs.Prelude.{◌≡◌, ◌++◌, option_map, IfOk, OnOk};
ghost use Rattle.std.specs.List.{list_all};
ghost use Rattle.eos_claims.specs.Slots.{plain_claim};
ghost use Rattle.eos_fold_file.specs.Records.{is_placed, numbers_text, claim_text, optional_claim_text, output_text, numbers_from, claim_from, asked_from, foreign_from, some_claim_from, optional_claim_from, output_from};
ghost use Rattle.eos_fold_file.specs.Legal.{AreClaimNumbers, IsLegalClaim, IsLegalOutput, IsLegalOptionalClaim};
ghost use Rattle.eos_fold_file.specs.steps.Faults.{Gives};

use crate::entry::Entry;
use crate::fault::FoldFault;
use crate::number::{
    read_bytes, read_i32, read_kind, read_u32, read_u64, write_number, write_slice, write_u64,
};
use eos_claims::{Claim, ClaimRef};
use eos_reading::{AskedClaim, BoxedClaim, KeptOutput, OutputRef};
use eos_wire::{Cursor, write_i8};
use std::alloc::{AllocError, Global};

/// A claim but for its topic.
#[derive(Clone, Copy)]
pub(crate) struct ClaimNumbers {
    partition: i32,
    offset: u64,
    output: u32,
    of: u32,
}

// ---- claims

#[inline(always)]
#[tactic(auto, unfolding(crate::specs::Records::numbers_from))]
fn read_numbers(rest: &mut Cursor<'_>) -> Result<ClaimNumbers, FoldFault>
    ensures { Gives result rest.new (numbers_from rest.old) }
{
    let partition = read_i32(rest)?;
    let offset = read_u64(rest)?;
    let output = read_u32(rest)?;
    let of = read_u32(rest)?;
    Ok(ClaimNumbers {
        partition,
        offset,
        output,
        of,
    })
}

fn write_numbers(out: &mut Vec<u8>, numbers: ClaimNumbers) -> Result<(), AllocError>
    ensures text { OnOk result (out.new.items ≡ out.old.items ++ numbers_text numbers) }
    ensures fit { OnOk result (AreClaimNumbers numbers) }
{
    write_number(out, i64::from(numbers.partition))?;
    write_u64(out, numbers.offset)?;
    write_u64(out, u64::from(numbers.output))?;
    write_u64(out, u64::from(numbers.of))
}

#[tactic(auto, unfolding(crate::specs::Records::claim_from))]
fn read_claim(rest: &mut Cursor<'_>) -> Result<Claim, FoldFault>
    ensures { Gives result rest.new (claim_from rest.old) }
{
    let topic = read_bytes(rest)?;
    let numbers = read_numbers(rest)?;
    Ok(Claim {
        topic,
        partition: numbers.partition,
        offset: numbers.offset,
        output: numbers.output,
        of: numbers.of,
    })
}

// ---- of an output

#[tactic(auto, unfolding(crate::specs::Records::asked_from))]
fn read_asked(alloc: Global, rest: &mut Cursor<'_>) -> Result<KeptOutput, FoldFault>
    ensures { Gives result rest.new (asked_from rest.old) }
{
    let topic = read_u64(rest)?;
    let numbers = read_numbers(rest)?;
    let claim = AskedClaim {
        topic: topic as usize,
        partition: numbers.partition,
        offset: numbers.offset,
        output: numbers.output,
        of: numbers.of,
    };
    Ok(KeptOutput::asked(alloc, claim)?)
}

/// A copy of a claim, in a box.
fn boxed(alloc: Global, claim: &Claim) -> Result<BoxedClaim, AllocError>
    ensures { IfOk result (λ boxed. boxed ≡ claim.now) }
{
    let lent = ClaimRef {
        topic: claim.topic.as_slice(),
        partition: claim.partition,
        offset: claim.offset,
        output: claim.output,
        of: claim.of,
    };
    BoxedClaim::new(alloc, &lent)
}

#[tactic(auto, unfolding(crate::specs::Records::foreign_from))]
fn read_foreign(alloc: Global, rest: &mut Cursor<'_>) -> Result<KeptOutput, FoldFault>
    ensures { Gives result rest.new (foreign_from rest.old) }
{
    let claim = read_claim(rest)?;
    Ok(KeptOutput::foreign(boxed(alloc, &claim)?))
}

#[tactic(auto, unfolding(crate::specs::Records::output_from))]
fn read_output(alloc: Global, rest: &mut Cursor<'_>) -> Result<KeptOutput, FoldFault>
    ensures { Gives result rest.new (output_from rest.old) }
{
    match read_kind(rest)? {
        0 => Ok(KeptOutput::unclaimed()),
        1 => read_asked(alloc, rest),
        2 => read_foreign(alloc, rest),
        _ => Err(FoldFault::Record),
    }
}

/// Appends a claim whose topic is lent.
fn write_lent(out: &mut Vec<u8>, claim: ClaimRef<'_>) -> Result<(), AllocError>
    ensures text { OnOk result (out.new.items ≡ out.old.items ++ claim_text (plain_claim claim.entry)) }
    ensures fit { OnOk result (IsLegalClaim (plain_claim claim.entry)) }
{
    write_slice(out, claim.topic)?;
    write_numbers(
        out,
        ClaimNumbers {
            partition: claim.partition,
            offset: claim.offset,
            output: claim.output,
            of: claim.of,
        },
    )
}

fn is_placed(kept: &KeptOutput, topics: usize) -> bool
    ensures { result ≡ is_placed topics kept.now }
{
    match kept.view() {
        OutputRef::Unclaimed => true,
        OutputRef::Asked(claim) => claim.topic < topics,
        OutputRef::Foreign(_) => true,
    }
}

/// Whether each claim names a place among so many topics, or a topic.
pub(crate) fn are_placed(outputs: &[KeptOutput], topics: usize) -> bool
    ensures { result ≡ list_all (is_placed topics) outputs.now }
{
    for kept in outputs {
        if !is_placed(kept, topics) {
            return false;
        }
    }
    true
}

fn write_output(out: &mut Vec<u8>, kept: &KeptOutput) -> Result<(), AllocError>
    ensures text { OnOk result (out.new.items ≡ out.old.items ++ output_text kept.now) }
    ensures fit { OnOk result (IsLegalOutput kept.now) }
{
    match kept.view() {
        OutputRef::Unclaimed => write_i8(out, 0),
        OutputRef::Asked(claim) => {
            write_i8(out, 1)?;
            write_u64(out, claim.topic as u64)?;
            let numbers = ClaimNumbers {
                partition: claim.partition,
                offset: claim.offset,
                output: claim.output,
                of: claim.of,
            };
            write_numbers(out, numbers)
        }
        OutputRef::Foreign(claim) => {
            write_i8(out, 2)?;
            write_lent(out, claim)
        }
    }
}

impl Entry for KeptOutput {
    ghost use Rattle.eos_fold_file.specs.Legal.{IsLegalOutput};
    ghost use Rattle.eos_fold_file.specs.Records.{output_from, output_text};

    ghost entry_from = { output_from };

    ghost entry_text = { output_text };

    ghost entry_fits = { IsLegalOutput };

    fn read(alloc: Global, rest: &mut Cursor<'_>) -> Result<KeptOutput, FoldFault> {
        read_output(alloc, rest)
    }

    fn write(&self, out: &mut Vec<u8>) -> Result<(), AllocError> {
        write_output(out, self)
    }
}

// ---- of Kafka's own logs

#[tactic(auto, unfolding(crate::specs::Records::some_claim_from))]
fn read_some_claim(alloc: Global, rest: &mut Cursor<'_>) -> Result<Option<BoxedClaim>, FoldFault>
    ensures { Gives result rest.new (some_claim_from rest.old) }
{
    let claim = read_claim(rest)?;
    Ok(Some(boxed(alloc, &claim)?))
}

#[tactic(auto, unfolding(crate::specs::Records::optional_claim_from))]
pub(crate) fn read_optional_claim(
    alloc: Global,
    rest: &mut Cursor<'_>,
) -> Result<Option<BoxedClaim>, FoldFault>
    ensures { Gives result rest.new (optional_claim_from rest.old) }
{
    match read_kind(rest)? {
        0 => Ok(None),
        1 => read_some_claim(alloc, rest),
        _ => Err(FoldFault::Record),
    }
}

pub(crate) fn write_optional_claim(
    out: &mut Vec<u8>,
    claim: Option<ClaimRef<'_>>,
) -> Result<(), AllocError>
    ensures text { OnOk result (out.new.items ≡ out.old.items ++ optional_claim_text (option_map plain_claim claim.entry)) }
    ensures fit { OnOk result (IsLegalOptionalClaim (option_map plain_claim claim.entry)) }
{
    match claim {
        None => write_i8(out, 0),
        Some(claim) => {
            write_i8(out, 1)?;
            write_lent(out, claim)
        }
    }
}
