//! What is looked up of a source and of a claim, in the tables of one application.

ghost use Rattle.std.specs.Prelude.{◌≡◌, option_map};
ghost use Rattle.eos_claims.specs.Outputs.{Application};
ghost use Rattle.eos_claims.specs.Candidates.{is_input as is_input_of, is_passed as is_passed_of};
ghost use Rattle.eos_faults.specs.steps.Plain.{claim_at, place_at};
ghost use Rattle.eos_faults.specs.steps.Tables.{AreTables, IsKnown, goes_past as is_past};

use crate::commits::{Offset, Offsets, Reached, offset_in, pass_key, reach_in};
use crate::lent::{LentPlace, VisibleClaim};
use eos_base::Sorted;
use eos_commits::TopicSet;
use eos_evidence::GroupId;
use eos_kept::Part;

/// What an application reads, commits and writes, and the logs.
#[derive(Drop)]
pub(crate) struct Books<'a> {
    /// The topics that it reads, and those that it writes.
    pub sources: TopicSet<'a>,
    pub outputs: TopicSet<'a>,
    pub offsets: Offsets<'a>,
    pub reached: Reached<'a>,
    /// The group that its faults name.
    pub group: Option<&'a GroupId>,
    pub parts: &'a [Part],
}

/// The visible records of the topics that an application reads, and the claims of those that it writes, as far as their sources are
/// of one range.
#[derive(Drop)]
pub(crate) struct Tables<'b, 'a> {
    pub books: &'b Books<'a>,
    pub inputs: Sorted<LentPlace<'a>>,
    pub claims: Sorted<VisibleClaim<'a>>,
}

/// Whether an offset was committed, and this one is below it.
fn goes_past(committed: Option<Offset>, offset: u64) -> bool
    ensures { result ≡ is_past offset (option_map (λ o. o.offset) committed) }
{
    match committed {
        None => false,
        Some(last) => last.offset > 0 && offset < last.offset as u64,
    }
}

/// What is known of a source: whether its topic is one that the application reads, whether a visible record stands there, and whether
/// that is below its committed offset.
#[derive(Clone, Copy)]
pub(crate) struct Known {
    pub is_source: bool,
    pub is_input: bool,
    pub is_committed: bool,
}

pub(crate) fn known_of<'a>(tables: &Tables<'_, 'a>, source: &LentPlace<'a>, is_input: bool) -> Known
    ensures { (a : Application) → AreTables a tables.now → is_input ≡ is_input_of a (place_at source.now) → IsKnown a (place_at source.now) result }
{
    let committed = offset_in(&tables.books.offsets, &source.partition);
    Known {
        is_source: tables.books.sources.has(source.partition.topic),
        is_input,
        is_committed: goes_past(committed, source.offset),
    }
}

/// Whether the claim's transaction committed past its source.
pub(crate) fn is_passed<'a>(tables: &Tables<'_, 'a>, claim: &VisibleClaim<'a>) -> bool
    ensures { (a : Application) → AreTables a tables.now → result ≡ is_passed_of a (claim_at claim.now) }
{
    match pass_key(claim.writer, claim.source.partition) {
        None => false,
        Some(key) => goes_past(reach_in(&tables.books.reached, &key), claim.source.offset),
    }
}
