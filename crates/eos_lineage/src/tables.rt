//! What is known of the place that a claim names, by the tables of one application.

ghost use Rattle.std.specs.Prelude.{◌≡◌, IsSorted, slice_get};
ghost use Rattle.eos_base.specs.Members.{Has, is_found};
ghost use Rattle.eos_claims.specs.declared.place.Place.{Place};
ghost use Rattle.eos_claims.specs.Outputs.{Application};
ghost use Rattle.eos_claims.specs.Candidates.{is_committed as is_committed_in};
ghost use Rattle.eos_claims.specs.Plain.{plain_source, plain_place};
ghost use Rattle.eos_lineage.specs.steps.Walks.{AreTables, KnowsPlace, AreTests, by_place, is_below_in, flags_of};

use crate::passes::{PassMarks, PassTable};
use eos_base::is_below;
use eos_claims::{PlaceRef, SourceRef, SourceTests, source_at};
use eos_commits::{Names, TopicSet};

/// What an application reads and commits, in order for look-ups. Each table is lent for a time of its own; the names and
/// topics in them are lent for 'a.
#[derive(Clone, Copy)]
pub(crate) struct Tables<'n, 's, 'i, 'o, 'p, 'a> {
    /// The partitions' names.
    pub(crate) names: &'n Names<'a>,
    /// The topics that it reads.
    pub(crate) sources: &'s TopicSet<'a>,
    /// The visible records of these.
    pub(crate) inputs: &'i [PlaceRef<'a>],
    /// The committed offset of each partition, in the order of the names.
    pub(crate) offsets: &'o [i64],
    /// What its group's transactions committed past.
    pub(crate) passes: &'p PassTable<'a>,
}

/// A place in a partition of the evidence.
#[derive(Clone, Copy)]
pub(crate) struct Known<'a> {
    pub(crate) place: PlaceRef<'a>,
    pub(crate) is_input: bool,
    pub(crate) is_committed: bool,
}

/// Whether the place is one of the inputs.
fn is_input(inputs: &[PlaceRef<'_>], place: &PlaceRef<'_>) -> bool
    ensures { IsSorted by_place inputs.now → result ≡ is_found by_place inputs.now place.now }
{
    inputs.binary_search(place).is_ok()
}

/// Whether the offset is below the one that stands at this place.
fn is_below_at(offsets: &[i64], place: usize, offset: u64) -> bool
    ensures { result ≡ is_below_in (slice_get offsets.now place) offset }
{
    match offsets.get(place) {
        None => false,
        Some(committed) => is_below(offset, *committed),
    }
}

/// What is known of the place: nothing where its partition isn't there.
pub(crate) fn known_of<'a>(
    tables: &Tables<'_, '_, '_, '_, '_, 'a>,
    source: &SourceRef<'_>,
) -> Option<Known<'a>>
    ensures { (a : Application) → AreTables a tables.entry.now → KnowsPlace a (plain_source source.now) result }
{
    let part = tables.names.find(source.topic, source.partition)?;
    let place = PlaceRef {
        partition: part.name,
        offset: source.offset,
    };
    Some(Known {
        place,
        is_input: is_input(tables.inputs, &place),
        is_committed: is_below_at(tables.offsets, part.place, source.offset),
    })
}

/// Whether it is an input, and whether that is below its committed offset.
fn flags(known: &Option<Known<'_>>) -> (bool, bool)
    ensures { result ≡ flags_of known.now }
{
    match known {
        None => (false, false),
        Some(known) => (known.is_input, known.is_committed),
    }
}

/// What is known of a claim's source.
pub(crate) fn tests_of(
    tables: &Tables<'_, '_, '_, '_, '_, '_>,
    known: &Option<Known<'_>>,
    source: &SourceRef<'_>,
    writer: Option<(i64, i16)>,
) -> SourceTests
    ensures { (a : Application) → AreTables a tables.now → KnowsPlace a (plain_source source.now) known.now → AreTests a (plain_source source.now) writer result }
{
    let (is_input, is_committed) = flags(known);
    let mut marks = PassMarks::new();
    SourceTests {
        is_source: tables.sources.has(source.topic),
        is_input,
        is_committed,
        is_passed: tables.passes.is_passed(&mut marks, writer, source),
    }
}

/// Whether an input is below its committed offset.
pub(crate) fn is_committed(tables: &Tables<'_, '_, '_, '_, '_, '_>, input: &PlaceRef<'_>) -> bool
    ensures { (a : Application) → AreTables a tables.now → Has a.inputs (plain_place input.now) → result ≡ is_committed_in a (plain_place input.now) }
{
    let source = source_at(*input);
    match known_of(tables, &source) {
        None => false,
        Some(known) => known.is_committed,
    }
}
