//! The story of one of all faults, told over the partitions that it names. These are read again for the folds of their segments: its rows are
//! found by those that were read, and again once a further one was that they name, until there is none.

ghost use Rattle.std.specs.Prelude.{◌≡◌, length, IfOk, IfErr, IfSome, OnOk, string_bytes};
ghost use Rattle.std.specs.Option.{option_copied};
ghost use Rattle.eos_evidence.specs.Evidence.{segments_of};
ghost use Rattle.eos_text.specs.Catalogue.{IsPageOf};
ghost use Rattle.eos_verdict.specs.declared.verdict.Fault.{Fault as AFault};
ghost use Rattle.eos_verdict.specs.declared.verdict.Verdict.TheVariants.{No};
ghost use Rattle.eos_source.specs.Said.{known_by};
ghost use Rattle.eos_source_check.specs.Refusals.{IsUnread};
ghost use Rattle.eos_story.specs.PlaceOfFault.{place_of as place_of_fault};
ghost use Rattle.eos_explaining.specs.Explaining.{code_of};
ghost use Rattle.eos_explaining.specs.steps.Again.{AreHeadersThere, ReadsMore, IsToldBy};

use crate::again::read_named;
use crate::headers::own_headers;
use crate::times::row_times;
use crate::{Story, story_text};
use eos_batch::Header;
use eos_check::{Fault, Verdict};
use eos_claims::Place;
use eos_faults::Crew;
use eos_kept::Part;
use eos_notes::Note;
use eos_sought::Folded;
use eos_source::Source;
use eos_source_check::{Pieces, Unlisted};
use eos_story::{Row, Scene, place_of, rows_of};
use eos_text::{Page, page_of};
use std::alloc::{AllocError, Global};
use std::thread::Threads;

/// The catalogue's page of a kind of fault.
fn page_for(alloc: Global, fault: &Fault) -> Result<Option<&'static Page>, AllocError>
    ensures { IfOk result (λ page. IsPageOf (code_of fault.now) (option_copied page)) }
{
    let phase = fault.phase();
    let number = fault.number();
    let code = format!(in alloc; "{phase}.{number}")?;
    Ok(page_of(code.as_str()))
}

/// What a story tells beside its fault: the folder's path, the line of how many faults there are of each kind, and the notes; and the logs
/// that it is told by.
#[derive(Clone, Copy)]
pub(crate) struct About<'a> {
    pub(crate) folder: &'a str,
    pub(crate) counts: &'a str,
    pub(crate) notes: &'a [Note],
    pub(crate) logs: &'a [Part],
}

/// The fault that a verdict names, its place, if it has one, and the headers of the record there.
#[derive(Clone, Copy)]
struct Of<'a> {
    verdict: &'a Verdict,
    fault: &'a Fault,
    place: &'a Option<Place>,
    headers: &'a [Header],
}

/// The story by the partitions that were read, unless it names others; these are read then.
fn told_once<S: Source, R: Threads + Sync>(
    crew: &Crew<'_, R>,
    pieces: &Pieces<'_, S>,
    read: &mut Vec<Folded>,
    about: &About<'_>,
    of: Of<'_>,
) -> Result<Option<String>, Unlisted<S::Fault>>
    requires names { of.verdict.now ≡ No of.fault.now }
    requires place { of.place.now ≡ place_of_fault of.fault.now }
    requires headers { AreHeadersThere (known_by (S.said pieces.now.source.now) (S.is_log pieces.now.source.now)) pieces.now.shape.now read.old.items of.place.now of.headers.now }
    ensures more { OnOk result (ReadsMore (known_by (S.said pieces.now.source.now) (S.is_log pieces.now.source.now)) pieces.now.shape.now.partitions read.old.items read.new.items) }
    ensures told { IfOk result (λ told. IfSome told (λ text. IsToldBy (known_by (S.said pieces.now.source.now) (S.is_log pieces.now.source.now)) pieces.now.shape.now read.new.items about.now of.entry.verdict.now (string_bytes text))) }
    ensures unread { IfErr result (IsUnread (S.outcomes pieces.now.source.now) (length (segments_of pieces.now.shape.now.partitions))) }
{
    let scene = Scene {
        alloc: crew.alloc,
        apps: pieces.shape.spec().apps().as_slice(),
        partitions: read.as_slice(),
        logs: about.logs,
        place: of.place.as_ref(),
        headers: of.headers,
    };
    let rows = rows_of(&scene, of.fault)?;
    if read_named(crew, pieces, read, of.place.as_ref(), rows.as_slice())? {
        return Ok(None);
    }
    let times = row_times(crew, pieces, rows.as_slice())?;
    let page = page_for(crew.alloc, of.fault)?;
    let story = Story {
        folder: about.folder,
        verdict: of.verdict,
        place: of.place.as_ref(),
        rows: rows.as_slice(),
        page,
        counts: about.counts,
        notes: about.notes,
    };
    let text = story_text(crew.alloc, &story, times.as_slice())?;
    Ok(Some(text))
}

/// The story of the fault that this verdict names.
fn told_of<S: Source, R: Threads + Sync>(
    crew: &Crew<'_, R>,
    pieces: &Pieces<'_, S>,
    read: &mut Vec<Folded>,
    about: &About<'_>,
    of: Of<'_>,
) -> Result<String, Unlisted<S::Fault>>
    requires names { of.verdict.now ≡ No of.fault.now }
    requires place { of.place.now ≡ place_of_fault of.fault.now }
    requires headers { AreHeadersThere (known_by (S.said pieces.now.source.now) (S.is_log pieces.now.source.now)) pieces.now.shape.now read.old.items of.place.now of.headers.now }
    ensures more { OnOk result (ReadsMore (known_by (S.said pieces.now.source.now) (S.is_log pieces.now.source.now)) pieces.now.shape.now.partitions read.old.items read.new.items) }
    ensures told { IfOk result (λ text. IsToldBy (known_by (S.said pieces.now.source.now) (S.is_log pieces.now.source.now)) pieces.now.shape.now read.new.items about.now of.entry.verdict.now (string_bytes text)) }
    ensures unread { IfErr result (IsUnread (S.outcomes pieces.now.source.now) (length (segments_of pieces.now.shape.now.partitions))) }
{
    let rounds = pieces.shape.partitions().len();
    for _ in 0..rounds {
        if let Some(text) = told_once(crew, pieces, read, about, of)? {
            return Ok(text);
        }
    }
    match told_once(crew, pieces, read, about, of)? {
        Some(text) => Ok(text),
        // Each time a further partition was read, so that none is left by now.
        None => Err(Unlisted::OutOfMemory),
    }
}

/// The story of the fault that this verdict names. The partitions that it names are read again, but for those that were read.
///
/// # Errors
/// A piece isn't there any more, is a fold, or can't be read; or want of memory.
pub(crate) fn story_of<S: Source, R: Threads + Sync>(
    crew: &Crew<'_, R>,
    pieces: &Pieces<'_, S>,
    read: &mut Vec<Folded>,
    about: &About<'_>,
    verdict: &Verdict,
) -> Result<String, Unlisted<S::Fault>>
    requires names { (fault : AFault) × (verdict.now ≡ No fault) }
    ensures more { OnOk result (ReadsMore (known_by (S.said pieces.now.source.now) (S.is_log pieces.now.source.now)) pieces.now.shape.now.partitions read.old.items read.new.items) }
    ensures told { IfOk result (λ text. IsToldBy (known_by (S.said pieces.now.source.now) (S.is_log pieces.now.source.now)) pieces.now.shape.now read.new.items about.now verdict.now (string_bytes text)) }
    ensures unread { IfErr result (IsUnread (S.outcomes pieces.now.source.now) (length (segments_of pieces.now.shape.now.partitions))) }
{
    match verdict {
        Verdict::Yes(_) => unreachable!(),
        Verdict::No(fault) => {
            let place = place_of(crew.alloc, fault)?;
            let headers = own_headers(crew.alloc, pieces, read, place.as_ref())?;
            let of = Of {
                verdict,
                fault,
                place: &place,
                headers: headers.as_slice(),
            };
            told_of(crew, pieces, read, about, of)
        }
    }
}
