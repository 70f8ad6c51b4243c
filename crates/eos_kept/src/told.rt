//! A partition, made of what is kept of its segments, whatever was wanted of them.

ghost use Rattle.std.specs.Prelude.{◌≡◌, ℕ, List, IfOk};
ghost use Rattle.eos_claims.specs.Headers.{claim_of};
ghost use Rattle.eos_evidence.specs.declared.segment.Segment.{Segment};
ghost use Rattle.eos_fold.specs.Standing.{AreOf};
ghost use Rattle.eos_reading.specs.Outputs.{kept_output, claim_kept};
ghost use Rattle.eos_reading.specs.Records.{wanted_record, ReadsBack};
ghost use Rattle.eos_kept.specs.Parts.{IsTold};
ghost use Rattle.eos_kept.specs.steps.Made.{AreKept, AllKept};
ghost use Rattle.eos_kept.specs.Records.{SaysClaim};
ghost use Rattle.eos_kept.specs.KeptRuns.{AreKeptRun, IsWantedBy, HaveClaims};
ghost use Rattle.eos_reading.specs.declared.wanted.Wanted.TheVariants as wants;

use crate::{Asked, Kept, KeptRun, Part, Told};
use bytes::Bytes;
use eos_evidence::End;
use eos_reading::{KeptOutputs, KeptTexts, Wanted};
use std::alloc::{AllocError, Global};

fn presence_in(run: Option<KeptRun>) -> Option<Kept<Vec<()>>>
    requires { IsWantedBy wants.Presence run }
    ensures { (topics : List (List ℕ)) (segments : List Segment) → AreKeptRun topics segments run → AreKept (λ offset r. tt) segments result }
{
    match run {
        None => None,
        Some(KeptRun::Presence(kept)) => Some(kept),
        Some(KeptRun::Claims(_) | KeptRun::Texts(_)) => unreachable!(),
    }
}

fn claims_in(run: Option<KeptRun>) -> Option<Kept<KeptOutputs>>
    requires { IsWantedBy wants.Claims run }
    ensures kept { (topics : List (List ℕ)) (segments : List Segment) → AreKeptRun topics segments run → AreKept (λ offset r. kept_output topics (claim_of r.headers)) segments result }
    ensures claims { (topics : List (List ℕ)) → HaveClaims topics run → AllKept (λ one. ReadsBack (claim_kept topics one)) result }
{
    match run {
        None => None,
        Some(KeptRun::Claims(kept)) => Some(kept),
        Some(KeptRun::Presence(_) | KeptRun::Texts(_)) => unreachable!(),
    }
}

fn texts_in(run: Option<KeptRun>) -> Option<Kept<KeptTexts>>
    requires { IsWantedBy wants.Texts run }
    ensures kept { (topics : List (List ℕ)) (segments : List Segment) → AreKeptRun topics segments run → AreKept (λ offset r. wanted_record wants.Texts r) segments result }
    ensures claims { (topics : List (List ℕ)) → HaveClaims topics run → AllKept SaysClaim result }
{
    match run {
        None => None,
        Some(KeptRun::Texts(kept)) => Some(kept),
        Some(KeptRun::Presence(_) | KeptRun::Claims(_)) => unreachable!(),
    }
}

/// Equal names, which share their bytes.
fn copy_of(alloc: Global, topics: &[Bytes]) -> Result<Vec<Bytes>, AllocError>
    ensures { IfOk result (λ copy. copy.items ≡ topics.now) }
{
    let mut copy = Vec::new(alloc);
    for topic in topics {
        copy.push(topic.clone()?)?;
    }
    Ok(copy)
}

/// The log of a partition that is declared to end here, of what was asked of its segments.
///
/// # Errors
/// Only want of memory.
pub fn told_of(
    alloc: Global,
    end: End,
    asked: Asked<'_>,
    run: Option<KeptRun>,
) -> Result<Told, AllocError>
    requires wanted { IsWantedBy asked.wanted run }
    requires claims { HaveClaims asked.topics.now run }
    ensures { IfOk result (λ told. (segments : List Segment) → AreKeptRun asked.entry.topics.now segments run → AreOf end.topic end.partition segments → IsTold asked.entry.wanted end segments told) }
{
    match asked.wanted {
        Wanted::Presence => Part::of_presence(alloc, end, presence_in(run)),
        Wanted::Claims => {
            let kept = claims_in(run);
            let topics = copy_of(alloc, asked.topics)?;
            Part::of_outputs(alloc, end, topics, kept)
        }
        Wanted::Texts => Part::of_texts(alloc, end, texts_in(run)),
    }
}
