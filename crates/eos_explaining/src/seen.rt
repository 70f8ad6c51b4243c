//! The logs as a story sees them: what is kept of them; but where it looks for claims, of those of whose topics no application is
//! the keys, values and claims too.

ghost use Rattle.std.specs.Prelude.{◌≡◌, length, IfOk, IfErr};
ghost use Rattle.eos_evidence.specs.Evidence.{IsEvidence, segments_of};
ghost use Rattle.eos_source.specs.Said.{known_by};
ghost use Rattle.eos_source_check.specs.Refusals.{IsUnread};
ghost use Rattle.eos_explaining.specs.steps.Seen.{AreTextsBy, texts_or, IsSeenBy, AreAllSeenBy, AreSeenBy};

use eos_base::PartitionName;
use eos_check::Verdict;
use eos_kept::{Logs, Part};
use eos_manifest::is_judged;
use eos_source::Source;
use eos_source_check::{Judged, Pieces, Unlisted, texts_again};
use eos_verdict::{Fault, LineageFault};
use std::alloc::{AllocError, Global};

/// Whether a story of one of these faults looks for claims: a claim in a topic of which no application is is no output, and nothing is kept
/// of it, but a story that looks for a missing output shows it.
fn is_of_claims(told: &[Verdict]) -> bool {
    match told.first() {
        None => false,
        Some(Verdict::Yes(_)) => false,
        Some(Verdict::No(fault)) => is_of_output(fault),
    }
}

fn is_of_output(fault: &Fault) -> bool {
    match fault {
        Fault::Lineage(fault) => matches!(fault, LineageFault::Output { .. }),
        _ => false,
    }
}

/// The name of a log.
fn name_of(part: &Part) -> Result<PartitionName, AllocError>
    ensures { IfOk result (λ name. name ≡ record { topic = part.now.topic; partition = part.now.number }) }
{
    Ok(PartitionName {
        topic: part.topic().clone()?,
        partition: part.partition(),
    })
}

/// The keys, values and claims of a log of whose topic no application is, of its partition, which is read again; none where there is no
/// such partition.
fn texts_of<S: Source>(
    alloc: Global,
    pieces: &Pieces<'_, S>,
    part: &Part,
) -> Result<Option<Part>, Unlisted<S::Fault>>
    requires { IsEvidence pieces.now.shape.now }
    ensures seen { IfOk result (λ texts. AreTextsBy (known_by (S.said pieces.now.source.now) (S.is_log pieces.now.source.now)) pieces.now.shape.now part.now (texts_or part.now texts)) }
    ensures unread { IfErr result (IsUnread (S.outcomes pieces.now.source.now) (length (segments_of pieces.now.shape.now.partitions))) }
{
    let name = name_of(part)?;
    let told = texts_again(alloc, pieces.source, pieces.shape, &name);
    drop(name);
    match told? {
        None => Ok(None),
        Some(told) => Ok(Some(told.part)),
    }
}

fn seen_of<S: Source>(
    alloc: Global,
    pieces: &Pieces<'_, S>,
    part: Part,
) -> Result<Part, Unlisted<S::Fault>>
    ensures seen { IfOk result (IsSeenBy (known_by (S.said pieces.now.source.now) (S.is_log pieces.now.source.now)) pieces.now.shape.now part) }
    ensures unread { IfErr result (IsUnread (S.outcomes pieces.now.source.now) (length (segments_of pieces.now.shape.now.partitions))) }
{
    let apps = pieces.shape.spec().apps().as_slice();
    if is_judged(apps, part.topic().as_slice()) {
        return Ok(part);
    }
    match texts_of(alloc, pieces, &part) {
        Ok(None) => Ok(part),
        Ok(Some(texts)) => {
            drop(part);
            Ok(texts)
        }
        Err(why) => {
            drop(part);
            Err(why)
        }
    }
}

/// These logs, with the keys, values and claims of those of whose topics no application is.
fn all_seen<S: Source>(
    alloc: Global,
    pieces: &Pieces<'_, S>,
    parts: Vec<Part>,
) -> Result<Vec<Part>, Unlisted<S::Fault>>
    ensures seen { IfOk result (λ seen. AreAllSeenBy (known_by (S.said pieces.now.source.now) (S.is_log pieces.now.source.now)) pieces.now.shape.now parts.items seen.items) }
    ensures unread { IfErr result (IsUnread (S.outcomes pieces.now.source.now) (length (segments_of pieces.now.shape.now.partitions))) }
{
    let mut seen = Vec::new(alloc);
    for part in parts {
        let one = seen_of(alloc, pieces, part)?;
        seen.push(one)?;
    }
    Ok(seen)
}

/// What is kept of the logs of what was judged.
pub(crate) fn parts_of(judged: Judged) -> Vec<Part>
    ensures { result.items ≡ judged.logs.parts.items }
{
    let Judged { logs, verdict, .. } = judged;
    drop(verdict);
    let Logs { parts, .. } = logs;
    parts
}

/// These logs, as stories of these faults see them. Each partition that is read again for them is dropped before the next one is read.
pub(crate) fn seen_logs<S: Source>(
    alloc: Global,
    pieces: &Pieces<'_, S>,
    parts: Vec<Part>,
    told: &[Verdict],
) -> Result<Vec<Part>, Unlisted<S::Fault>>
    ensures seen { IfOk result (λ seen. AreSeenBy (known_by (S.said pieces.now.source.now) (S.is_log pieces.now.source.now)) pieces.now.shape.now parts.items seen.items) }
    ensures unread { IfErr result (IsUnread (S.outcomes pieces.now.source.now) (length (segments_of pieces.now.shape.now.partitions))) }
{
    if is_of_claims(told) {
        return all_seen(alloc, pieces, parts);
    }
    Ok(parts)
}
