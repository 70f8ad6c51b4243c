//! What is kept of a list of segments, by what is wanted of their log.

ghost use Rattle.std.specs.Prelude.{◌≡◌, ◌≤◌, ◌+◌, ◌∷◌, [], ◌++◌, ℕ, List, length, Err, IfOk, IfErr, OnOk, OnErr};
ghost use Rattle.std.specs.Io.KnownBytes.{Consumes, IsAtEnd};
ghost use Rattle.eos_evidence.specs.declared.segment.Segment.{Segment};
ghost use Rattle.eos_evidence.specs.Reading.{Takes, TakesAtMost};
ghost use Rattle.eos_kept.specs.KeptRuns.{IsKeptRun, HasClaims, wanted_by, front_of, SameKeptRun};

use crate::{Kept, keep_segment};
use bytes::Bytes;
use eos_evidence::{MAX_SEGMENT_BYTES, ReadFault};
use eos_reading::{KeptOutputs, KeptTexts, Nothing, Outputs, Texts, Wanted};
use std::alloc::Global;
use std::io::Read;

/// What is kept of a list of segments of one partition.
#[derive(Drop)]
pub enum KeptRun {
    /// That their records are there.
    Presence(Kept<Vec<()>>),
    /// The claims of their records.
    Claims(Kept<KeptOutputs>),
    /// The keys, values and claims of their records.
    Texts(Kept<KeptTexts>),
}

/// What is asked of a segment: what is wanted of its log, and the topics that are asked for.
#[derive(Clone, Copy)]
pub struct Asked<'a> {
    pub wanted: Wanted,
    pub topics: &'a [Bytes],
}

impl KeptRun {
    /// Reads a segment of this topic, whose name is `base`, to its end, as `keep_segment` does.
    pub fn read<R: Read>(
        alloc: Global,
        asked: Asked<'_>,
        topic: &[u8],
        base: i64,
        reader: &mut R,
    ) -> Result<KeptRun, ReadFault>
        ensures ok { IfOk result (λ run. (bytes : List ℕ) × Consumes (R.remaining reader.old) (R.remaining reader.new) bytes × (length bytes ≤ MAX_SEGMENT_BYTES)
            × ((segment : Segment) → segment.topic ≡ topic.now → segment.base ≡ base → segment.bytes ≡ bytes → IsKeptRun asked.entry.topics.now (segment ∷ []) run)) }
        ensures wanted { IfOk result (λ run. wanted_by run ≡ asked.entry.wanted) }
        ensures claims { IfOk result (HasClaims asked.entry.topics.now) }
        ensures end { OnOk result (IsAtEnd (R.remaining reader.new)) }
        ensures read { result ≡ Err ReadFault.Read → TakesAtMost MAX_SEGMENT_BYTES (R.remaining reader.old) (R.remaining reader.new) }
        ensures limit { result ≡ Err ReadFault.Limit → Takes (MAX_SEGMENT_BYTES + 1) (R.remaining reader.old) (R.remaining reader.new) }
        ensures refused { OnErr result (TakesAtMost (MAX_SEGMENT_BYTES + 1) (R.remaining reader.old) (R.remaining reader.new)) }
    {
        match asked.wanted {
            Wanted::Presence => match keep_segment(alloc, Nothing, topic, base, reader) {
                Ok(kept) => Ok(KeptRun::Presence(kept)),
                Err(fault) => Err(fault),
            },
            Wanted::Claims => {
                let outputs = Outputs {
                    topics: asked.topics,
                };
                match keep_segment(alloc, outputs, topic, base, reader) {
                    Ok(kept) => Ok(KeptRun::Claims(kept)),
                    Err(fault) => Err(fault),
                }
            }
            Wanted::Texts => match keep_segment(alloc, Texts, topic, base, reader) {
                Ok(kept) => Ok(KeptRun::Texts(kept)),
                Err(fault) => Err(fault),
            },
        }
    }

    /// What is kept of two lists of segments of one partition, of which the second follows the first. Where memory is refused
    /// both are handed back.
    pub fn join(
        alloc: Global,
        before: KeptRun,
        after: KeptRun,
    ) -> Result<KeptRun, (KeptRun, KeptRun)>
        requires wanted { wanted_by after ≡ wanted_by before }
        requires checked { (front_of after).run.sequenced ≡ (front_of before).run.sequenced }
        ensures ok { (topics : List (List ℕ)) (xs ys : List Segment) → IsKeptRun topics xs before → IsKeptRun topics ys after → IfOk result (IsKeptRun topics (xs ++ ys)) }
        ensures claims { (topics : List (List ℕ)) → HasClaims topics before → HasClaims topics after → IfOk result (HasClaims topics) }
        ensures wanted { IfOk result (λ run. wanted_by run ≡ wanted_by before) }
        ensures sequenced { IfOk result (λ run. (front_of run).run.sequenced ≡ (front_of before).run.sequenced) }
        ensures err { IfErr result (λ back. SameKeptRun before back.0 × SameKeptRun after back.1) }
    {
        match before {
            KeptRun::Presence(before) => {
                let KeptRun::Presence(after) = after else {
                    unreachable!()
                };
                match Kept::join(alloc, before, after) {
                    Ok(run) => Ok(KeptRun::Presence(run)),
                    Err((before, after)) => {
                        Err((KeptRun::Presence(before), KeptRun::Presence(after)))
                    }
                }
            }
            KeptRun::Claims(before) => {
                let KeptRun::Claims(after) = after else {
                    unreachable!()
                };
                match Kept::join(alloc, before, after) {
                    Ok(run) => Ok(KeptRun::Claims(run)),
                    Err((before, after)) => Err((KeptRun::Claims(before), KeptRun::Claims(after))),
                }
            }
            KeptRun::Texts(before) => {
                let KeptRun::Texts(after) = after else {
                    unreachable!()
                };
                match Kept::join(alloc, before, after) {
                    Ok(run) => Ok(KeptRun::Texts(run)),
                    Err((before, after)) => Err((KeptRun::Texts(before), KeptRun::Texts(after))),
                }
            }
        }
    }
}
