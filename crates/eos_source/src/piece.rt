//! One piece, read from its source.

ghost use Rattle.std.specs.Prelude.{◌∷◌, [], None, Some, IfOk, IfErr};
ghost use Rattle.eos_evidence.specs.declared.segment.Segment.{Segment};
ghost use Rattle.eos_fold_file.specs.Folds.{IsFoldOf};
ghost use Rattle.eos_fold_file.specs.Legal.{IsLegal};
ghost use Rattle.eos_kept.specs.KeptRuns.{IsKeptRun};
ghost use Rattle.eos_kept.specs.Held.{IsAsked};
ghost use Rattle.eos_source.specs.Said.{Said, known_by};
ghost use Rattle.eos_source.specs.steps.Runs.{IsTaken};

use crate::source::{Piece, Source};
use eos_evidence::Segment;
use eos_fold_file::{FoldFile, Unfit, run_of};
use eos_kept::{Asked, KeptRun};
use std::alloc::Global;

/// What is asked of a segment of this topic, taken from a fold, which may be that of another segment.
fn taken(alloc: Global, asked: Asked<'_>, topic: &[u8], fold: FoldFile) -> Result<KeptRun, Unfit>
    requires { IsLegal fold }
    ensures kept { IfOk result (λ run. (segment : Segment) → IsFoldOf segment fold → IsKeptRun asked.entry.topics.now (segment ∷ []) run) }
    ensures asked { IfOk result (IsAsked (record { topics = asked.entry.topics.now; wanted = asked.entry.wanted; topic = topic.now })) }
{
    if fold.topic.as_slice() != topic {
        drop(fold);
        return Err(Unfit::Roles);
    }
    run_of(alloc, asked, fold)
}

/// What is asked of the piece of this number, whose name this is: it is opened, and a log is read to its end.
pub(crate) fn read_piece<S: Source>(
    alloc: Global,
    source: &S,
    asked: Asked<'_>,
    piece: u64,
    name: &Segment,
) -> Result<KeptRun, S::Fault>
    ensures taken { IfOk result (λ run. (said : Said) × IsTaken (known_by (S.said source.now) (S.is_log source.now) piece) said (record { topics = asked.entry.topics.now; wanted = asked.entry.wanted; topic = name.now.topic }) name.now run) }
    ensures opened { IfOk result (λ run. S.outcomes source.now piece None) }
    ensures refused { IfErr result (λ why. S.outcomes source.now piece (Some why)) }
{
    match source.open(alloc, piece)? {
        Piece::Log(mut reader) => {
            match KeptRun::read(alloc, asked, name.topic.as_slice(), name.base, &mut reader) {
                Ok(run) => Ok(run),
                Err(why) => Err(source.refusal(alloc, piece, &mut reader, why)),
            }
        }
        Piece::Fold(fold) => match taken(alloc, asked, name.topic.as_slice(), fold) {
            Ok(run) => Ok(run),
            Err(why) => Err(source.unfit(alloc, piece, why)),
        },
    }
}
