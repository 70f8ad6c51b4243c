//! A fold, taken for what is asked of its segment.

ghost use Rattle.std.specs.Prelude.{◌≡◌, ◌∷◌, [], not, true, Err, IfOk};
ghost use Rattle.eos_evidence.specs.declared.segment.Segment.{Segment};
ghost use Rattle.eos_evidence.specs.Topics.{is_internal};
ghost use Rattle.eos_fold_file.specs.Folds.{IsFoldOf, IsAskedAs};
ghost use Rattle.eos_fold_file.specs.Legal.{IsLegal};
ghost use Rattle.eos_kept.specs.KeptRuns.{IsKeptRun, HasClaims, wanted_by, front_of};

use crate::claims::are_said;
use crate::kept::with_kept;
use crate::run_front::front_of;
use crate::unfit::Unfit;
use crate::{FoldFile, FoldKept, laws};
use eos_fold::is_checked;
use eos_kept::{Asked, KeptRun, Sizes};
use eos_reading::Wanted;
use std::alloc::Global;

/// Whether a fold keeps what is asked.
fn is_asked_as(asked: Asked<'_>, kept: &FoldKept) -> bool
    ensures yes { result ≡ true → IsAskedAs asked.entry.wanted asked.entry.topics.now kept.now }
    ensures no { IsAskedAs asked.entry.wanted asked.entry.topics.now kept.now → result ≡ true }
{
    match (asked.wanted, kept) {
        (Wanted::Presence, FoldKept::Presence) => true,
        (Wanted::Claims, FoldKept::Claims { topics, .. }) => topics.as_slice() == asked.topics,
        (Wanted::Texts, FoldKept::Texts(_)) => true,
        _ => false,
    }
}

/// What is kept of the segment that was folded, as if it had been read. The fold may be anyone's: one that is of no segment gives a
/// run of none. Its topic, its partition and its name are for the caller to compare.
///
/// # Errors
/// First Roles, where it was folded for other roles, or for other source topics; then Record, where it has a claim that no headers
/// say; then want of memory.
pub fn run_of(alloc: Global, asked: Asked<'_>, fold: FoldFile) -> Result<KeptRun, Unfit>
    requires { IsLegal fold }
    ensures ok { IfOk result (λ run. (segment : Segment) → IsFoldOf segment fold → IsKeptRun asked.entry.topics.now (segment ∷ []) run) }
    ensures wanted { IfOk result (λ run. wanted_by run ≡ asked.entry.wanted) }
    ensures checked { IfOk result (λ run. (front_of run).run.sequenced ≡ not (is_internal fold.topic)) }
    ensures claims { IfOk result (λ run. HasClaims asked.entry.topics.now run) }
    ensures roles { result ≡ Err Unfit.Roles → IsAskedAs asked.entry.wanted asked.entry.topics.now fold.kept → ⊥ }
    ensures otherwise { (IsAskedAs asked.entry.wanted asked.entry.topics.now fold.kept → ⊥) → result ≡ Err Unfit.Roles }
    ensures record { result ≡ Err Unfit.Record → (segment : Segment) → IsFoldOf segment fold → ⊥ }
{
    if !is_asked_as(asked, &fold.kept) {
        return Err(Unfit::Roles);
    }
    if !are_said(&fold.kept) {
        return Err(Unfit::Record);
    }
    laws::batches();
    let begin = fold.base.unsigned_abs();
    let sequenced = is_checked(fold.topic.as_slice());
    let (mut front, count) = front_of(alloc, begin, sequenced, fold.heads.as_slice())?;
    front.stop = fold.stop;
    front.epochs = fold.epochs.into_vec();
    let sizes = Sizes {
        segments: 1,
        bytes: fold.bytes,
    };
    let run = with_kept(alloc, front, count, sizes, fold.kept)?;
    Ok(run)
}
