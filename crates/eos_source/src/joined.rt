//! The runs of a partition's pieces, joined in order.

ghost use Rattle.std.specs.Prelude.{◌≡◌, ◌⊎◌, ◌+◌, ◌++◌, ℕ, List, Option, length, All, IfOk, IfErr, alloc_error};
ghost use Rattle.std.specs.Vec.Iter.{into_iter_items};
ghost use Rattle.eos_evidence.specs.declared.application.App.{App};
ghost use Rattle.eos_evidence.specs.declared.segment.Segment.{Segment};
ghost use Rattle.eos_source.specs.Said.{Said, Known};
ghost use Rattle.eos_kept.specs.Held.{Asking};
ghost use Rattle.eos_source.specs.steps.Runs.{asking, IsRead, AreRead, AreSlotsOf, IsFirstRefused, ArePassed};

use eos_evidence::Segment;
use eos_kept::KeptRun;
use std::alloc::{AllocError, Global};
use std::vec::IntoIter;

/// The run with the next one behind it.
fn longer(alloc: Global, run: Option<KeptRun>, next: KeptRun) -> Result<KeptRun, AllocError>
    requires { (known : ℕ → Known) × (said : ℕ → Said) × (a : Asking) × (piece : ℕ) × (names : List Segment) × (more : List Segment)
        × AreRead known said a piece names run × IsRead known said a (piece + length names) more next }
    ensures { (known : ℕ → Known) (said : ℕ → Said) (a : Asking) (piece : ℕ) (names more : List Segment)
        → AreRead known said a piece names run → IsRead known said a (piece + length names) more next → IfOk result (IsRead known said a piece (names ++ more)) }
{
    let Some(run) = run else {
        return Ok(next);
    };
    match KeptRun::join(alloc, run, next) {
        Ok(run) => Ok(run),
        Err((run, next)) => {
            drop(run);
            drop(next);
            Err(AllocError)
        }
    }
}

/// The run of the pieces of these names, which are of one topic, out of the next slots; or the first refusal among them.
pub(crate) fn next_run<F: From<AllocError> + Drop>(
    alloc: Global,
    names: &[Segment],
    slots: &mut IntoIter<Result<KeptRun, F>>,
) -> Result<Option<KeptRun>, F>
    requires { (known : ℕ → Known) × (said : ℕ → Said) × (topics : List (List ℕ)) × (apps : List App) × (topic : List ℕ) × (piece : ℕ) × (later : List Segment)
        × All (λ s. s.topic ≡ topic) names.now × AreSlotsOf known said topics apps piece (names.now ++ later) (into_iter_items slots.old) }
    ensures run { (known : ℕ → Known) (said : ℕ → Said) (topics : List (List ℕ)) (apps : List App) (topic : List ℕ) (piece : ℕ) (later : List Segment)
        → All (λ s. s.topic ≡ topic) names.now → AreSlotsOf known said topics apps piece (names.now ++ later) (into_iter_items slots.old)
        → IfOk result (λ run. AreRead known said (asking topics apps topic) piece names.now run × AreSlotsOf known said topics apps (piece + length names.now) later (into_iter_items slots.new)) }
    ensures passed { IfOk result (λ run. ArePassed (length names.now) (into_iter_items slots.old) (into_iter_items slots.new)) }
    ensures refused { IfErr result (λ why. IsFirstRefused (into_iter_items slots.old) why ⊎ F.from_gives alloc_error why) }
{
    let mut run = None;
    for _ in 0..names.len() {
        let Some(slot) = slots.next() else {
            unreachable!()
        };
        match slot {
            Ok(next) => run = Some(longer(alloc, run, next)?),
            Err(why) => {
                drop(run);
                return Err(why);
            }
        }
    }
    Ok(run)
}
