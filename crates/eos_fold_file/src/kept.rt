//! What is kept of a front's data records, by what was wanted of them.

ghost use Rattle.std.specs.Prelude.{◌≡◌, List, IfOk};
ghost use Rattle.eos_batch.specs.declared.batch.Batch.{Batch};
ghost use Rattle.eos_evidence.specs.declared.segment.Segment.{Segment};
ghost use Rattle.eos_fold_file.specs.Files.{wanted_in};
ghost use Rattle.eos_fold_file.specs.Folds.{IsKeptOf};
ghost use Rattle.eos_fold_file.specs.Legal.{IsLegalKept};
ghost use Rattle.eos_kept.specs.Kept.{IsFrontOf};
ghost use Rattle.eos_kept.specs.Passing.{GoesAlong, data_count};
ghost use Rattle.eos_kept.specs.Sizes.{AreSized};
ghost use Rattle.eos_kept.specs.KeptRuns.{IsKeptRun, HasClaims, wanted_by, front_of};
ghost use Rattle.eos_fold_file.specs.steps.Kept.{AreReadBack, topics_in};

use crate::FoldKept;
use eos_kept::{Front, Kept, KeptRun, Sizes};
use eos_reading::KeptOutputs;
use std::alloc::{AllocError, Global};

/// A run of this front, which has so many data records, with what a fold keeps of them.
///
/// # Errors
/// Only want of memory.
pub(crate) fn with_kept(
    alloc: Global,
    front: Front,
    count: usize,
    sizes: Sizes,
    kept: FoldKept,
) -> Result<KeptRun, AllocError>
    requires front { (batches : List Batch) × GoesAlong batches front × (count ≡ data_count batches) }
    requires kept { IsLegalKept count kept }
    requires claims { AreReadBack kept }
    ensures ok { IfOk result (λ run. (segments : List Segment) (batches : List Batch) → IsFrontOf segments batches front → AreSized segments sizes → count ≡ data_count batches → IsKeptOf batches kept
        → IsKeptRun (topics_in kept) segments run) }
    ensures wanted { IfOk result (λ run. wanted_by run ≡ wanted_in kept) }
    ensures front { IfOk result (λ run. front_of run ≡ front) }
    ensures claims { IfOk result (λ run. HasClaims (topics_in kept) run) }
{
    match kept {
        FoldKept::Presence => {
            let present = vec![in alloc; (); count]?;
            Ok(KeptRun::Presence(Kept::new(front, present, sizes)))
        }
        FoldKept::Claims { outputs, .. } => {
            let outputs = KeptOutputs::of(outputs.into_vec());
            Ok(KeptRun::Claims(Kept::new(front, outputs, sizes)))
        }
        FoldKept::Texts(texts) => {
            Ok(KeptRun::Texts(Kept::new(front, texts.into_texts(), sizes)))
        }
    }
}
