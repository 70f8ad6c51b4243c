//! The front of a list of segments, without its records.

ghost use Rattle.std.specs.Prelude.{◌≡◌, ◌≤◌, ◌+◌, ◌^◌, [], ◌++◌, List, length, vec_len, vec_capacity, None, IfOk, IfErr};
ghost use Rattle.eos_batch.specs.declared.batch.Batch.{Batch};
ghost use Rattle.eos_evidence.specs.declared.segment.Segment.{Segment};
ghost use Rattle.eos_fold.specs.declared.stop.Stop.TheVariants.{AtEnd};
ghost use Rattle.eos_reading.specs.Epochs.{epoch_behind, entries_behind};
ghost use Rattle.eos_kept.specs.Runs.{IsRun};
ghost use Rattle.eos_kept.specs.Kept.{KeepsFront, IsFrontOf, SameFront};
ghost use Rattle.eos_kept.specs.Passing.{GoesAlong};

use crate::Run;
use eos_batch::Marker;
use eos_fold::Stop;
use eos_reading::{EpochEntry, append_entries};
use std::alloc::Global;

/// The front of a list of segments.
#[derive(Drop)]
pub struct Front {
    /// The name of its first segment.
    pub begin: u64,
    /// The offset after its last record.
    pub next: u64,
    /// Why it ends.
    pub stop: Stop,
    /// The number of its batches.
    pub batches: u64,
    /// Its end markers.
    pub markers: Vec<Marker>,
    /// The leader epochs of its batches, each with the offset at which it begins.
    pub epochs: Vec<EpochEntry>,
    pub run: Run,
}

/// Puts the end markers of what follows at the end, for which there is room.
fn add_markers(markers: &mut Vec<Marker>, more: &mut Vec<Marker>)
    requires { vec_len markers.old + vec_len more.old ≤ vec_capacity markers.old }
    ensures { markers.new.items ≡ markers.old.items ++ more.old.items }
{
    let Ok(()) = markers.append(more) else {
        unreachable!()
    };
}

/// Puts the leader epochs of what follows at the end, for which there is room.
fn add_epochs(epochs: &mut Vec<EpochEntry>, more: &[EpochEntry])
    requires { vec_len epochs.old + length more.now ≤ vec_capacity epochs.old }
    ensures { epochs.new.items ≡ epochs.old.items ++ entries_behind (epoch_behind None epochs.old.items) more.now }
{
    let Ok(()) = append_entries(epochs, more) else {
        unreachable!()
    };
}

impl Front {
    /// Before the first batch of a segment of this name. The leader epochs of its batches are for the caller to put there.
    pub fn new(alloc: Global, begin: u64, sequenced: bool) -> Front
        requires { begin ≤ 2 ^ 63 }
        ensures begin { result.begin ≡ begin }
        ensures stop { result.stop ≡ AtEnd }
        ensures sequenced { result.run.sequenced ≡ sequenced }
        ensures keeps { KeepsFront [] result }
    {
        Front {
            begin,
            next: begin,
            stop: Stop::AtEnd,
            batches: 0,
            markers: Vec::new(alloc),
            epochs: Vec::new(alloc),
            run: Run::new(alloc, sequenced),
        }
    }

    /// Joins two fronts of which the second begins where the first ends. Where memory is refused, or a u64 doesn't hold the
    /// number of batches, both are handed back.
    pub(crate) fn join(
        alloc: Global,
        mut before: Front,
        mut after: Front,
    ) -> Result<Front, (Front, Front)>
        requires before { IsRun before.run }
        requires after { IsRun after.run }
        requires same { after.run.sequenced ≡ before.run.sequenced }
        requires end { before.stop ≡ AtEnd }
        requires next { after.begin ≡ before.next }
        ensures run { IfOk result (λ f. IsRun f.run) }
        ensures sequenced { IfOk result (λ f. f.run.sequenced ≡ before.run.sequenced) }
        ensures ok { (xs ys : List Segment) (bs cs : List Batch) → IsFrontOf xs bs before → IsFrontOf ys cs after → IfOk result (IsFrontOf (xs ++ ys) (bs ++ cs)) }
        ensures along { (bs cs : List Batch) → GoesAlong bs before → GoesAlong cs after → IfOk result (GoesAlong (bs ++ cs)) }
        ensures err { IfErr result (λ back. SameFront before back.0 × SameFront after back.1) }
    {
        let Some(batches) = before.batches.checked_add(after.batches) else {
            return Err((before, after));
        };
        if before.markers.reserve(after.markers.len()).is_err()
            || before.epochs.reserve(after.epochs.len()).is_err()
        {
            return Err((before, after));
        }
        match Run::join(alloc, before.run, after.run) {
            Ok(run) => {
                add_markers(&mut before.markers, &mut after.markers);
                add_epochs(&mut before.epochs, after.epochs.as_slice());
                Ok(Front {
                    begin: before.begin,
                    next: after.next,
                    stop: after.stop,
                    batches,
                    markers: before.markers,
                    epochs: before.epochs,
                    run,
                })
            }
            Err((run, run_after)) => {
                before.run = run;
                after.run = run_after;
                Err((before, after))
            }
        }
    }
}
