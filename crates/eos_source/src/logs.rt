//! The kept logs of all partitions.

ghost use Rattle.std.specs.Prelude.{◌≡◌, ◌++◌, ◌∷◌, [], length, IfOk, IfErr, OnOk, alloc_error};
ghost use Rattle.eos_evidence.specs.Evidence.{segments_of};
ghost use Rattle.eos_source.specs.Logs.{AreColumns, AreKeptLogs, tally_of};
ghost use Rattle.eos_source.specs.Refusals.{AreOpened, IsRefusal};
ghost use Rattle.eos_source.specs.Said.{known_by};
ghost use Rattle.eos_source.specs.SeatViews.{AreBelow};

use crate::plan::Plan;
use crate::share::{Share, threads_for, told_by};
use crate::slots::read_all;
use crate::source::Source;
use crate::tickets::Drawn;
use eos_base::{Listed, Workers};
use eos_commits::source_topics;
use eos_evidence::Evidence;
use eos_kept::{Part, Sizes, Told};
use eos_reading::{EpochEntry, Wants};
use eos_touch::PartitionFault;
use std::alloc::{AllocError, Global};
use std::thread::Threads;

/// How much there is of a partition's log: the batches of its front, control batches too, and its segments with their bytes.
#[derive(Clone, Copy)]
pub struct Tally {
    pub batches: u64,
    pub sizes: Sizes,
}

/// What is kept of the logs of an evidence's partitions, in order; of each one its place in every list.
#[derive(Drop)]
pub struct KeptLogs {
    /// What is wanted of them.
    pub parts: Vec<Part>,
    /// The least fault of each one's bytes.
    pub faults: Vec<Option<PartitionFault>>,
    pub tallies: Vec<Tally>,
    /// The leader epochs of each one's batches, each with the offset at which it begins.
    pub epochs: Vec<Listed<EpochEntry>>,
    /// The numbers of the pieces that were drawn and read for them, thread after thread.
    pub drawn: Drawn,
}

impl KeptLogs {
    fn new(alloc: Global, drawn: Drawn) -> KeptLogs
        ensures parts { result.parts.items ≡ [] }
        ensures faults { result.faults.items ≡ [] }
        ensures tallies { result.tallies.items ≡ [] }
        ensures epochs { result.epochs.items ≡ [] }
        ensures drawn { result.drawn ≡ drawn }
    {
        KeptLogs {
            parts: Vec::new(alloc),
            faults: Vec::new(alloc),
            tallies: Vec::new(alloc),
            epochs: Vec::new(alloc),
            drawn,
        }
    }

    /// Puts a partition at the end.
    fn push(&mut self, told: Told) -> Result<(), AllocError>
        ensures parts { OnOk result (self.new.parts.items ≡ self.old.parts.items ++ told.part ∷ []) }
        ensures faults { OnOk result (self.new.faults.items ≡ self.old.faults.items ++ told.fault ∷ []) }
        ensures tallies { OnOk result (self.new.tallies.items ≡ self.old.tallies.items ++ tally_of told ∷ []) }
        ensures epochs { OnOk result (self.new.epochs.items ≡ self.old.epochs.items ++ told.epochs ∷ []) }
        ensures drawn { self.new.drawn ≡ self.old.drawn }
    {
        let tally = Tally {
            batches: told.batches,
            sizes: told.sizes,
        };
        self.parts.push(told.part)?;
        self.faults.push(told.fault)?;
        self.tallies.push(tally)?;
        self.epochs.push(told.epochs)?;
        Ok(())
    }
}

/// All that is told, column by column.
fn logs_of(alloc: Global, told: Vec<Told>, drawn: Drawn) -> Result<KeptLogs, AllocError>
    ensures told { IfOk result (AreColumns told.items) }
    ensures drawn { IfOk result (λ logs. logs.drawn ≡ drawn) }
{
    let mut logs = KeptLogs::new(alloc, drawn);
    for one in told {
        logs.push(one)?;
    }
    Ok(logs)
}

/// Reads each piece of an evidence of this shape from the source, by at most as many threads as there are workers, and makes of
/// each partition its kept log. Each piece was drawn by one of them, once. What a piece is not wanted for is forgotten while it is read.
///
/// # Errors
/// The fault of the first piece, in order, that isn't there, or is a fold that doesn't fit; or want of memory.
pub fn kept_logs<S: Source, R: Threads + Sync>(
    alloc: Global,
    rt: &R,
    source: &S,
    shape: &Evidence,
    workers: Workers,
) -> Result<KeptLogs, S::Fault>
    ensures logs { IfOk result (AreKeptLogs (known_by (S.said source.now) (S.is_log source.now)) shape.now) }
    ensures once { IfOk result (λ logs. AreBelow (length (segments_of shape.now.partitions)) logs.drawn) }
    ensures opened { IfOk result (λ logs. AreOpened (S.outcomes source.now) (length (segments_of shape.now.partitions))) }
    ensures refused { IfErr result (IsRefusal (S.outcomes source.now) (S.Fault.from_gives alloc_error) (length (segments_of shape.now.partitions))) }
{
    let apps = shape.spec().apps().as_slice();
    let topics = source_topics(alloc, apps)?;
    let plan = Plan {
        source,
        shape,
        wants: Wants::of(alloc, apps)?,
        topics: topics.as_slice(),
    };
    let (slots, drawn) = read_all(alloc, rt, &plan, workers)?;
    let share = Share {
        shapes: shape.partitions(),
        slots,
    };
    let threads = threads_for(share.slots.as_slice(), workers);
    let told = told_by(alloc, rt, &plan, share, threads)?;
    let logs = logs_of(alloc, told, drawn)?;
    Ok(logs)
}
