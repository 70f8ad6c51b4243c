//! The evidence of a cluster at rest.

ghost use Rattle.std.specs.Prelude.{◌≡◌, ℕ, ◌<◌, Ok, map, IfOk, OnOk, IsOk};
ghost use Rattle.std.specs.List.{range_with_len};
ghost use Rattle.eos_machine.specs.LogIndexes.{log_count};
ghost use Rattle.eos_machine.specs.World.{log_at};
ghost use Rattle.eos_cluster.specs.declared.evidence.EvidenceRefusal.{EvidenceRefusal};
ghost use Rattle.eos_evidence.specs.SpecFields.{accepted};
ghost use Rattle.eos_evidence.specs.Evidence.{IsEvidence, without_segments};
ghost use Rattle.eos_machine.specs.Evidences.{end_of, parts_of, log_segments, cluster_segments, adding, HaveTexts, IsEvidenceOf};
ghost use Rattle.eos_machine.specs.steps.Writable.{IsWritable};
ghost use Rattle.eos_log_writer.specs.declared.segments.LogFault.{LogFault};
ghost use Rattle.eos_cluster.specs.Names.{evidence_refusal_name};

use eos_base::Listed;
use eos_broker::Store;
use eos_evidence::{End, Evidence, EvidenceBuilder, Spec};
use eos_log_writer::{Leaders, LogFault, add_log, end_of, groups_of, log_count};
use std::alloc::AllocError;
use thiserror::Error;

/// Why there is no evidence of a cluster.
#[derive(Clone, Copy, Debug, Error)]
#[error("{name}", name = self.name())]
pub enum EvidenceRefusal {
    /// A transaction is open or still ending.
    NotAtRest,
    /// A growth was refused.
    OutOfMemory,
}

impl EvidenceRefusal {
    /// The refusal's name.
    pub fn name(self) -> &'static str
        ensures { result.now ≡ evidence_refusal_name self }
    {
        match self {
            EvidenceRefusal::NotAtRest => "NotAtRest",
            EvidenceRefusal::OutOfMemory => "OutOfMemory",
        }
    }
}

/// The end of the partition at a place.
fn end_at(store: &Store, place: usize) -> End
    requires { place < log_count store.now.config }
    ensures { result ≡ end_of store.now.config store.now.world place }
{
    match end_of(store.config(), place, store.log(place).len()) {
        Some(end) => end,
        None => unreachable!(),
    }
}

/// The ends of all partitions.
fn ends(store: &Store) -> Result<Vec<End>, AllocError>
    ensures { IfOk result (λ es. es.items ≡ map (end_of store.now.config store.now.world) (range_with_len 0 (log_count store.now.config))) }
{
    let mut ends = Vec::new(store.alloc());
    for place in 0..log_count(store.config()) {
        ends.push(end_at(store, place))?;
    }
    Ok(ends)
}

/// Want of memory, the one refusal of a log of a cluster.
fn of_memory(_fault: LogFault) -> AllocError
    requires { _fault ≡ LogFault.OutOfMemory }
{
    AllocError
}

/// Adds the segments of the log at a place.
fn add_at(store: &Store, builder: &mut EvidenceBuilder, place: usize) -> Result<(), AllocError>
    requires writable { IsWritable store.now.config store.now.world }
    requires place { place < log_count store.now.config }
    requires taken { IsOk (adding builder.old (log_segments store.now.config place store.now.world.elections (log_at store.now.world place))) }
    ensures added { OnOk result (adding builder.old (log_segments store.now.config place store.now.world.elections (log_at store.now.world place)) ≡ Ok builder.new) }
    ensures written { OnOk result (HaveTexts store.now.config place store.now.world.elections (log_at store.now.world place)) }
{
    let elections = store.elections();
    let leaders = Leaders { place, elections };
    match add_log(
        store.alloc(),
        builder,
        store.config(),
        leaders,
        store.log(place),
    ) {
        Ok(()) => Ok(()),
        Err(fault) => Err(of_memory(fault)),
    }
}

/// Adds the segments of all logs.
fn add_logs(store: &Store, builder: &mut EvidenceBuilder) -> Result<(), AllocError>
    requires writable { IsWritable store.now.config store.now.world }
    requires begun { builder.old ≡ without_segments (parts_of store.now.config store.now.world) }
    ensures added { OnOk result (adding builder.old (cluster_segments store.now.config store.now.world) ≡ Ok builder.new) }
    ensures written { OnOk result ((p : ℕ) → p < log_count store.now.config → HaveTexts store.now.config p store.now.world.elections (log_at store.now.world p)) }
{
    for place in 0..log_count(store.config()) {
        add_at(store, builder, place)?;
    }
    Ok(())
}

/// The spec of the evidence.
fn spec_of(store: &Store) -> Result<Spec, AllocError>
    requires { IsWritable store.now.config store.now.world }
    ensures { IfOk result (λ s. accepted (parts_of store.now.config store.now.world) ≡ Ok s) }
{
    let groups = groups_of(store.alloc(), store.config())?;
    let ends = Listed::new(ends(store)?);
    match Spec::new(store.alloc(), groups, ends) {
        Ok(spec) => Ok(spec),
        Err(_) => unreachable!(),
    }
}

/// All logs, as evidence. Nothing but a growth is refused.
pub(crate) fn evidence_of(store: &Store) -> Result<Evidence, AllocError>
    requires { IsWritable store.now.config store.now.world }
    ensures cluster { IfOk result (IsEvidenceOf store.now.config store.now.world) }
    ensures evidence { IfOk result IsEvidence }
{
    let spec = spec_of(store)?;
    let mut builder = EvidenceBuilder::new(store.alloc(), spec)?;
    add_logs(store, &mut builder)?;
    Ok(builder.finish())
}
