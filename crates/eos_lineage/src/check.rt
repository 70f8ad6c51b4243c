//! The lineage of all applications: the least fault, or the counts.

ghost use Rattle.std.specs.Prelude.{◌≡◌, ◌+◌, true, IfOk};
ghost use Rattle.eos_base.specs.Least.{NoneStands};
ghost use Rattle.eos_commits.specs.Faults.{AreInOrder, Stands as StandsAtRecord};
ghost use Rattle.eos_evidence.specs.declared.application.App.{App};
ghost use Rattle.eos_evidence.specs.SpecFields.{groups_of};
ghost use Rattle.eos_evidence.specs.Topics.{are_unequal};
ghost use Rattle.eos_lineage.specs.Faults.{named_group, IsAnswer, as_counts};
ghost use Rattle.eos_commits.specs.Applications.{application_of};
ghost use Rattle.eos_lineage.specs.steps.Walks.{IsOutputsAnswer, IsPipelineOf};

use crate::application::{Tally, make_tally};
use crate::books::Books;
use crate::claims::outputs_of;
use crate::counts::LineageCounts;
use crate::exact::exact_tally;
use crate::inputs::inputs_of;
use crate::logs::Logs;
use crate::passes::PassTable;
use crate::pipeline::Pipeline;
use crate::tables::Tables;
use eos_base::{Workers, sum};
use eos_commits::{CommitTable, least_visible_fault_by, names_of, offsets_of};
use eos_evidence::{App, GroupId, Spec};
use eos_kept::Part;
use eos_verdict::LineageFault;
use std::alloc::{AllocError, Global};
use std::thread::Threads;

/// The outputs of the application with this pipeline.
fn check_application(
    alloc: Global,
    rt: &(impl Threads + Sync),
    workers: Workers,
    pipeline: &Pipeline<'_>,
    logs: &Logs<'_>,
) -> Result<Tally, AllocError>
    ensures { (app : App) → AreInOrder logs.now → IsPipelineOf app logs.now pipeline.now → IfOk result (λ t. IsOutputsAnswer (application_of app logs.now) t.fault t.inputs t.outputs) }
{
    let names = logs.names();
    let sources = &pipeline.sources;
    let commits = pipeline.commits.as_slice();
    let parts = logs.parts();
    let offsets = offsets_of(alloc, names, commits)?;
    let passes = PassTable::of(alloc, rt, workers, commits)?;
    let outputs = outputs_of(alloc, &pipeline.outputs, names.as_slice(), parts)?;
    let books = Books {
        names,
        sources,
        offsets: offsets.as_slice(),
        passes: &passes,
        parts,
    };
    if let Some(tally) = exact_tally(alloc, rt, workers, &books, outputs.as_slice()) {
        return Ok(tally);
    }
    let inputs = inputs_of(alloc, sources, names.as_slice(), parts)?;
    let tables = Tables {
        names,
        sources,
        inputs: inputs.as_slice(),
        offsets: offsets.as_slice(),
        passes: &passes,
    };
    make_tally(alloc, rt, workers, &tables, outputs.as_slice())
}

/// The group that a fault of an application's outputs names.
fn group_of(apps: &[App], app: &App) -> Result<Option<GroupId>, AllocError>
    ensures { IfOk result (λ group. group ≡ named_group apps.now app.now) }
{
    if apps.len() > 1 {
        Ok(Some(app.group.clone()?))
    } else {
        Ok(None)
    }
}

/// The outputs of the applications, one after the other.
fn check_each(
    alloc: Global,
    rt: &(impl Threads + Sync),
    workers: Workers,
    apps: &[App],
    logs: &Logs<'_>,
) -> Result<Result<LineageCounts, LineageFault>, AllocError>
    requires { are_unequal (groups_of apps.now) ≡ true }
    ensures { AreInOrder logs.now → NoneStands (StandsAtRecord apps.now logs.now) → IfOk result (IsAnswer apps.now logs.now) }
{
    let table = CommitTable::of(alloc, apps, logs.parts())?;
    let mut inputs = 0u64;
    let mut outputs = 0u64;
    for app in apps {
        let pipeline = Pipeline::of(alloc, app, &table)?;
        let checked = check_application(alloc, rt, workers, &pipeline, logs);
        drop(pipeline);
        let tally = checked?;
        let found = tally.fault;
        if let Some(fault) = found {
            let group = group_of(apps, app)?;
            return Ok(Err(LineageFault::Output { group, fault }));
        }
        inputs = sum(inputs, tally.inputs)?;
        outputs = sum(outputs, tally.outputs)?;
    }
    Ok(Ok(LineageCounts { inputs, outputs }))
}

/// The outputs of the applications over these partitions.
fn check_outputs(
    alloc: Global,
    rt: &(impl Threads + Sync),
    workers: Workers,
    apps: &[App],
    parts: &[Part],
) -> Result<Result<LineageCounts, LineageFault>, AllocError>
    requires { are_unequal (groups_of apps.now) ≡ true }
    ensures { AreInOrder parts.now → NoneStands (StandsAtRecord apps.now parts.now) → IfOk result (IsAnswer apps.now parts.now) }
{
    let names = names_of(alloc, parts)?;
    let logs = Logs::of(alloc, names.as_slice(), parts)?;
    check_each(alloc, rt, workers, apps, &logs)
}

/// The number of inputs below their committed offsets, over all applications, and that of visible claims that are no
/// notes, where no fault of the lineage stands; else the least fault. Parts that don't stand in the order of their names
/// have an answer too, of which nothing is said. At most so many threads work at a time, of which the caller's is one: with
/// one none is started.
///
/// # Errors
/// Only want of memory.
pub fn check_lineage_by(
    alloc: Global,
    rt: &(impl Threads + Sync),
    workers: Workers,
    spec: &Spec,
    parts: &[Part],
) -> Result<Result<LineageCounts, LineageFault>, AllocError>
    ensures { AreInOrder parts.now → IfOk result (IsAnswer spec.now.apps parts.now) }
{
    let apps = spec.apps().as_slice();
    if let Some(fault) = least_visible_fault_by(alloc, rt, workers, apps, parts)? {
        return Ok(Err(LineageFault::Record(fault)));
    }
    check_outputs(alloc, rt, workers, apps, parts)
}

/// The same, by at most 64 threads, the number of inputs before that of outputs.
///
/// # Errors
/// Only want of memory.
pub fn check_lineage(
    alloc: Global,
    rt: &(impl Threads + Sync),
    spec: &Spec,
    parts: &[Part],
) -> Result<Result<(u64, u64), LineageFault>, AllocError>
    ensures { AreInOrder parts.now → IfOk result (λ answer. IsAnswer spec.now.apps parts.now (as_counts answer)) }
{
    match check_lineage_by(alloc, rt, Workers::most(), spec, parts)? {
        Err(fault) => Ok(Err(fault)),
        Ok(counts) => Ok(Ok((counts.inputs, counts.outputs))),
    }
}
