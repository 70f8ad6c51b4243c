//! All faults of the applications' outputs, handed to a sink.

ghost use Rattle.std.specs.Prelude.{◌≡◌, List, map, option_map, IfOk, OnOk};
ghost use Rattle.eos_base.specs.Least.{NoneStands};
ghost use Rattle.eos_base.specs.Members.{Has};
ghost use Rattle.eos_commits.specs.Faults.{AreInOrder, Stands as StandsAtRecord};
ghost use Rattle.eos_commits.specs.Tables.{IsTableOf};
ghost use Rattle.eos_evidence.specs.declared.application.App.{App};
ghost use Rattle.eos_lineage.specs.Faults.{named_group};
ghost use Rattle.eos_commits.specs.Applications.{application_of};
ghost use Rattle.eos_verdict.specs.declared.lineage_fault.LineageFault.{LineageFault};
ghost use Rattle.eos_verdict.specs.declared.verdict.Fault.TheVariants.{Lineage};
ghost use Rattle.eos_faults.specs.LineageFaults.{AreLineageFaults};
ghost use Rattle.eos_faults.specs.steps.Tables.{AreBooks};
ghost use Rattle.eos_faults.specs.steps.Taken.{group_in};

use crate::by_range::faults_by_range;
use crate::commits::{offsets_of, reached_by};
use crate::crew::Crew;
use crate::sink::FaultSink;
use crate::tables::Books;
use eos_commits::{CommitTable, TopicSet};
use eos_evidence::{App, GroupId, Spec};
use eos_kept::Part;
use std::alloc::{AllocError, Global};
use std::marker::Send;
use std::thread::Threads;

/// What an application reads, commits and writes, in these logs.
fn books_of<'a>(
    alloc: Global,
    apps: &[App],
    app: &'a App,
    table: &CommitTable<'a>,
    parts: &'a [Part],
) -> Result<Books<'a>, AllocError>
    requires { IsTableOf apps.now parts.now table.now × Has apps.now app.now }
    ensures group { IfOk result (λ books. group_in books ≡ named_group apps.now app.now) }
    ensures books { AreInOrder parts.now → IfOk result (AreBooks (application_of app.now parts.now)) }
{
    let sources = TopicSet::of(alloc, app.sources.as_slice())?;
    let outputs = TopicSet::of(alloc, app.outputs.as_slice())?;
    let commits = table.commits_of(alloc, app)?;
    let offsets = offsets_of(alloc, commits.as_slice())?;
    let reached = reached_by(alloc, commits.as_slice())?;
    Ok(Books {
        sources,
        outputs,
        offsets,
        reached,
        group: group_of(apps, app),
        parts,
    })
}

/// The group that a fault of an application's outputs names.
fn group_of<'a>(apps: &[App], app: &'a App) -> Option<&'a GroupId>
    ensures { option_map (λ g. g.now) result ≡ named_group apps.now app.entry.now }
{
    if apps.len() > 1 {
        Some(&app.group)
    } else {
        None
    }
}

/// Hands to a sink every fault of the applications' outputs that stands, where no fault of a record does, in the order in which the
/// least of them counts, each once: each kind at each claim by itself. Of the outputs that one input lacks, which may be very many, it
/// has the first alone. None where each application's outputs are exact; else the first is that of `check_lineage`.
///
/// The parts are those of all topics, without a fault of their own, ordered by name. The work is that of `check_lineage` by one
/// thread, and a walk along claims and inputs in order, in ranges of their sources, of which each thread takes one at a time into a share
/// (`FaultSink::share`). For each range all claims that are kept are walked along, and the inputs of the partitions that it has sources
/// of. The memory is that of the claims and inputs of these ranges, some 32 MiB, or where an application's take more than sixteen times as
/// much a sixteenth of them; those of one source are never parted. Of the faults those of one source are held, whose names are lent, and
/// what the shares hold.
///
/// # Errors
/// Only want of memory, here or in the sink, which may have taken some.
pub fn output_faults<'a, R: Threads + Sync, S: FaultSink + Send>(
    crew: &Crew<'_, R>,
    spec: &'a Spec,
    parts: &'a [Part],
    sink: &mut S,
) -> Result<(), AllocError>
    ensures { OnOk result ((list : List LineageFault) × S.takes sink.old (map Lineage list) sink.new
        × (AreInOrder parts.now → NoneStands (StandsAtRecord spec.now.apps parts.now) → AreLineageFaults spec.now.apps parts.now list)) }
{
    let apps = spec.apps().as_slice();
    let table = CommitTable::of(crew.alloc, apps, parts)?;
    for app in apps {
        let books = books_of(crew.alloc, apps, app, &table, parts)?;
        faults_by_range(crew, &books, sink)?;
    }
    Ok(())
}
