//! What goes through an application.

ghost use Rattle.std.specs.Prelude.{List, IfOk};
ghost use Rattle.eos_base.specs.Members.{Has};
ghost use Rattle.eos_commits.specs.Tables.{IsTableOf};
ghost use Rattle.eos_evidence.specs.declared.application.App.{App};
ghost use Rattle.eos_fold.specs.Parts.{PartLog};
ghost use Rattle.eos_lineage.specs.steps.Walks.{IsPipelineOf};

use eos_commits::{CommitRef, CommitTable, TopicSet};
use eos_evidence::App;
use std::alloc::{AllocError, Global};

/// The topics that an application reads and those that it writes, and the commits of its group under the former.
#[derive(Drop)]
pub(crate) struct Pipeline<'a> {
    pub(crate) sources: TopicSet<'a>,
    pub(crate) outputs: TopicSet<'a>,
    pub(crate) commits: Vec<CommitRef<'a>>,
}

impl<'a> Pipeline<'a> {
    /// That of this application, out of the commits of all.
    pub(crate) fn of(
        alloc: Global,
        app: &'a App,
        table: &CommitTable<'a>,
    ) -> Result<Pipeline<'a>, AllocError>
        ensures { (apps : List App) (parts : List PartLog) → IsTableOf apps parts table.now → Has apps app.entry.now → IfOk result (IsPipelineOf app.entry.now parts) }
    {
        let sources = TopicSet::of(alloc, app.sources.as_slice())?;
        let outputs = TopicSet::of(alloc, app.outputs.as_slice())?;
        let commits = table.commits_of(alloc, app)?;
        Ok(Pipeline {
            sources,
            outputs,
            commits,
        })
    }
}
