//! The places of a fault of the outputs: the claims on its input, the commits past it, and the input.

ghost use Rattle.std.specs.Prelude.{Option, OnOk};
ghost use Rattle.eos_claims.specs.declared.place.Place.{Place};
ghost use Rattle.eos_picture.specs.steps.Spots.{StartsAt};

use crate::past::push_past;
use crate::spots::{Spot, name_of, push_offset};
use eos_claims::{OutputFault, OutputKind};
use eos_commits::{TopicSet, is_visible};
use eos_evidence::{App, GroupId};
use eos_kept::{ItemRef, Part};
use std::alloc::{AllocError, Global};

/// The application that the fault is of.
pub(crate) fn app_of<'a>(apps: &'a [App], group: &Option<GroupId>) -> Option<&'a App> {
    let Some(group) = group else {
        return apps.first();
    };
    for app in apps {
        if app.group == *group {
            return Some(app);
        }
    }
    None
}

/// Whether the record claims the fault's input, as the output of the fault's number where only those of one number belong together.
fn is_claim_of(fault: &OutputFault, item: ItemRef<'_>) -> bool {
    if !is_visible(item.fate()) {
        return false;
    }
    let source = &fault.source;
    match item.into_claim() {
        None => false,
        Some(claim) => {
            claim.topic == source.partition.topic.as_slice()
                && claim.partition == source.partition.partition
                && claim.offset == source.offset
                && (claim.output == fault.output
                    || matches!(fault.kind, OutputKind::CountDisagrees))
        }
    }
}

fn push_claims_in(spots: &mut Vec<Spot>, fault: &OutputFault, part: &Part) -> Result<(), AllocError>
    ensures stays { (at : Option Place) → StartsAt spots.old.items at → OnOk result (StartsAt spots.new.items at) }
{
    let mut items = part.items().cursor();
    while let Some(item) = items.next() {
        let offset = item.offset();
        if is_claim_of(fault, item) {
            push_offset(spots, name_of(part)?, offset)?;
        }
    }
    Ok(())
}

fn push_claims(
    alloc: Global,
    spots: &mut Vec<Spot>,
    app: &App,
    logs: &[Part],
    fault: &OutputFault,
) -> Result<(), AllocError>
    ensures stays { (at : Option Place) → StartsAt spots.old.items at → OnOk result (StartsAt spots.new.items at) }
{
    let outputs = TopicSet::of(alloc, app.outputs.as_slice())?;
    for part in logs {
        if outputs.has(part.topic().as_slice()) {
            push_claims_in(spots, fault, part)?;
        }
    }
    Ok(())
}

/// Puts the claims on the fault's input at the end; where an output is missing or came early, also the first commit past the input, and the
/// input.
///
/// # Errors
/// Only want of memory.
pub(crate) fn push_output(
    alloc: Global,
    spots: &mut Vec<Spot>,
    app: Option<&App>,
    logs: &[Part],
    fault: &OutputFault,
) -> Result<(), AllocError>
    ensures stays { (at : Option Place) → StartsAt spots.old.items at → OnOk result (StartsAt spots.new.items at) }
{
    let Some(app) = app else {
        return Ok(());
    };
    push_claims(alloc, spots, app, logs, fault)?;
    // That an input has no output, or that its output came before its commit.
    if matches!(fault.kind, OutputKind::Missing | OutputKind::Early) {
        push_past(spots, app, logs, &fault.source)?;
        let source = &fault.source;
        push_offset(spots, source.partition.clone()?, source.offset)?;
    }
    Ok(())
}
