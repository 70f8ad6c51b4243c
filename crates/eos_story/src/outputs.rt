//! Which rows a fault of single records has, and one of an application's outputs.

ghost use Rattle.std.specs.Prelude.{◌≡◌, ◌∷◌, [], IfOk, OnOk, slice_get};
ghost use Rattle.std.specs.Option.{option_copied};
ghost use Rattle.eos_sought.specs.Finds.{all_of};
ghost use Rattle.eos_sought.specs.declared.sought.Sought.TheVariants.{At};
ghost use Rattle.eos_story.specs.PlaceOfFault.{at_offset, place_in_lineage};
ghost use Rattle.eos_story.specs.Questions.{Records, group_of as group_of_find, commits_of, of_group, of_kind, of_record, first_group, group_meant, others_past, commits_past, of_output, of_lineage};
ghost use Rattle.eos_story.specs.steps.Telling.{TellsEach};
ghost use Rattle.std.specs.Prelude.{Some};

use crate::beside::push_beside;
use crate::claims::{push_claims, push_unseen};
use crate::copies::{copy_bytes, copy_name, copy_place};
use crate::decisions::bytes_of;
use crate::headers::push_headers;
use crate::records::{first_found, push_counted, push_last_of, push_records};
use crate::row::Row;
use crate::scene::Scene;
use bytes::Bytes;
use eos_claims::{OutputFault, Place};
use eos_commits::{VisibleFault, VisibleFaultKind};
use eos_evidence::GroupId;
use eos_sought::{Find, Sought, group_of};
use eos_verdict::LineageFault;
use std::alloc::{AllocError, Global};

// ---- phase 4

/// The group of the first of these records, if its key names one.
fn group_in(alloc: Global, finds: &[Find]) -> Result<Option<Bytes>, AllocError>
    ensures { IfOk result (λ group. group ≡ group_of_find (slice_get finds.now 0)) }
{
    if finds.is_empty() {
        return Ok(None);
    }
    group_of(alloc, bytes_of(&finds[0].item.key))
}

fn push_group(
    scene: &Scene<'_>,
    rows: &mut Vec<Row>,
    group: Option<Bytes>,
) -> Result<(), AllocError>
    ensures { OnOk result (TellsEach scene.now rows.old.items rows.new.items (commits_of group)) }
{
    match group {
        None => Ok(()),
        Some(group) => push_records(scene, rows, Sought::OfGroup(group), 8),
    }
}

/// The commits of the group of the record of this place.
fn group_rows(scene: &Scene<'_>, rows: &mut Vec<Row>, place: Place) -> Result<(), AllocError>
    ensures { OnOk result (TellsEach scene.now rows.old.items rows.new.items (of_group scene.now.logs.now place)) }
{
    let found = first_found(scene, Sought::At(place))?;
    let group = group_in(scene.alloc, found.as_slice())?;
    push_group(scene, rows, group)?;
    Ok(())
}

fn kind_rows(
    scene: &Scene<'_>,
    rows: &mut Vec<Row>,
    place: Place,
    kind: VisibleFaultKind,
) -> Result<(), AllocError>
    requires { option_copied scene.now.place ≡ Some place }
    ensures { OnOk result (TellsEach scene.now rows.old.items rows.new.items (of_kind scene.now.logs.now place kind)) }
{
    match kind {
        VisibleFaultKind::BadLineage => push_headers(scene, rows, &place),
        VisibleFaultKind::BadOffset { .. } => Ok(()),
        VisibleFaultKind::SplitGroup | VisibleFaultKind::OffsetDeleted => {
            group_rows(scene, rows, place)
        }
    }
}

fn visible_rows(
    scene: &Scene<'_>,
    rows: &mut Vec<Row>,
    fault: &VisibleFault,
) -> Result<(), AllocError>
    requires { option_copied scene.now.place ≡ at_offset fault.now.partition.topic fault.now.partition.partition fault.now.offset }
    ensures { OnOk result (TellsEach scene.now rows.old.items rows.new.items (of_record scene.now.logs.now fault.now)) }
{
    let partition = copy_name(&fault.partition)?;
    let place = Place {
        partition,
        offset: fault.offset,
    };
    let at = copy_place(&place)?;
    push_records(scene, rows, Sought::At(at), 1)?;
    kind_rows(scene, rows, place, fault.kind)?;
    Ok(())
}

// ---- phase 5

fn first_group(scene: &Scene<'_>) -> Result<Option<Bytes>, AllocError>
    ensures { IfOk result (λ group. group ≡ first_group scene.now.apps.now) }
{
    let apps = scene.apps;
    if apps.is_empty() {
        return Ok(None);
    }
    let bytes = Bytes::copy_from_slice(scene.alloc, apps[0].group.as_bytes())?;
    Ok(Some(bytes))
}

/// The group that is named, or else that of the first application.
fn group_bytes(scene: &Scene<'_>, group: &Option<GroupId>) -> Result<Option<Bytes>, AllocError>
    ensures { IfOk result (λ meant. meant ≡ group_meant scene.now.apps.now group.now) }
{
    match group {
        Some(group) => {
            let bytes = Bytes::copy_from_slice(scene.alloc, group.as_bytes())?;
            Ok(Some(bytes))
        }
        None => first_group(scene),
    }
}

/// The commits that go past an input, those that are sought or, where there are none, those of others.
fn push_past(
    scene: &Scene<'_>,
    rows: &mut Vec<Row>,
    passing: &Sought,
    place: &Place,
) -> Result<(), AllocError>
    ensures { OnOk result (TellsEach scene.now rows.old.items rows.new.items (Records passing.now 3 ∷ others_past scene.now.logs.now passing.now place.now)) }
{
    if push_counted(scene, rows, passing, 3)? != 0 {
        return Ok(());
    }
    let passed = copy_place(place)?;
    push_records(scene, rows, Sought::Passed(passed), 3)?;
    Ok(())
}

/// The commits that go past an input, those of the group or else those of others; and the last of the group that doesn't.
fn push_commits(
    scene: &Scene<'_>,
    rows: &mut Vec<Row>,
    group: Option<Bytes>,
    place: &Place,
) -> Result<(), AllocError>
    ensures { OnOk result (TellsEach scene.now rows.old.items rows.new.items (commits_past scene.now.logs.now group place.now)) }
{
    let Some(group) = group else {
        return Ok(());
    };
    push_passing(scene, rows, &group, place)
}

fn push_passing(
    scene: &Scene<'_>,
    rows: &mut Vec<Row>,
    group: &Bytes,
    place: &Place,
) -> Result<(), AllocError>
    ensures { OnOk result (TellsEach scene.now rows.old.items rows.new.items (commits_past scene.now.logs.now (Some group.now) place.now)) }
{
    let by = copy_bytes(group)?;
    let past = copy_place(place)?;
    let passing = Sought::Passing {
        group: by,
        place: past,
    };
    let told = push_past(scene, rows, &passing, place);
    drop(passing);
    told?;
    let named = copy_bytes(group)?;
    let end = copy_place(place)?;
    push_last_of(
        scene,
        rows,
        Sought::UpTo {
            group: named,
            place: end,
        },
        1,
    )?;
    Ok(())
}

fn output_rows(
    scene: &Scene<'_>,
    rows: &mut Vec<Row>,
    group: &Option<GroupId>,
    fault: &OutputFault,
) -> Result<(), AllocError>
    ensures { OnOk result (TellsEach scene.now rows.old.items rows.new.items (of_output scene.now.apps.now scene.now.logs.now group.now fault.now)) }
{
    let input = &fault.source;
    let at = copy_place(input)?;
    push_records(scene, rows, Sought::At(at), 1)?;
    let claimed = copy_place(input)?;
    let claiming = Sought::Claiming(claimed);
    let told = push_claims(scene, rows, &claiming, 3);
    drop(claiming);
    told?;
    push_beside(scene, rows, fault)?;
    let meant = group_bytes(scene, group)?;
    push_commits(scene, rows, meant, input)?;
    let hidden = copy_place(input)?;
    push_unseen(scene, rows, hidden)?;
    Ok(())
}

/// Adds the rows of a fault of the lineage.
pub(crate) fn lineage_rows(
    scene: &Scene<'_>,
    rows: &mut Vec<Row>,
    fault: &LineageFault,
) -> Result<(), AllocError>
    requires { option_copied scene.now.place ≡ place_in_lineage fault.now }
    ensures { OnOk result (TellsEach scene.now rows.old.items rows.new.items (of_lineage scene.now.apps.now scene.now.logs.now fault.now)) }
{
    match fault {
        LineageFault::Record(fault) => visible_rows(scene, rows, fault),
        LineageFault::Output { group, fault } => output_rows(scene, rows, group, fault),
    }
}
