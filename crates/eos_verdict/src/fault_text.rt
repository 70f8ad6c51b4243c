//! The text of a fault: its phase and number, its name, where it stands, and what stood there.

ghost use Rattle.std.specs.Prelude.{◌≡◌, ◌++◌, OnOk, string_bytes, option_map};
ghost use Rattle.eos_text.specs.Adding.{Adds};
ghost use Rattle.eos_verdict.specs.FaultTexts.{name_text, offset_text, place_text, id_text, refusal_text, log_details, in_partition, visible_details, at_claim, of_group, partition_text, log_text, match_text, visible_text, output_text, lineage_text, where_text, fault_text};

use crate::details::push_details;
use crate::lineage_fault::LineageFault;
use crate::log_fault::{LogFault, LogFaultKind};
use crate::match_fault::MatchFault;
use crate::verdict::Fault;
use crate::visible_fault::{VisibleFault, VisibleFaultKind};
use bytes::Bytes;
use eos_base::PartitionName;
use eos_claims::{OutputFault, Place};
use eos_evidence::GroupId;
use eos_text::{push_escaped, push_text, push_value};
use eos_touch::PartitionFault;
use std::alloc::{AllocError, Global};

/// Adds a fault: its number in the list of all, its name, and where it stands.
pub(crate) fn push_fault(alloc: Global, out: &mut String, fault: &Fault) -> Result<(), AllocError>
    ensures { OnOk result (Adds (string_bytes out.old) (string_bytes out.new) (fault_text fault.now)) }
{
    push_value(out, "", &fault.phase())?;
    push_value(out, ".", &fault.number())?;
    push_value(out, " ", &fault.name())?;
    push_where(alloc, out, fault)?;
    Ok(())
}

fn push_where(alloc: Global, out: &mut String, fault: &Fault) -> Result<(), AllocError>
    ensures { OnOk result (Adds (string_bytes out.old) (string_bytes out.new) (where_text fault.now)) }
{
    match fault {
        Fault::Partition(fault) => push_partition(alloc, out, fault),
        Fault::Log(fault) => push_log(alloc, out, fault),
        Fault::Match(fault) => push_match(alloc, out, fault),
        Fault::Lineage(fault) => push_lineage(alloc, out, fault),
    }
}

// ---- places

/// Adds a label and the name of a partition.
///
/// # Errors
/// Want of memory alone.
pub fn push_name(
    alloc: Global,
    out: &mut String,
    label: &str,
    topic: &[u8],
    number: &i32,
) -> Result<(), AllocError>
    ensures { OnOk result (Adds (string_bytes out.old) (string_bytes out.new) (label.now ++ name_text topic.now number.now)) }
{
    push_escaped(alloc, out, label, topic)?;
    push_value(out, "-", number)?;
    Ok(())
}

fn push_offset(
    alloc: Global,
    out: &mut String,
    topic: &[u8],
    number: &i32,
    offset: u64,
) -> Result<(), AllocError>
    ensures { OnOk result (Adds (string_bytes out.old) (string_bytes out.new) (offset_text topic.now number.now offset)) }
{
    push_name(alloc, out, " ", topic, number)?;
    push_value(out, " offset=", &offset)?;
    Ok(())
}

fn push_place(alloc: Global, out: &mut String, label: &str, place: &Place) -> Result<(), AllocError>
    ensures { OnOk result (Adds (string_bytes out.old) (string_bytes out.new) (label.now ++ place_text place.now)) }
{
    let name = &place.partition;
    push_name(alloc, out, label, name.topic.as_slice(), &name.partition)?;
    push_value(out, ":", &place.offset)?;
    Ok(())
}

// ---- phase 1

fn push_partition(alloc: Global, out: &mut String, fault: &PartitionFault) -> Result<(), AllocError>
    ensures { OnOk result (Adds (string_bytes out.old) (string_bytes out.new) (partition_text fault.now)) }
{
    push_offset(
        alloc,
        out,
        fault.topic.as_slice(),
        &fault.partition,
        fault.offset,
    )?;
    push_details(out, &fault.kind)?;
    Ok(())
}

// ---- phase 2

fn push_log(alloc: Global, out: &mut String, fault: &LogFault) -> Result<(), AllocError>
    ensures { OnOk result (Adds (string_bytes out.old) (string_bytes out.new) (log_text fault.now)) }
{
    let topic = "__transaction_state";
    push_offset(alloc, out, topic.as_bytes(), &fault.partition, fault.offset)?;
    push_log_details(alloc, out, &fault.kind)?;
    Ok(())
}

#[tactic(auto, unfolding(crate::specs::FaultTexts::log_details))]
fn push_log_details(alloc: Global, out: &mut String, kind: &LogFaultKind) -> Result<(), AllocError>
    ensures { OnOk result (Adds (string_bytes out.old) (string_bytes out.new) (log_details kind.now)) }
{
    push_id(alloc, out, kind.id())?;
    push_refusal(out, kind)?;
    Ok(())
}

fn push_id(alloc: Global, out: &mut String, id: Option<&Bytes>) -> Result<(), AllocError>
    ensures { OnOk result (Adds (string_bytes out.old) (string_bytes out.new) (id_text (option_map (λ id. id.now) id.entry))) }
{
    match id {
        None => push_text(out, ""),
        Some(id) => push_escaped(alloc, out, " id=", id.as_slice()),
    }
}

fn push_refusal(out: &mut String, kind: &LogFaultKind) -> Result<(), AllocError>
    ensures { OnOk result (Adds (string_bytes out.old) (string_bytes out.new) (refusal_text kind.now)) }
{
    match kind {
        LogFaultKind::BadRecord { record } => push_value(out, " record=", &record.name()),
        LogFaultKind::Step { why, .. } => push_value(out, " why=", &why.name()),
        _ => push_text(out, ""),
    }
}

// ---- phase 3

fn push_match(alloc: Global, out: &mut String, fault: &MatchFault) -> Result<(), AllocError>
    ensures { OnOk result (Adds (string_bytes out.old) (string_bytes out.new) (match_text fault.now)) }
{
    push_value(out, " producer=", &fault.producer)?;
    push_value(out, " epoch=", &fault.epoch)?;
    push_in_partition(alloc, out, &fault.partition)?;
    Ok(())
}

fn push_in_partition(
    alloc: Global,
    out: &mut String,
    partition: &Option<PartitionName>,
) -> Result<(), AllocError>
    ensures { OnOk result (Adds (string_bytes out.old) (string_bytes out.new) (in_partition partition.now)) }
{
    match partition {
        None => push_text(out, ""),
        Some(name) => push_name(
            alloc,
            out,
            " partition=",
            name.topic.as_slice(),
            &name.partition,
        ),
    }
}

// ---- phases 4 and 5

fn push_lineage(alloc: Global, out: &mut String, fault: &LineageFault) -> Result<(), AllocError>
    ensures { OnOk result (Adds (string_bytes out.old) (string_bytes out.new) (lineage_text fault.now)) }
{
    match fault {
        LineageFault::Record(fault) => push_visible(alloc, out, fault),
        LineageFault::Output { group, fault } => push_output(alloc, out, group, fault),
    }
}

fn push_visible(alloc: Global, out: &mut String, fault: &VisibleFault) -> Result<(), AllocError>
    ensures { OnOk result (Adds (string_bytes out.old) (string_bytes out.new) (visible_text fault.now)) }
{
    let name = &fault.partition;
    push_offset(
        alloc,
        out,
        name.topic.as_slice(),
        &name.partition,
        fault.offset,
    )?;
    push_visible_details(out, fault.kind)?;
    Ok(())
}

fn push_visible_details(out: &mut String, kind: VisibleFaultKind) -> Result<(), AllocError>
    ensures { OnOk result (Adds (string_bytes out.old) (string_bytes out.new) (visible_details kind)) }
{
    match kind {
        VisibleFaultKind::BadOffset { record } => push_value(out, " record=", &record.name()),
        _ => push_text(out, ""),
    }
}

fn push_output(
    alloc: Global,
    out: &mut String,
    group: &Option<GroupId>,
    fault: &OutputFault,
) -> Result<(), AllocError>
    ensures { OnOk result (Adds (string_bytes out.old) (string_bytes out.new) (output_text group.now fault.now)) }
{
    push_place(alloc, out, " source=", &fault.source)?;
    push_value(out, " output=", &fault.output)?;
    push_at(alloc, out, &fault.at)?;
    push_group(alloc, out, group)?;
    Ok(())
}

fn push_at(alloc: Global, out: &mut String, at: &Option<Place>) -> Result<(), AllocError>
    ensures { OnOk result (Adds (string_bytes out.old) (string_bytes out.new) (at_claim at.now)) }
{
    match at {
        None => push_text(out, ""),
        Some(place) => push_place(alloc, out, " at=", place),
    }
}

fn push_group(alloc: Global, out: &mut String, group: &Option<GroupId>) -> Result<(), AllocError>
    ensures { OnOk result (Adds (string_bytes out.old) (string_bytes out.new) (of_group group.now)) }
{
    match group {
        None => push_text(out, ""),
        Some(group) => push_escaped(alloc, out, " group=", group.as_bytes()),
    }
}
