//! The JSON object of a fault.

ghost use Rattle.std.specs.Prelude.{◌≡◌, IfOk, OnOk, option_map, string_bytes};
ghost use Rattle.serde_json.specs.View.{view};
ghost use Rattle.eos_manifest.specs.Objects.{held};
ghost use Rattle.eos_report.specs.FaultValues.{with_details, with_partition_fault, with_id, with_refusal, with_log_fault, with_found, with_match_fault, with_visible_details, with_visible_fault, with_claim, with_group, with_output_fault, with_where, code_of, with_fault, fault_value};
ghost use Rattle.eos_report.specs.DatedValues.{dated_value};

use crate::dates::{Timestamps, put_timestamps};
use crate::place::{put_partition, put_place, put_record};
use bytes::Bytes;
use eos_base::PartitionName;
use eos_claims::{OutputFault, Place};
use eos_commits::{VisibleFault, VisibleFaultKind};
use eos_evidence::GroupId;
use eos_fold::{PartitionFault, PartitionFaultKind};
use eos_manifest::Object;
use eos_table::{LogFault, LogFaultKind, MatchFault};
use eos_verdict::{Fault, LineageFault};
use serde_json::Value;
use std::alloc::{AllocError, Global};

/// A fault: its number in the list of all, its name and phase, and where it stands.
#[tactic(auto, unfolding(crate::specs::FaultValues::fault_value))]
pub(crate) fn value_of_fault(alloc: Global, fault: &Fault) -> Result<Value, AllocError>
    ensures { IfOk result (λ value. view value ≡ fault_value fault.now) }
{
    let mut made = Object::new(alloc);
    put_fault(alloc, &mut made, fault)?;
    Ok(made.into_value())
}

/// A fault as a report has it, with the times of the records that it names.
#[tactic(auto, unfolding(crate::specs::DatedValues::dated_value))]
pub(crate) fn value_of_dated(
    alloc: Global,
    fault: &Fault,
    times: Timestamps,
) -> Result<Value, AllocError>
    ensures { IfOk result (λ value. view value ≡ dated_value fault.now times) }
{
    let mut made = Object::new(alloc);
    put_fault(alloc, &mut made, fault)?;
    put_timestamps(&mut made, fault, times)?;
    Ok(made.into_value())
}

#[tactic(auto, unfolding(crate::specs::FaultValues::with_fault))]
fn put_fault(alloc: Global, out: &mut Object, fault: &Fault) -> Result<(), AllocError>
    ensures { OnOk result (held out.new ≡ with_fault fault.now (held out.old)) }
{
    let code = code_of(alloc, fault)?;
    out.put("code", Value::String(code))?;
    out.put_str("name", fault.name())?;
    out.put_count("phase", u64::from(fault.phase()))?;
    put_where(out, fault)
}

#[tactic(auto, unfolding(crate::specs::FaultValues::code_of))]
fn code_of(alloc: Global, fault: &Fault) -> Result<String, AllocError>
    ensures { IfOk result (λ code. string_bytes code ≡ code_of fault.now) }
{
    let phase = fault.phase();
    let number = fault.number();
    format!(in alloc; "{phase}.{number}")
}

#[tactic(auto, unfolding(crate::specs::FaultValues::with_where))]
fn put_where(out: &mut Object, fault: &Fault) -> Result<(), AllocError>
    ensures { OnOk result (held out.new ≡ with_where fault.now (held out.old)) }
{
    match fault {
        Fault::Partition(fault) => put_partition_fault(out, fault),
        Fault::Log(fault) => put_log_fault(out, fault),
        Fault::Match(fault) => put_match_fault(out, fault),
        Fault::Lineage(LineageFault::Record(fault)) => put_visible_fault(out, fault),
        Fault::Lineage(LineageFault::Output { group, fault }) => {
            put_output_fault(out, group, fault)
        }
    }
}

// ---- phase 1

#[tactic(auto, unfolding(crate::specs::FaultValues::with_partition_fault))]
fn put_partition_fault(out: &mut Object, fault: &PartitionFault) -> Result<(), AllocError>
    ensures { OnOk result (held out.new ≡ with_partition_fault fault.now (held out.old)) }
{
    put_record(out, fault.topic.as_slice(), fault.partition, fault.offset)?;
    put_details(out, fault.kind)
}

#[tactic(auto, unfolding(crate::specs::FaultValues::with_details))]
fn put_details(out: &mut Object, kind: PartitionFaultKind) -> Result<(), AllocError>
    ensures { OnOk result (held out.new ≡ with_details kind (held out.old)) }
{
    match kind {
        PartitionFaultKind::BadBatch {
            segment,
            byte,
            batch,
        } => {
            out.put_str("batch", batch.name())?;
            out.put_count("byte", byte)?;
            out.put_count("segment", segment)
        }
        PartitionFaultKind::Gap { found } => out.put_count("found", found),
        PartitionFaultKind::End { end } => out.put_count("end", end),
        PartitionFaultKind::Pair { producer, .. } => out.put_integer("producer", producer),
        PartitionFaultKind::OpenAtEnd { producer } => out.put_integer("producer", producer),
    }
}

// ---- phase 2

#[tactic(auto, unfolding(crate::specs::FaultValues::with_log_fault))]
fn put_log_fault(out: &mut Object, fault: &LogFault) -> Result<(), AllocError>
    ensures { OnOk result (held out.new ≡ with_log_fault fault.now (held out.old)) }
{
    let topic = "__transaction_state";
    put_record(out, topic.as_bytes(), fault.partition, fault.offset)?;
    put_id(out, fault.kind.id())?;
    put_refusal(out, &fault.kind)
}

#[tactic(auto, unfolding(crate::specs::FaultValues::with_id))]
fn put_id(out: &mut Object, id: Option<&Bytes>) -> Result<(), AllocError>
    ensures { OnOk result (held out.new ≡ with_id (option_map (λ id. id.now) id.entry) (held out.old)) }
{
    match id {
        None => Ok(()),
        Some(id) => out.put_text("id", id.as_slice()),
    }
}

#[tactic(auto, unfolding(crate::specs::FaultValues::with_refusal))]
fn put_refusal(out: &mut Object, kind: &LogFaultKind) -> Result<(), AllocError>
    ensures { OnOk result (held out.new ≡ with_refusal kind.now (held out.old)) }
{
    match kind {
        LogFaultKind::BadRecord { record } => out.put_str("record", record.name()),
        LogFaultKind::Step { why, .. } => out.put_str("why", why.name()),
        _ => Ok(()),
    }
}

// ---- phase 3

#[tactic(auto, unfolding(crate::specs::FaultValues::with_match_fault))]
fn put_match_fault(out: &mut Object, fault: &MatchFault) -> Result<(), AllocError>
    ensures { OnOk result (held out.new ≡ with_match_fault fault.now (held out.old)) }
{
    out.put_integer("producer", fault.producer)?;
    out.put_integer("epoch", i64::from(fault.epoch))?;
    put_found(out, &fault.partition)
}

#[tactic(auto, unfolding(crate::specs::FaultValues::with_found))]
fn put_found(out: &mut Object, partition: &Option<PartitionName>) -> Result<(), AllocError>
    ensures { OnOk result (held out.new ≡ with_found partition.now (held out.old)) }
{
    match partition {
        None => Ok(()),
        Some(name) => put_partition(out, name.topic.as_slice(), name.partition),
    }
}

// ---- phases 4 and 5

#[tactic(auto, unfolding(crate::specs::FaultValues::with_visible_fault))]
fn put_visible_fault(out: &mut Object, fault: &VisibleFault) -> Result<(), AllocError>
    ensures { OnOk result (held out.new ≡ with_visible_fault fault.now (held out.old)) }
{
    let name = &fault.partition;
    put_record(out, name.topic.as_slice(), name.partition, fault.offset)?;
    put_visible_details(out, fault.kind)
}

#[tactic(auto, unfolding(crate::specs::FaultValues::with_visible_details))]
fn put_visible_details(out: &mut Object, kind: VisibleFaultKind) -> Result<(), AllocError>
    ensures { OnOk result (held out.new ≡ with_visible_details kind (held out.old)) }
{
    match kind {
        VisibleFaultKind::BadOffset { record } => out.put_str("record", record.name()),
        _ => Ok(()),
    }
}

#[tactic(auto, unfolding(crate::specs::FaultValues::with_output_fault))]
fn put_output_fault(
    out: &mut Object,
    group: &Option<GroupId>,
    fault: &OutputFault,
) -> Result<(), AllocError>
    ensures { OnOk result (held out.new ≡ with_output_fault group.now fault.now (held out.old)) }
{
    put_place(out, "source", &fault.source)?;
    out.put_count("output", u64::from(fault.output))?;
    put_claim(out, &fault.at)?;
    put_group(out, group)
}

#[tactic(auto, unfolding(crate::specs::FaultValues::with_claim))]
fn put_claim(out: &mut Object, at: &Option<Place>) -> Result<(), AllocError>
    ensures { OnOk result (held out.new ≡ with_claim at.now (held out.old)) }
{
    match at {
        None => Ok(()),
        Some(place) => put_place(out, "at", place),
    }
}

#[tactic(auto, unfolding(crate::specs::FaultValues::with_group))]
fn put_group(out: &mut Object, group: &Option<GroupId>) -> Result<(), AllocError>
    ensures { OnOk result (held out.new ≡ with_group group.now (held out.old)) }
{
    match group {
        None => Ok(()),
        Some(group) => out.put_text("group", group.as_bytes()),
    }
}
