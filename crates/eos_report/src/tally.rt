//! The JSON objects of the tables.

ghost use Rattle.std.specs.Prelude.{◌≡◌, IfOk, OnOk};
ghost use Rattle.serde_json.specs.Data.{boolean, put as with_member};
ghost use Rattle.serde_json.specs.View.{view, items_view};
ghost use Rattle.eos_manifest.specs.Objects.{held};
ghost use Rattle.eos_report.specs.TallyValues.{with_roles, roles_value, visible_value, with_sizes, with_tally, partition_value, partition_items, with_source, source_value, source_items, with_group_tally, group_value, group_items, groups_value, with_tallies};

use crate::place::put_partition;
use eos_base::Listed;
use eos_manifest::Object;
use eos_notes::{GroupTally, PartitionTally, SourceTally, Tallies, TopicRoles};
use serde_json::Value;
use std::alloc::{AllocError, Global};

/// Puts both tables in.
#[tactic(auto, unfolding(crate::specs::TallyValues::with_tallies))]
pub(crate) fn put_tallies(
    alloc: Global,
    out: &mut Object,
    tallies: &Tallies,
) -> Result<(), AllocError>
    ensures { OnOk result (held out.new ≡ with_tallies tallies.now (held out.old)) }
{
    let partitions = values_of_partitions(alloc, tallies.partitions.as_slice())?;
    out.put("partitions", Value::Array(partitions))?;
    let groups = value_of_groups(alloc, &tallies.groups)?;
    out.put("groups", groups)
}

// ---- partitions

fn values_of_partitions(alloc: Global, tallies: &[PartitionTally]) -> Result<Vec<Value>, AllocError>
    ensures { IfOk result (λ values. items_view values.items ≡ partition_items tallies.now) }
{
    let mut values = Vec::new(alloc);
    for tally in tallies {
        values.push(value_of_partition(alloc, tally)?)?;
    }
    Ok(values)
}

#[tactic(auto, unfolding(crate::specs::TallyValues::partition_value))]
fn value_of_partition(alloc: Global, tally: &PartitionTally) -> Result<Value, AllocError>
    ensures { IfOk result (λ value. view value ≡ partition_value tally.now) }
{
    let mut made = Object::new(alloc);
    put_tally(alloc, &mut made, tally)?;
    Ok(made.into_value())
}

#[tactic(auto, unfolding(crate::specs::TallyValues::with_tally))]
fn put_tally(alloc: Global, out: &mut Object, tally: &PartitionTally) -> Result<(), AllocError>
    ensures { OnOk result (held out.new ≡ with_tally tally.now (held out.old)) }
{
    put_partition(out, tally.topic.as_slice(), tally.partition)?;
    let roles = value_of_roles(alloc, tally.roles)?;
    out.put("roles", roles)?;
    out.put_integer("end", tally.end)?;
    put_sizes(out, tally)
}

#[tactic(auto, unfolding(crate::specs::TallyValues::with_sizes))]
fn put_sizes(out: &mut Object, tally: &PartitionTally) -> Result<(), AllocError>
    ensures { OnOk result (held out.new ≡ with_sizes tally.now (held out.old)) }
{
    out.put_count("batches", tally.batches)?;
    out.put_count("data_records", tally.data_records)?;
    out.put("visible_records", value_of_visible(tally.visible_records))?;
    out.put_count("segments", tally.segments)?;
    out.put_count("bytes", tally.bytes)
}

fn value_of_visible(count: Option<u64>) -> Value
    ensures { view result ≡ visible_value count }
{
    match count {
        None => Value::Null,
        Some(count) => Value::from(count),
    }
}

#[tactic(auto, unfolding(crate::specs::TallyValues::roles_value))]
fn value_of_roles(alloc: Global, roles: TopicRoles) -> Result<Value, AllocError>
    ensures { IfOk result (λ value. view value ≡ roles_value roles) }
{
    let mut made = Object::new(alloc);
    put_roles(&mut made, roles)?;
    Ok(made.into_value())
}

#[tactic(auto, unfolding(crate::specs::TallyValues::with_roles))]
fn put_roles(out: &mut Object, roles: TopicRoles) -> Result<(), AllocError>
    ensures { OnOk result (held out.new ≡ with_roles roles (held out.old)) }
{
    out.put("source", Value::Bool(roles.source))?;
    out.put("output", Value::Bool(roles.output))?;
    out.put("offsets_log", Value::Bool(roles.offsets_log))?;
    out.put("transaction_log", Value::Bool(roles.transaction_log))
}

// ---- groups

fn value_of_groups(alloc: Global, groups: &Option<Listed<GroupTally>>) -> Result<Value, AllocError>
    ensures { IfOk result (λ value. view value ≡ groups_value groups.now) }
{
    match groups {
        None => Ok(Value::Null),
        Some(groups) => {
            let values = values_of_groups(alloc, groups.as_slice())?;
            Ok(Value::Array(values))
        }
    }
}

fn values_of_groups(alloc: Global, groups: &[GroupTally]) -> Result<Vec<Value>, AllocError>
    ensures { IfOk result (λ values. items_view values.items ≡ group_items groups.now) }
{
    let mut values = Vec::new(alloc);
    for group in groups {
        values.push(value_of_group(alloc, group)?)?;
    }
    Ok(values)
}

#[tactic(auto, unfolding(crate::specs::TallyValues::group_value))]
fn value_of_group(alloc: Global, group: &GroupTally) -> Result<Value, AllocError>
    ensures { IfOk result (λ value. view value ≡ group_value group.now) }
{
    let mut made = Object::new(alloc);
    put_group(alloc, &mut made, group)?;
    Ok(made.into_value())
}

#[tactic(auto, unfolding(crate::specs::TallyValues::with_group_tally))]
fn put_group(alloc: Global, out: &mut Object, group: &GroupTally) -> Result<(), AllocError>
    ensures { OnOk result (held out.new ≡ with_group_tally group.now (held out.old)) }
{
    out.put_text("group", group.group.as_bytes())?;
    let sources = values_of_sources(alloc, group.sources.as_slice())?;
    out.put("sources", Value::Array(sources))
}

fn values_of_sources(alloc: Global, sources: &[SourceTally]) -> Result<Vec<Value>, AllocError>
    ensures { IfOk result (λ values. items_view values.items ≡ source_items sources.now) }
{
    let mut values = Vec::new(alloc);
    for source in sources {
        values.push(value_of_source(alloc, source)?)?;
    }
    Ok(values)
}

#[tactic(auto, unfolding(crate::specs::TallyValues::source_value))]
fn value_of_source(alloc: Global, source: &SourceTally) -> Result<Value, AllocError>
    ensures { IfOk result (λ value. view value ≡ source_value source.now) }
{
    let mut made = Object::new(alloc);
    put_source(&mut made, source)?;
    Ok(made.into_value())
}

#[tactic(auto, unfolding(crate::specs::TallyValues::with_source))]
fn put_source(out: &mut Object, source: &SourceTally) -> Result<(), AllocError>
    ensures { OnOk result (held out.new ≡ with_source source.now (held out.old)) }
{
    put_partition(out, source.topic.as_slice(), source.partition)?;
    out.put_integer("committed", source.committed)?;
    out.put_integer("end", source.end)?;
    out.put_count("visible_inputs_below", source.visible_inputs_below)
}
