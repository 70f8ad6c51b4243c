//! The tables of a page.

ghost use Rattle.std.specs.Prelude.{OnOk, string_bytes};
ghost use Rattle.std.specs.List.{flat_map};
ghost use Rattle.eos_text.specs.Adding.{Adds};
ghost use Rattle.eos_report.specs.PageTables.{name_cell, count_cell, offset_cell, visible_cell, word_if, roles_cell, sizes_cells, partition_row, partitions_text, group_cell, source_row, group_rows, known_groups, groups_text};

use eos_base::Listed;
use eos_evidence::GroupId;
use eos_notes::{GroupTally, PartitionTally, SourceTally, Tallies, TopicRoles};
use eos_text::{push_escaped, push_text, push_value};
use std::alloc::{AllocError, Global};

// ---- cells

fn push_name(
    alloc: Global,
    out: &mut String,
    topic: &[u8],
    partition: &i32,
) -> Result<(), AllocError>
    ensures { OnOk result (Adds (string_bytes out.old) (string_bytes out.new) (name_cell topic.now partition.now)) }
{
    push_escaped(alloc, out, "<td>", topic)?;
    push_value(out, "-", partition)?;
    push_text(out, "</td>")
}

fn push_count(out: &mut String, count: u64) -> Result<(), AllocError>
    ensures { OnOk result (Adds (string_bytes out.old) (string_bytes out.new) (count_cell count)) }
{
    push_value(out, "<td>", &count)?;
    push_text(out, "</td>")
}

fn push_offset(out: &mut String, offset: &i64) -> Result<(), AllocError>
    ensures { OnOk result (Adds (string_bytes out.old) (string_bytes out.new) (offset_cell offset.now)) }
{
    push_value(out, "<td>", offset)?;
    push_text(out, "</td>")
}

fn push_visible(out: &mut String, count: Option<u64>) -> Result<(), AllocError>
    ensures { OnOk result (Adds (string_bytes out.old) (string_bytes out.new) (visible_cell count)) }
{
    match count {
        None => push_text(out, "<td>not known</td>"),
        Some(count) => push_count(out, count),
    }
}

fn push_word(out: &mut String, is: bool, word: &str) -> Result<(), AllocError>
    ensures { OnOk result (Adds (string_bytes out.old) (string_bytes out.new) (word_if is word.now)) }
{
    if is {
        push_text(out, word)
    } else {
        push_text(out, "")
    }
}

fn push_roles(out: &mut String, roles: TopicRoles) -> Result<(), AllocError>
    ensures { OnOk result (Adds (string_bytes out.old) (string_bytes out.new) (roles_cell roles)) }
{
    push_text(out, "<td>")?;
    push_word(out, roles.source, "source ")?;
    push_word(out, roles.output, "output ")?;
    push_word(out, roles.offsets_log, "offsets ")?;
    push_word(out, roles.transaction_log, "transactions ")?;
    push_text(out, "</td>")
}

// ---- partitions

/// Adds the table of partitions.
pub(crate) fn push_partitions(
    alloc: Global,
    out: &mut String,
    tallies: &Tallies,
) -> Result<(), AllocError>
    ensures { OnOk result (Adds (string_bytes out.old) (string_bytes out.new) (partitions_text tallies.now)) }
{
    push_text(
        out,
        "<h2>Partitions</h2>\n<div><table>\n<tr><th>Partition</th><th>Is</th><th>End</th><th>Batches</th><th>Records</th><th>Visible</th><th>Segments</th><th>Bytes</th></tr>\n",
    )?;
    push_rows(alloc, out, tallies.partitions.as_slice())?;
    push_text(out, "</table></div>\n")
}

fn push_rows(alloc: Global, out: &mut String, tallies: &[PartitionTally]) -> Result<(), AllocError>
    ensures { OnOk result (Adds (string_bytes out.old) (string_bytes out.new) (flat_map partition_row tallies.now)) }
{
    for tally in tallies {
        push_partition(alloc, out, tally)?;
    }
    Ok(())
}

fn push_partition(alloc: Global, out: &mut String, tally: &PartitionTally) -> Result<(), AllocError>
    ensures { OnOk result (Adds (string_bytes out.old) (string_bytes out.new) (partition_row tally.now)) }
{
    push_text(out, "<tr>")?;
    push_name(alloc, out, tally.topic.as_slice(), &tally.partition)?;
    push_roles(out, tally.roles)?;
    push_offset(out, &tally.end)?;
    push_sizes(out, tally)?;
    push_text(out, "</tr>\n")
}

fn push_sizes(out: &mut String, tally: &PartitionTally) -> Result<(), AllocError>
    ensures { OnOk result (Adds (string_bytes out.old) (string_bytes out.new) (sizes_cells tally.now)) }
{
    push_count(out, tally.batches)?;
    push_count(out, tally.data_records)?;
    push_visible(out, tally.visible_records)?;
    push_count(out, tally.segments)?;
    push_count(out, tally.bytes)
}

// ---- groups

/// Adds the table of groups.
pub(crate) fn push_groups(
    alloc: Global,
    out: &mut String,
    tallies: &Tallies,
) -> Result<(), AllocError>
    ensures { OnOk result (Adds (string_bytes out.old) (string_bytes out.new) (groups_text tallies.now)) }
{
    push_text(
        out,
        "<h2>Groups</h2>\n<div><table>\n<tr><th>Group</th><th>Source</th><th>Committed</th><th>End</th><th>Visible inputs below</th></tr>\n",
    )?;
    push_known(alloc, out, &tallies.groups)?;
    push_text(out, "</table></div>\n")
}

fn push_known(
    alloc: Global,
    out: &mut String,
    groups: &Option<Listed<GroupTally>>,
) -> Result<(), AllocError>
    ensures { OnOk result (Adds (string_bytes out.old) (string_bytes out.new) (known_groups groups.now)) }
{
    match groups {
        None => push_text(
            out,
            "<tr><td colspan=\"5\">not known, since the log of a partition has a fault of its own</td></tr>\n",
        ),
        Some(groups) => push_listed(alloc, out, groups.as_slice()),
    }
}

fn push_listed(alloc: Global, out: &mut String, groups: &[GroupTally]) -> Result<(), AllocError>
    ensures { OnOk result (Adds (string_bytes out.old) (string_bytes out.new) (flat_map group_rows groups.now)) }
{
    for group in groups {
        push_sources(alloc, out, &group.group, group.sources.as_slice())?;
    }
    Ok(())
}

fn push_sources(
    alloc: Global,
    out: &mut String,
    group: &GroupId,
    sources: &[SourceTally],
) -> Result<(), AllocError>
    ensures { OnOk result (Adds (string_bytes out.old) (string_bytes out.new) (flat_map (source_row group.now) sources.now)) }
{
    for source in sources {
        push_source(alloc, out, group, source)?;
    }
    Ok(())
}

fn push_source(
    alloc: Global,
    out: &mut String,
    group: &GroupId,
    tally: &SourceTally,
) -> Result<(), AllocError>
    ensures { OnOk result (Adds (string_bytes out.old) (string_bytes out.new) (source_row group.now tally.now)) }
{
    push_group(alloc, out, group)?;
    push_name(alloc, out, tally.topic.as_slice(), &tally.partition)?;
    push_offset(out, &tally.committed)?;
    push_offset(out, &tally.end)?;
    push_count(out, tally.visible_inputs_below)?;
    push_text(out, "</tr>\n")
}

fn push_group(alloc: Global, out: &mut String, group: &GroupId) -> Result<(), AllocError>
    ensures { OnOk result (Adds (string_bytes out.old) (string_bytes out.new) (group_cell group.now)) }
{
    push_escaped(alloc, out, "<tr><td>", group.as_bytes())?;
    push_text(out, "</td>")
}
