//! One walk over the records of all partitions, to its end or to the first record that shows a fault.

ghost use Rattle.std.specs.Prelude.{◌≡◌, ◌≢◌, ◌++◌, ◌∷◌, [], ◌&&◌, ◌||◌, not, true, false, OnOk, IfOk};
ghost use Rattle.eos_commits.specs.steps.Settled.{is_settled as is_settled_part, AreSettled};
ghost use Rattle.eos_commits.specs.steps.Gathered.{fault_at, tested, refusal_at, shown_at, take_item, take_part, gathered, Takes, Lists};
ghost use Rattle.eos_commits.specs.steps.Lent.{plain_gathering};

use crate::homes::Homes;
use crate::roles::Roles;
use crate::shown::{Role, Shown, by_commit, is_unclaimed, role_of};
use crate::visible::is_visible;
use eos_base::{PartitionName, RecordFault};
use eos_kept::{ItemRef, Part};
use eos_verdict::{VisibleFault, VisibleFaultKind};
use std::alloc::{AllocError, Global};
use std::collections::BTreeMap;

/// What was gathered of the records so far.
#[derive(Drop)]
pub(crate) struct Gathering<'a> {
    pub homes: Homes<'a>,
    pub faults: Vec<VisibleFault>,
}

fn push_fault(
    faults: &mut Vec<VisibleFault>,
    part: &Part,
    offset: u64,
    kind: VisibleFaultKind,
) -> Result<(), AllocError>
    ensures { OnOk result (faults.new.items ≡ faults.old.items ++ fault_at part.now offset kind ∷ []) }
{
    faults.push(VisibleFault {
        partition: PartitionName {
            topic: part.topic().clone()?,
            partition: part.partition(),
        },
        offset,
        kind,
    })?;
    Ok(())
}

/// Puts a fault at the end where the test holds.
fn push_tested(
    faults: &mut Vec<VisibleFault>,
    test: bool,
    part: &Part,
    offset: u64,
    kind: VisibleFaultKind,
) -> Result<(), AllocError>
    ensures { OnOk result (faults.new.items ≡ faults.old.items ++ tested test (fault_at part.now offset kind)) }
{
    if test {
        push_fault(faults, part, offset, kind)?;
    }
    Ok(())
}

fn push_refusal(
    faults: &mut Vec<VisibleFault>,
    part: &Part,
    offset: u64,
    refusal: Option<RecordFault>,
) -> Result<(), AllocError>
    ensures { OnOk result (faults.new.items ≡ faults.old.items ++ refusal_at part.now offset refusal) }
{
    if let Some(record) = refusal {
        push_fault(faults, part, offset, VisibleFaultKind::BadOffset { record })?;
    }
    Ok(())
}

fn push_shown(
    faults: &mut Vec<VisibleFault>,
    part: &Part,
    offset: u64,
    shown: Shown,
) -> Result<(), AllocError>
    ensures { OnOk result (faults.new.items ≡ faults.old.items ++ shown_at part.now offset shown) }
{
    let split = VisibleFaultKind::SplitGroup;
    let deleted = VisibleFaultKind::OffsetDeleted;
    push_refusal(faults, part, offset, shown.refusal)?;
    push_tested(faults, shown.is_split, part, offset, split)?;
    push_tested(faults, shown.is_deleted, part, offset, deleted)?;
    Ok(())
}

fn take_item<'a>(
    gathering: &mut Gathering<'a>,
    roles: &Roles<'_>,
    part: &Part,
    role: Role,
    item: ItemRef<'a>,
) -> Result<(), AllocError>
    ensures { OnOk result (plain_gathering gathering.new ≡ take_item roles.now.sources part.now role (plain_gathering gathering.old) item.entry) }
{
    if !is_visible(item.fate()) {
        return Ok(());
    }
    let faults = &mut gathering.faults;
    let offset = item.offset();
    let shown = by_commit(roles, &mut gathering.homes, role, &item)?;
    let unclaimed = role.is_output && is_unclaimed(item);
    let lineage = VisibleFaultKind::BadLineage;
    push_tested(faults, unclaimed, part, offset, lineage)?;
    push_shown(faults, part, offset, shown)?;
    Ok(())
}

/// Whether nothing is asked of the records of such a partition, where those of output topics may be settled.
fn is_quiet(role: Role, settled: bool) -> bool
    ensures { result ≡ (not role.is_offsets && (settled || not role.is_output)) }
{
    !role.is_offsets && (settled || !role.is_output)
}

/// Whether a fault was found, and no more than the first is asked for.
fn is_enough(gathering: &Gathering<'_>, only_first: bool) -> bool
    ensures yes { result ≡ true → (only_first ≡ true) × (gathering.now.faults.items ≢ []) }
    ensures no { result ≡ false → only_first ≡ true → gathering.now.faults.items ≡ [] }
{
    only_first && !gathering.faults.is_empty()
}

/// Takes a partition's records, which may be settled.
fn take_part<'a>(
    gathering: &mut Gathering<'a>,
    roles: &Roles<'_>,
    part: &'a Part,
    settled: bool,
    only_first: bool,
) -> Result<(), AllocError>
    requires { settled ≡ true → is_settled_part roles.now part.now ≡ true }
    ensures { OnOk result (Takes only_first (plain_gathering gathering.new) (take_part roles.now (plain_gathering gathering.old) part.now)) }
{
    let role = role_of(roles, part);
    if is_quiet(role, settled) {
        return Ok(());
    }
    let mut records = part.items().cursor();
    while let Some(item) = records.next() {
        take_item(gathering, roles, part, role, item)?;
        if is_enough(gathering, only_first) {
            return Ok(());
        }
    }
    Ok(())
}

/// The faults of the visible records of these partitions, which may all be settled, in the order of their places: of all
/// records, or of the first alone that shows one.
pub(crate) fn gather(
    alloc: Global,
    roles: &Roles<'_>,
    parts: &[Part],
    settled: bool,
    only_first: bool,
) -> Result<Vec<VisibleFault>, AllocError>
    requires { settled ≡ true → AreSettled roles.now parts.now }
    ensures { IfOk result (λ faults. Lists only_first faults.items (gathered roles.now parts.now)) }
{
    let mut gathering = Gathering {
        homes: BTreeMap::new(alloc),
        faults: Vec::new(alloc),
    };
    for part in parts {
        take_part(&mut gathering, roles, part, settled, only_first)?;
        if is_enough(&gathering, only_first) {
            return Ok(gathering.faults);
        }
    }
    Ok(gathering.faults)
}
