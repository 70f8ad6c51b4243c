//! In which partition of the offsets log each group was met first.

ghost use Rattle.std.specs.Prelude.{◌≡◌, Some, IfOk, OnOk, cond};
ghost use Rattle.eos_commits.specs.Commits.{Group, is_same};
ghost use Rattle.eos_commits.specs.steps.Gathered.{is_below, met};
ghost use Rattle.eos_commits.specs.steps.Lent.{homes_of};

use std::alloc::AllocError;
use std::collections::BTreeMap;

/// The first partition of each group. Groups are lent.
pub(crate) type Homes<'a> = BTreeMap<&'a [u8], i32>;

fn home_of(homes: &Homes<'_>, group: &[u8]) -> Option<i32>
    ensures { result ≡ homes_of homes.now group.now }
{
    homes.get(group).copied()
}

fn put_home<'a>(homes: &mut Homes<'a>, group: &'a [u8], number: i32) -> Result<(), AllocError>
    ensures { OnOk result ((other : Group) → homes_of homes.new other ≡ cond (is_same group.now other) (Some number) (homes_of homes.old other)) }
{
    homes.insert(group, number)?;
    Ok(())
}

/// Takes the partition for the group's, where the group wasn't met before, and says whether it was met in a lesser one.
pub(crate) fn enter<'a>(
    homes: &mut Homes<'a>,
    group: &'a [u8],
    number: i32,
) -> Result<bool, AllocError>
    ensures below { IfOk result (λ below. below ≡ is_below (homes_of homes.old group.now) number) }
    ensures homes { OnOk result (homes_of homes.new ≡ met (homes_of homes.old) group.now number) }
{
    match home_of(homes, group) {
        Some(home) => Ok(home < number),
        None => {
            put_home(homes, group, number)?;
            Ok(false)
        }
    }
}
