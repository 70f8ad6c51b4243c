//! What a place of a partition's front shows, and the order of a partition's faults.

ghost use Rattle.std.specs.Prelude.{◌≡◌, ◌++◌, ◌∷◌, [], ℤ, OnOk};
ghost use Rattle.std.specs.Ordering.{eq_by_cmp};
ghost use Rattle.std.specs.Cmp.{partial_equiv_from_equiv, partial_order_from_total};
ghost use Rattle.std.proofs.lemmas.Cmp.{eq_by_cmp_equiv};
ghost use Rattle.eos_fold.specs.Standing.{producer_of};
ghost use Rattle.eos_faults.specs.steps.Found.{placed_cmp, placed_total};

use eos_touch::PartitionFaultKind;
use std::alloc::AllocError;
use std::cmp::Ordering;
use std::marker::Model;

/// A fault at an offset, of a partition that isn't said.
#[derive(Drop)]
pub(crate) struct Shown {
    pub offset: u64,
    pub kind: PartitionFaultKind,
}

impl Model for Shown {
    ghost use Rattle.eos_faults.specs.PartitionPlaces.{Placed};

    ghost Value = { Placed };

    ghost view = { λ s. (s.offset, s.kind) };
}

/// The producer id that is named.
fn producer_of(kind: PartitionFaultKind) -> i64
    ensures { result ≡ producer_of kind }
{
    match kind {
        PartitionFaultKind::Pair { producer, .. } => producer,
        PartitionFaultKind::OpenAtEnd { producer } => producer,
        PartitionFaultKind::BadBatch { .. }
        | PartitionFaultKind::Gap { .. }
        | PartitionFaultKind::End { .. } => 0,
    }
}

fn compare(shown: &Shown, other: &Shown) -> Ordering
    ensures { result ≡ placed_cmp shown.now other.now }
{
    shown
        .offset
        .cmp(&other.offset)
        .then(shown.kind.number().cmp(&other.kind.number()))
        .then(producer_of(shown.kind).cmp(&producer_of(other.kind)))
}

/// Puts a fault at the end of the list.
pub(crate) fn push_shown(
    shown: &mut Vec<Shown>,
    offset: u64,
    kind: PartitionFaultKind,
) -> Result<(), AllocError>
    ensures { OnOk result (shown.new.items ≡ shown.old.items ++ (offset, kind) ∷ []) }
{
    shown.push(Shown { offset, kind })?;
    Ok(())
}

impl PartialEq for Shown {
    ghost eq = { eq_by_cmp placed_cmp };

    ghost laws = { partial_equiv_from_equiv (eq_by_cmp_equiv placed_total) };

    fn eq(&self, other: &Shown) -> bool {
        compare(self, other).is_eq()
    }
}

impl Eq for Shown {
    ghost laws = { eq_by_cmp_equiv placed_total };
}

impl PartialOrd for Shown {
    ghost use Rattle.std.specs.Ordering.{as_partial_cmp};

    ghost partial_cmp = { as_partial_cmp placed_cmp };

    ghost laws = { partial_order_from_total placed_total };

    fn partial_cmp(&self, other: &Shown) -> Option<Ordering> {
        Some(compare(self, other))
    }
}

impl Ord for Shown {
    ghost use Rattle.std.specs.Prelude.{refl};

    ghost cmp = { placed_cmp };

    ghost total = { placed_total };

    ghost matches_partial_cmp = { λ x y. refl };

    ghost matches_eq = { λ x y. refl };

    fn cmp(&self, other: &Shown) -> Ordering {
        compare(self, other)
    }
}
