//! The decisions of each producer id and data epoch of a shard.

ghost use Rattle.std.specs.Prelude.{◌≡◌, List, ◌∷◌, [], ◌++◌, IfOk, OnOk};
ghost use Rattle.std.specs.BTreeMap.{get};
ghost use Rattle.eos_txnlog.specs.declared.decision.Decision.{Decision as DecisionOf};
ghost use Rattle.eos_table.specs.steps.Keys.{pair_cmp};
ghost use Rattle.eos_table.specs.steps.Deciders.{with_decision, decided_in, AreDeciders};

use crate::one_shard::Shard;
use crate::shared::SharedDecision;
use eos_batch::Kind;
use std::alloc::{AllocError, Global};
use std::collections::BTreeMap;

/// How the first decision of a producer id and data epoch ends.
#[derive(Clone, Copy)]
pub(crate) struct Decided {
    pub marker_epoch: i16,
    pub kind: Kind,
    /// There is another decision.
    pub is_twice: bool,
}

/// What is kept of each producer id and data epoch.
pub(crate) type Deciders = BTreeMap<(i64, i16), Decided>;

/// What is kept of this producer id and data epoch.
pub(crate) fn decided_of(deciders: &Deciders, producer: i64, epoch: i16) -> Option<Decided>
    ensures { result ≡ get pair_cmp deciders.now (producer, epoch) }
{
    deciders.get(&(producer, epoch)).copied()
}

fn with_decision(known: Option<Decided>, decision: &SharedDecision) -> Decided
    ensures { result ≡ with_decision known decision.now }
{
    match known {
        None => Decided {
            marker_epoch: decision.marker_epoch(),
            kind: decision.kind(),
            is_twice: false,
        },
        Some(known) => Decided {
            marker_epoch: known.marker_epoch,
            kind: known.kind,
            is_twice: true,
        },
    }
}

fn take_decision(deciders: &mut Deciders, decision: &SharedDecision) -> Result<(), AllocError>
    ensures { (before : List DecisionOf) → AreDeciders deciders.old before → OnOk result (AreDeciders deciders.new (before ++ decision.now ∷ [])) }
{
    let producer = decision.producer();
    let epoch = decision.epoch();
    let known = decided_of(deciders, producer, epoch);
    let decided = with_decision(known, decision);
    deciders.insert((producer, epoch), decided)?;
    Ok(())
}

/// The table of the decisions of a shard.
pub(crate) fn deciders_of(
    alloc: Global,
    decisions: &[SharedDecision],
    shard: Shard,
) -> Result<Deciders, AllocError>
    ensures { IfOk result (λ deciders. AreDeciders deciders (decided_in shard.of shard.number decisions.now)) }
{
    let mut deciders = BTreeMap::new(alloc);
    for decision in decisions {
        if shard.has(decision.producer()) {
            take_decision(&mut deciders, decision)?;
        }
    }
    Ok(deciders)
}
