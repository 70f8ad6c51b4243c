//! What the places show together, and what the list of all faults says beside the least one. These functions do nothing;
//! their contracts are theorems.

ghost use Rattle.std.specs.Prelude.{◌↔◌, List, [], ◌∷◌};
ghost use Rattle.eos_base.specs.Least.{NoneStands, IsLeast};
ghost use Rattle.eos_base.specs.Members.{Has};
ghost use Rattle.eos_txnlog.specs.declared.decision.Decision.{Decision};
ghost use Rattle.eos_fold.specs.Parts.{PartLog};
ghost use Rattle.eos_verdict.specs.declared.match_fault.MatchFault.{MatchFault};
ghost use Rattle.eos_table.specs.MatchFaults.{fault_cmp, Stands};
ghost use Rattle.eos_base.specs.AllOf.{IsAllOf};
ghost use Rattle.eos_table.specs.MatchPlaces.{gathered};

/// What is gathered at the places is exactly what stands between decisions and logs.
pub fn gathered_is_standing()
    ensures { (ds : List Decision) (ps : List PartLog) (f : MatchFault) → Has (gathered ds ps) f ↔ Stands ds ps f }
{}

/// The first of all faults between decisions and logs is the least.
pub fn first_match_fault()
    ensures { (ds : List Decision) (ps : List PartLog) (first : MatchFault) (others : List MatchFault) →
        IsAllOf fault_cmp (Stands ds ps) (first ∷ others) → IsLeast fault_cmp (Stands ds ps) first }
{}

/// Where the list is empty, no fault stands.
pub fn no_match_fault()
    ensures { (ds : List Decision) (ps : List PartLog) → IsAllOf fault_cmp (Stands ds ps) [] → NoneStands (Stands ds ps) }
{}
