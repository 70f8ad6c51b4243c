//! What the list of all faults says beside the least one. These functions do nothing; their contracts are theorems.

ghost use Rattle.std.specs.Prelude.{List, [], ◌∷◌};
ghost use Rattle.eos_base.specs.Least.{NoneStands, IsLeast};
ghost use Rattle.eos_fold.specs.Parts.{PartLog};
ghost use Rattle.eos_verdict.specs.declared.log_fault.LogFault.{LogFault};
ghost use Rattle.eos_table.specs.LogFaults.{log_cmp, Stands as StandsInLog};
ghost use Rattle.eos_base.specs.AllOf.{IsAllOf};

/// The first of all faults of the transaction log is the least.
pub fn first_log_fault()
    ensures { (log : List PartLog) (first : LogFault) (others : List LogFault) →
        IsAllOf log_cmp (StandsInLog log) (first ∷ others) → IsLeast log_cmp (StandsInLog log) first }
{}

/// Where the list is empty, no fault stands.
pub fn no_log_fault()
    ensures { (log : List PartLog) → IsAllOf log_cmp (StandsInLog log) [] → NoneStands (StandsInLog log) }
{}
