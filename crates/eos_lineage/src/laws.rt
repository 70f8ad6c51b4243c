//! What the definitions of this crate say together. These functions do nothing; their contracts are theorems.

ghost use Rattle.std.specs.Prelude.{◌≡◌, ◌↔◌, List, ℕ, Option};
ghost use Rattle.eos_base.specs.Least.{NoneStands, IsLeast};
ghost use Rattle.eos_evidence.specs.declared.application.App.{App};
ghost use Rattle.eos_fold.specs.Parts.{PartLog};
ghost use Rattle.eos_claims.specs.declared.fault.OutputFault.{OutputFault};
ghost use Rattle.eos_verdict.specs.declared.lineage_fault.LineageFault.{LineageFault};
ghost use Rattle.eos_lineage.specs.Lineage.{ExactOutputs, LineageKept};
ghost use Rattle.eos_lineage.specs.Faults.{StandsInOutputs, Stands, lineage_cmp};

/// The outputs of all applications are exact exactly where no fault of outputs stands.
pub fn exact_outputs()
    ensures { (apps : List App) (ps : List PartLog) →
        ExactOutputs apps ps ↔ ((group : Option (List ℕ)) (f : OutputFault) → StandsInOutputs apps ps group f → ⊥) }
{}

/// Visible records are what they have to be and all outputs are exact, exactly where no fault of the lineage stands.
pub fn lineage_kept()
    ensures { (apps : List App) (ps : List PartLog) → LineageKept apps ps ↔ NoneStands (Stands apps ps) }
{}

/// Two least faults of the lineage are one.
pub fn least_is_unique()
    ensures { (apps : List App) (ps : List PartLog) (f g : LineageFault) →
        IsLeast (lineage_cmp apps) (Stands apps ps) f → IsLeast (lineage_cmp apps) (Stands apps ps) g → f ≡ g }
{}
