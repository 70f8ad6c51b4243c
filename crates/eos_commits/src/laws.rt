//! What the definitions of this crate say together. These functions do nothing; their contracts are theorems.

ghost use Rattle.std.specs.Prelude.{◌≡◌, ◌↔◌, List, [], ◌∷◌};
ghost use Rattle.eos_base.specs.AllOf.{IsAllOf};
ghost use Rattle.eos_base.specs.Least.{NoneStands, IsLeast};
ghost use Rattle.eos_evidence.specs.declared.application.App.{App};
ghost use Rattle.eos_fold.specs.Parts.{PartLog};
ghost use Rattle.eos_verdict.specs.declared.visible_fault.VisibleFault.{VisibleFault};
ghost use Rattle.eos_commits.specs.Kept.{RecordsKept};
ghost use Rattle.eos_commits.specs.Faults.{visible_cmp, Stands};

/// The visible records keep their rule exactly where none of their faults stands.
pub fn records_kept()
    ensures { (apps : List App) (ps : List PartLog) → RecordsKept apps ps ↔ NoneStands (Stands apps ps) }
{}

/// Two least faults of visible records are one.
pub fn least_is_unique()
    ensures { (apps : List App) (ps : List PartLog) (f g : VisibleFault) →
        IsLeast visible_cmp (Stands apps ps) f → IsLeast visible_cmp (Stands apps ps) g → f ≡ g }
{}

/// The first of all faults of visible records is the least.
pub fn first_record_fault()
    ensures { (apps : List App) (ps : List PartLog) (first : VisibleFault) (others : List VisibleFault) →
        IsAllOf visible_cmp (Stands apps ps) (first ∷ others) → IsLeast visible_cmp (Stands apps ps) first }
{}

/// Where the list is empty, no fault stands.
pub fn no_record_fault()
    ensures { (apps : List App) (ps : List PartLog) → IsAllOf visible_cmp (Stands apps ps) [] → NoneStands (Stands apps ps) }
{}
