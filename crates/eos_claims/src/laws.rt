//! What the definitions of exact outputs and of their faults say of each other.

ghost use Rattle.std.specs.Prelude.{◌≡◌, ◌↔◌, List, None, fold};
ghost use Rattle.eos_base.specs.Least.{NoneStands, IsLeast, IsLeastOrNone, lesser_of};
ghost use Rattle.eos_claims.specs.Candidates.{Counted, AreApart, AreBelow, candidates};
ghost use Rattle.eos_claims.specs.declared.fault.OutputFault.{OutputFault};
ghost use Rattle.eos_claims.specs.Outputs.{Application, ReadsSources, Exact};
ghost use Rattle.eos_claims.specs.Faults.{Stands, fault_cmp};

/// The outputs are exact where no fault stands, and nowhere else.
pub fn exact_outputs()
    ensures { (a : Application) → ReadsSources a → Exact a ↔ NoneStands (Stands a) }
{}

/// There is at most one least fault.
pub fn least_is_unique()
    ensures { (a : Application) (f g : OutputFault) → IsLeast fault_cmp (Stands a) f → IsLeast fault_cmp (Stands a) g → f ≡ g }
{}

/// The least of what the claims show one by one, of what neighbours show in their order, and of the inputs that nothing
/// claims, is the least fault; where these show nothing, no fault stands.
pub fn least_of_candidates()
    ensures { (a : Application) (cs : List Counted) → ReadsSources a → AreApart a → AreBelow a cs →
        IsLeastOrNone fault_cmp (Stands a) (fold (lesser_of fault_cmp) None (candidates a cs)) }
{}
