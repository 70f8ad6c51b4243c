//! What faults are handed to, in the verdict's order, as they are found.

use crate::outputs::LentOutput;
use eos_verdict::Fault;
use std::alloc::{AllocError, Global};

/// Takes faults, one after the other. None of them needs to be held.
pub trait FaultSink: Drop {
    ghost use Rattle.std.specs.Prelude.{◌≡◌, ◌++◌, ◌∷◌, [], List, OnOk, IfOk, true, false};
    ghost use Rattle.eos_verdict.specs.declared.verdict.Fault.{Fault as AFault};
    ghost use Rattle.eos_verdict.specs.declared.verdict.Fault.TheVariants.{Lineage};

    /// What it is after faults that it takes.
    ghost takes: { Self → List AFault → Self → Type 0 };

    /// Whether it is as a share begins.
    ghost is_share: { Self → Type 0 };

    /// A sink that takes some of the faults while others are taken elsewhere, and is joined to another then.
    fn share(alloc: Global) -> Self
        ensures { is_share result };

    /// Takes a fault.
    ///
    /// # Errors
    /// Only want of memory.
    fn take(&mut self, fault: Fault) -> Result<(), AllocError>
        ensures { OnOk result (takes self.old (fault ∷ []) self.new) };

    /// Takes a fault of the outputs, whose names are lent.
    ///
    /// # Errors
    /// Only want of memory.
    fn take_output(&mut self, alloc: Global, fault: &LentOutput<'_>) -> Result<(), AllocError>
        ensures { OnOk result (takes self.old (Lineage fault.now ∷ []) self.new) };

    /// Takes the faults that a share took, or where it wants each of them by itself, leaves them; whether it took them.
    ///
    /// # Errors
    /// Only want of memory.
    fn join(&mut self, share: Self) -> Result<bool, AllocError>
        ensures taken { IfOk result (λ taken. taken ≡ true → (begun : Self) (list : List AFault) → is_share begun → takes begun list share → takes self.old list self.new) }
        ensures left { IfOk result (λ taken. taken ≡ false → self.new ≡ self.old) };

    ghost takes_none: { (s : Self) → takes s [] s };

    ghost takes_both: { (a b c : Self) (xs ys : List AFault) → takes a xs b → takes b ys c → takes a (xs ++ ys) c };
}

impl FaultSink for Vec<Fault> {
    ghost use Rattle.std.specs.Prelude.{◌≡◌, ◌++◌, []};
    ghost use Rattle.std.proofs.Common.{◌∙◌, append_assoc, sym, ap};
    ghost use Rattle.std.proofs.lemmas.List.{append-nil};

    ghost takes = { λ old list new. new.items ≡ old.items ++ list };

    ghost is_share = { λ share. share.items ≡ [] };

    fn share(alloc: Global) -> Vec<Fault> {
        Vec::new(alloc)
    }

    fn take(&mut self, fault: Fault) -> Result<(), AllocError> {
        self.push(fault)?;
        Ok(())
    }

    fn take_output(&mut self, alloc: Global, fault: &LentOutput<'_>) -> Result<(), AllocError> {
        let fault = fault.own(alloc)?;
        self.push(Fault::Lineage(fault))?;
        Ok(())
    }

    fn join(&mut self, share: Vec<Fault>) -> Result<bool, AllocError> {
        let mut faults = share;
        self.append(&mut faults)?;
        Ok(true)
    }

    ghost takes_none = { λ s. sym (append-nil s.items) };

    ghost takes_both = { λ a b c xs ys first second. second ∙ (ap (λ zs. zs ++ ys) first ∙ append_assoc a.items xs ys) };
}
