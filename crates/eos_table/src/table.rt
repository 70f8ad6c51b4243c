//! The decisions of the transaction log, as the matching takes them.

ghost use Rattle.std.specs.Prelude.{◌≡◌, IfOk};

use crate::shared::SharedDecision;
use std::alloc::AllocError;
use std::marker::Model;

/// The decisions, which contracts see as their list.
#[derive(Drop)]
pub struct TxnTable {
    decisions: Vec<SharedDecision>,
}

impl Model for TxnTable {
    ghost use Rattle.std.specs.Prelude.{List};
    ghost use Rattle.eos_txnlog.specs.declared.decision.Decision.{Decision};

    ghost Value = { List Decision };

    ghost view = { λ t. t.decisions.items };
}

impl TxnTable {
    /// The table of these decisions, in any order, each kept as it is.
    ///
    /// # Errors
    /// Only want of memory.
    pub fn from_decisions(decisions: Vec<SharedDecision>) -> Result<TxnTable, AllocError>
        ensures { IfOk result (λ table. table ≡ decisions.items) }
    {
        Ok(TxnTable { decisions })
    }

    /// The decisions, as they were given.
    pub fn decisions(&self) -> &[SharedDecision]
        ensures { result.now ≡ self.now }
    {
        self.decisions.as_slice()
    }
}
