//! What the definitions of this crate say together. These functions do nothing; their contracts are theorems.

ghost use Rattle.std.specs.Prelude.{◌≡◌, ◌<◌, ◌↔◌, ℕ, List, Option, Some, None};
ghost use Rattle.eos_base.specs.Least.{UpTo, NoneStands, IsLeast};
ghost use Rattle.eos_txnlog.specs.declared.decision.Decision.{Decision};
ghost use Rattle.eos_fold.specs.Parts.{PartLog};
ghost use Rattle.eos_verdict.specs.declared.log_fault.LogFault.{LogFault};
ghost use Rattle.eos_verdict.specs.declared.match_fault.MatchFault.{MatchFault};
ghost use Rattle.eos_table.specs.TransactionLog.{IsTransactionLog, AreInOrder};
ghost use Rattle.eos_table.specs.LogFaults.{log_cmp, Stands as StandsInLog};
ghost use Rattle.eos_table.specs.Atomic.{Atomic};
ghost use Rattle.eos_table.specs.MatchFaults.{fault_cmp, Stands};
ghost use Rattle.eos_table.specs.Shards.{AreAnswers};

/// The transaction log keeps its rule exactly where none of its faults stands. Its partitions stand by their numbers, and
/// the offsets of each rise.
pub fn transaction_log()
    ensures { (log : List PartLog) → AreInOrder log → IsTransactionLog log ↔ NoneStands (StandsInLog log) }
{}

/// Two least faults of the transaction log are one.
pub fn least_in_log_is_unique()
    ensures { (log : List PartLog) (f g : LogFault) →
        IsLeast log_cmp (StandsInLog log) f → IsLeast log_cmp (StandsInLog log) g → f ≡ g }
{}

/// The transactions are atomic exactly where no fault between decisions and logs stands.
pub fn atomic()
    ensures { (ds : List Decision) (ps : List PartLog) → Atomic ds ps ↔ NoneStands (Stands ds ps) }
{}

/// Two least faults are one.
pub fn least_is_unique()
    ensures { (ds : List Decision) (ps : List PartLog) (f g : MatchFault) →
        IsLeast fault_cmp (Stands ds ps) f → IsLeast fault_cmp (Stands ds ps) g → f ≡ g }
{}

/// The least of the shards' answers is the least of all.
pub fn least_of_shards()
    ensures { (ds : List Decision) (ps : List PartLog) (n : ℕ) (a : ℕ → Option MatchFault) (s : ℕ) (f : MatchFault) →
        0 < n → AreAnswers ds ps n a → s < n → a s ≡ Some f →
        ((t : ℕ) (g : MatchFault) → t < n → a t ≡ Some g → UpTo fault_cmp f g) → IsLeast fault_cmp (Stands ds ps) f }
{}

/// Where no shard has a fault, none stands.
pub fn none_in_shards()
    ensures { (ds : List Decision) (ps : List PartLog) (n : ℕ) (a : ℕ → Option MatchFault) →
        0 < n → AreAnswers ds ps n a → ((t : ℕ) → t < n → a t ≡ None) → NoneStands (Stands ds ps) }
{}
