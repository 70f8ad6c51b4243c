//! The theorem on every schedule, over the definitions of the machine alone: what any list of events leaves in the logs,
//! in any order, with any message lost or repeated, any member restarted and any leader elected. What is said of faults is said
//! where no election has lost a record: what an unclean one loses can't be told from what was never written, and faults follow.
//! Its functions do nothing; their contracts are the laws.

ghost use Rattle.std.specs.Prelude.{◌≡◌, ◌≢◌, ◌+◌, ◌<◌, ℕ, List, ◌≤◌, ◌^◌};
ghost use Rattle.eos_machine.specs.Bounds.{Bounded};
ghost use Rattle.eos_machine.specs.LogIndexes.{Config, IsConfig, group_count};
ghost use Rattle.eos_machine.specs.World.{Event, World, generation_at, opening};
ghost use Rattle.eos_machine.specs.declared.switches.Switches.{Switches};
ghost use Rattle.eos_machine.specs.Switching.{none};
ghost use Rattle.eos_machine.specs.Formed.{IsFormed};
ghost use Rattle.eos_machine.specs.Machine.{change_members, world_after, world_under};
ghost use Rattle.eos_machine.specs.Elections.{LosesNothing};
ghost use Rattle.eos_machine.specs.Rest.{KeepsSequences, NeighboursFit, StepsFit, IsAtRest, AllAtomic};
ghost use Rattle.eos_machine.specs.ShortSchedules.{Commits, Restarts, Fences, TimesOut, Adds, Completes, Fetches, Omits, Lists, Chains, Rebalances, Elects};
ghost use Rattle.eos_machine.specs.SwitchedSchedules.{Breaks, all_under};

/// At any time no fault of a sequence or of an epoch stands at any batch: none of the kinds FirstSequence, Sequence,
/// ZombieEpoch and NoBump. Each broker keeps this by its own partition's log.
pub fn sequences_kept()
    ensures { (c : Config) (es : List Event) → IsConfig c → LosesNothing (world_after c (opening c) es) → KeepsSequences c (world_after c (opening c) es) }
{}

/// At any time each record of the transaction log may follow the one before it of its transactional id.
pub fn steps_fit()
    ensures { (c : Config) (es : List Event) → IsConfig c → LosesNothing (world_after c (opening c) es) → StepsFit c (world_after c (opening c) es) }
{}

/// At any time epochs are at most 32767, those of data at most 32766, and sequences below the number of events taken,
/// which is at most 2^31: all fit the fields of the logs.
pub fn numbers_fit()
    ensures { (c : Config) (es : List Event) → Bounded (world_after c (opening c) es).events (world_after c (opening c) es) × ((world_after c (opening c) es).events ≤ 2 ^ 31) }
{}

/// Whatever switches are on, and whenever, numbers fit as far, and what messages and sessions name is there: no event of a
/// cluster that breaks rules is refused for its numbers.
pub fn fits_under_switches()
    ensures numbers { (c : Config) (xs : List (Switches × Event)) → Bounded (world_under c (opening c) xs).events (world_under c (opening c) xs) }
    ensures names { (c : Config) (xs : List (Switches × Event)) → IsFormed c (world_under c (opening c) xs) }
{}

/// With no switch on events lead where they lead in a cluster without switches.
pub fn no_switch()
    ensures { (c : Config) (es : List Event) → world_under c (opening c) (all_under none es) ≡ world_after c (opening c) es }
{}

/// At rest the batches, the markers and the decisions of each application fit together: each batch is ended by the
/// marker of its decision, each marker was decided, and each listed partition has it.
pub fn atomic_at_rest()
    ensures { (c : Config) (es : List Event) → IsConfig c → LosesNothing (world_after c (opening c) es) → IsAtRest (world_after c (opening c) es) → AllAtomic c (world_after c (opening c) es) }
{}

/// At rest each batch may follow the one before it of its producer id in its partition: no kind of fault stands.
pub fn neighbours_fit_at_rest()
    ensures { (c : Config) (es : List Event) → IsConfig c → LosesNothing (world_after c (opening c) es) → IsAtRest (world_after c (opening c) es) → NeighboursFit c (world_after c (opening c) es) }
{}

/// When the members of a group change, at any time, its generation rises by one, and each other group keeps its own.
pub fn one_group_changes()
    ensures raised { (c : Config) (xs : List (Switches × Event)) (g : ℕ) → g < group_count c
        → generation_at (change_members c (world_under c (opening c) xs) g).0 g ≡ generation_at (world_under c (opening c) xs) g + 1 }
    ensures others { (c : Config) (w : World) (g h : ℕ) → h ≢ g → generation_at (change_members c w g).0 h ≡ generation_at w h }
{}

/// The machine moves: short schedules with their replies and logs, computed from the definitions.
pub fn schedules()
    ensures commits { Commits }
    ensures restarts { Restarts }
    ensures fences { Fences }
    ensures times_out { TimesOut }
    ensures adds { Adds }
    ensures completes { Completes }
    ensures fetches { Fetches }
    ensures omits { Omits }
    ensures lists { Lists }
    ensures chains { Chains }
    ensures rebalances { Rebalances }
    ensures elects { Elects }
{}

/// Each switch breaks its rule: a short schedule for each, with its replies and logs, computed from the definitions.
pub fn switched_schedules()
    ensures { Breaks }
{}
