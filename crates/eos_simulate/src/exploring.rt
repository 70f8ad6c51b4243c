//! All schedules of at most so many words, on a tiny cluster: each is run, comes to rest, and what it leaves is judged.

ghost use Rattle.std.specs.Prelude.{◌≡◌, ◌+◌, ℕ, List, ◌∷◌, ◌++◌, [], length, IfOk, IfErr, OnOk};
ghost use Rattle.eos_simulate.specs.Every.{tiny, schedules, schedules_below, AreRun, IsExplored, IsJudged, IsRightly};
ghost use Rattle.eos_simulate.specs.Histories.{IsLeftBy};
ghost use Rattle.eos_simulate.specs.steps.Walking.{behind};

use crate::course::Course;
use crate::kept::cluster_of_script;
use crate::making::{SimulationFault, evidence_of};
use eos_check::{Fault, Verdict, check_one};
use eos_drive::{History, Script};
use eos_evidence::Evidence;
use eos_history_lines::Head;
use eos_words::Every;
use std::alloc::Global;
use std::thread::Threads;

/// One word for each row of the manual's table of what a word says, in its order. An application takes one input a transaction; of the
/// messages that have arrived the last comes again, of abandoned sessions the oldest goes on; the broker is that of the offsets.
const ALPHABET: [u32; 11] = [0, 3075, 3, 19, 27, 28, 30, 31, 95, 127, 191];

/// What was run so far, to a yes.
#[derive(Clone, Copy)]
pub struct Explored {
    /// How many schedules.
    pub schedules: u64,
    /// How many lines their histories have, each of which leads to a state of the cluster.
    pub states: u64,
}

/// A run of which the check says no.
#[derive(Drop)]
pub struct Accused {
    /// The first line of its history.
    pub head: Head,
    pub history: History,
    pub fault: Fault,
}

/// Why not all schedules were run to a yes.
#[derive(Drop)]
pub enum Unexplored {
    /// One was run to a no.
    Accused(Accused),
    /// One leaves no evidence.
    Unmade(SimulationFault),
}

/// Where a walk through the schedules is, and what was run so far.
#[derive(Drop)]
struct Walk {
    words: Vec<u32>,
    explored: Explored,
}

/// Runs each schedule of at most so many words on a tiny cluster, whose rules are broken, if any are, from the first word on; the shorter
/// ones first.
///
/// # Errors
/// The first run of which the check says no; or why a run leaves no evidence.
#[tactic(auto, using(crate::proofs::EachSchedule::run_tiny))]
pub fn explore<T: Threads + Sync>(
    alloc: Global,
    rt: &T,
    words: &Every<'_>,
) -> Result<Explored, Unexplored>
    ensures ok { IfOk result (IsExplored words.now.longest) }
    ensures err { IfErr result (IsRightly tiny) }
{
    let course = match Course::tiny(alloc, words.switches.as_slice()) {
        Ok(course) => course,
        Err(fault) => return Err(Unexplored::Unmade(fault)),
    };
    match explore_all(alloc, rt, &course, words.longest) {
        Ok(explored) => Ok(explored),
        Err(why) => Err(why),
    }
}

/// Runs each schedule of at most so many words.
#[tactic(auto, using(crate::proofs::EachSchedule::run_none, crate::proofs::EachSchedule::run_longer))]
fn explore_all<T: Threads + Sync>(
    alloc: Global,
    rt: &T,
    course: &Course,
    longest: u64,
) -> Result<Explored, Unexplored>
    ensures ok { IfOk result (AreRun course.now.config (schedules_below (longest + 1)) (record { schedules = 0; states = 0 })) }
    ensures err { IfErr result (IsRightly course.now.config) }
{
    let mut walk = Walk {
        words: Vec::new(alloc),
        explored: Explored {
            schedules: 0,
            states: 0,
        },
    };
    for length in 0..longest {
        if let Err(why) = explore_behind(alloc, rt, course, &mut walk, length) {
            return Err(why);
        }
    }
    match explore_behind(alloc, rt, course, &mut walk, longest) {
        Ok(()) => Ok(walk.explored),
        Err(why) => Err(why),
    }
}

/// Runs what the walk has come to with each schedule of so many words behind it.
#[tactic(auto, using(crate::proofs::EachSchedule::run_all, crate::proofs::EachSchedule::run_last, crate::proofs::EachSchedule::run_none))]
fn explore_behind<T: Threads + Sync>(
    alloc: Global,
    rt: &T,
    course: &Course,
    walk: &mut Walk,
    left: u64,
) -> Result<(), Unexplored>
    ensures words { OnOk result (walk.new.words.items ≡ walk.old.words.items) }
    ensures run { OnOk result (AreRun course.now.config (behind walk.old.words.items (schedules left)) walk.old.explored walk.new.explored) }
    ensures err { IfErr result (IsRightly course.now.config) }
{
    if left == 0 {
        return explore_here(alloc, rt, course, walk);
    }
    for word in ALPHABET {
        if let Err(fault) = lengthen(&mut walk.words, word) {
            return Err(Unexplored::Unmade(fault));
        }
        if let Err(why) = explore_behind(alloc, rt, course, walk, left - 1) {
            return Err(why);
        }
        shorten(&mut walk.words);
    }
    Ok(())
}

/// A word more.
fn lengthen(words: &mut Vec<u32>, word: u32) -> Result<(), SimulationFault>
    ensures { OnOk result (words.new.items ≡ words.old.items ++ word ∷ []) }
{
    match words.push(word) {
        Ok(()) => Ok(()),
        Err(_) => Err(SimulationFault::OutOfMemory),
    }
}

/// A word less.
fn shorten(words: &mut Vec<u32>)
    ensures { (front : List ℕ) (word : ℕ) → words.old.items ≡ front ++ word ∷ [] → words.new.items ≡ front }
{
    words.pop();
}

/// Runs what the walk has come to.
#[tactic(auto, using(crate::proofs::EachSchedule::run_single))]
#[inline(never)]
fn explore_here<T: Threads + Sync>(
    alloc: Global,
    rt: &T,
    course: &Course,
    walk: &mut Walk,
) -> Result<(), Unexplored>
    ensures words { walk.new.words.items ≡ walk.old.words.items }
    ensures run { OnOk result (AreRun course.now.config (walk.old.words.items ∷ []) walk.old.explored walk.new.explored) }
    ensures err { IfErr result (IsRightly course.now.config) }
{
    let mut history = History::new(alloc);
    let verdict = match judged(alloc, rt, course, walk.words.as_slice(), &mut history) {
        Ok(verdict) => verdict,
        Err(fault) => return Err(Unexplored::Unmade(fault)),
    };
    match verdict {
        Verdict::Yes(_) => {
            drop(verdict);
            match count(&mut walk.explored, &history) {
                Ok(()) => Ok(()),
                Err(fault) => Err(Unexplored::Unmade(fault)),
            }
        }
        Verdict::No(fault) => Err(Unexplored::Accused(Accused {
            head: Head {
                words: walk.words.len() as u64,
                ..course.head()
            },
            history,
            fault,
        })),
    }
}

/// What the schedule of these words leaves.
fn evidence_by(
    alloc: Global,
    course: &Course,
    words: &[u32],
    history: &mut History,
) -> Result<Evidence, SimulationFault>
    ensures { history.old ≡ [] → IfOk result (IsLeftBy course.now.config history.new) }
{
    let script = Script::of_words(alloc, words)?;
    let cluster = cluster_of_script(alloc, course, &script, history)?;
    let evidence = evidence_of(&cluster, course.stops);
    drop(cluster);
    Ok(evidence?)
}

/// Runs the schedule of these words, and judges what it leaves.
fn judged<T: Threads + Sync>(
    alloc: Global,
    rt: &T,
    course: &Course,
    words: &[u32],
    history: &mut History,
) -> Result<Verdict, SimulationFault>
    ensures { history.old ≡ [] → IfOk result (IsJudged course.now.config history.new) }
{
    let evidence = evidence_by(alloc, course, words, history)?;
    let verdict = check_one(alloc, rt, &evidence);
    drop(evidence);
    Ok(verdict?)
}

/// Counts a run.
fn count(explored: &mut Explored, history: &History) -> Result<(), SimulationFault>
    ensures { OnOk result (explored.new ≡ record { schedules = explored.old.schedules + 1; states = explored.old.states + length history.now }) }
{
    let schedules = explored.schedules.checked_add(1);
    let states = explored.states.checked_add(history.deeds().len() as u64);
    let (Some(schedules), Some(states)) = (schedules, states) else {
        return Err(SimulationFault::Limit);
    };
    *explored = Explored { schedules, states };
    Ok(())
}
