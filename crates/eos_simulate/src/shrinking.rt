//! The smallest schedule that is found to give a fault: lines are left out, in chunks of halving size, until no single one can go.

ghost use Rattle.std.specs.Prelude.{◌≡◌, ◌≤◌, ◌<◌, true, [], length, IfOk, IfSome, OnOk, List, string_bytes};
ghost use Rattle.eos_history_lines.specs.declared.line.Deed.{Deed as SaidDeed};
ghost use Rattle.eos_simulate.specs.Every.{IsJudged};
ghost use Rattle.eos_simulate.specs.Histories.{acts_of, acts_said};
ghost use Rattle.eos_simulate.specs.Parts.{IsPartOf, unnamed_deeds, unnamed_lines};
ghost use Rattle.eos_simulate.specs.Shrinking.{code_of, IsShrunk};
ghost use Rattle.eos_simulate.specs.steps.Judging.{IsFaultOf};
ghost use Rattle.eos_simulate.specs.declared.shrinking.ShrinkFault.TheVariants.{OutOfMemory};

use crate::cutting::{Span, cut};
use crate::making::SimulationFault;
use crate::replaying::{ReplayFault, replay};
use eos_check::{Fault, Verdict, check_one};
use eos_drive::History;
use eos_history_lines::{Head, Schedule};
use eos_text::push_value;
use std::alloc::{AllocError, Global};
use std::thread::Threads;

/// Why a schedule isn't shrunk.
#[derive(Drop)]
pub enum ShrinkFault {
    /// It leaves no evidence.
    Unreplayed(ReplayFault),
    /// Its evidence has this verdict.
    Otherwise(Verdict),
    /// A growth of memory was refused.
    OutOfMemory,
}

impl From<AllocError> for ShrinkFault {
    ghost from_gives = { λ _ e. e ≡ OutOfMemory };

    fn from(_e: AllocError) -> ShrinkFault {
        ShrinkFault::OutOfMemory
    }
}

/// A schedule that was made small.
#[derive(Drop)]
pub struct Shrunk {
    /// What it does.
    pub history: History,
    /// How many schedules were run for it.
    pub runs: u64,
}

/// What is looked for: in a cluster of this first line a fault of this code.
#[derive(Clone, Copy)]
struct Aim<'a> {
    head: Head,
    code: &'a str,
}

/// The smallest part of a schedule that is found whose first fault has the code that the whole one's has. No single line of it can be left
/// out, with those that name what it makes: lines are, in chunks of half of them, then of a quarter, and so on, from the last on, and at
/// the end one by one, for as long as one can be.
///
/// # Errors
/// Why the schedule leaves no evidence; its verdict, where that isn't a fault of this code; want of memory.
pub fn shrink<R: Threads + Sync>(
    alloc: Global,
    rt: &R,
    schedule: &Schedule,
    code: &str,
) -> Result<Shrunk, ShrinkFault>
    ensures { IfOk result (λ shrunk. IsShrunk schedule.now.head.config code.now (unnamed_lines schedule.now.lines) shrunk.history) }
{
    let mut shrunk = first(alloc, rt, schedule, code)?;
    let aim = Aim {
        head: schedule.head,
        code,
    };
    let mut size = shrunk.history.deeds().len() / 2;
    while size > 1 {
        leave_out(alloc, rt, &aim, &mut shrunk, size)?;
        size /= 2;
    }
    leave_each(alloc, rt, &aim, &mut shrunk)?;
    Ok(shrunk)
}

/// The schedule itself.
#[tactic(auto, using(crate::proofs::ShrunkParts::part_all))]
fn first<R: Threads + Sync>(
    alloc: Global,
    rt: &R,
    schedule: &Schedule,
    code: &str,
) -> Result<Shrunk, ShrinkFault>
    ensures { IfOk result (λ shrunk. IsShrunk schedule.now.head.config code.now (unnamed_lines schedule.now.lines) shrunk.history) }
{
    let mut history = History::new(alloc);
    match give_fault(alloc, rt, schedule, code, &mut history) {
        Ok(()) => Ok(Shrunk { history, runs: 1 }),
        Err(fault) => Err(fault),
    }
}

/// Leaves out each single line that isn't needed, until none is left.
fn leave_each<R: Threads + Sync>(
    alloc: Global,
    rt: &R,
    aim: &Aim<'_>,
    shrunk: &mut Shrunk,
) -> Result<(), ShrinkFault>
    ensures { (whole : List SaidDeed) → IsShrunk aim.now.head.config aim.now.code.now whole shrunk.old.history → OnOk result (IsShrunk aim.now.head.config aim.now.code.now whole shrunk.new.history) }
{
    let mut before = usize::MAX;
    while shrunk.history.deeds().len() < before {
        before = shrunk.history.deeds().len();
        leave_out(alloc, rt, aim, shrunk, 1)?;
    }
    Ok(())
}

/// Leaves out each chunk of so many lines, from the last on, that isn't needed.
fn leave_out<R: Threads + Sync>(
    alloc: Global,
    rt: &R,
    aim: &Aim<'_>,
    shrunk: &mut Shrunk,
    size: usize,
) -> Result<(), ShrinkFault>
    requires { 1 ≤ size }
    ensures { (whole : List SaidDeed) → IsShrunk aim.now.head.config aim.now.code.now whole shrunk.old.history → OnOk result (IsShrunk aim.now.head.config aim.now.code.now whole shrunk.new.history) }
{
    let mut to = shrunk.history.deeds().len();
    while to > 0 {
        let from = to.saturating_sub(size);
        try_without(alloc, rt, aim, shrunk, Span { from, to })?;
        to = from;
    }
    Ok(())
}

/// Leaves out a span, if it isn't needed.
#[tactic(auto, using(crate::proofs::ShrunkParts::shrunk_on))]
fn try_without<R: Threads + Sync>(
    alloc: Global,
    rt: &R,
    aim: &Aim<'_>,
    shrunk: &mut Shrunk,
    span: Span,
) -> Result<(), ShrinkFault>
    ensures { (whole : List SaidDeed) → IsShrunk aim.now.head.config aim.now.code.now whole shrunk.old.history → OnOk result (IsShrunk aim.now.head.config aim.now.code.now whole shrunk.new.history) }
{
    shrunk.runs = shrunk.runs.saturating_add(1);
    if let Some(smaller) = without(alloc, rt, aim, &shrunk.history, span)? {
        shrunk.history = smaller;
    }
    Ok(())
}

/// What is done of a history without a span, if that is less and gives the fault.
fn without<R: Threads + Sync>(
    alloc: Global,
    rt: &R,
    aim: &Aim<'_>,
    history: &History,
    span: Span,
) -> Result<Option<History>, ShrinkFault>
    ensures { IfOk result (λ found. IfSome found (IsShrunk aim.now.head.config aim.now.code.now (unnamed_deeds history.now))) }
{
    let lines = match cut(alloc, aim.head.config, history.deeds(), span) {
        Ok(lines) => lines,
        Err(SimulationFault::OutOfMemory) => return Err(ShrinkFault::OutOfMemory),
        Err(_) => return Ok(None),
    };
    if lines.len() >= history.deeds().len() {
        return Ok(None);
    }
    let schedule = Schedule {
        head: aim.head,
        lines,
        tail: None,
    };
    given(alloc, rt, &schedule, aim.code)
}

/// What a schedule does, if it gives the fault.
fn given<R: Threads + Sync>(
    alloc: Global,
    rt: &R,
    schedule: &Schedule,
    code: &str,
) -> Result<Option<History>, ShrinkFault>
    ensures { (whole : List SaidDeed) → IsPartOf (unnamed_lines schedule.now.lines) whole → IfOk result (λ found. IfSome found (IsShrunk schedule.now.head.config code.now whole)) }
{
    let mut history = History::new(alloc);
    match give_fault(alloc, rt, schedule, code, &mut history) {
        Ok(()) => Ok(Some(history)),
        Err(fault) => {
            let is_of_memory = is_of_memory(&fault);
            drop(fault);
            if is_of_memory {
                return Err(ShrinkFault::OutOfMemory);
            }
            Ok(None)
        }
    }
}

fn is_of_memory(fault: &ShrinkFault) -> bool {
    matches!(
        fault,
        ShrinkFault::OutOfMemory | ShrinkFault::Unreplayed(ReplayFault::OutOfMemory)
    )
}

/// Runs a schedule, which gives the fault.
///
/// # Errors
/// Why it leaves no evidence; its verdict, where that isn't a fault of this code; want of memory.
#[tactic(auto, using(crate::proofs::ShrunkParts::shrunk_by))]
fn give_fault<R: Threads + Sync>(
    alloc: Global,
    rt: &R,
    schedule: &Schedule,
    code: &str,
    history: &mut History,
) -> Result<(), ShrinkFault>
    ensures { (whole : List SaidDeed) → history.old ≡ [] → IsPartOf (unnamed_lines schedule.now.lines) whole → OnOk result (IsShrunk schedule.now.head.config code.now whole history.new) }
{
    let verdict = judged(alloc, rt, schedule, history)?;
    match is_fault(alloc, &verdict, code) {
        Ok(false) => Err(ShrinkFault::Otherwise(verdict)),
        Ok(true) => {
            drop(verdict);
            Ok(())
        }
        Err(_) => {
            drop(verdict);
            Err(ShrinkFault::OutOfMemory)
        }
    }
}

/// Runs a schedule, and judges what it leaves.
fn judged<R: Threads + Sync>(
    alloc: Global,
    rt: &R,
    schedule: &Schedule,
    history: &mut History,
) -> Result<Verdict, ShrinkFault>
    ensures judged { history.old ≡ [] → IfOk result (IsJudged schedule.now.head.config history.new) }
    ensures done { history.old ≡ [] → OnOk result (acts_of history.new ≡ acts_said schedule.now.lines) }
{
    match replay(alloc, schedule, history, false) {
        Ok(evidence) => {
            let verdict = check_one(alloc, rt, &evidence);
            drop(evidence);
            Ok(verdict?)
        }
        Err(fault) => Err(ShrinkFault::Unreplayed(fault)),
    }
}

/// Whether a verdict is no by a fault of this code.
fn is_fault(alloc: Global, verdict: &Verdict, code: &str) -> Result<bool, AllocError>
    ensures { IfOk result (λ yes. yes ≡ true → IsFaultOf code.now verdict.now) }
{
    match verdict {
        Verdict::Yes(_) => Ok(false),
        Verdict::No(fault) => has_code(alloc, fault, code),
    }
}

fn has_code(alloc: Global, fault: &Fault, code: &str) -> Result<bool, AllocError>
    ensures { IfOk result (λ yes. yes ≡ true → code_of fault.now ≡ code.now) }
{
    let own = code_text(alloc, fault)?;
    Ok(own.as_str() == code)
}

/// The code of a fault, such as `1.5`.
fn code_text(alloc: Global, fault: &Fault) -> Result<String, AllocError>
    ensures { IfOk result (λ text. string_bytes text ≡ code_of fault.now) }
{
    let mut text = String::new(alloc);
    push_value(&mut text, "", &fault.phase())?;
    push_value(&mut text, ".", &fault.number())?;
    Ok(text)
}
