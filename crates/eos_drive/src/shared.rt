//! Many threads drive one cluster: the cluster lies under a lock, beside the history of all that it was asked and answered.
//! Each caller has a pass, which keeps what it was told; in the end the passes are held against the history.

ghost use Rattle.std.specs.Prelude.{◌≡◌, ◌↔◌, ◌+◌, ◌≤◌, ◌∷◌, ◌++◌, [], true, length, slice_get, vec_len, vec_capacity, IfOk};
ghost use Rattle.std.specs.List.{sum_by};
ghost use Rattle.std.specs.Result.{OnOk};
ghost use Rattle.eos_cluster.specs.Courses.{IsStep, IsCounted};
ghost use Rattle.eos_drive.specs.Replay.{IsReplay, noted, told, new_passes, call_at, calls_of, Agree};
ghost use Rattle.eos_drive.specs.steps.Replay.{recorded};

use crate::finished::{Call, Called, Entry, Finished};
use crate::history::{copy, is_taken};
use eos_base::Listed;
use eos_cluster::Cluster;
use eos_machine::{Event, Reply};
use std::alloc::{AllocError, Global};
use std::marker::Model;
use std::sync::ledger::{Blank, Book, Ledger, Share};
use std::sync::{Mutex, Wait};

/// A caller's pass: its number, and its calls that are stored in the history. The ledger counts them.
#[derive(Drop)]
pub struct Pass<L: Ledger> {
    number: u64,
    calls: Vec<Call>,
    share: Share<L>,
}

impl<L: Ledger> Model for Pass<L> {
    ghost use Rattle.std.specs.Prelude.{◌≡◌, vec_len};
    ghost use Rattle.eos_drive.specs.Replay.{PassView};

    ghost Value = { PassView };

    ghost view = { λ p. record { number = p.number; calls = p.calls.items } };

    ghost invariant = { λ p. (p.share.parts ≡ 1) × (p.share.amount ≡ vec_len p.calls) };
}

impl<L: Ledger> Pass<L> {
    /// Its number, which its entries in the history have.
    pub fn number(&self) -> u64
        ensures { result ≡ self.now.number }
    {
        self.number
    }

    /// Its calls that are stored, in the order in which they were made.
    pub fn calls(&self) -> &[Call]
        ensures { result.now ≡ self.now.calls }
    {
        self.calls.as_slice()
    }

    /// How many of its calls are stored.
    pub fn count(&self) -> u64
        ensures { result ≡ length self.now.calls }
    {
        self.calls.len() as u64
    }
}

/// What lies under the lock: a cluster, and the events by which it came to be what it is, with their replies.
#[derive(Drop)]
struct History<L: Ledger> {
    cluster: Cluster,
    entries: Vec<Entry>,
    book: Book<L>,
    // what is left of the ledger when each pass has its part: nothing, to which the passes' parts are added in the end
    rest: Share<L>,
}

impl<L: Ledger> Model for History<L> {
    ghost use Rattle.std.specs.Prelude.{◌≡◌, true, length};
    ghost use Rattle.eos_drive.specs.Replay.{IsReplay};
    ghost use Rattle.eos_drive.specs.steps.Replay.{HistoryView};

    ghost Value = { HistoryView };

    ghost view = { λ h. record { course = h.cluster; entries = h.entries.items } };

    ghost invariant = { λ h. (h.cluster.honest ≡ true)
        × IsReplay h.cluster.config h.cluster.world h.entries.items
        × (h.book.total ≡ length h.entries.items) × (h.rest.parts ≡ 0) × (h.rest.amount ≡ 0) };
}

/// Makes room for an entry and for a call, and two copies of the event.
fn prepare(
    entries: &mut Vec<Entry>,
    calls: &mut Vec<Call>,
    event: &Event,
) -> Result<(Event, Event), AllocError>
    ensures entries { entries.new.items ≡ entries.old.items }
    ensures calls { calls.new.items ≡ calls.old.items }
    ensures room { OnOk result ((vec_len entries.new + 1 ≤ vec_capacity entries.new) × (vec_len calls.new + 1 ≤ vec_capacity calls.new)) }
    ensures copies { IfOk result (λ r. (r.0 ≡ event.now) × (r.1 ≡ event.now)) }
{
    entries.reserve(1)?;
    calls.reserve(1)?;
    Ok((copy(event)?, copy(event)?))
}

/// Puts an entry and the caller's call at the ends of their lists, which have room for them.
fn store(entries: &mut Vec<Entry>, entry: Entry, calls: &mut Vec<Call>, call: Call)
    requires room { (vec_len entries.old + 1 ≤ vec_capacity entries.old) × (vec_len calls.old + 1 ≤ vec_capacity calls.old) }
    ensures entries { entries.new.items ≡ entries.old.items ++ entry ∷ [] }
    ensures calls { calls.new.items ≡ calls.old.items ++ call ∷ [] }
{
    let Ok(()) = entries.push(entry) else {
        unreachable!()
    };
    let Ok(()) = calls.push(call) else {
        unreachable!()
    };
}

/// Gives an event to the cluster, and stores it with its reply among the entries and among the caller's calls. Room for both
/// is made before the step; where that is refused, there is none.
fn answer(
    cluster: &mut Cluster,
    entries: &mut Vec<Entry>,
    pass: u64,
    calls: &mut Vec<Call>,
    event: Event,
) -> Called
    requires { cluster.old.honest ≡ true }
    ensures place { result.place ≡ length entries.old.items }
    ensures step { IsStep cluster.old event result.reply cluster.new }
    ensures counted { IsCounted cluster.old result.reply cluster.new }
    ensures honest { cluster.new.honest ≡ true }
    ensures entries { entries.new.items ≡ recorded entries.old.items pass event result.reply }
    ensures calls { calls.new.items ≡ noted calls.old.items event result }
{
    let place = entries.len() as u64;
    let Ok((first, second)) = prepare(entries, calls, &event) else {
        return Called {
            place,
            reply: Reply::OutOfMemory,
        };
    };
    let reply = cluster.step(event);
    if is_taken(reply) {
        let entry = Entry {
            pass,
            event: first,
            reply,
        };
        let call = Call {
            place,
            event: second,
            reply,
        };
        store(entries, entry, calls, call);
    }
    Called { place, reply }
}

/// Whether a call is this entry at this place, part by part.
#[tactic(auto, using(crate::proofs::Equal::events_decide))]
fn has_fields(entry: &Entry, place: u64, call: &Call) -> bool
    ensures { result ≡ true ↔ ((call.now.place ≡ place) × (call.now.reply ≡ entry.now.reply) × (call.now.event ≡ entry.now.event)) }
{
    call.place == place && call.reply == entry.reply && call.event == entry.event
}

/// Whether a caller's call is this entry at this place.
fn is_call(entry: &Entry, place: u64, call: &Call) -> bool
    ensures { result ≡ true ↔ (call.now ≡ call_at place entry.now) }
{
    has_fields(entry, place, call)
}

/// Whether the caller's next call is this entry at this place.
fn is_next(entry: &Entry, place: u64, calls: &[Call], next: usize) -> bool
    ensures { result ≡ true ↔ (slice_get calls.now next ≡ Some (call_at place entry.now)) }
{
    match calls.get(next) {
        Some(call) => is_call(entry, place, call),
        None => false,
    }
}

/// Whether these calls are the entries of this number, in order, at the places that the calls name.
fn agrees(entries: &[Entry], number: u64, calls: &[Call]) -> bool
    ensures { result ≡ true ↔ (calls.now ≡ calls_of number entries.now) }
{
    let mut next = 0;
    for place in 0..entries.len() {
        let entry = &entries[place];
        if entry.pass == number {
            if !is_next(entry, place as u64, calls, next) {
                return false;
            }
            next += 1;
        }
    }
    next == calls.len()
}

/// Whether the calls of each pass are the entries of its number.
fn all_agree<L: Ledger>(entries: &[Entry], passes: &[Pass<L>]) -> bool
    ensures { result ≡ true ↔ Agree entries.now passes.now }
{
    for pass in passes {
        if !agrees(entries, pass.number(), pass.calls()) {
            return false;
        }
    }
    true
}

/// With every part of the ledger: the calls of all passes are as many as were counted.
fn count_all<L: Ledger>(book: &mut Book<L>, rest: Share<L>, passes: Vec<Pass<L>>)
    requires rest { (rest.parts ≡ 0) × (rest.amount ≡ 0) }
    requires all { vec_len passes ≡ L.parts }
    ensures { sum_by (λ p. length p.calls) passes.items ≡ book.old.total }
{
    let mut all = rest;
    for pass in passes {
        let Pass {
            number: _,
            calls: _,
            share,
        } = pass;
        all.merge(share);
    }
    book.audit(&mut all);
}

/// A pass for each caller, out of all parts of the ledger.
fn make_passes<L: Ledger>(
    alloc: Global,
    whole: &mut Share<L>,
    callers: u64,
) -> Result<Vec<Pass<L>>, AllocError>
    requires { (whole.old.parts ≡ callers) × (whole.old.amount ≡ 0) }
    ensures passes { IfOk result (λ v. v.items ≡ new_passes callers) }
    ensures number { IfOk result (λ v. vec_len v ≡ callers) }
    ensures rest { OnOk result ((whole.new.parts ≡ 0) × (whole.new.amount ≡ 0)) }
{
    let mut passes = Vec::new(alloc);
    for number in 0..callers {
        let share = whole.split_off(1, 0);
        passes.push(Pass {
            number,
            calls: Vec::new(alloc),
            share,
        })?;
    }
    Ok(passes)
}

impl<L: Ledger> History<L> {
    /// Takes an event by a pass: what is answered is the machine's, and stands in the history and among the pass's calls.
    fn call(&mut self, pass: &mut Pass<L>, event: Event) -> Called
        ensures place { result.place ≡ length self.old.entries }
        ensures step { IsStep self.old.course event result.reply self.new.course }
        ensures entries { self.new.entries ≡ recorded self.old.entries pass.old.number event result.reply }
        ensures pass { pass.new ≡ told pass.old event result }
    {
        let called = answer(
            &mut self.cluster,
            &mut self.entries,
            pass.number,
            &mut pass.calls,
            event,
        );
        if is_taken(called.reply) {
            self.book.add(&mut pass.share, 1);
        }
        called
    }

    /// Ends it: holds the passes against the entries.
    fn finish(self, passes: Vec<Pass<L>>) -> Finished
        requires { vec_len passes ≡ L.parts }
        ensures same { (result.cluster ≡ self.course) × (result.entries ≡ self.entries) }
        ensures honest { result.cluster.honest ≡ true }
        ensures replay { IsReplay result.cluster.config result.cluster.world result.entries }
        ensures counted { sum_by (λ p. length p.calls) passes.items ≡ length result.entries }
        ensures agree { result.agree ≡ true ↔ Agree result.entries passes.items }
    {
        let History {
            cluster,
            entries,
            mut book,
            rest,
        } = self;
        let agree = all_agree(entries.as_slice(), passes.as_slice());
        count_all(&mut book, rest, passes);
        Finished {
            cluster,
            entries: Listed::new(entries),
            agree,
        }
    }
}

/// A cluster that many threads may call, each with a pass of its own.
#[derive(Drop)]
pub struct Shared<L: Ledger> {
    history: Mutex<History<L>>,
}

impl<L: Ledger> Shared<L> {
    /// Shares a new, honest cluster among so many callers, whose passes are numbered from 0.
    ///
    /// # Errors
    /// A growth was refused.
    pub fn new(
        alloc: Global,
        blank: Blank,
        cluster: Cluster,
        callers: u64,
    ) -> Result<(Shared<L>, Vec<Pass<L>>), AllocError>
        requires ledger { (blank.name ≡ L.name) × (blank.parts ≡ L.parts) × (L.parts ≡ callers) }
        requires callers { (1 ≤ callers) × (callers ≤ 64) }
        requires honest { cluster.honest ≡ true }
        requires events { cluster.world.events ≡ 0 }
        ensures passes { IfOk result (λ r. r.1.items ≡ new_passes callers) }
        ensures number { IfOk result (λ r. vec_len r.1 ≡ callers) }
    {
        // it has taken no event, so that it is as it was made
        cluster.events();
        let (book, mut rest) = blank.open::<L>();
        let passes = make_passes(alloc, &mut rest, callers)?;
        let history = History {
            cluster,
            entries: Vec::new(alloc),
            book,
            rest,
        };
        let shared = Shared {
            history: Mutex::new(history),
        };
        Ok((shared, passes))
    }

    /// Gives an event to the cluster, when it is this caller's turn. The reply is that of the machine at that place of the
    /// history, and is stored there and among the pass's calls; after `OutOfMemory` and `Full` nothing is stored.
    pub fn call(&self, rt: &impl Wait, pass: &mut Pass<L>, event: Event) -> Called
        ensures { pass.new ≡ told pass.old event result }
    {
        self.history.lock(rt).call(pass, event)
    }

    /// Ends the sharing, with every pass that was made for it: the cluster, its history, which replays to it and has as many
    /// entries as the passes have calls, and whether the passes' calls are what stands there. It takes no memory.
    pub fn finish(self, passes: Vec<Pass<L>>) -> Finished
        requires { vec_len passes ≡ L.parts }
        ensures honest { result.cluster.honest ≡ true }
        ensures replay { IsReplay result.cluster.config result.cluster.world result.entries }
        ensures counted { sum_by (λ p. length p.calls) passes.items ≡ length result.entries }
        ensures agree { result.agree ≡ true ↔ Agree result.entries passes.items }
    {
        self.history.into_inner().finish(passes)
    }
}
