//! Scripts that many threads give to one shared cluster at once.

ghost use Rattle.std.specs.Prelude.{◌≡◌, true, vec_len, IfOk};
ghost use Rattle.eos_drive.specs.Replay.{IsReplay};

use crate::{Finished, Pass, Script, Shared};
use bytes::Bytes;
use eos_batch::Kind;
use eos_machine::{Claim, Event};
use std::alloc::{AllocError, Global};
use std::sync::Wait;
use std::sync::ledger::Ledger;
use std::thread;
use std::thread::Threads;

/// A caller: its pass, and the words that say what it asks.
#[derive(Drop)]
struct Caller<L: Ledger> {
    pass: Pass<L>,
    script: Script,
}

/// The only output of an input of `in`, with this number for its offset.
fn claim_of(partition: i32, offset: i64) -> Claim {
    Claim {
        topic: Bytes::from_static(b"in"),
        partition,
        offset,
        output: 1,
        of: 1,
    }
}

/// What a word asks for: its remainder by 11 is the place of the event in `Event`, of which those behind
/// `Deliver` are never asked for, and what is left says of whom. Of the cluster nothing is known, so that some events name nothing and some come too late.
fn event_of(word: u32) -> Event {
    let rest = word / 11;
    let two = (rest % 2) as usize;
    let session = (rest / 2 % 64) as usize;
    let offset = i64::from(rest / 128 % 64);
    match word % 11 {
        0 => Event::Feed { source: two },
        1 => Event::Start { application: two },
        2 => Event::Produce {
            session,
            partition: two,
            claim: Some(claim_of((rest % 2) as i32, offset)),
        },
        3 => Event::Commit {
            session,
            source: two,
            offset: Some(offset),
        },
        4 => Event::End {
            session,
            kind: if two == 0 { Kind::Commit } else { Kind::Abort },
        },
        5 => Event::Resume { session },
        6 => Event::Fetch {
            session,
            source: two,
        },
        7 => Event::Members { group: two },
        8 => Event::BrokerRestart {
            topic: Bytes::from_static(b"out"),
            partition: two,
        },
        9 => Event::CoordinatorRestart,
        _ => Event::Deliver {
            message: u64::from(rest % 1024),
        },
    }
}

/// A script for each pass.
fn paired<L: Ledger>(
    alloc: Global,
    mut passes: Vec<Pass<L>>,
    mut scripts: Vec<Script>,
) -> Result<Vec<Caller<L>>, AllocError>
    requires { vec_len scripts ≡ vec_len passes }
    ensures { IfOk result (λ v. vec_len v ≡ vec_len passes) }
{
    let mut all = Vec::new(alloc);
    while let Some(pass) = passes.pop() {
        let Some(script) = scripts.pop() else {
            unreachable!()
        };
        all.push(Caller { pass, script })?;
    }
    Ok(all)
}

/// Asks for all that the caller's script says, and gives its pass back.
fn call_all<L: Ledger>(rt: &impl Wait, shared: &Shared<L>, caller: Caller<L>) -> Pass<L> {
    let Caller { mut pass, script } = caller;
    for word in script.words() {
        shared.call(rt, &mut pass, event_of(*word));
    }
    pass
}

/// Lets each pass call the cluster by a script of its own, all at once, and ends the sharing. A script whose thread can't be
/// started is run by the caller's own thread. What each word asks for is known from the word alone.
///
/// # Errors
/// A growth was refused outside the cluster. What its events were is lost then.
pub fn run_threads<L: Ledger + Send + Sync, R: Threads + Wait + Sync>(
    rt: &R,
    alloc: Global,
    shared: Shared<L>,
    passes: Vec<Pass<L>>,
    scripts: Vec<Script>,
) -> Result<Finished, AllocError>
    requires passes { vec_len passes ≡ L.parts }
    requires scripts { vec_len scripts ≡ vec_len passes }
    ensures honest { IfOk result (λ f. f.cluster.honest ≡ true) }
    ensures replay { IfOk result (λ f. IsReplay f.cluster.config f.cluster.world f.entries) }
{
    let callers = paired(alloc, passes, scripts)?;
    let passes = thread::map_vec(
        rt,
        callers,
        &|caller: Caller<L>| -> Pass<L> { call_all(rt, &shared, caller) },
    )?;
    Ok(shared.finish(passes))
}
