//! `simulate --count`: many folders, of seeds one after the other.

ghost use Rattle.std.specs.Prelude.{◌≡◌, IfOk};

use crate::course::{Course, UNCLEAN};
use crate::folder::{end_unleft, end_unmade};
use crate::leaving::{Unleft, Unsimulated, simulate_to};
use crate::making::SimulationFault;
use crate::mistake::mistakes_of;
use crate::recipe::index_line;
use crate::swarm::{Drawn, Rules, drawn_for};
use eos_disk::{DiskMut, HostDisk};
use eos_ending::{Ending, STANDARD, Subject, end, end_unchanged};
use eos_words::Simulation;
use std::alloc::{AllocError, Global};
use std::io;

/// Makes the folder, and in it one of each of so many seeds, with its labels beside it. A line on standard output tells each when it is
/// whole. Gives the exit status.
#[inline(never)]
pub(crate) fn simulate_folders(rt: &HostRuntime, words: &Simulation<'_>, count: u64) -> u8 {
    if let Err(fault) = Course::of_words(rt.alloc(), words) {
        return end_unmade(rt, Subject::Only, fault);
    }
    if let Err(fault) = mistakes_of(rt.alloc(), words.mistakes.as_slice()) {
        return end_unmade(rt, Subject::Only, fault);
    }
    let mut disk = HostDisk { rt };
    if let Err(fault) = disk.make_folder(rt.alloc(), words.folder) {
        return end_unchanged(rt, words.folder, fault);
    }
    for place in 0..count {
        let status = match simulate_next(rt, words, place) {
            Ok(status) => status,
            Err(_) => end(rt, Ending::OutOfMemory),
        };
        if status != 0 {
            return status;
        }
        if words.progress {
            let made = place + 1;
            let _ = eprint!(rt; "eoscheck: {made} of {count} seeds\n");
        }
    }
    0
}

/// Makes the folder at this place, and tells it. A seed that leaves no evidence is passed over.
fn simulate_next(rt: &HostRuntime, words: &Simulation<'_>, place: u64) -> Result<u8, AllocError> {
    let alloc = rt.alloc();
    let seed = words.seed.wrapping_add(place);
    let drawn = drawn_for(alloc, words, seed)?;
    let folder = next_folder(alloc, words.folder, place)?;
    let labels = format!(in alloc; "{folder}.labels")?;
    let mishap = match drawn.mishap {
        Some(chosen) => Some(chosen.text(alloc)?),
        None => None,
    };
    let own = Own {
        seed,
        drawn,
        mishap: match &mishap {
            Some(text) => Some(text.as_str()),
            None => None,
        },
        folder: folder.as_str(),
        labels: labels.as_str(),
    };
    leave_next(rt, &own_words(alloc, words, own)?)
}

/// What a folder has of its own.
#[derive(Clone, Copy)]
struct Own<'a> {
    seed: u64,
    drawn: Drawn,
    /// The word of the mishap that was drawn.
    mishap: Option<&'a str>,
    folder: &'a str,
    labels: &'a str,
}

/// The words of a single call for a folder.
fn own_words<'a>(
    alloc: Global,
    words: &'a Simulation<'a>,
    own: Own<'a>,
) -> Result<Simulation<'a>, AllocError>
    ensures seed { IfOk result (λ single. (single.seed ≡ own.entry.seed) × (single.events ≡ words.now.events)) }
    ensures sizes { IfOk result (λ single. (single.sizes ≡ own.entry.drawn.sizes) × (single.rates ≡ own.entry.drawn.rates)) }
    ensures links { IfOk result (λ single. single.links ≡ words.now.links) }
    ensures turning { IfOk result (λ single. (single.switch_at ≡ own.entry.drawn.switch_at) × (single.no_tail ≡ own.entry.drawn.no_tail)) }
{
    let mut switches = copies(alloc, words.switches.as_slice())?;
    push_rules(&mut switches, own.drawn.rules)?;
    let mut mishaps = copies(alloc, words.mishaps.as_slice())?;
    if let Some(mishap) = own.mishap {
        mishaps.push(mishap)?;
    }
    if own.drawn.unclean {
        mishaps.push(UNCLEAN)?;
    }
    Ok(Simulation {
        seed: own.seed,
        events: words.events,
        sizes: own.drawn.sizes,
        rates: own.drawn.rates,
        links: words.links,
        switches,
        switch_at: own.drawn.switch_at,
        no_tail: own.drawn.no_tail,
        mishaps,
        stop_anywhere: words.stop_anywhere,
        mistakes: copies(alloc, words.mistakes.as_slice())?,
        history: None,
        labels: Some(own.labels),
        schedule: None,
        count: None,
        swarm: false,
        progress: false,
        folder: own.folder,
    })
}

fn push_rules(switches: &mut Vec<&str>, rules: Rules) -> Result<(), AllocError> {
    if let Some(rule) = rules.first {
        switches.push(rule.name())?;
    }
    if let Some(rule) = rules.second {
        switches.push(rule.name())?;
    }
    Ok(())
}

fn copies<'a>(alloc: Global, words: &'a [&'a str]) -> Result<Vec<&'a str>, AllocError> {
    let mut copied = Vec::new(alloc);
    for word in words {
        copied.push(*word)?;
    }
    Ok(copied)
}

/// Its path: six digits below the folder of all.
fn next_folder(alloc: Global, folder: &str, place: u64) -> Result<String, AllocError> {
    let number = place.saturating_add(1);
    let path = format!(in alloc; "{folder}/{number:06}")?;
    Ok(path)
}

fn leave_next(rt: &HostRuntime, words: &Simulation<'_>) -> Result<u8, AllocError> {
    let mut disk = HostDisk { rt };
    match simulate_to(
        rt.alloc(),
        &mut disk,
        words,
        &mut rt.reader(),
        &mut io::sink(),
    ) {
        Ok(_) => tell_next(rt, words),
        Err(Unsimulated::CannotPrint) => Ok(end(rt, Ending::CannotWrite(STANDARD))),
        Err(Unsimulated::Unleft(why)) => {
            let status = pass_over(rt, words, &why);
            drop(why);
            Ok(status)
        }
    }
}

/// Says why a seed leaves no evidence, and gives the exit status: 0 where it may be passed over.
fn pass_over(rt: &HostRuntime, words: &Simulation<'_>, why: &Unleft) -> u8 {
    match why {
        Unleft::Unmade(SimulationFault::OutOfMemory) => end(rt, Ending::OutOfMemory),
        Unleft::Unmade(fault) => {
            let _ = end_unmade(rt, Subject::Folder(words.folder), *fault);
            0
        }
        _ => end_unleft(rt, words, why),
    }
}

fn tell_next(rt: &HostRuntime, words: &Simulation<'_>) -> Result<u8, AllocError> {
    let line = index_line(rt.alloc(), words)?;
    match print!(rt; "{line}") {
        Ok(()) => Ok(0),
        Err(_) => Ok(end(rt, Ending::CannotWrite(STANDARD))),
    }
}
