//! What a simulated cluster does, as the words of the command line say.

ghost use Rattle.std.specs.Prelude.{◌≡◌, min, bytes_eq, codes, not, ◌&&◌, true, false, None, IfSome, IfOk, option_map, unwrap_or};
ghost use Rattle.eos_simulate.specs.Settings.{config_said, rates_said, can_bite, is_named, switches_said, unclean_said};
ghost use Rattle.eos_simulate.specs.Every.{tiny};
ghost use Rattle.eos_simulate.specs.steps.Heads.{head_of};
ghost use Rattle.eos_machine.specs.Switching.{switch_name, any_on};

use crate::making::SimulationFault;
use eos_cluster::{Switch, Switches};
use eos_drive::{ChosenMishap, Rates, Settings, Turning};
use eos_history_lines::Head;
use eos_machine::Config;
use eos_words::{Simulation, Sizes, Thousandths};
use std::alloc::Global;

/// The switches, in the order in which their tails come.
pub(crate) const SWITCHES: [Switch; 7] = [
    Switch::KeepDuplicates,
    Switch::NoFence,
    Switch::NoBump,
    Switch::LoseMarker,
    Switch::SwapMarker,
    Switch::HideListing,
    Switch::IgnoreGeneration,
];

/// One application, and one partition of each topic.
const TINY: Config = Config {
    applications: 1,
    inputs: 1,
    outputs: 1,
    transaction_logs: 1,
    segment_records: 16,
    batch_records: 1,
    chain: false,
};

/// What a simulated cluster does.
#[derive(Drop)]
pub struct Course {
    pub(crate) config: Config,
    pub(crate) seed: u64,
    pub(crate) words: u64,
    rates: Rates,
    /// Whether each sender and receiver have a queue of messages of their own.
    links: bool,
    pub(crate) switches: Switches,
    /// After how many words the switches are on, if not after the script.
    switch_at: Option<u64>,
    /// Whether a few events after the script show them.
    pub(crate) is_shown: bool,
    /// Whether the run ends after the script, at rest or not.
    pub(crate) stops: bool,
    /// How many leaders are lost whose followers lack their last records.
    pub(crate) unclean: u64,
    mishaps: Vec<ChosenMishap>,
}

impl Course {
    /// What the words say.
    pub fn of_words(alloc: Global, words: &Simulation<'_>) -> Result<Course, SimulationFault>
        ensures sizes { IfOk result (λ course. course.config ≡ config_said words.now.sizes) }
        ensures script { IfOk result (λ course. (course.seed ≡ words.now.seed) × (course.words ≡ words.now.events)) }
        ensures rates { IfOk result (λ course. course.rates ≡ rates_said words.now.rates) }
        ensures links { IfOk result (λ course. course.links ≡ words.now.links) }
        ensures switches { IfOk result (λ course. course.switches ≡ switches_said words.now.switches.items) }
        ensures turning { IfOk result (λ course. course.switch_at ≡ words.now.switch_at) }
        ensures shown { IfOk result (λ course. course.is_shown ≡ (not words.now.no_tail && not words.now.stop_anywhere)) }
        ensures stops { IfOk result (λ course. course.stops ≡ words.now.stop_anywhere) }
        ensures unclean { IfOk result (λ course. course.unclean ≡ unclean_said words.now.mishaps.items) }
    {
        if words.swarm && words.count.is_none() {
            return Err(SimulationFault::Unfit("--swarm", "no --count"));
        }
        let rates = rates_of(&words.rates);
        if !rates.fit() {
            return Err(SimulationFault::Unfit("rates", "more than 1000 in all"));
        }
        if let Some((what, why)) = unturned(words) {
            return Err(SimulationFault::Unfit(what, why));
        }
        let Some(switches) = switches_named(words.switches.as_slice()) else {
            return Err(SimulationFault::Unfit("--switch", "no such rule"));
        };
        let config = config_of(&words.sizes);
        let mishaps = mishaps_of(alloc, words.mishaps.as_slice())?;
        if let Some((what, why)) = unfit(config, switches, mishaps.as_slice()) {
            return Err(SimulationFault::Unfit(what, why));
        }
        Ok(Course {
            config,
            seed: words.seed,
            words: words.events,
            rates,
            links: words.links,
            switches,
            switch_at: words.switch_at,
            is_shown: !words.no_tail && !words.stop_anywhere,
            stops: words.stop_anywhere,
            unclean: unclean_in(words.mishaps.as_slice()),
            mishaps,
        })
    }

    /// What is done where all schedules are run: these rules are broken from the first word on, and nothing shows them afterwards.
    pub(crate) fn tiny(alloc: Global, names: &[&str]) -> Result<Course, SimulationFault>
        ensures { IfOk result (λ course. course.config ≡ tiny) }
    {
        let Some(switches) = switches_named(names) else {
            return Err(SimulationFault::Unfit("--switch", "no such rule"));
        };
        if let Some((what, why)) = unfit(TINY, switches, &[]) {
            return Err(SimulationFault::Unfit(what, why));
        }
        Ok(Course {
            config: TINY,
            seed: 0,
            words: 0,
            rates: Rates::TODAY,
            links: false,
            switches,
            switch_at: Some(0),
            is_shown: false,
            stops: false,
            unclean: 0,
            mishaps: Vec::new(alloc),
        })
    }

    /// The first line of its history.
    pub(crate) fn head(&self) -> Head
        ensures { result ≡ head_of self.now }
    {
        Head {
            config: self.config,
            switches: self.switches,
            seed: self.seed,
            words: self.words,
        }
    }

    /// What its run is besides its script.
    pub(crate) fn settings(&self) -> Settings<'_>
        ensures honest { any_on self.now.switches ≡ false → result.turning ≡ None }
        ensures rates { result.rates ≡ self.now.rates }
        ensures links { result.links ≡ self.now.links }
        ensures unclean { result.unclean ≡ self.now.unclean }
        ensures mishaps { result.mishaps.now ≡ self.now.mishaps.items }
        ensures stops { result.stops ≡ self.now.stops }
        ensures turning { any_on self.now.switches ≡ true → result.turning ≡ option_map (λ at. record { after = at; switches = self.now.switches }) self.now.switch_at }
    {
        Settings {
            rates: self.rates,
            links: self.links,
            turning: match self.switch_at {
                Some(after) if self.switches.any_on() => Some(Turning {
                    after,
                    switches: self.switches,
                }),
                _ => None,
            },
            unclean: self.unclean,
            mishaps: self.mishaps.as_slice(),
            stops: self.stops,
        }
    }
}

/// What doesn't fit of when the switches are set, and why.
fn unturned(words: &Simulation<'_>) -> Option<(&'static str, &'static str)> {
    match words.switch_at {
        Some(_) if words.switches.is_empty() => Some(("--switch-at", "no --switch")),
        Some(at) if at > words.events => Some(("--switch-at", "more than --events")),
        Some(_) => None,
        None if words.no_tail => Some(("--no-tail", "no --switch-at")),
        None if words.stop_anywhere && !words.switches.is_empty() => {
            Some(("--stop-anywhere", "no --switch-at of the --switch"))
        }
        None => None,
    }
}

/// A switch that can't bite in a cluster of these sizes, or a mishap of a group that isn't there, and what it needs.
fn unfit(
    config: Config,
    switches: Switches,
    mishaps: &[ChosenMishap],
) -> Option<(&'static str, &'static str)> {
    for switch in SWITCHES {
        if is_on(switches, switch) && !can_bite(config, switch) {
            return Some((switch.name(), needed_by(switch)));
        }
    }
    for chosen in mishaps {
        if chosen.mishap.is_chained() && !config.chain {
            return Some((chosen.mishap.name(), "it needs --chain"));
        }
    }
    None
}

/// Whether a cluster of these sizes has something in which this rule is broken.
pub(crate) fn can_bite(config: Config, switch: Switch) -> bool
    ensures { result ≡ can_bite config switch }
{
    match switch {
        Switch::SwapMarker | Switch::HideListing => config.outputs >= 2,
        Switch::IgnoreGeneration => config.applications >= 2,
        Switch::KeepDuplicates | Switch::NoFence | Switch::NoBump | Switch::LoseMarker => true,
    }
}

/// What a switch needs that can't bite.
fn needed_by(switch: Switch) -> &'static str {
    match switch {
        Switch::IgnoreGeneration => "it needs two applications of the first group",
        _ => "it needs two partitions of `out`",
    }
}

/// How large the cluster is; these are the sizes where the words don't say.
pub(crate) fn config_of(sizes: &Sizes) -> Config
    ensures { result ≡ config_said sizes.now }
{
    Config {
        applications: size_of(sizes.applications, 2),
        inputs: size_of(sizes.inputs, 2),
        outputs: size_of(sizes.outputs, 2),
        transaction_logs: size_of(sizes.transaction_logs, 1),
        segment_records: size_of(sizes.segment_records, 16),
        batch_records: size_of(sizes.batch_records, 1),
        chain: sizes.chain,
    }
}

fn size_of(chosen: Option<u64>, size: usize) -> usize
    ensures { result ≡ unwrap_or chosen size }
{
    match chosen {
        Some(chosen) => chosen as usize,
        None => size,
    }
}

pub(crate) fn rates_of(words: &Thousandths) -> Rates
    ensures { result ≡ rates_said words.now }
{
    Rates {
        lose: rate_of(words.lose),
        repeat: rate_of(words.repeat),
        abandon: rate_of(words.abandon),
        members: rate_of(words.members),
        restart_broker: rate_of(words.restart_broker),
        restart_coordinator: rate_of(words.restart_coordinator),
        abort: rate_of(words.abort),
        time_out: rate_of(words.time_out),
        add_partition: rate_of(words.add_partition),
        late_complete: rate_of(words.late_complete),
        elect: rate_of(words.elect),
    }
}

/// A rate; the words allow none above 1,000.
fn rate_of(chosen: Option<u64>) -> Option<u16>
    ensures { result ≡ option_map (λ rate. min rate 1000) chosen }
{
    match chosen {
        Some(rate) => Some(rate.min(1000) as u16),
        None => None,
    }
}

/// The mishap that is none of an application.
pub(crate) const UNCLEAN: &str = "unclean-election";

/// How many of the words choose it.
fn unclean_in(words: &[&str]) -> u64
    ensures { result ≡ unclean_said words.now }
{
    words.iter().filter(|word| is_unclean(**word)).count() as u64
}

fn is_unclean(word: &str) -> bool
    ensures { result ≡ bytes_eq word.now (codes "unclean-election") }
{
    word == UNCLEAN
}

/// The mishaps of applications that the words choose.
fn mishaps_of(alloc: Global, words: &[&str]) -> Result<Vec<ChosenMishap>, SimulationFault> {
    let mut mishaps = Vec::new(alloc);
    for word in words {
        if is_unclean(word) {
            continue;
        }
        match ChosenMishap::from_word(word) {
            Some(chosen) => mishaps.push(chosen)?,
            None => {
                return Err(SimulationFault::Unfit("--mishap", "no mishap, or not NAME@TOPIC-N:O"));
            }
        }
    }
    Ok(mishaps)
}

/// The switches of these names, if each has one.
fn switches_named(names: &[&str]) -> Option<Switches>
    ensures { IfSome result (λ switches. switches ≡ switches_said names.now) }
{
    for name in names {
        switch_named(name)?;
    }
    Some(Switches {
        keep_duplicates: is_named(names, Switch::KeepDuplicates),
        no_fence: is_named(names, Switch::NoFence),
        no_bump: is_named(names, Switch::NoBump),
        lose_marker: is_named(names, Switch::LoseMarker),
        swap_marker: is_named(names, Switch::SwapMarker),
        hide_listing: is_named(names, Switch::HideListing),
        ignore_generation: is_named(names, Switch::IgnoreGeneration),
    })
}

fn is_named(names: &[&str], switch: Switch) -> bool
    ensures { result ≡ is_named names.now switch }
{
    for name in names {
        if is_called(switch, name) {
            return true;
        }
    }
    false
}

fn is_called(switch: Switch, name: &str) -> bool
    ensures { result ≡ bytes_eq name.now (switch_name switch) }
{
    name == switch.name()
}

/// The switch of this name.
fn switch_named(name: &str) -> Option<Switch>
    ensures { IfSome result (λ switch. switch_name switch ≡ name.now) }
{
    for switch in SWITCHES {
        if switch.name() == name {
            return Some(switch);
        }
    }
    None
}

/// Whether a switch is on.
pub(crate) fn is_on(switches: Switches, switch: Switch) -> bool {
    match switch {
        Switch::KeepDuplicates => switches.keep_duplicates,
        Switch::NoFence => switches.no_fence,
        Switch::NoBump => switches.no_bump,
        Switch::LoseMarker => switches.lose_marker,
        Switch::SwapMarker => switches.swap_marker,
        Switch::HideListing => switches.hide_listing,
        Switch::IgnoreGeneration => switches.ignore_generation,
    }
}
