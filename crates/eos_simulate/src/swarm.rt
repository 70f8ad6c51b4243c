//! `simulate --swarm`: what is drawn for a folder, of what the words leave open.

ghost use Rattle.std.specs.Prelude.{◌≡◌, ◌≤◌, ◌<◌, ◌%◌, ◌==◌, IfOk, if◌then◌else◌};
ghost use Rattle.eos_simulate.specs.Swarms.{draw_count, draws_of, word_at, events_said, size_drawn, sizes_drawn, rate_drawn, each_rate_drawn, rates_drawn, rule_if, rules_drawn, has_rules, turning_drawn, tail_drawn, input_drawn, mishap_drawn, unclean_drawn, drawn_by, given_by};

use crate::course::{SWITCHES, can_bite, config_of, rates_of};
use eos_cluster::Switch;
use eos_drive::{ChosenMishap, Input, MISHAPS, Mishap, Script};
use eos_machine::Config;
use eos_words::{Simulation, Sizes, Thousandths};
use std::alloc::{AllocError, Global};

/// What is drawn for a folder, with what the words give.
#[derive(Clone, Copy)]
pub struct Drawn {
    pub sizes: Sizes,
    pub rates: Thousandths,
    /// The rules that are broken, where the words give none.
    pub rules: Rules,
    pub switch_at: Option<u64>,
    pub no_tail: bool,
    /// The mishap, where the words give none.
    pub mishap: Option<ChosenMishap>,
    /// Whether a leader is lost whose follower lacks its last records, where the words give no mishap.
    pub unclean: bool,
}

/// At most two rules, of which both are there only where they differ.
#[derive(Clone, Copy)]
pub struct Rules {
    pub first: Option<Switch>,
    pub second: Option<Switch>,
}

/// The stream of what is drawn.
const STREAM: u64 = 21;

/// How many words of 32 bits are drawn.
#[tactic(auto, unfolding(crate::specs::Swarms::draw_count))]
fn draw_count() -> u64
    ensures { result ≡ draw_count }
{
    24
}

/// What a folder of this seed is made by: in a swarm what the words leave open is drawn by the seed alone, else nothing is.
pub fn drawn_for(alloc: Global, words: &Simulation<'_>, seed: u64) -> Result<Drawn, AllocError>
    ensures { IfOk result (λ drawn. drawn ≡ (if words.now.swarm then drawn_by words.now (draws_of seed) else given_by words.now)) }
{
    if !words.swarm {
        return Ok(given_by(words));
    }
    let script = Script::on_stream(alloc, seed, STREAM, draw_count())?;
    Ok(drawn_by(words, script.words()))
}

#[tactic(auto, unfolding(crate::specs::Swarms::given_by))]
fn given_by(words: &Simulation<'_>) -> Drawn
    ensures { result ≡ given_by words.now }
{
    Drawn {
        sizes: words.sizes,
        rates: words.rates,
        rules: Rules {
            first: None,
            second: None,
        },
        switch_at: words.switch_at,
        no_tail: words.no_tail,
        mishap: None,
        unclean: false,
    }
}

#[tactic(auto, unfolding(crate::specs::Swarms::drawn_by))]
fn drawn_by(words: &Simulation<'_>, draws: &[u32]) -> Drawn
    ensures { result ≡ drawn_by words.now draws.now }
{
    let sizes = sizes_drawn(words, draws);
    let rules = rules_drawn(words, config_of(&sizes), draws);
    let switch_at = turning_drawn(words, rules, word_at(draws, 18));
    Drawn {
        sizes,
        rates: rates_drawn(words.rates, draws),
        rules,
        switch_at,
        no_tail: tail_drawn(words.no_tail, switch_at, word_at(draws, 19)),
        mishap: mishap_drawn(words, &sizes, word_at(draws, 20), word_at(draws, 21)),
        unclean: unclean_drawn(words, word_at(draws, 23)),
    }
}

/// The word of this number, or 0 where there is none.
fn word_at(draws: &[u32], number: usize) -> u64
    ensures value { result ≡ word_at draws.now number }
    ensures few { result < 4294967296 }
{
    match draws.get(number) {
        Some(word) => u64::from(*word),
        None => 0,
    }
}

/// How many words the script has: as many as the command line allows at the most.
fn events_of(words: &Simulation<'_>) -> u64
    ensures { result ≡ events_said words.now }
{
    words.events.min(1_000_000)
}

// ---- sizes and rates

/// A size: one of the first `few` from `least` on in half of the folders, and of the first `many` in the others.
#[tactic(auto, unfolding(crate::specs::Swarms::size_drawn))]
fn size_drawn(given: Option<u64>, word: u64, least: u64, few: u64, many: u64) -> Option<u64>
    requires { (least ≤ 4294967296) × (0 < few) × (few ≤ 1000) × (0 < many) × (many ≤ 1000) }
    ensures { result ≡ size_drawn given word least few many }
{
    if given.is_some() {
        return given;
    }
    Some(least + word / 2 % values_of(word, few, many))
}

/// How many values a size may have.
fn values_of(word: u64, few: u64, many: u64) -> u64
    requires { (0 < few) × (few ≤ 1000) × (0 < many) × (many ≤ 1000) }
    ensures value { result ≡ (if word % 2 == 0 then few else many) }
    ensures few { (0 < result) × (result ≤ 1000) }
{
    if word % 2 == 0 { few } else { many }
}

/// Where a switch is given, there are two applications and two partitions of `out` at the least. A long script has large segments.
#[tactic(auto, unfolding(crate::specs::Swarms::sizes_drawn))]
fn sizes_drawn(words: &Simulation<'_>, draws: &[u32]) -> Sizes
    ensures { result ≡ sizes_drawn words.now draws.now }
{
    let given = words.sizes;
    let least = if words.switches.is_empty() { 1 } else { 2 };
    let records = 1 + events_of(words) / 8192;
    Sizes {
        applications: size_drawn(given.applications, word_at(draws, 0), least, 3, 7),
        inputs: size_drawn(given.inputs, word_at(draws, 1), 1, 4, 16),
        outputs: size_drawn(given.outputs, word_at(draws, 2), least, 3, 15),
        transaction_logs: size_drawn(given.transaction_logs, word_at(draws, 3), 1, 1, 4),
        segment_records: size_drawn(given.segment_records, word_at(draws, 4), records, 16, 64),
        batch_records: size_drawn(given.batch_records, word_at(draws, 5), 1, 1, 16),
        chain: given.chain || word_at(draws, 6) % 3 == 0,
    }
}

/// A rate of at most 100 thousandths in a quarter of the folders, and else today's.
#[tactic(auto, unfolding(crate::specs::Swarms::rate_drawn))]
fn rate_drawn(given: Option<u64>, word: u64) -> Option<u64>
    ensures { result ≡ rate_drawn given word }
{
    if given.is_none() && word % 4 == 0 {
        return Some(word / 4 % 101);
    }
    given
}

#[tactic(auto, unfolding(crate::specs::Swarms::each_rate_drawn))]
fn each_rate_drawn(given: Thousandths, draws: &[u32]) -> Thousandths
    ensures { result ≡ each_rate_drawn given draws.now }
{
    Thousandths {
        lose: rate_drawn(given.lose, word_at(draws, 7)),
        repeat: rate_drawn(given.repeat, word_at(draws, 8)),
        abandon: rate_drawn(given.abandon, word_at(draws, 9)),
        members: rate_drawn(given.members, word_at(draws, 10)),
        restart_broker: rate_drawn(given.restart_broker, word_at(draws, 11)),
        restart_coordinator: rate_drawn(given.restart_coordinator, word_at(draws, 12)),
        abort: rate_drawn(given.abort, word_at(draws, 13)),
        time_out: given.time_out,
        add_partition: given.add_partition,
        late_complete: given.late_complete,
        elect: rate_drawn(given.elect, word_at(draws, 22)),
    }
}

/// Rates that come to more than 1,000 aren't drawn.
#[tactic(auto, unfolding(crate::specs::Swarms::rates_drawn))]
fn rates_drawn(given: Thousandths, draws: &[u32]) -> Thousandths
    ensures { result ≡ rates_drawn given draws.now }
{
    let each = each_rate_drawn(given, draws);
    if rates_of(&each).fit() { each } else { given }
}

// ---- switches

/// The switch of this number, modulo their number, if it can bite.
#[tactic(auto, unfolding(crate::specs::Swarms::rule_if))]
fn rule_if(config: Config, number: u64) -> Option<Switch>
    ensures { result ≡ rule_if config number }
{
    let rule = SWITCHES[(number % 7) as usize];
    if can_bite(config, rule) {
        return Some(rule);
    }
    None
}

/// A rule in half of the folders, and in an eighth of these another one too.
#[tactic(auto, unfolding(crate::specs::Swarms::rules_drawn))]
fn rules_drawn(words: &Simulation<'_>, config: Config, draws: &[u32]) -> Rules
    ensures { result ≡ rules_drawn words.now config draws.now }
{
    if !words.switches.is_empty() || word_at(draws, 14) % 2 == 0 {
        return Rules {
            first: None,
            second: None,
        };
    }
    let number = word_at(draws, 15);
    Rules {
        first: rule_if(config, number),
        second: if word_at(draws, 16) % 8 == 0 {
            rule_if(config, number + 1 + word_at(draws, 17) % 6)
        } else {
            None
        },
    }
}

/// Whether any rule is broken.
#[tactic(auto, unfolding(crate::specs::Swarms::has_rules))]
fn has_rules(words: &Simulation<'_>, rules: Rules) -> bool
    ensures { result ≡ has_rules words.now rules }
{
    !words.switches.is_empty() || rules.first.is_some() || rules.second.is_some()
}

/// After how many words rules are broken: inside the script in three quarters of the folders.
#[tactic(auto, unfolding(crate::specs::Swarms::turning_drawn))]
fn turning_drawn(words: &Simulation<'_>, rules: Rules, word: u64) -> Option<u64>
    ensures { result ≡ turning_drawn words.now rules word }
{
    let is_drawn = has_rules(words, rules) && (words.stop_anywhere || word % 4 != 0);
    if words.switch_at.is_none() && is_drawn {
        return Some(word / 4 % (events_of(words) + 1));
    }
    words.switch_at
}

/// Whether the events are left out that show the rules: in half of the folders where they are broken inside the script.
#[tactic(auto, unfolding(crate::specs::Swarms::tail_drawn))]
fn tail_drawn(given: bool, switch_at: Option<u64>, word: u64) -> bool
    ensures { result ≡ tail_drawn given switch_at word }
{
    given || (switch_at.is_some() && word % 2 == 0)
}

// ---- mishaps

/// Where a mishap happens: at an input with two outputs that comes in most likely, in half of the folders.
#[tactic(auto, unfolding(crate::specs::Swarms::input_drawn))]
fn input_drawn(words: &Simulation<'_>, inputs: usize, mishap: Mishap, word: u64) -> Option<Input>
    requires { 0 < inputs }
    ensures { result ≡ input_drawn words.now inputs mishap word }
{
    if mishap.is_chained() || word % 2 == 0 {
        return None;
    }
    Some(Input {
        source: (word / 2 % inputs as u64) as usize,
        offset: word / 64 % (1 + events_of(words) / 64 / inputs as u64) * 3 + 2,
    })
}

/// How many kinds of mishaps there are.
fn kinds_of(sizes: &Sizes) -> u64
    ensures value { result ≡ (if sizes.now.chain then 10 else 9) }
    ensures few { (0 < result) × (result ≤ 10) }
{
    if sizes.chain { 10 } else { 9 }
}

/// A mishap in a third of the folders; the second group's only where there is one.
#[tactic(auto, unfolding(crate::specs::Swarms::mishap_drawn))]
fn mishap_drawn(
    words: &Simulation<'_>,
    sizes: &Sizes,
    which: u64,
    place: u64,
) -> Option<ChosenMishap>
    ensures { result ≡ mishap_drawn words.now sizes.now which place }
{
    if !words.mishaps.is_empty() || which % 3 != 0 {
        return None;
    }
    let mishap = MISHAPS[(which / 3 % kinds_of(sizes)) as usize];
    let inputs = config_of(sizes).inputs.max(1);
    Some(ChosenMishap {
        mishap,
        at: input_drawn(words, inputs, mishap, place),
    })
}

/// An unclean election in an eighth of the folders.
#[tactic(auto, unfolding(crate::specs::Swarms::unclean_drawn))]
fn unclean_drawn(words: &Simulation<'_>, word: u64) -> bool
    ensures { result ≡ unclean_drawn words.now word }
{
    words.mishaps.is_empty() && word % 8 == 0
}
