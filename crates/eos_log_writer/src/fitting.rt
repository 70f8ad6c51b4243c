//! Whether what stands in a log fits the fields of its batches.

ghost use Rattle.std.specs.Prelude.{◌≡◌, ◌^◌, ◌&&◌, ◌+◌, length, nat_lt, nat_le};
ghost use Rattle.std.specs.List.{list_all};
ghost use Rattle.eos_machine.specs.LogIndexes.{IsConfig, application_count};
ghost use Rattle.eos_machine.specs.Sessions.{claimed_topic};
ghost use Rattle.eos_machine.specs.steps.Fits.{are_all_there, is_fit};

use crate::log_names::log_count;
use eos_machine::{Claim, Config, Entry, Item};

/// One more than the greatest number of a field of 64 bits.
const NUMBERS: u64 = 1 << 63;

/// One more than the greatest sequence.
const SEQUENCES: u32 = 1 << 31;

/// One more than the greatest producer epoch.
const EPOCHS: u16 = 1 << 15;

/// The longest name that a topic has.
const LONGEST_TOPIC: usize = 249;

/// Whether these are all below a number.
fn are_below(count: usize, places: &[usize]) -> bool
    ensures { result ≡ list_all (λ p. nat_lt p count) places.now }
{
    places.iter().all(|place| *place < count)
}

/// Whether these partitions are there, and no more than there are.
fn are_all_there(config: Config, places: &[usize]) -> bool
    requires { IsConfig config }
    ensures { result ≡ are_all_there config places.now }
{
    are_below(log_count(config), places) && places.len() <= log_count(config)
}

/// Whether the topic is short enough that a record's claim names.
fn is_topic_fit(claim: &Option<Claim>) -> bool
    ensures { result ≡ nat_le (length (claimed_topic claim.now)) 249 }
{
    match claim {
        Some(claim) => claim.topic.len() <= LONGEST_TOPIC,
        None => true,
    }
}

/// Whether a state fits, without its event.
fn is_entry_fit(config: Config, application: usize, entry: &Entry) -> bool
    requires { IsConfig config }
    ensures { result ≡ (nat_lt application (application_count config) && nat_lt entry.now.epoch (2 ^ 15) && are_all_there config entry.now.partitions) }
{
    application < config.application_count()
        && entry.epoch < EPOCHS
        && are_all_there(config, entry.partitions.as_slice())
}

/// Whether by whom and when a batch was appended fits.
fn is_origin_fit(config: Config, application: usize, epoch: u16, event: u64) -> bool
    requires { IsConfig config }
    ensures { result ≡ (nat_lt application (application_count config) && nat_lt epoch (2 ^ 15) && nat_lt event (2 ^ 63)) }
{
    application < config.application_count() && epoch < EPOCHS && event < NUMBERS
}

/// Whether what an output says fits.
fn is_output_fit(sequence: u32, claim: &Option<Claim>, value: u64) -> bool
    ensures { result ≡ (nat_lt sequence (2 ^ 31) && nat_le (length (claimed_topic claim.now)) 249 && nat_lt value (2 ^ 63)) }
{
    sequence < SEQUENCES && is_topic_fit(claim) && value < NUMBERS
}

/// Whether there is such a source.
fn is_source_fit(config: Config, source: usize) -> bool
    requires { IsConfig config }
    ensures { result ≡ nat_lt source (config.inputs + config.outputs) }
{
    source < config.inputs + config.outputs
}

/// Whether an item fits.
fn is_fit(config: Config, item: &Item) -> bool
    requires { IsConfig config }
    ensures { result ≡ is_fit config item.now }
{
    match item {
        Item::Fed { event } => *event < NUMBERS,
        Item::State {
            application,
            entry,
            event,
        } => is_entry_fit(config, *application, entry) && *event < NUMBERS,
        Item::Output {
            application,
            epoch,
            sequence,
            claim,
            value,
            event,
        } => {
            is_origin_fit(config, *application, *epoch, *event)
                && is_output_fit(*sequence, claim, *value)
        }
        Item::Offset {
            application,
            epoch,
            source,
            event,
            ..
        } => is_origin_fit(config, *application, *epoch, *event) && is_source_fit(config, *source),
        Item::Marker {
            application,
            epoch,
            event,
            ..
        } => is_origin_fit(config, *application, *epoch, *event),
    }
}

/// Whether each item of a log fits.
pub(crate) fn are_fit(config: Config, log: &[Item]) -> bool
    requires { IsConfig config }
    ensures { result ≡ list_all (is_fit config) log.now }
{
    log.iter().all(|item| is_fit(config, item))
}
