//! The indexes of partitions in a cluster's list of logs.

ghost use Rattle.std.specs.Prelude.{◌≡◌, ◌==◌, ◌↔◌, ◌&&◌, ◌||◌, ◌<◌, ◌+◌, ◌%◌, ℕ, true, nat_le, nat_lt};
ghost use Rattle.eos_machine.specs.LogIndexes.{IsConfig, final_count, is_source, txn_index, final_index, input_index, output_index, written_index, log_count, topic_of, number_of, is_odd_output, is_partition, is_topic, offsets_topic, transactions_topic, final_topic, input_topic, output_topic};
ghost use Rattle.eos_machine.specs.Elections.{electable_at};

use bytes::Bytes;
use eos_machine::Config;

/// The index of the one partition of `__consumer_offsets`.
pub const OFFSETS_INDEX: usize = 0;

/// The index of the partition of `__transaction_state` that holds an application's records.
pub fn txn_index(config: Config, application: usize) -> usize
    requires { IsConfig config }
    ensures { result ≡ txn_index config application }
{
    1 + application % config.transaction_logs
}

/// The index of a partition of `fin`.
fn final_index(config: Config, partition: usize) -> usize
    requires config { IsConfig config }
    requires partition { partition < config.outputs }
    ensures { result ≡ final_index config partition }
{
    1 + config.transaction_logs + partition
}

/// The index of a partition of `in`.
pub fn input_index(config: Config, partition: usize) -> usize
    requires config { IsConfig config }
    requires partition { partition < config.inputs }
    ensures { result ≡ input_index config partition }
{
    1 + config.transaction_logs + config.final_count() + partition
}

/// The index of a partition of `out`.
pub fn output_index(config: Config, partition: usize) -> usize
    requires config { IsConfig config }
    requires partition { partition < config.outputs }
    ensures { result ≡ output_index config partition }
{
    1 + config.transaction_logs + config.final_count() + config.inputs + partition
}

/// The index of a partition of the topic that an application writes.
pub fn written_index(config: Config, application: usize, partition: usize) -> usize
    requires config { IsConfig config }
    requires partition { partition < config.outputs }
    ensures { result ≡ written_index config application partition }
{
    if config.is_chained(application) {
        final_index(config, partition)
    } else {
        output_index(config, partition)
    }
}

/// Whether a source is one of an application's group: a partition of `in`, or after them one of `out`.
pub fn is_source(config: Config, application: usize, source: usize) -> bool
    requires { IsConfig config }
    ensures { result ≡ is_source config application source }
{
    if config.is_chained(application) {
        config.inputs <= source && source < config.inputs + config.outputs
    } else {
        source < config.inputs
    }
}

fn is_offsets_partition(topic: &Bytes, number: usize) -> bool
    ensures { result ≡ (is_topic topic.now offsets_topic && number == 0) }
{
    topic.as_slice() == b"__consumer_offsets".as_slice() && number == 0
}

fn is_transactions_partition(config: Config, topic: &Bytes, number: usize) -> bool
    ensures { result ≡ (is_topic topic.now transactions_topic && nat_lt number config.transaction_logs) }
{
    topic.as_slice() == b"__transaction_state".as_slice() && number < config.transaction_logs
}

fn is_final_partition(config: Config, topic: &Bytes, number: usize) -> bool
    requires { IsConfig config }
    ensures { result ≡ (is_topic topic.now final_topic && nat_lt number (final_count config)) }
{
    topic.as_slice() == b"fin".as_slice() && number < config.final_count()
}

fn is_input_partition(config: Config, topic: &Bytes, number: usize) -> bool
    ensures { result ≡ (is_topic topic.now input_topic && nat_lt number config.inputs) }
{
    topic.as_slice() == b"in".as_slice() && number < config.inputs
}

fn is_output_partition(config: Config, topic: &Bytes, number: usize) -> bool
    ensures { result ≡ (is_topic topic.now output_topic && nat_lt number config.outputs) }
{
    topic.as_slice() == b"out".as_slice() && number < config.outputs
}

/// Whether there is such a partition.
pub fn is_partition(config: Config, topic: &Bytes, number: usize) -> bool
    requires { IsConfig config }
    ensures { result ≡ is_partition config topic.now number }
{
    is_offsets_partition(topic, number)
        || (is_transactions_partition(config, topic, number)
            || (is_final_partition(config, topic, number)
                || (is_input_partition(config, topic, number)
                    || is_output_partition(config, topic, number))))
}

/// The index of a partition whose leader may change.
pub fn electable_at(config: Config, topic: &Bytes, number: usize) -> Option<usize>
    requires { IsConfig config }
    ensures { result ≡ electable_at config topic.now number }
{
    if is_offsets_partition(topic, number) {
        Some(OFFSETS_INDEX)
    } else if is_final_partition(config, topic, number) {
        Some(final_index(config, number))
    } else if is_input_partition(config, topic, number) {
        Some(input_index(config, number))
    } else if is_output_partition(config, topic, number) {
        Some(output_index(config, number))
    } else {
        None
    }
}

/// The index of the first partition of a topic that there is: those of its other partitions come after it, by number.
pub fn start_of(config: Config, topic: &Bytes) -> usize
    requires { IsConfig config }
    ensures { (place : ℕ) → place < log_count config → topic.now ≡ topic_of config place → place ≡ result + number_of config place }
{
    if topic.as_slice() == b"__consumer_offsets".as_slice() {
        OFFSETS_INDEX
    } else if topic.as_slice() == b"__transaction_state".as_slice() {
        1
    } else if topic.as_slice() == b"fin".as_slice() {
        final_index(config, 0)
    } else if topic.as_slice() == b"in".as_slice() {
        input_index(config, 0)
    } else {
        output_index(config, 0)
    }
}

/// Whether an index is an odd partition of `out`.
pub fn is_odd_output(config: Config, place: usize) -> bool
    requires { IsConfig config }
    ensures { result ≡ is_odd_output config place }
{
    let start = output_index(config, 0);
    place >= start && (place - start) % 2 == 1
}
