//! The partitions' names by their indexes in a cluster's list of logs.

ghost use Rattle.std.specs.Prelude.{◌≡◌};
ghost use Rattle.eos_machine.specs.LogIndexes.{IsConfig, input_index, output_index, topic_of, number_of, log_count};

use bytes::Bytes;
use eos_machine::Config;

/// The topic of the partition at an index.
pub fn topic_of(config: Config, place: usize) -> Bytes
    requires { IsConfig config }
    ensures { result ≡ topic_of config place }
{
    if place == 0 {
        Bytes::from_static(b"__consumer_offsets".as_slice())
    } else if place <= config.transaction_logs {
        Bytes::from_static(b"__transaction_state".as_slice())
    } else if place < input_start(config) {
        Bytes::from_static(b"fin".as_slice())
    } else if place < output_start(config) {
        Bytes::from_static(b"in".as_slice())
    } else {
        Bytes::from_static(b"out".as_slice())
    }
}

/// The index of the first partition of `in`.
fn input_start(config: Config) -> usize
    requires { IsConfig config }
    ensures { result ≡ input_index config 0 }
{
    1 + config.transaction_logs + config.final_count()
}

/// The index of the first partition of `out`.
fn output_start(config: Config) -> usize
    requires { IsConfig config }
    ensures { result ≡ output_index config 0 }
{
    input_start(config) + config.inputs
}

/// The number of the partition at an index in its topic.
pub fn number_of(config: Config, place: usize) -> usize
    requires { IsConfig config }
    ensures { result ≡ number_of config place }
{
    if place == 0 {
        0
    } else if place <= config.transaction_logs {
        place - 1
    } else if place < input_start(config) {
        place - 1 - config.transaction_logs
    } else if place < output_start(config) {
        place - input_start(config)
    } else {
        place - output_start(config)
    }
}

/// How many partitions there are.
pub fn log_count(config: Config) -> usize
    requires { IsConfig config }
    ensures { result ≡ log_count config }
{
    output_start(config) + config.outputs
}
