//! What a broker holds of a producer id, and what it asks of it (KIP-98, "Idempotent Producer Guarantees").

ghost use Rattle.std.specs.Prelude.{◌≡◌, ◌<◌, ◌^◌};
ghost use Rattle.eos_machine.specs.Application.{Batch, End};
ghost use Rattle.eos_machine.specs.Logs.{unseen, is_epoch, next_sequence, not_above, after_mark};

use eos_batch::Kind;
use eos_machine::Producer;

/// Nothing of the producer id stands in the partition.
pub(crate) fn unseen() -> Producer
    ensures { result ≡ unseen }
{
    Producer {
        high: 0,
        last: None,
        count: 0,
    }
}

/// Whether the last data is of this epoch.
pub fn is_epoch(producer: Producer, epoch: u16) -> bool
    ensures { result ≡ is_epoch producer.last epoch }
{
    match producer.last {
        None => false,
        Some(last) => last == epoch,
    }
}

/// The next sequence of an epoch: 0 where it isn't that of the last data.
pub fn next_sequence(producer: Producer, epoch: u16) -> u64
    ensures { result ≡ next_sequence producer epoch }
{
    if is_epoch(producer, epoch) {
        producer.count
    } else {
        0
    }
}

/// Whether a marker of this epoch isn't above the last data.
pub fn is_not_above(producer: Producer, epoch: u16) -> bool
    ensures { result ≡ not_above epoch producer.last }
{
    match producer.last {
        None => false,
        Some(last) => epoch <= last,
    }
}

/// The state after data of this epoch, with this sequence where it has one.
pub(crate) fn after_data(producer: Producer, epoch: u16, _sequence: Option<u32>) -> Producer
    requires { producer.count < 2 ^ 63 }
    ensures { result ≡ after_mark producer (Batch epoch _sequence) }
{
    let count = if is_epoch(producer, epoch) {
        producer.count + 1
    } else {
        1
    };
    Producer {
        high: producer.high.max(epoch),
        last: Some(epoch),
        count,
    }
}

/// The state after an end marker of this epoch.
pub(crate) fn after_marker(producer: Producer, epoch: u16, _kind: Kind) -> Producer
    ensures { result ≡ after_mark producer (End epoch _kind) }
{
    Producer {
        high: producer.high.max(epoch),
        last: producer.last,
        count: producer.count,
    }
}
