//! By whom a batch is written, and its numbers: what fits its field is a matter of the caller's.

ghost use Rattle.std.specs.Prelude.{◌≡◌, pos, ◌<◌, ◌≤◌, ◌^◌};
ghost use Rattle.eos_machine.specs.Rest.{producer_id};
ghost use Rattle.eos_machine.specs.Batches.{plain, transactional, control};

use eos_machine::Writer;

/// The producer id of the first application.
const FIRST_PRODUCER: i64 = 1000;

/// The number as an i64.
pub(crate) fn as_i64(number: u64) -> i64
    requires { number < 2 ^ 63 }
    ensures { result ≡ pos number }
{
    number as i64
}

/// The number as an i32.
pub(crate) fn as_i32(number: usize) -> i32
    requires { number < 2 ^ 31 }
    ensures { result ≡ pos number }
{
    number as i32
}

/// The number of a sequence as an i32.
pub(crate) fn sequence_as_i32(number: u32) -> i32
    requires { number < 2 ^ 31 }
    ensures { result ≡ pos number }
{
    number as i32
}

/// The epoch as an i16.
pub(crate) fn as_i16(number: u16) -> i16
    requires { number < 2 ^ 15 }
    ensures { result ≡ pos number }
{
    number as i16
}

/// The producer id of an application.
pub(crate) fn producer_id(application: usize) -> i64
    requires { application ≤ 8 }
    ensures { result ≡ producer_id application }
{
    FIRST_PRODUCER + application as i64
}

/// Of a plain batch.
pub(crate) fn plain() -> Writer
    ensures { result ≡ plain }
{
    Writer {
        attributes: 0,
        producer: -1,
        epoch: -1,
        sequence: -1,
    }
}

/// Of data in a transaction.
pub(crate) fn transactional(application: usize, epoch: u16, sequence: i32) -> Writer
    requires application { application ≤ 8 }
    requires epoch { epoch < 2 ^ 15 }
    ensures { result ≡ transactional application epoch sequence }
{
    Writer {
        attributes: 16,
        producer: producer_id(application),
        epoch: as_i16(epoch),
        sequence,
    }
}

/// Of an end marker.
pub(crate) fn control(application: usize, epoch: u16) -> Writer
    requires application { application ≤ 8 }
    requires epoch { epoch < 2 ^ 15 }
    ensures { result ≡ control application epoch }
{
    Writer {
        attributes: 48,
        producer: producer_id(application),
        epoch: as_i16(epoch),
        sequence: -1,
    }
}
