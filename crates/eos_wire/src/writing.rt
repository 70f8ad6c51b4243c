//! Variable-length numbers, written in their shortest spelling. The layout stands at the head of the module that reads
//! them. A number is put together in an array and appended at once, so an `Err` leaves the target as it was.

ghost use Rattle.std.specs.Prelude.{◌≡◌, ◌++◌, OnOk, OnErr};
ghost use Rattle.eos_wire.specs.Varint.{IsVarint, IsVarlong, IsUvarint};
ghost use Rattle.eos_wire.specs.Writing.{zigzag, groups_of, varint_of, varlong_of, uvarint_of, IsShortest};

use std::alloc::AllocError;

fn zigzag_32(value: i32) -> u32
    ensures { result ≡ zigzag value }
{
    if value < 0 {
        (-(value + 1)) as u32 * 2 + 1
    } else {
        value as u32 * 2
    }
}

fn zigzag_64(value: i64) -> u64
    ensures { result ≡ zigzag value }
{
    if value < 0 {
        (-(value + 1)) as u64 * 2 + 1
    } else {
        value as u64 * 2
    }
}

/// Appends a number in as few groups as it takes.
fn write_groups(out: &mut Vec<u8>, number: u64) -> Result<(), AllocError>
    ensures ok { OnOk result (out.new.items ≡ out.old.items ++ groups_of 9 number) }
    ensures err { OnErr result (out.new.items ≡ out.old.items) }
{
    let mut bytes = [0u8; 10];
    let mut len = 0usize;
    let mut rest = number;
    while rest >= 128 {
        bytes[len] = (rest % 128) as u8 + 128;
        rest /= 128;
        len += 1;
    }
    bytes[len] = rest as u8;
    out.extend_from_slice(&bytes[..len + 1])
}

/// Appends the value as an unsigned varint, in 1 to 5 bytes.
pub fn write_uvarint(out: &mut Vec<u8>, value: u32) -> Result<(), AllocError>
    ensures ok { OnOk result (out.new.items ≡ out.old.items ++ uvarint_of value) }
    ensures err { OnErr result (out.new.items ≡ out.old.items) }
    ensures shortest { IsShortest IsUvarint (uvarint_of value) value }
{
    write_groups(out, u64::from(value))
}

/// Appends the value as a varint, in 1 to 5 bytes.
#[tactic(auto, unfolding(crate::specs::Writing::uvarint_of, crate::specs::Writing::varint_of))]
pub fn write_varint(out: &mut Vec<u8>, value: i32) -> Result<(), AllocError>
    ensures ok { OnOk result (out.new.items ≡ out.old.items ++ varint_of value) }
    ensures err { OnErr result (out.new.items ≡ out.old.items) }
    ensures shortest { IsShortest IsVarint (varint_of value) value }
{
    write_uvarint(out, zigzag_32(value))
}

/// Appends the value as a varlong, in 1 to 10 bytes.
#[tactic(auto, unfolding(crate::specs::Writing::varlong_of))]
pub fn write_varlong(out: &mut Vec<u8>, value: i64) -> Result<(), AllocError>
    ensures ok { OnOk result (out.new.items ≡ out.old.items ++ varlong_of value) }
    ensures err { OnErr result (out.new.items ≡ out.old.items) }
    ensures shortest { IsShortest IsVarlong (varlong_of value) value }
{
    write_groups(out, zigzag_64(value))
}
