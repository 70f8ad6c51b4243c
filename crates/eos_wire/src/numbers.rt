//! Numbers of a fixed width, big-endian, appended to what was written. The widths stand at the head of the module that
//! reads them. An `Err` leaves the target as it was.

ghost use Rattle.std.specs.Prelude.{◌≡◌, ◌++◌, OnOk, OnErr};
ghost use Rattle.eos_wire.specs.Numbers.{IsBytes, i8_text, i16_text, i32_text, i64_text, u32_text};

use std::alloc::AllocError;

/// Each item of a slice is a byte, which proofs do not know of a slice that came from elsewhere, as from `Bytes`.
pub fn are_bytes(_bytes: &[u8])
    ensures { IsBytes _bytes.now }
{}

/// Appends the value as an INT8, in a byte.
#[tactic(auto, unfolding(crate::specs::Numbers::i8_text))]
pub fn write_i8(out: &mut Vec<u8>, value: i8) -> Result<(), AllocError>
    ensures ok { OnOk result (out.new.items ≡ out.old.items ++ i8_text value) }
    ensures err { OnErr result (out.new.items ≡ out.old.items) }
{
    out.extend_from_slice(&value.to_be_bytes())
}

/// Appends the value as an INT16, in two bytes.
#[tactic(auto, unfolding(crate::specs::Numbers::i16_text))]
pub fn write_i16(out: &mut Vec<u8>, value: i16) -> Result<(), AllocError>
    ensures ok { OnOk result (out.new.items ≡ out.old.items ++ i16_text value) }
    ensures err { OnErr result (out.new.items ≡ out.old.items) }
{
    out.extend_from_slice(&value.to_be_bytes())
}

/// Appends the value as an INT32, in four bytes.
#[tactic(auto, unfolding(crate::specs::Numbers::i32_text))]
pub fn write_i32(out: &mut Vec<u8>, value: i32) -> Result<(), AllocError>
    ensures ok { OnOk result (out.new.items ≡ out.old.items ++ i32_text value) }
    ensures err { OnErr result (out.new.items ≡ out.old.items) }
{
    out.extend_from_slice(&value.to_be_bytes())
}

/// Appends the value as an INT64, in eight bytes.
#[tactic(auto, unfolding(crate::specs::Numbers::i64_text))]
pub fn write_i64(out: &mut Vec<u8>, value: i64) -> Result<(), AllocError>
    ensures ok { OnOk result (out.new.items ≡ out.old.items ++ i64_text value) }
    ensures err { OnErr result (out.new.items ≡ out.old.items) }
{
    out.extend_from_slice(&value.to_be_bytes())
}

/// Appends the value as a UINT32, in four bytes.
#[tactic(auto, unfolding(crate::specs::Numbers::u32_text))]
pub fn write_u32(out: &mut Vec<u8>, value: u32) -> Result<(), AllocError>
    ensures ok { OnOk result (out.new.items ≡ out.old.items ++ u32_text value) }
    ensures err { OnErr result (out.new.items ≡ out.old.items) }
{
    out.extend_from_slice(&value.to_be_bytes())
}
