//! Fields, read one after the other from a slice. A read that finds too few bytes leaves the reader where it was.
//!
//! | Read | Bytes | Meaning | Kafka protocol guide |
//! |---|---|---|---|
//! | `i8` | 1 | two's complement | INT8 |
//! | `i16` | 2 | two's complement, big-endian | INT16 |
//! | `i32` | 4 | two's complement, big-endian | INT32 |
//! | `i64` | 8 | two's complement, big-endian | INT64 |
//! | `u32` | 4 | big-endian | UINT32 |
//! | `uvarint` | 1 to 5 | groups of seven bits | KIP-482, unsigned varint |
//! | `take(n)` | n | the bytes themselves | BYTES and STRING, after their length |

ghost use Rattle.std.specs.Prelude.{◌≡◌, length, IfNone};
ghost use Rattle.std.specs.Option.{option_copied};
ghost use Rattle.eos_wire.specs.Varint.{uvarint_at};
ghost use Rattle.eos_wire.specs.Numbers.{bytes_at, i8_at, i16_at, i32_at, i64_at, u32_at};
ghost use Rattle.eos_wire.specs.Fields.{Reads, with_rest};

use crate::varint::read_uvarint;
use std::marker::Model;

/// The bytes that are left to read.
#[derive(Drop)]
pub struct Fields<'a> {
    rest: &'a [u8],
}

impl<'a> Model for Fields<'a> {
    ghost use Rattle.std.specs.Prelude.{List, ℕ};

    ghost Value = { List ℕ };

    ghost view = { λ f. f.rest.now };
}

impl<'a> Fields<'a> {
    /// A reader at the first of the bytes.
    pub fn new(bytes: &'a [u8]) -> Fields<'a>
        ensures { result ≡ bytes.now }
    {
        Fields { rest: bytes }
    }

    /// How many bytes are left.
    pub fn left(&self) -> usize
        ensures { result ≡ length self.now }
    {
        self.rest.len()
    }

    /// The next `len` bytes, as a part of the slice. `None` where fewer are left.
    pub fn take(&mut self, len: usize) -> Option<&'a [u8]>
        ensures read { Reads (option_copied result) self.new (bytes_at len self.old) }
        ensures stays { IfNone result (self.new ≡ self.old) }
    {
        if self.left() < len {
            return None;
        }
        let (front, rest) = self.rest.split_at(len);
        self.rest = rest;
        Some(front)
    }

    /// The next `N` bytes.
    fn array<const N: usize>(&mut self) -> Option<[u8; N]>
        ensures read { Reads result self.new (bytes_at N self.old) }
        ensures stays { IfNone result (self.new ≡ self.old) }
    {
        let (front, rest) = self.rest.split_first_chunk::<N>()?;
        self.rest = rest;
        Some(*front)
    }

    /// An INT8, in a byte. `None` where fewer are left.
    #[tactic(auto, unfolding(crate::specs::Numbers::i8_at))]
    pub fn i8(&mut self) -> Option<i8>
        ensures read { Reads result self.new (i8_at self.old) }
        ensures stays { IfNone result (self.new ≡ self.old) }
    {
        let bytes = self.array()?;
        Some(i8::from_be_bytes(bytes))
    }

    /// An INT16, in two bytes. `None` where fewer are left.
    #[tactic(auto, unfolding(crate::specs::Numbers::i16_at))]
    pub fn i16(&mut self) -> Option<i16>
        ensures read { Reads result self.new (i16_at self.old) }
        ensures stays { IfNone result (self.new ≡ self.old) }
    {
        let bytes = self.array()?;
        Some(i16::from_be_bytes(bytes))
    }

    /// An INT32, in four bytes. `None` where fewer are left.
    #[tactic(auto, unfolding(crate::specs::Numbers::i32_at))]
    pub fn i32(&mut self) -> Option<i32>
        ensures read { Reads result self.new (i32_at self.old) }
        ensures stays { IfNone result (self.new ≡ self.old) }
    {
        let bytes = self.array()?;
        Some(i32::from_be_bytes(bytes))
    }

    /// An INT64, in eight bytes. `None` where fewer are left.
    #[tactic(auto, unfolding(crate::specs::Numbers::i64_at))]
    pub fn i64(&mut self) -> Option<i64>
        ensures read { Reads result self.new (i64_at self.old) }
        ensures stays { IfNone result (self.new ≡ self.old) }
    {
        let bytes = self.array()?;
        Some(i64::from_be_bytes(bytes))
    }

    /// A UINT32, in four bytes. `None` where fewer are left.
    #[tactic(auto, unfolding(crate::specs::Numbers::u32_at))]
    pub fn u32(&mut self) -> Option<u32>
        ensures read { Reads result self.new (u32_at self.old) }
        ensures stays { IfNone result (self.new ≡ self.old) }
    {
        let bytes = self.array()?;
        Some(u32::from_be_bytes(bytes))
    }

    /// An unsigned varint. `None` where no bytes at the front are one.
    pub fn uvarint(&mut self) -> Option<u32>
        ensures read { Reads result self.new (with_rest self.old (uvarint_at self.old)) }
        ensures stays { IfNone result (self.new ≡ self.old) }
    {
        let (number, len) = read_uvarint(self.rest)?;
        self.take(len)?;
        Some(number)
    }
}
