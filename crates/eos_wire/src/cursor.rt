//! Fields, read one after the other from shared bytes. A run of bytes is a cursor of its own until it is kept, and then
//! another owner of the bytes, which are never copied. The widths stand at the head of the module on fields.

ghost use Rattle.std.specs.Prelude.{◌≡◌, ◌≤◌, ◌<◌, ◌^◌, ◌==◌, ◌-◌, length, take, drop, slice_range, IfOk};
ghost use Rattle.eos_wire.specs.Varint.{uvarint_at, varint_at, varlong_at};
ghost use Rattle.eos_wire.specs.Numbers.{bytes_at, i8_at, i16_at, i32_at, i64_at, u32_at};
ghost use Rattle.eos_wire.specs.Fields.{Reads, with_rest};

use crate::fields::Fields;
use crate::varint::{read_uvarint, read_varint, read_varlong, small};
use bytes::Bytes;
use std::alloc::AllocError;
use std::marker::Model;

/// The bytes from one place to another that are left to read.
#[derive(Drop)]
pub struct Cursor<'a> {
    bytes: &'a Bytes,
    at: usize,
    end: usize,
}

impl<'a> Model for Cursor<'a> {
    ghost use Rattle.std.specs.Prelude.{◌≤◌, ◌<◌, ◌^◌, List, ℕ, length, slice_range};

    ghost Value = { List ℕ };

    ghost view = { λ c. slice_range c.bytes.now c.at c.end };

    ghost invariant = { λ c. (c.at ≤ c.end) × (c.end ≤ length c.bytes.now) × (c.end < 2 ^ 63) };
}

impl<'a> Cursor<'a> {
    /// A cursor at the first of the bytes.
    pub fn new(bytes: &'a Bytes) -> Cursor<'a>
        ensures { result ≡ bytes.now }
    {
        let end = bytes.len();
        Cursor { bytes, at: 0, end }
    }

    /// A cursor at the byte `at`.
    pub fn starting_at(bytes: &'a Bytes, at: usize) -> Cursor<'a>
        requires { at ≤ length bytes.now }
        ensures { result ≡ drop at bytes.now }
    {
        let end = bytes.len();
        Cursor { bytes, at, end }
    }

    /// A cursor over the bytes from `at` up to `end`.
    pub fn between(bytes: &'a Bytes, at: usize, end: usize) -> Cursor<'a>
        requires { (at ≤ end) × (end ≤ length bytes.now) × (end < 2 ^ 63) }
        ensures { result ≡ slice_range bytes.now at end }
    {
        Cursor { bytes, at, end }
    }

    /// Another cursor at the same place.
    pub fn fork(&self) -> Cursor<'a>
        ensures { result ≡ self.now }
    {
        Cursor {
            bytes: self.bytes,
            at: self.at,
            end: self.end,
        }
    }

    /// How many bytes are left.
    pub fn left(&self) -> usize
        ensures value { result ≡ length self.now }
        ensures bound { result < 2 ^ 63 }
    {
        self.end - self.at
    }

    /// Whether no byte is left.
    pub fn is_empty(&self) -> bool
        ensures { result ≡ (length self.now == 0) }
    {
        self.at == self.end
    }

    /// The bytes that are left.
    pub fn rest(&self) -> &'a [u8]
        ensures { result.now ≡ self.now }
    {
        &self.bytes.as_slice()[self.at..self.end]
    }

    fn advance(&mut self, len: usize)
        requires { len ≤ length self.old }
        ensures { self.new ≡ drop len self.old }
    {
        self.at += len;
    }

    /// Leaves the last `len` bytes.
    fn keep(&mut self, len: usize)
        requires { len ≤ length self.old }
        ensures { self.new ≡ drop (length self.old - len) self.old }
    {
        self.advance(self.left() - len);
    }

    /// An INT8.
    #[tactic(auto, unfolding(crate::specs::Numbers::i8_at))]
    pub fn i8(&mut self) -> Option<i8>
        ensures { Reads result self.new (i8_at self.old) }
    {
        let mut fields = Fields::new(self.rest());
        let number = fields.i8()?;
        self.keep(fields.left());
        Some(number)
    }

    /// An INT16.
    #[tactic(auto, unfolding(crate::specs::Numbers::i16_at))]
    pub fn i16(&mut self) -> Option<i16>
        ensures { Reads result self.new (i16_at self.old) }
    {
        let mut fields = Fields::new(self.rest());
        let number = fields.i16()?;
        self.keep(fields.left());
        Some(number)
    }

    /// An INT32.
    #[tactic(auto, unfolding(crate::specs::Numbers::i32_at))]
    pub fn i32(&mut self) -> Option<i32>
        ensures { Reads result self.new (i32_at self.old) }
    {
        let mut fields = Fields::new(self.rest());
        let number = fields.i32()?;
        self.keep(fields.left());
        Some(number)
    }

    /// An INT64.
    #[tactic(auto, unfolding(crate::specs::Numbers::i64_at))]
    pub fn i64(&mut self) -> Option<i64>
        ensures { Reads result self.new (i64_at self.old) }
    {
        let mut fields = Fields::new(self.rest());
        let number = fields.i64()?;
        self.keep(fields.left());
        Some(number)
    }

    /// A UINT32.
    #[tactic(auto, unfolding(crate::specs::Numbers::u32_at))]
    pub fn u32(&mut self) -> Option<u32>
        ensures { Reads result self.new (u32_at self.old) }
    {
        let mut fields = Fields::new(self.rest());
        let number = fields.u32()?;
        self.keep(fields.left());
        Some(number)
    }

    /// A varint of 32 bits.
    #[inline(always)]
    pub fn varint(&mut self) -> Option<i32>
        ensures { Reads result self.new (with_rest self.old (varint_at self.old)) }
    {
        let rest = self.rest();
        if let Some(number) = small(rest) {
            self.advance(1);
            return Some(i32::from(number));
        }
        let (number, len) = read_varint(rest)?;
        self.advance(len);
        Some(number)
    }

    /// A varint of 64 bits.
    #[inline(always)]
    pub fn varlong(&mut self) -> Option<i64>
        ensures { Reads result self.new (with_rest self.old (varlong_at self.old)) }
    {
        let rest = self.rest();
        if let Some(number) = small(rest) {
            self.advance(1);
            return Some(i64::from(number));
        }
        let (number, len) = read_varlong(rest)?;
        self.advance(len);
        Some(number)
    }

    /// An unsigned varint.
    pub fn uvarint(&mut self) -> Option<u32>
        ensures { Reads result self.new (with_rest self.old (uvarint_at self.old)) }
    {
        let (number, len) = read_uvarint(self.rest())?;
        self.advance(len);
        Some(number)
    }

    /// The next `len` bytes, as a cursor of their own.
    pub fn take(&mut self, len: usize) -> Option<Cursor<'a>>
        ensures { Reads result self.new (bytes_at len self.old) }
    {
        if self.left() < len {
            return None;
        }
        let part = Cursor {
            bytes: self.bytes,
            at: self.at,
            end: self.at + len,
        };
        self.advance(len);
        Some(part)
    }

    /// Another owner of the bytes that are left, which are not copied.
    pub fn share(&self) -> Result<Bytes, AllocError>
        ensures { IfOk result (λ bytes. bytes ≡ self.now) }
    {
        self.bytes.slice(self.at..self.end)
    }
}
