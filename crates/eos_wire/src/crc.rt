//! CRC-32C, the checksum of a record batch (Kafka's Message Format; RFC 3720, appendix B.4).
//!
//! The checksum is the remainder of a division of polynomials, whose sum is exclusive or. The remainder of a sum is the
//! sum of the remainders. So a table of 256 words that says what each byte leaves takes a byte at a time, and sixteen such
//! tables, one for each number of bytes that are left from a byte on, take sixteen.

ghost use Rattle.std.specs.Prelude.{◌≡◌, ◌≤◌, ◌+◌, ◌*◌, ◌/◌, ◌^◌, length, bit_xor};
ghost use Rattle.eos_wire.specs.Crc.{after_bits, after_byte, remainder, crc32c_of};

use crate::tables::AFTER;

/// The register before the first byte, and what is added to it after the last one.
const ONES: u32 = 0xffff_ffff;

/// The register after one more byte.
fn after_one(register: u32, byte: u8) -> u32
    ensures { result ≡ after_byte register byte }
{
    let at = ((register ^ u32::from(byte)) & 0xff) as usize;
    AFTER[0][at] ^ (register >> 8)
}

/// The register after the bytes, a byte at a time.
#[tactic(auto, unfolding(crate::specs::Crc::remainder))]
fn after_each(mut register: u32, bytes: &[u8]) -> u32
    ensures { result ≡ remainder register bytes.now }
{
    for byte in bytes {
        register = after_one(register, *byte);
    }
    register
}

/// What the four lowest bytes of a word leave after themselves and `later` zeros. The word's other bytes add what they leave
/// after the zeros alone.
#[inline(always)]
fn after_four(word: u64, later: usize) -> u32
    requires { later ≤ 12 }
    ensures { bit_xor result (after_bits (8 * later) (word / 2 ^ 32)) ≡ after_bits (8 * (later + 4)) word }
{
    AFTER[later + 3][(word & 0xff) as usize]
        ^ AFTER[later + 2][(word >> 8 & 0xff) as usize]
        ^ AFTER[later + 1][(word >> 16 & 0xff) as usize]
        ^ AFTER[later][(word >> 24 & 0xff) as usize]
}

/// What a word's eight bytes leave after themselves and `later` zeros.
#[inline(always)]
fn after_word(word: u64, later: usize) -> u32
    requires { later ≤ 8 }
    ensures { result ≡ after_bits (8 * (later + 8)) word }
{
    after_four(word, later + 4) ^ after_four(word >> 32, later)
}

/// The register after eight bytes.
fn after_eight(register: u32, bytes: &[u8; 8]) -> u32
    ensures { result ≡ remainder register bytes.now }
{
    after_word(u64::from_le_bytes(*bytes) ^ u64::from(register), 0)
}

/// The register after eight bytes and eight more. The latter are taken by themselves, since they need not wait for the
/// register.
#[inline(always)]
fn after_sixteen(register: u32, front: &[u8; 8], back: &[u8; 8]) -> u32
    ensures { result ≡ remainder (remainder register front.now) back.now }
{
    let back = after_word(u64::from_le_bytes(*back), 0);
    back ^ after_word(u64::from_le_bytes(*front) ^ u64::from(register), 8)
}

/// The CRC-32C of the bytes.
pub fn crc32c(bytes: &[u8]) -> u32
    ensures { result ≡ crc32c_of bytes.now }
{
    let mut register = ONES;
    let mut rest = bytes;
    while let Some((front, tail)) = rest.split_first_chunk::<8>() {
        match tail.split_first_chunk::<8>() {
            Some((back, after)) => {
                register = after_sixteen(register, front, back);
                rest = after;
            }
            None => {
                register = after_eight(register, front);
                rest = tail;
            }
        }
    }
    after_each(register, rest) ^ ONES
}
